//! Failed allocations. With ample memory these tests pass as any other does. `checks/allocations` runs them once more for each
//! of their requests for memory, which is refused, and they have to pass in every such run. Each row is tried twice, its set-up too: as
//! one request is refused in a run, memory runs out in one of the two at most, and the other gives the whole answer.

use crate::decimals::{Row, is_kept};
use crate::events::{Kind, made};
use crate::expecting::expect_of;
use crate::twice::but_once;
use crate::written::Scalar;
use facet_format::ParseEvent;
use facet_json_core::RawJson;
use std::alloc::{AllocError, Global};

static DECIMALS: [Row<'static>; 3] = [
    ("1.", "1.", true),
    ("-0.50", "-0.50", true),
    ("5e-05", "5e-05", true),
];

/// Whether the event is copied, or memory runs out.
fn is_copied(alloc: Global, event: &ParseEvent<'_>) -> Option<bool> {
    match event.clone(alloc) {
        Ok(copy) => Some(copy == *event),
        Err(AllocError) => None,
    }
}

/// Whether an event of this kind is made and copied, or memory runs out.
fn is_made_and_copied(alloc: Global, kind: Kind) -> Option<bool> {
    match made(alloc, kind) {
        Some(event) => is_copied(alloc, &event),
        None => None,
    }
}

/// Kinds, and whether they hold something of their own.
#[rattlefmt::skip]
static KINDS: [(Kind, bool); 8] = [
    (Kind::OwnedKey("ab"), true),
    (Kind::OwnedText("ab"), true),
    (Kind::Object, false),
    (Kind::ArrayEnd, false),
    (Kind::Scalar(Scalar::U128(2)), false),
    (Kind::Scalar(Scalar::Bytes(&[1, 255])), false),
    (Kind::Scalar(Scalar::Text("ab")), false),
    (Kind::Key("ab"), false),
];

/// Whether an event of this kind is copied; where it holds something of its own, but for one time at most in which memory ran out.
fn holds(alloc: Global, kind: Kind, is_owned: bool) -> bool {
    let first = is_made_and_copied(alloc, kind);
    if is_owned {
        but_once(first, is_made_and_copied(alloc, kind))
    } else {
        first == Some(true)
    }
}

/// Whether a raw text is kept in memory of its own; or memory runs out, and it comes back as it was.
fn is_owned(alloc: Global, text: &str) -> Option<bool> {
    match RawJson::new(text).into_owned(alloc) {
        Ok(owned) => keeps(alloc, owned, text),
        Err(lent) if lent.as_str() == text => None,
        Err(_) => Some(false),
    }
}

/// Whether a raw text that is owned stays so without memory.
fn keeps(alloc: Global, owned: RawJson<'static>, text: &str) -> Option<bool> {
    match owned.into_owned(alloc) {
        Ok(again) => Some(again.as_str() == text),
        Err(_) => Some(false),
    }
}

static RAW_TEXTS: [&str; 3] = ["[1, {}]", "x", ""];

#[test]
fn a_growth_is_refused_in_a_decimal_a_raw_text_and_an_event(rt: HostRuntime) {
    let alloc = rt.alloc();
    for &text in &RAW_TEXTS {
        let first = is_owned(alloc, text);
        expect_of(&rt, but_once(first, is_owned(alloc, text)), text);
    }
    for row in &DECIMALS {
        let first = is_kept(alloc, row);
        expect_of(&rt, but_once(first, is_kept(alloc, row)), row.0);
    }
    for &(kind, is_owned) in &KINDS {
        assert!(rt; holds(alloc, kind, is_owned));
    }
}
