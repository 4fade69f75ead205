//! Events: what they derive, and copies of each kind.

use crate::expecting::expect_of;
use crate::values::shows;
use crate::written::{Scalar, value_of};
use facet_format::{
    ContainerKind, Decimal, FieldKey, FieldLocationHint, ParseEvent, ParseEventKind, ScalarValue,
    Span,
};
use std::alloc::Global;
use std::borrow::CowStr;

/// Whether a copy is equal to the event, and an event elsewhere isn't, its kind is shown so, and the copy lends its text where this is so.
fn is_kept(alloc: Global, event: &ParseEvent<'_>, shown: &str, lends: bool) -> bool {
    match event.clone(alloc) {
        Ok(mut copy) => {
            let is_equal = copy == *event && lends_text(&copy.kind) == lends;
            copy.span = Span::new(3, 5);
            let is_other = copy != *event;
            is_equal && is_other && shows(alloc, &event.kind, shown) == Some(true)
        }
        Err(_) => false,
    }
}

/// Whether the kind is a text that is lent.
fn lends_text(kind: &ParseEventKind<'_>) -> bool {
    matches!(
        kind,
        ParseEventKind::Scalar(ScalarValue::Str(CowStr::Borrowed(_)))
    )
}

/// A kind, by what it holds: what is owned is in memory of its own, and the rest is lent.
#[derive(Clone, Copy)]
pub enum Kind {
    Object,
    ObjectEnd,
    Array,
    ArrayEnd,
    Scalar(Scalar),
    Key(&'static str),
    OwnedText(&'static str),
    OwnedKey(&'static str),
    OwnedDecimal(&'static str),
}

/// The event of this kind, where memory suffices.
pub fn made(alloc: Global, kind: Kind) -> Option<ParseEvent<'static>> {
    let kind = match kind {
        Kind::Object => ParseEventKind::StructStart(ContainerKind::Object),
        Kind::ObjectEnd => ParseEventKind::StructEnd,
        Kind::Array => ParseEventKind::SequenceStart(ContainerKind::Array),
        Kind::ArrayEnd => ParseEventKind::SequenceEnd,
        Kind::Scalar(scalar) => ParseEventKind::Scalar(value_of(scalar)),
        Kind::Key(name) => key(CowStr::Borrowed(name)),
        Kind::OwnedText(text) => ParseEventKind::Scalar(ScalarValue::Str(owned(alloc, text)?)),
        Kind::OwnedKey(name) => key(owned(alloc, name)?),
        Kind::OwnedDecimal(text) => {
            ParseEventKind::Scalar(ScalarValue::Decimal(owned_decimal(alloc, text)?))
        }
    };
    Some(ParseEvent::new(kind, Span::new(3, 4)))
}

/// The key of this name.
fn key(name: CowStr<'static>) -> ParseEventKind<'static> {
    ParseEventKind::FieldKey(FieldKey::new(name, FieldLocationHint::KeyValue))
}

/// A text of its own.
fn owned(alloc: Global, text: &str) -> Option<CowStr<'static>> {
    Some(CowStr::Owned(String::from_str(alloc, text).ok()?))
}

/// A copy of the decimal of this text, in memory of its own.
fn owned_decimal(alloc: Global, text: &str) -> Option<Decimal<'static>> {
    match Decimal::new(text)?.clone(alloc) {
        Ok(copy) => copy.into_owned(alloc).ok(),
        Err(_) => None,
    }
}

/// Kinds, how they are shown, and whether their copies lend their text.
#[rattlefmt::skip]
static KINDS: [(Kind, &str, bool); 19] = [
    (Kind::Object, "StructStart(Object)", false),
    (Kind::ObjectEnd, "StructEnd", false),
    (Kind::Array, "SequenceStart(Array)", false),
    (Kind::ArrayEnd, "SequenceEnd", false),
    (Kind::Scalar(Scalar::Null), "Scalar(Null)", false),
    (Kind::Scalar(Scalar::Unit), "Scalar(Unit)", false),
    (Kind::Scalar(Scalar::Bool(true)), "Scalar(Bool(true))", false),
    (Kind::Scalar(Scalar::Char('x')), "Scalar(Char('x'))", false),
    (Kind::Scalar(Scalar::I64(-1)), "Scalar(I64(-1))", false),
    (Kind::Scalar(Scalar::U64(1)), "Scalar(U64(1))", false),
    (Kind::Scalar(Scalar::I128(-2)), "Scalar(I128(-2))", false),
    (Kind::Scalar(Scalar::U128(2)), "Scalar(U128(2))", false),
    (Kind::Scalar(Scalar::Bytes(&[1, 255])), "Scalar(Bytes([1, 255]))", false),
    (Kind::Scalar(Scalar::Text("ab")), "Scalar(Str(\"ab\"))", true),
    (Kind::Scalar(Scalar::Decimal("1.50")), "Scalar(Decimal(Decimal(\"1.50\")))", false),
    (Kind::Key("ab"), "FieldKey(FieldKey { name: \"ab\", hint: KeyValue })", false),
    (Kind::OwnedText("c"), "Scalar(Str(\"c\"))", false),
    (Kind::OwnedKey("c"), "FieldKey(FieldKey { name: \"c\", hint: KeyValue })", false),
    (Kind::OwnedDecimal("1.50"), "Scalar(Decimal(Decimal(\"1.50\")))", false),
];

/// Whether an event of this kind is copied and shown so.
fn holds(alloc: Global, row: &(Kind, &str, bool)) -> bool {
    match made(alloc, row.0) {
        Some(event) => is_kept(alloc, &event, row.1, row.2),
        None => false,
    }
}

#[test]
fn events_are_copied_and_shown(rt: HostRuntime) {
    for row in &KINDS {
        expect_of(&rt, holds(rt.alloc(), row), row.1);
    }
}
