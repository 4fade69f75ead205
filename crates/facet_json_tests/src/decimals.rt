//! Decimals, lent and owned: which texts they are, and that they keep them.

use crate::expecting::expect_of;
use facet_format::Decimal;
use facet_json_tree::OwnedDecimal;
use std::alloc::{AllocError, Global};

/// A text, that of another decimal, and whether the two are equal.
pub type Row<'t> = (&'t str, &'t str, bool);

#[rattlefmt::skip]
static ROWS: [Row<'static>; 12] = [
    ("1.", "1.", true), ("-.5", "-.5", true), ("1.e5", "1.e5", true), ("0.0", "0.0", true),
    ("5e-05", "5e-05", true), ("-0.50", "-0.50", true), ("1.0", "1.0", true), ("3.14", "3.14", true),
    ("1E-5", "1E-5", true), ("-0.0e+0", "-0.0e+0", true), ("1.0", "1.0", true), ("1.0", "1.00", false),
];

/// Texts that are no decimals.
static REFUSED: [&str; 13] = [
    "", ".5", "1e", "1e+", "-.", "-e1", ".e1", "5", "-5", "1e5 ", " 1e5", "1.5x", "1.5.5",
];

/// Whether the text of the row is a decimal, which keeps it, is equal to the other as the row says, is copied without memory, and kept in
/// memory of its own; or memory runs out, and it comes back as it was.
pub fn is_kept(alloc: Global, row: &Row<'_>) -> Option<bool> {
    let Some(decimal) = copied_free(alloc, row) else {
        return Some(false);
    };
    match decimal.into_owned(alloc) {
        Ok(owned) => is_kept_again(alloc, owned, row),
        Err(lent) => {
            if lent.as_str() == row.0 {
                None
            } else {
                Some(false)
            }
        }
    }
}

/// A copy of the decimal of this row, which allocates nothing.
fn copied_free<'t>(alloc: Global, row: &Row<'t>) -> Option<Decimal<'t>> {
    let decimal = Decimal::new(row.0)?;
    if is_equal(&decimal, row) {
        decimal.clone(alloc).ok()
    } else {
        None
    }
}

/// Whether the decimal has the row's text, and is equal to the other as the row says.
fn is_equal(decimal: &Decimal<'_>, row: &Row<'_>) -> bool {
    match Decimal::new(row.1) {
        Some(other) => decimal.as_str() == row.0 && (*decimal == other) == row.2,
        None => false,
    }
}

/// Whether a decimal in memory of its own is the row's and is copied, or memory runs out; and stays as it is without memory.
fn is_kept_again(alloc: Global, owned: Decimal<'static>, row: &Row<'_>) -> Option<bool> {
    match owned.clone(alloc) {
        Ok(copy) => {
            let is_same = copy == owned && is_equal(&owned, row);
            let is_kept = still_keeps(alloc, owned, row.0);
            Some(is_same && is_kept)
        }
        Err(AllocError) => None,
    }
}

/// Whether a decimal in memory of its own keeps this text where that is asked for again.
fn still_keeps(alloc: Global, owned: Decimal<'static>, text: &str) -> bool {
    match owned.into_owned(alloc) {
        Ok(again) => again.as_str() == text,
        Err(_) => false,
    }
}

/// Whether the text makes an owned decimal that keeps it; or is none, and comes back.
fn makes_owned(alloc: Global, text: &str, is_decimal: bool) -> Option<bool> {
    match OwnedDecimal::from_string(String::from_str(alloc, text).ok()?) {
        Ok(owned) if is_decimal => copies(alloc, &owned, text),
        Ok(_) => Some(false),
        Err(back) => Some(!is_decimal && back.as_str() == text),
    }
}

/// Whether an owned decimal keeps the text, and its copies are equal and do.
fn copies(alloc: Global, owned: &OwnedDecimal, text: &str) -> Option<bool> {
    match owned.clone(alloc) {
        Ok(copy) => is_made_again(alloc, owned, copy, text),
        Err(AllocError) => None,
    }
}

/// Whether an owned decimal has the text, and its copy has it too and is equal to one that is made again; or memory runs out.
fn is_made_again(
    alloc: Global,
    owned: &OwnedDecimal,
    copy: OwnedDecimal,
    text: &str,
) -> Option<bool> {
    match OwnedDecimal::new(alloc, &owned.as_decimal()) {
        Ok(again) => {
            let is_same = owned.as_str() == text && copy == again;
            let is_kept = copy.into_string().as_str() == text;
            Some(is_same && is_kept)
        }
        Err(AllocError) => None,
    }
}

#[test]
fn decimals_are_their_texts(rt: HostRuntime) {
    let alloc = rt.alloc();
    for row in &ROWS {
        let is_kept = is_kept(alloc, row) == Some(true);
        let is_made = makes_owned(alloc, row.0, true) == Some(true);
        expect_of(&rt, is_kept && is_made, row.0);
    }
    for &text in &REFUSED {
        let is_none = Decimal::new(text).is_none();
        let is_made = makes_owned(alloc, text, false) == Some(true);
        expect_of(&rt, is_none && is_made, text);
    }
}
