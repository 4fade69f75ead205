//! Numbers that are kept as their text: those with a fraction or an exponent.

ghost use Rattle.std.specs.Prelude.{◌≡◌, ◌-◌, ◌<◌, ◌≤◌, ◌&&◌, true, false, Some, None, length, slice_index, MatchOption, MatchResult};
ghost use Rattle.std.specs.Prelude.{nat_eq};
ghost use Rattle.std.specs.List.{list_any};
ghost use Rattle.std.specs.Cmp.{partial_equiv_from_equiv, on_per, on_equiv};
ghost use Rattle.std.specs.Cmp.Lexicographic.{pointwise, nat_list_eq_equiv};
ghost use Rattle.facet_format.specs.Bytes.{is_digit};
ghost use Rattle.facet_format.specs.Event.{borrowed, owned, bytes_of, is_owned};
ghost use Rattle.facet_format.specs.Number.{float};
ghost use Rattle.facet_format.specs.NumberValue.{number, decimal, has_value};
ghost use Rattle.facet_format.specs.NumberParts.{is_number, minus_len, ArePartsOf};

use crate::event::copy_text;
use crate::numeral::{NumberHint, Parts, number_parts};
use std::alloc::{AllocError, Global};
use std::borrow::CowStr;
use std::marker::Model;

/// The text of a number with a fraction or an exponent, verbatim (RFC 8259, section 6, leniently): runs of digits
/// may be empty, but a digit stands before any exponent mark, and one after it. Two are equal where their texts are.
#[derive(Debug)]
pub struct Decimal<'a>(CowStr<'a>);

/// By a call, so that a proof about a function that owns a decimal need not take it apart.
impl Drop for Decimal<'_> {
    fn drop(self) {
        let Decimal(_) = self;
    }
}

impl<'a> Model for Decimal<'a> {
    ghost use Rattle.std.specs.Prelude.{◌≡◌, Some};
    ghost use Rattle.facet_format.specs.Event.{Text, bytes_of};
    ghost use Rattle.facet_format.specs.HeldText.{text_of};
    ghost use Rattle.facet_format.specs.Number.{float};
    ghost use Rattle.facet_format.specs.NumberValue.{number, decimal};

    ghost Value = { Text };

    ghost view = { λ d. text_of d.0 };

    ghost invariant = { λ d. number (bytes_of (text_of d.0)) float ≡ Some (decimal (bytes_of (text_of d.0))) };
}

impl<'a> PartialEq for Decimal<'a> {
    ghost eq = { λ x y. pointwise nat_eq (bytes_of x) (bytes_of y) };

    ghost laws = { on_per bytes_of (partial_equiv_from_equiv nat_list_eq_equiv) };

    fn eq(&self, other: &Self) -> bool {
        self.as_str() == other.as_str()
    }
}

impl<'a> Eq for Decimal<'a> {
    ghost laws = { on_equiv bytes_of nat_list_eq_equiv };
}

impl<'a> Decimal<'a> {
    /// The text, if it is such a number from its first byte to its last.
    ///
    /// ```text
    /// Decimal::new("-0.50")    Some
    /// Decimal::new("1.e5")     Some
    /// Decimal::new("1e")       None: no digit after the exponent mark
    /// Decimal::new("15")       None: neither a fraction nor an exponent
    /// ```
    pub fn new(text: &'a str) -> Option<Decimal<'a>>
        ensures { MatchOption result
            (number text.now float ≡ None)
            (λ d. (d ≡ borrowed text.now) × (number text.now float ≡ Some (decimal text.now))) }
    {
        if is_decimal(text.as_bytes()) {
            Some(Decimal(CowStr::Borrowed(text)))
        } else {
            None
        }
    }

    /// Makes a decimal of a text that is known to be a number with a fraction or an exponent. It is measured only where it doesn't begin
    /// and end with a digit.
    #[inline(always)]
    pub fn of_number(text: &'a str) -> Option<Decimal<'a>>
        requires { is_number text.now float ≡ true }
        ensures { MatchOption result
            (number text.now float ≡ None)
            (λ d. (d ≡ borrowed text.now) × (number text.now float ≡ Some (decimal text.now))) }
    {
        let bytes = text.as_bytes();
        if has_outer_digits(bytes) || is_decimal(bytes) {
            Some(Decimal(CowStr::Borrowed(text)))
        } else {
            None
        }
    }

    /// The text.
    pub fn as_str(&self) -> &str
        ensures text { result.now ≡ bytes_of self.now }
        ensures number { number (bytes_of self.now) float ≡ Some (decimal (bytes_of self.now)) }
    {
        self.0.as_str()
    }

    /// Copies the decimal. A borrowed text stays borrowed, and an owned one is copied, which alone allocates.
    pub fn clone(&self, alloc: Global) -> Result<Decimal<'a>, AllocError>
        ensures { MatchResult result (λ d. d ≡ self.now) (λ _. is_owned self.now ≡ true) }
    {
        let text = copy_text(&self.0, alloc)?;
        Ok(Decimal(text))
    }

    /// The decimal in memory of its own, or the value back where there is no memory for it: only a borrowed one takes any.
    pub fn into_owned(self, alloc: Global) -> Result<Decimal<'static>, Decimal<'a>>
        ensures { MatchResult result (λ d. d ≡ owned (bytes_of self.entry))
            (λ d. (d ≡ self.entry) × (is_owned self.entry ≡ false)) }
    {
        let Decimal(text) = self;
        match text {
            CowStr::Owned(text) => Ok(Decimal(CowStr::Owned(text))),
            CowStr::Borrowed(text) => match String::from_str(alloc, text) {
                Ok(owned) => Ok(Decimal(CowStr::Owned(owned))),
                Err(_) => Err(Decimal(CowStr::Borrowed(text))),
            },
        }
    }
}

/// Whether the text is a number with a fraction or an exponent that has a value.
#[inline(never)]
fn is_decimal(text: &[u8]) -> bool
    ensures yes { result ≡ true → number text.now float ≡ Some (decimal text.now) }
    ensures no { result ≡ false → number text.now float ≡ None }
{
    match number_parts(text, NumberHint::Float) {
        Some(parts) => has_value(text, parts),
        None => false,
    }
}

/// Whether a digit stands first, or first after a minus, and a digit stands last.
#[inline(always)]
fn has_outer_digits(text: &[u8]) -> bool
    requires { 0 < length text.now }
    ensures { result ≡ (is_digit (slice_index text.now (minus_len text.now)) && is_digit (slice_index text.now (length text.now - 1))) }
{
    let first = match text.first() {
        Some(b'-') => 1,
        _ => 0,
    };
    digit_at(text, first) && digit_at(text, text.len() - 1)
}

/// Whether a digit stands at that place.
#[inline(always)]
fn digit_at(text: &[u8], at: usize) -> bool
    ensures { result ≡ is_digit (slice_index text.now at) }
{
    matches!(text.get(at), Some(b'0'..=b'9'))
}

/// Whether a digit stands before any exponent mark, and one after it, in a number of these parts.
fn has_value(text: &[u8], parts: Parts) -> bool
    requires { ArePartsOf text.now parts }
    ensures { result ≡ has_value parts text.now }
{
    let (before, exponent) = text.split_at(parts.exponent_start());
    any_digit(before) && (!parts.has_exponent() || any_digit(exponent))
}

/// Whether a digit stands there.
fn any_digit(bytes: &[u8]) -> bool
    ensures { result ≡ list_any is_digit bytes.now }
{
    bytes.iter().any(|b| matches!(b, b'0'..=b'9'))
}
