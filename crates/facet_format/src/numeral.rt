//! The parts of a number (RFC 8259, section 6, leniently): a minus, digits, a fraction and an exponent.

ghost use Rattle.std.specs.Prelude.{◌≡◌, ◌+◌, ◌^◌, ◌<◌, ◌≤◌, true, false, length, drop, map, MatchOption};
ghost use Rattle.std.specs.Simd.Lanes.{mask_l};
ghost use Rattle.facet_format.specs.NumberParts.{minus_len, digits_len, fraction_len, sign_len, exponent_len, parts, parts_len, parts_hint};
ghost use Rattle.facet_format.specs.NumberParts.{is_bare, is_some_len, begins_number, is_number, ArePartsOf};
ghost use Rattle.facet_format.specs.Views.{hint_of};
ghost use Rattle.facet_format.specs.Inner.Window.{is_no_digit};

use std::marker::Model;
use std::simd::prelude::*;

/// What stands in a number, from its bytes alone.
#[derive(Debug, Clone, Copy, PartialEq)]
pub enum NumberHint {
    /// Digits alone.
    Unsigned,
    /// A minus and digits.
    Signed,
    /// A dot or an exponent mark stands in it.
    Float,
}

/// How long each part is of the longest number at some place, 0 where the part is missing. All of them together are an offset.
#[derive(Debug, Clone, Copy)]
pub struct Parts {
    /// The minus.
    sign: usize,
    /// The digits.
    digits: usize,
    /// The dot and its digits.
    fraction: usize,
    /// The exponent mark, its sign and its digits.
    exponent: usize,
}

impl Model for Parts {
    ghost use Rattle.std.specs.Prelude.{◌+◌, ◌<◌, ◌^◌};
    ghost use Rattle.facet_format.specs.NumberParts.{Parts as Lengths};

    ghost Value = { Lengths };

    ghost view = { λ p. record { sign = p.sign; digits = p.digits; fraction = p.fraction; exponent = p.exponent } };

    ghost inverse = { λ p. record { sign = p.sign; digits = p.digits; fraction = p.fraction; exponent = p.exponent } };

    ghost invariant = { λ p. p.sign + p.digits + p.fraction + p.exponent < 2 ^ 64 };
}

impl Parts {
    /// How long the number is.
    #[inline(always)]
    pub fn len(self) -> usize
        ensures { result ≡ parts_len self }
    {
        self.exponent_start() + self.exponent
    }

    /// Where the digits start, or would start: after the minus.
    #[inline(always)]
    pub fn digits_start(self) -> usize
        ensures { result ≡ self.sign }
    {
        self.sign
    }

    /// Where the fraction starts, or would start: after the digits.
    #[inline(always)]
    pub fn fraction_start(self) -> usize
        ensures { result ≡ self.sign + self.digits }
    {
        self.digits_start() + self.digits
    }

    /// Where the exponent starts, or would start.
    #[inline(always)]
    pub fn exponent_start(self) -> usize
        ensures { result ≡ self.sign + self.digits + self.fraction }
    {
        self.digits_start() + self.digits + self.fraction
    }

    /// Whether an exponent stands there.
    #[inline(always)]
    pub fn has_exponent(self) -> bool
        ensures { result ≡ is_some_len self.exponent }
    {
        self.exponent != 0
    }

    /// Whether nothing but a minus stands there, or nothing.
    #[inline(always)]
    pub fn is_bare(self) -> bool
        ensures { result ≡ is_bare self }
    {
        self.len() == self.sign
    }

    /// What stands in the number.
    #[inline(always)]
    pub fn hint(self) -> NumberHint
        ensures { hint_of result ≡ parts_hint self }
    {
        if self.len() > self.sign + self.digits {
            NumberHint::Float
        } else if self.sign > 0 {
            NumberHint::Signed
        } else {
            NumberHint::Unsigned
        }
    }
}

/// The parts of a text that is a number with this hint from its first byte to its last, or `None` where it isn't.
pub fn number_parts(text: &[u8], hint: NumberHint) -> Option<Parts>
    ensures { MatchOption result
        (is_number text.now (hint_of hint) ≡ false)
        (λ p. ArePartsOf text.now p × (is_number text.now (hint_of hint) ≡ true)) }
{
    let parts = parts_at(text, 0);
    let is_whole = parts.len() == text.len();
    let has_hint = parts.hint() == hint;
    if begins_number(text) && !parts.is_bare() && is_whole && has_hint {
        Some(parts)
    } else {
        None
    }
}

/// Whether the text starts with a minus or a digit.
fn begins_number(text: &[u8]) -> bool
    ensures { result ≡ begins_number text.now }
{
    matches!(text.first(), Some(b'-' | b'0'..=b'9'))
}

/// The parts of the longest number at `at`.
#[inline(always)]
pub fn parts_at(buffer: &[u8], at: usize) -> Parts
    requires { at ≤ length buffer.now }
    ensures parts { result ≡ parts (drop at buffer.now) }
    ensures within { at + parts_len result ≤ length buffer.now }
{
    let digits = minus_end(buffer, at);
    let fraction = digits_end(buffer, digits);
    let exponent = fraction_end(buffer, fraction);
    let end = exponent_end(buffer, exponent);
    Parts {
        sign: digits - at,
        digits: fraction - digits,
        fraction: exponent - fraction,
        exponent: end - exponent,
    }
}

/// The offset after the minus, if one stands at `at`.
#[inline(always)]
fn minus_end(buffer: &[u8], at: usize) -> usize
    requires { at ≤ length buffer.now }
    ensures end { result ≡ at + minus_len (drop at buffer.now) }
    ensures within { result ≤ length buffer.now }
{
    match buffer.get(at) {
        Some(b'-') => at + 1,
        _ => at,
    }
}

/// A bit for each of sixteen bytes that is no digit.
#[inline(always)]
pub fn no_digits(window: u8x16) -> u64
    ensures { result ≡ mask_l (map is_no_digit window) }
{
    // A byte below `0` wraps around, past 9.
    (window - u8x16::splat(b'0'))
        .simd_ge(u8x16::splat(10))
        .to_bitmask()
}

/// The offset after the digits at `at`, sixteen bytes at a time.
#[inline(always)]
fn digits_end(buffer: &[u8], at: usize) -> usize
    requires { at ≤ length buffer.now }
    ensures end { result ≡ at + digits_len (drop at buffer.now) }
    ensures within { result ≤ length buffer.now }
{
    let mut end = at;
    while buffer.len() - end >= 16 {
        let found = no_digits(u8x16::from_slice(&buffer[end..]));
        if found != 0 {
            return end + found.trailing_zeros() as usize;
        }
        end += 16;
    }
    digits_end_bytewise(buffer, end)
}

/// The offset after the digits at `at`: what is left after the last window.
#[inline(never)]
fn digits_end_bytewise(buffer: &[u8], at: usize) -> usize
    requires { at ≤ length buffer.now }
    ensures end { result ≡ at + digits_len (drop at buffer.now) }
    ensures within { result ≤ length buffer.now }
{
    let mut end = at;
    while let Some(b'0'..=b'9') = buffer.get(end) {
        end += 1;
    }
    end
}

/// The offset after the fraction, if one stands at `at`.
#[inline(always)]
fn fraction_end(buffer: &[u8], at: usize) -> usize
    requires { at ≤ length buffer.now }
    ensures end { result ≡ at + fraction_len (drop at buffer.now) }
    ensures within { result ≤ length buffer.now }
{
    match buffer.get(at) {
        Some(b'.') => digits_end(buffer, at + 1),
        _ => at,
    }
}

/// The offset after the exponent, if one stands at `at`.
#[inline(always)]
fn exponent_end(buffer: &[u8], at: usize) -> usize
    requires { at ≤ length buffer.now }
    ensures end { result ≡ at + exponent_len (drop at buffer.now) }
    ensures within { result ≤ length buffer.now }
{
    match buffer.get(at) {
        Some(b'e' | b'E') => digits_end(buffer, sign_end(buffer, at + 1)),
        _ => at,
    }
}

/// The offset after the sign of an exponent, if one stands at `at`.
#[inline(always)]
fn sign_end(buffer: &[u8], at: usize) -> usize
    requires { at ≤ length buffer.now }
    ensures end { result ≡ at + sign_len (drop at buffer.now) }
    ensures within { result ≤ length buffer.now }
{
    match buffer.get(at) {
        Some(b'+' | b'-') => at + 1,
        _ => at,
    }
}
