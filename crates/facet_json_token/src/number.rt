//! The values of numbers.

ghost use Rattle.std.specs.Prelude.{◌≡◌, ℕ, ◌+◌, ◌*◌, ◌≤◌, ◌<◌, ◌^◌, pos, neg_ℤ, true, false, None, Some, length, drop, slice_range};
ghost use Rattle.std.specs.Prelude.{IsUtf8, IfErr, IfOk, MatchOption, MatchResult};
ghost use Rattle.std.specs.Option.{option_map, IfSome};
ghost use Rattle.facet_format.specs.Number.{AreDigits, float, unsigned};
ghost use Rattle.facet_format.specs.Event.{borrowed};
ghost use Rattle.facet_format.specs.NumberValue.{digits_value, number as spec_number, decimal, unsigned_number, negative_number};
ghost use Rattle.facet_format.specs.NumberParts.{is_number};
ghost use Rattle.facet_format.specs.Views.{hint_of};
ghost use Rattle.facet_json_token.specs.NumberViews.{number_of, is_made_number, number_fault, number_refusal};

use crate::fault::{Fault, FaultKind};
use crate::token::ScanError;
use facet_format::numeral::{NumberHint, number_parts};
use facet_format::{Decimal, Span};
use std::str;

/// A number that has been read: in 64 bits where it fits them, else in 128, or as its text.
#[derive(Debug, PartialEq, Drop)]
pub enum ParsedNumber<'a> {
    /// Digits alone, below 2^64.
    U64(u64),
    /// A minus and digits, from -2^63 on.
    I64(i64),
    /// Digits alone, from 2^64 on.
    U128(u128),
    /// A minus and digits, below -2^63.
    I128(i128),
    /// A number with a fraction or an exponent.
    Decimal(Decimal<'a>),
}

/// The number at `start..end` of the buffer, which is a number's text with that hint (RFC 8259, section 6, leniently).
/// Text that isn't one, or is a whole number of more than 128 bits, is refused over the slice.
///
/// ```text
/// parse_number(b"[-42]", 1, 4, NumberHint::Signed)    Ok: ParsedNumber::I64(-42)
/// parse_number(b"[-42]", 1, 4, NumberHint::Float)     Err: ScanErrorKind::UnexpectedChar('?'), span 1+3
/// ```
pub fn parse_number<'a>(
    buf: &'a [u8],
    start: usize,
    end: usize,
    hint: NumberHint,
) -> Result<ParsedNumber<'a>, ScanError>
    requires in_order { start ≤ end }
    requires within { end ≤ length buf.now }
    ensures number { let text = slice_range buf.now start end in MatchResult result
        (λ v. spec_number text (hint_of hint) ≡ Some (number_of v))
        (λ e. spec_number text (hint_of hint) ≡ None) }
    ensures refusal { IfErr result (λ e. e ≡ number_refusal start end) }
    ensures borrowed { IfOk result (λ v. is_made_number v ≡ false) }
{
    match number(&buf[start..end], hint) {
        Some(number) => Ok(number),
        None => Err(ScanError::from(no_number(start, end))),
    }
}

/// The fault of a slice that is no number, or has no value.
pub fn no_number(start: usize, end: usize) -> Fault
    requires { start ≤ end }
    ensures { result ≡ number_fault start end }
{
    Fault {
        kind: FaultKind::UnexpectedChar('?'),
        span: Span::new(start, end - start),
    }
}

/// Reads a number as `parse_number`, of a slice that is known to be UTF-8.
pub fn parse_number_unchecked<'a>(
    buf: &'a [u8],
    start: usize,
    end: usize,
    hint: NumberHint,
) -> Result<ParsedNumber<'a>, ScanError>
    requires in_order { start ≤ end }
    requires within { end ≤ length buf.now }
    requires utf8 { IsUtf8 (slice_range buf.now start end) }
    ensures number { let text = slice_range buf.now start end in MatchResult result
        (λ v. spec_number text (hint_of hint) ≡ Some (number_of v))
        (λ e. spec_number text (hint_of hint) ≡ None) }
    ensures refusal { IfErr result (λ e. e ≡ number_refusal start end) }
    ensures borrowed { IfOk result (λ v. is_made_number v ≡ false) }
{
    parse_number(buf, start, end, hint)
}

/// The value of a number's text with that hint, or `None`.
fn number<'a>(text: &'a [u8], hint: NumberHint) -> Option<ParsedNumber<'a>>
    ensures number { option_map number_of result ≡ spec_number text.now (hint_of hint) }
    ensures borrowed { IfSome result (λ v. is_made_number v ≡ false) }
{
    if let NumberHint::Unsigned = hint {
        if let Some(n) = short_number(text) {
            return Some(ParsedNumber::U64(n));
        }
    }
    number_parts(text, hint)?;
    measured_number(text, hint)
}

/// The value of a text that is known to be a number with that hint, as the one of a token is: it is not measured again. `None` where it
/// is a whole number of more than 128 bits, or lacks a digit.
#[inline(always)]
pub fn measured_number<'a>(text: &'a [u8], hint: NumberHint) -> Option<ParsedNumber<'a>>
    requires is_number { is_number text.now (hint_of hint) ≡ true }
    ensures number { option_map number_of result ≡ spec_number text.now (hint_of hint) }
    ensures borrowed { IfSome result (λ v. is_made_number v ≡ false) }
{
    match hint {
        NumberHint::Unsigned => unsigned_number(text),
        NumberHint::Signed => negative_number(&text[1..]),
        NumberHint::Float => Some(ParsedNumber::Decimal(measured_decimal(text)?)),
    }
}

/// The value of a text that is digits alone, where it fits 64 bits: most numbers are such, and are read in one pass.
fn short_number(text: &[u8]) -> Option<u64>
    ensures { IfSome result (λ n. (is_number text.now unsigned ≡ true) × (n ≡ digits_value 0 text.now) × (n < 2 ^ 64)) }
{
    if text.is_empty() {
        return None;
    }
    let mut value: u64 = 0;
    for byte in text {
        if !byte.is_ascii_digit() {
            return None;
        }
        let shifted = value.checked_mul(10)?;
        value = shifted.checked_add(u64::from(*byte - b'0'))?;
    }
    Some(value)
}

/// The value of decimal digits, in 64 bits where it fits, else in 128.
#[inline(always)]
fn unsigned_number<'a>(digits: &[u8]) -> Option<ParsedNumber<'a>>
    requires { AreDigits digits.now }
    ensures number { option_map number_of result ≡ unsigned_number (digits_value 0 digits.now) }
    ensures borrowed { IfSome result (λ v. is_made_number v ≡ false) }
{
    match parse_unsigned(digits) {
        Some(n) => Some(ParsedNumber::U64(n)),
        None => Some(ParsedNumber::U128(parse_wide(digits)?)),
    }
}

/// The value of decimal digits after a minus, in 64 bits where it fits, else in 128.
#[inline(always)]
fn negative_number<'a>(digits: &[u8]) -> Option<ParsedNumber<'a>>
    requires { AreDigits digits.now }
    ensures number { option_map number_of result ≡ negative_number (digits_value 0 digits.now) }
    ensures borrowed { IfSome result (λ v. is_made_number v ≡ false) }
{
    match negative(digits) {
        Some(n) => Some(ParsedNumber::I64(n)),
        None => Some(ParsedNumber::I128(negative_wide(digits)?)),
    }
}

/// The decimal of a text that is known to be a number with a fraction or an exponent, or `None` where it lacks a digit.
#[inline(always)]
pub fn measured_decimal<'a>(text: &'a [u8]) -> Option<Decimal<'a>>
    requires { is_number text.now float ≡ true }
    ensures { MatchOption result
        (spec_number text.now float ≡ None)
        (λ d. (d ≡ borrowed text.now) × (spec_number text.now float ≡ Some (decimal text.now))) }
{
    // All bytes of a number are ASCII.
    let text = unsafe { str::from_utf8_unchecked(text) };
    Decimal::of_number(text)
}

/// The value of decimal digits after a minus, or `None` where it is below -2^63.
#[inline(always)]
fn negative(digits: &[u8]) -> Option<i64>
    requires { AreDigits digits.now }
    ensures { MatchOption result
        (2 ^ 63 < digits_value 0 digits.now)
        (λ n. (n ≡ neg_ℤ (pos (digits_value 0 digits.now))) × (digits_value 0 digits.now ≤ 2 ^ 63)) }
{
    0_i64.checked_sub_unsigned(parse_unsigned(digits)?)
}

/// The value of decimal digits after a minus, or `None` where it is below -2^127.
fn negative_wide(digits: &[u8]) -> Option<i128>
    requires { AreDigits digits.now }
    ensures { MatchOption result
        (2 ^ 127 < digits_value 0 digits.now)
        (λ n. (n ≡ neg_ℤ (pos (digits_value 0 digits.now))) × (digits_value 0 digits.now ≤ 2 ^ 127)) }
{
    0_i128.checked_sub_unsigned(parse_wide(digits)?)
}

/// The value of decimal digits, or `None` where it is 2^64 or more.
#[inline(always)]
pub(crate) fn parse_unsigned(digits: &[u8]) -> Option<u64>
    requires { AreDigits digits.now }
    ensures { MatchOption result
        (2 ^ 64 ≤ digits_value 0 digits.now)
        (λ n. (n ≡ digits_value 0 digits.now) × (n < 2 ^ 64)) }
{
    if digits.len() < 20 {
        Some(short_value(digits))
    } else {
        parse_long(digits)
    }
}

/// The value of fewer than twenty decimal digits, which fits 64 bits: four of them at once, and the last ones one by one.
#[inline(always)]
fn short_value(digits: &[u8]) -> u64
    requires digits { AreDigits digits.now }
    requires short { length digits.now < 20 }
    ensures { result ≡ digits_value 0 digits.now }
{
    let mut value: u64 = 0;
    let mut at = 0;
    while digits.len() - at >= 4 {
        let four = four_digits(digits, at);
        value = value * 10_000 + four;
        at += 4;
    }
    last_digits(digits, at, value)
}

/// The value of the four digits at `at`.
#[inline(always)]
fn four_digits(digits: &[u8], at: usize) -> u64
    requires digits { AreDigits digits.now }
    requires within { at + 4 ≤ length digits.now }
    ensures { (before : ℕ) → digits_value before (drop at digits.now)
        ≡ digits_value (before * 10_000 + result) (drop (at + 4) digits.now) }
{
    let thousands = u64::from(digits[at] - b'0');
    let hundreds = u64::from(digits[at + 1] - b'0');
    let tens = u64::from(digits[at + 2] - b'0');
    let ones = u64::from(digits[at + 3] - b'0');
    thousands * 1_000 + hundreds * 100 + tens * 10 + ones
}

/// What the digits from `at` on make of the value of those before.
#[inline(always)]
fn last_digits(digits: &[u8], at: usize, before: u64) -> u64
    requires digits { AreDigits digits.now }
    requires within { at ≤ length digits.now }
    requires fits { digits_value before (drop at digits.now) < 2 ^ 64 }
    ensures { result ≡ digits_value before (drop at digits.now) }
{
    let mut value = before;
    for i in at..digits.len() {
        value = value * 10 + u64::from(digits[i] - b'0');
    }
    value
}

/// The value of digits, as `parse_unsigned`, where it may pass 64 bits at each digit.
fn parse_long(digits: &[u8]) -> Option<u64>
    requires { AreDigits digits.now }
    ensures { MatchOption result
        (2 ^ 64 ≤ digits_value 0 digits.now)
        (λ n. (n ≡ digits_value 0 digits.now) × (n < 2 ^ 64)) }
{
    let mut value: u64 = 0;
    for digit in digits {
        let tens = value.checked_mul(10)?;
        value = tens.checked_add(u64::from(*digit - b'0'))?;
    }
    Some(value)
}

/// The value of decimal digits, or `None` where it is 2^128 or more.
fn parse_wide(digits: &[u8]) -> Option<u128>
    requires { AreDigits digits.now }
    ensures { MatchOption result
        (2 ^ 128 ≤ digits_value 0 digits.now)
        (λ n. (n ≡ digits_value 0 digits.now) × (n < 2 ^ 128)) }
{
    let mut value: u128 = 0;
    for digit in digits {
        let tenfold = value.checked_mul(10)?;
        value = tenfold.checked_add(u128::from(*digit - b'0'))?;
    }
    Some(value)
}
