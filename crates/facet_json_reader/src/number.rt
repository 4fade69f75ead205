//! Numbers that are read without an allocation, from their bytes: eight digits by one word, whole numbers, and all others by their parts.

ghost use Rattle.std.specs.Prelude.{◌≡◌, ◌+◌, ◌≤◌, true, false, Some, length, drop, slice_get, slice_range, IfSome, OnSome, ℕ, ◌<◌, ◌^◌};
ghost use Rattle.std.specs.Prelude.{take, ◌≢◌, ◌==◌, ◌||◌, pos, neg_ℤ};
ghost use Rattle.facet_format.specs.Number.{AreDigits, float};
ghost use Rattle.facet_format.specs.NumberValue.{digits_value};
ghost use Rattle.facet_format.specs.Event.{decimal};
ghost use Rattle.facet_format.specs.NumberParts.{parts as number_parts, parts_len, digits_len};
ghost use Rattle.facet_format.specs.Views.{scalar_value_of};
ghost use Rattle.facet_json_token.specs.Cut.{start_of, opens_number};
ghost use Rattle.facet_json_token.specs.Token.{Kind};
ghost use Rattle.facet_json_token.specs.Token as spec_token;
ghost use Rattle.facet_json_token.specs.NumberViews.{number_of};
ghost use Rattle.facet_json_grammar.specs.Meaning.{tree_of_number};
ghost use Rattle.facet_json_grammar.specs.Walk.{scalar_by};
ghost use Rattle.facet_json_token.specs.RfcNumber.{SomeDigits, IsRfcNumber};
ghost use Rattle.facet_json_reader.specs.Inner.Whole.{digits_from, OpensNumber, IsWholeNumber, whole_scalar};
ghost use Rattle.facet_json_reader.specs.Inner.Short.{IsDecimalThere, IsPointed, IsShortNumber, IsShortIn};
ghost use Rattle.facet_json_reader.specs.Values.{IsScalarThere, IsNumberThere};
ghost use Rattle.facet_format.specs.Span.{span_at};
ghost use Rattle.facet_json_grammar.specs.StrictTokens.{Allows};
ghost use Rattle.facet_json_reader.specs.PlaceViews.{language_of};
ghost use Rattle.facet_json_reader.specs.Inner.Digits.{word};
ghost use Rattle.facet_format.specs.Bytes.{minus, dot, is_exponent_mark};

use crate::place::Language;
use facet_format::numeral::{NumberHint, Parts, no_digits, parts_at};
use facet_format::{Decimal, ScalarValue};
use facet_json_token::{ParsedNumber, has_rfc_parts, measured_decimal, measured_number};
use std::simd::prelude::*;

/// A whole number of at most fifteen digits.
#[derive(Clone, Copy)]
pub enum Whole {
    /// One without a minus.
    Unsigned(u64),
    /// One with a minus.
    Signed(i64),
}

impl Whole {
    /// The number as a scalar.
    #[inline(always)]
    pub(crate) fn scalar<'de>(self) -> ScalarValue<'de>
        ensures { scalar_value_of result ≡ whole_scalar self }
    {
        match self {
            Whole::Unsigned(n) => ScalarValue::U64(n),
            Whole::Signed(n) => ScalarValue::I64(n),
        }
    }
}

/// The length and the value of the number at `at`, of which this is the first byte, where it is at most fifteen digits, perhaps
/// after a minus, and enough bytes stand there.
#[inline(always)]
fn short_whole(input: &[u8], at: usize, first: u8) -> Option<(usize, Whole)>
    requires here { slice_get input.now at ≡ Some first }
    requires number { start_of first ≡ opens_number }
    ensures there { IfSome result (λ r. IsScalarThere input.now at r.0 (whole_scalar r.1)) }
    ensures digits { IfSome result (λ r. SomeDigits (slice_range input.now (digits_from at first) (at + r.0))) }
{
    if input.len() - at < 17 {
        return None;
    }
    if first == b'-' {
        negative_there(input, at)
    } else {
        digits_there(input, at, first)
    }
}

/// The length and the value of such a short whole number, where it is a number of RFC 8259.
#[inline(always)]
fn short_whole_strict(input: &[u8], at: usize, first: u8) -> Option<(usize, Whole)>
    requires here { slice_get input.now at ≡ Some first }
    requires number { start_of first ≡ opens_number }
    ensures there { IfSome result (λ r. IsScalarThere input.now at r.0 (whole_scalar r.1)) }
    ensures strict { IfSome result (λ r. IsRfcNumber (slice_range input.now at (at + r.0))) }
{
    let (len, whole) = short_whole(input, at, first)?;
    if !leads_by_no_zero(input, at, first, len) {
        return None;
    }
    Some((len, whole))
}

/// The length and the value of a short whole number, where the language allows it.
#[inline(always)]
pub(crate) fn short_whole_in(
    input: &[u8],
    language: Language,
    at: usize,
    first: u8,
) -> Option<(usize, Whole)>
    requires here { slice_get input.now at ≡ Some first }
    requires number { start_of first ≡ opens_number }
    ensures { IfSome result (λ r. (there : IsScalarThere input.now at r.0 (whole_scalar r.1))
        × Allows (language_of language) input.now (record { kind = there.kind; span = span_at at r.0 })) }
{
    let (len, whole) = short_whole(input, at, first)?;
    match language {
        Language::Plain | Language::Jsonc => Some((len, whole)),
        Language::Strict => {
            if leads_by_no_zero(input, at, first, len) {
                Some((len, whole))
            } else {
                None
            }
        }
    }
}

/// Whether a whole number of this length is a single digit or begins with no zero, after a minus if one stands first.
#[inline(always)]
fn leads_by_no_zero(input: &[u8], at: usize, first: u8, len: usize) -> bool
    requires here { slice_get input.now at ≡ Some first }
    requires digits { SomeDigits (slice_range input.now (digits_from at first) (at + len)) }
    ensures { result ≡ true → IsRfcNumber (slice_range input.now at (at + len)) }
{
    if first == b'-' {
        len == 2 || input[at + 1] != b'0'
    } else {
        len == 1 || first != b'0'
    }
}

/// The length of a number that allocates nothing, and its value where it is whole. Any other is a decimal, whose value is its text.
type Short = (usize, Option<Whole>);

/// The number at `at`, of which this is the first byte, where it allocates nothing and the language allows it.
#[inline(always)]
pub(crate) fn short_number_in(
    input: &[u8],
    language: Language,
    at: usize,
    first: u8,
) -> Option<Short>
    requires here { slice_get input.now at ≡ Some first }
    requires number { start_of first ≡ opens_number }
    ensures { IfSome result (λ r. IsShortIn (language_of language) input.now at r.0 r.1) }
{
    match language {
        Language::Plain | Language::Jsonc => short_number(input, at, first),
        Language::Strict => short_number_strict(input, at, first),
    }
}

/// The length of the number at `at`, of which this is the first byte, where its value allocates nothing and the language allows it.
#[inline(always)]
pub(crate) fn number_len(input: &[u8], language: Language, at: usize, first: u8) -> Option<usize>
    requires here { slice_get input.now at ≡ Some first }
    requires number { start_of first ≡ opens_number }
    ensures { IfSome result (λ len. IsNumberThere (language_of language) input.now at len) }
{
    if let Some((len, _)) = short_whole_in(input, language, at, first) {
        return Some(len);
    }
    match pointed_len_in(input, language, at, first) {
        Some(len) => Some(len),
        None => other_number_len(input, language, at, first),
    }
}

/// The length of such a number with a fraction and no exponent, where the language has it without a look at its zeros.
#[inline(always)]
fn pointed_len_in(input: &[u8], language: Language, at: usize, first: u8) -> Option<usize>
    requires here { slice_get input.now at ≡ Some first }
    requires number { start_of first ≡ opens_number }
    ensures { IfSome result (λ len. IsNumberThere (language_of language) input.now at len) }
{
    match language {
        Language::Plain | Language::Jsonc => {
            let len = pointed_len(input, at, first)?;
            match decimal_at(input, at, len) {
                Some(_) => Some(len),
                None => None,
            }
        }
        Language::Strict => None,
    }
}

/// The length of the number at `at` where it is digits, a dot and digits, perhaps after a minus, at most fifteen before the dot and behind
/// it, and enough bytes stand there.
#[inline(always)]
fn pointed_len(input: &[u8], at: usize, first: u8) -> Option<usize>
    requires here { slice_get input.now at ≡ Some first }
    requires number { start_of first ≡ opens_number }
    ensures { IfSome result (λ len. IsDecimalThere input.now at len) }
{
    if input.len() - at < 34 {
        return None;
    }
    if first == b'-' {
        let len = point_len(input, at + 1)?;
        Some(len + 1)
    } else {
        let len = point_len(input, at)?;
        Some(len)
    }
}

/// The length of the digits, the dot and the digits at `at`, where no exponent is after them.
#[inline(always)]
fn point_len(input: &[u8], at: usize) -> Option<usize>
    requires { at + 33 ≤ length input.now }
    ensures pointed { IfSome result (λ len. IsPointed (drop at input.now) len) }
    ensures few { IfSome result (λ len. len < 32) }
{
    let whole = some_digits(input, at)?;
    if input[at + whole] != b'.' {
        return None;
    }
    let more = some_digits(input, at + whole + 1)?;
    if begins_part(input[at + whole + 1 + more]) {
        return None;
    }
    Some(whole + 1 + more)
}

/// The length of such a number that is no short whole one, by a call.
#[inline(never)]
fn other_number_len(input: &[u8], language: Language, at: usize, first: u8) -> Option<usize>
    requires here { slice_get input.now at ≡ Some first }
    requires number { start_of first ≡ opens_number }
    ensures { IfSome result (λ len. IsNumberThere (language_of language) input.now at len) }
{
    let (len, whole) = short_number_in(input, language, at, first)?;
    match whole {
        Some(_) => Some(len),
        None => match decimal_at(input, at, len) {
            Some(_) => Some(len),
            None => None,
        },
    }
}

/// The length and the value of the number at `at`, where that allocates nothing, in each language but RFC 8259 alone. It is compiled apart,
/// and its answer is small, so that no event needs memory.
#[inline(never)]
fn short_number(input: &[u8], at: usize, first: u8) -> Option<Short>
    requires here { slice_get input.now at ≡ Some first }
    requires number { start_of first ≡ opens_number }
    ensures { IfSome result (λ r. IsShortNumber input.now at r.0 r.1) }
{
    match short_whole(input, at, first) {
        Some((len, whole)) => Some((len, Some(whole))),
        None => short_by_parts(input, at, parts_at(input, at)),
    }
}

/// The length and the value of the number at `at`, where that allocates nothing and it is a number of RFC 8259.
#[inline(never)]
fn short_number_strict(input: &[u8], at: usize, first: u8) -> Option<Short>
    requires here { slice_get input.now at ≡ Some first }
    requires number { start_of first ≡ opens_number }
    ensures there { IfSome result (λ r. IsShortNumber input.now at r.0 r.1) }
    ensures strict { IfSome result (λ r. IsRfcNumber (slice_range input.now at (at + r.0))) }
{
    if let Some((len, whole)) = short_whole_strict(input, at, first) {
        return Some((len, Some(whole)));
    }
    let parts = parts_at(input, at);
    if !has_rfc_parts(parts, &input[at..]) {
        return None;
    }
    short_by_parts(input, at, parts)
}

/// The length and the value of the number at `at` that has these parts.
#[inline(always)]
fn short_by_parts(input: &[u8], at: usize, parts: Parts) -> Option<Short>
    requires here { OpensNumber input.now at }
    requires parts { parts ≡ number_parts (drop at input.now) }
    requires within { at + parts_len parts ≤ length input.now }
    ensures there { IfSome result (λ r. IsShortNumber input.now at r.0 r.1) }
    ensures all { IfSome result (λ r. r.0 ≡ parts_len parts) }
{
    let len = parts.len();
    if parts.is_bare() {
        return None;
    }
    let hint = parts.hint();
    if let NumberHint::Float = hint {
        return Some((len, None));
    }
    let number = measured_number(&input[at..at + len], hint)?;
    Some((len, Some(whole_in(number)?)))
}

/// The whole number of 64 bits that a number is.
#[inline(always)]
fn whole_in(number: ParsedNumber<'_>) -> Option<Whole>
    ensures { IfSome result (λ w. (kind : Kind) → whole_scalar w ≡ scalar_by kind (tree_of_number (number_of number.entry))) }
{
    match number {
        ParsedNumber::U64(n) => Some(Whole::Unsigned(n)),
        ParsedNumber::I64(n) => Some(Whole::Signed(n)),
        _ => None,
    }
}

/// The length and the value of the number with a fraction or an exponent at `at`, of which this is the first byte, where the language
/// allows it.
#[inline(always)]
pub(crate) fn short_decimal_in<'de>(
    input: &'de [u8],
    language: Language,
    at: usize,
    first: u8,
) -> Option<(usize, Decimal<'de>)>
    requires here { slice_get input.now at ≡ Some first }
    requires number { start_of first ≡ opens_number }
    ensures { IfSome result (λ r. (there : IsScalarThere input.now at r.0 (decimal r.1))
        × Allows (language_of language) input.now (record { kind = there.kind; span = span_at at r.0 })) }
{
    let (len, whole) = short_number_in(input, language, at, first)?;
    match whole {
        Some(_) => None,
        None => Some((len, decimal_at(input, at, len)?)),
    }
}

/// The decimal of so many bytes at `at`.
#[inline(always)]
pub(crate) fn decimal_at<'de>(input: &'de [u8], at: usize, len: usize) -> Option<Decimal<'de>>
    requires { IsDecimalThere input.now at len }
    ensures { IfSome result
        (λ d. (there : IsScalarThere input.now at len (decimal d)) × (there.kind ≡ spec_token.number at (at + len) float)) }
{
    measured_decimal(&input[at..at + len])
}

/// The value of one to sixteen decimal digits at `at`, where eight bytes stand.
#[inline(always)]
pub(crate) fn digits_at(input: &[u8], at: usize, len: usize) -> u64
    requires some { 0 < len }
    requires few { len ≤ 16 }
    requires room { at + 8 ≤ length input.now }
    requires within { at + len ≤ length input.now }
    requires digits { AreDigits (slice_range input.now at (at + len)) }
    ensures { result ≡ digits_value 0 (slice_range input.now at (at + len)) }
{
    if len <= 8 {
        return few_digits(input, at, len);
    }
    let first = few_digits(input, at, len - 8);
    first * 100_000_000 + few_digits(input, at + (len - 8), 8)
}

/// The value of one to eight decimal digits at `at`, where eight bytes stand. The digits are moved to the end of a word, after
/// zeros. Then each two neighbours are joined, each two pairs, and the two fours.
#[inline(always)]
fn few_digits(input: &[u8], at: usize, len: usize) -> u64
    requires some { 0 < len }
    requires few { len ≤ 8 }
    requires room { at + 8 ≤ length input.now }
    requires digits { AreDigits (slice_range input.now at (at + len)) }
    ensures value { result ≡ digits_value 0 (slice_range input.now at (at + len)) }
    ensures small { result < 10 ^ 8 }
{
    let shift = 64 - 8 * len;
    let bytes = eight_bytes(input, at) << shift;
    let zeros = 0x3030_3030_3030_3030_u64 << shift;
    // Each byte is at least the zero below it, so none borrows of the next; and each sum fits the lane that its mask leaves.
    let digits = bytes - zeros;
    let pairs = (digits * 10 + (digits >> 8)) & 0x00FF_00FF_00FF_00FF;
    let fours = (pairs * 100 + (pairs >> 16)) & 0x0000_FFFF_0000_FFFF;
    (fours * 10_000 + (fours >> 32)) & 0xFFFF_FFFF
}

/// The eight bytes at `at` as a word, the first of them lowest.
#[inline(always)]
fn eight_bytes(input: &[u8], at: usize) -> u64
    requires { at + 8 ≤ length input.now }
    ensures { result ≡ word (take 8 (drop at input.now)) }
{
    match input[at..].first_chunk() {
        Some(bytes) => u64::from_le_bytes(*bytes),
        None => 0,
    }
}

/// The length and the value of the whole number at `at`, which begins with a digit, where it has at most fifteen of them.
#[inline(always)]
fn digits_there(input: &[u8], at: usize, first: u8) -> Option<(usize, Whole)>
    requires here { slice_get input.now at ≡ Some first }
    requires number { start_of first ≡ opens_number }
    requires no_minus { first ≢ minus }
    requires room { at + 17 ≤ length input.now }
    ensures there { IfSome result (λ r. IsScalarThere input.now at r.0 (whole_scalar r.1)) }
    ensures digits { IfSome result (λ r. SomeDigits (slice_range input.now at (at + r.0))) }
{
    match whole_len(input, at) {
        Some(len) => Some((len, Whole::Unsigned(digits_at(input, at, len)))),
        None => None,
    }
}

/// The length and the value of the whole number at `at`, which begins with a minus, where at most fifteen digits are after it.
#[inline(always)]
fn negative_there(input: &[u8], at: usize) -> Option<(usize, Whole)>
    requires here { slice_get input.now at ≡ Some minus }
    requires room { at + 17 ≤ length input.now }
    ensures there { IfSome result (λ r. IsScalarThere input.now at r.0 (whole_scalar r.1)) }
    ensures digits { IfSome result (λ r. SomeDigits (slice_range input.now (at + 1) (at + r.0))) }
{
    let Some(len) = whole_len(input, at + 1) else {
        return None;
    };
    match negated(digits_at(input, at + 1, len)) {
        Some(value) => Some((len + 1, Whole::Signed(value))),
        None => None,
    }
}

/// How many digits stand at `at`, where some and at most fifteen do, and neither a fraction nor an exponent is after them.
#[inline(always)]
fn whole_len(input: &[u8], at: usize) -> Option<usize>
    requires { at + 16 ≤ length input.now }
    ensures { IfSome result (λ n. IsWholeNumber (drop at input.now) n) }
{
    let len = some_digits(input, at)?;
    if begins_part(input[at + len]) {
        return None;
    }
    Some(len)
}

/// How many digits stand at `at`, where some and at most fifteen do.
#[inline(always)]
fn some_digits(input: &[u8], at: usize) -> Option<usize>
    requires { at + 16 ≤ length input.now }
    ensures digits { IfSome result (λ n. n ≡ digits_len (drop at input.now)) }
    ensures some { IfSome result (λ n. (0 < n) × (n < 16)) }
{
    let found = no_digits(u8x16::from_slice(&input[at..]));
    let len = found.trailing_zeros() as usize;
    if found == 0 || len == 0 {
        return None;
    }
    Some(len)
}

/// Whether a fraction or an exponent begins with this byte.
#[inline(always)]
fn begins_part(byte: u8) -> bool
    ensures { result ≡ ((byte == dot) || is_exponent_mark byte) }
{
    byte == b'.' || byte == b'e' || byte == b'E'
}

/// The number after a minus, where it fits 64 bits.
#[inline(always)]
fn negated(digits: u64) -> Option<i64>
    ensures { IfSome result (λ n. (n ≡ neg_ℤ (pos digits)) × (digits ≤ 2 ^ 63)) }
{
    0_i64.checked_sub_unsigned(digits)
}
