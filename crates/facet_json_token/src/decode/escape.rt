//! Escapes of a string (RFC 8259, section 7): what a backslash and the bytes after it stand for.

ghost use Rattle.std.specs.Prelude.{◌≡◌, ◌+◌, ◌*◌, ◌^◌, ◌≤◌, ◌<◌, Some, None, true, length, drop, slice_get, slice_index, IfOk, IfErr};
ghost use Rattle.std.specs.Prelude.{IfSome};
ghost use Rattle.std.specs.Char.{digit_value};
ghost use Rattle.facet_format.specs.Bytes.{backslash, lower_u};
ghost use Rattle.facet_format.specs.Complaint.{invalid_utf8, refusal_at};
ghost use Rattle.facet_format.specs.Span.{span_at};
ghost use Rattle.facet_json_token.specs.Decode.{short_escape as short_escape_of, code_unit as code_unit_of};
ghost use Rattle.facet_json_token.specs.Decode.{is_high_surrogate as is_high_surrogate_of, is_low_surrogate as is_low_surrogate_of};
ghost use Rattle.facet_json_token.specs.Decoded.{piece_at, short_of, low_at};
ghost use Rattle.facet_json_token.specs.Fault.{decode_fault_at, fault_refusal, no_character, not_digits};
ghost use Rattle.facet_json_token.specs.FirstFault.{fault_of, pair_fault};
ghost use Rattle.facet_json_token.specs.Views.{told_refusal};

use crate::fault::{Fault, FaultKind, Inside};
use facet_format::Span;

/// What an escape stands for.
#[derive(Clone, Copy)]
pub(crate) struct Escape {
    /// The character.
    pub(crate) character: char,
    /// The number of the escape's bytes.
    pub(crate) len: usize,
}

/// The escape that `rest` begins with. `rest` stands at `at`, and its first byte is a backslash.
#[inline(always)]
pub(crate) fn escape_at(rest: &[u8], at: usize) -> Result<Escape, Fault>
    requires backslash { slice_get rest.now 0 ≡ Some backslash }
    requires fits { at + length rest.now < 2 ^ 64 }
    ensures found { IfOk result (λ e. piece_at rest.now ≡ Some (e.character, e.len)) }
    ensures len { IfOk result (λ e. (0 < e.len) × (e.len ≤ length rest.now)) }
    ensures none { IfErr result (λ _. piece_at rest.now ≡ None) }
    ensures refused { IfErr result (λ e. told_refusal e ≡ fault_refusal at (fault_of rest.now)) }
{
    match rest.get(1) {
        Some(b'u') => unit_at(rest, at),
        Some(byte) => short_at(*byte, at),
        None => Err(Fault {
            kind: FaultKind::UnexpectedEof(Inside::Escape),
            span: Span::new(at, 1),
        }),
    }
}

/// The escape at `at` of a backslash and a byte other than `u`.
#[inline(always)]
fn short_at(byte: u8, at: usize) -> Result<Escape, Fault>
    requires fits { at + 2 < 2 ^ 64 }
    ensures found { IfOk result (λ e. short_of byte (short_escape_of byte) ≡ Some (e.character, e.len)) }
    ensures len { IfOk result (λ e. e.len ≡ 2) }
    ensures none { IfErr result (λ _. short_of byte (short_escape_of byte) ≡ None) }
    ensures refused { IfErr result (λ e. told_refusal e ≡ fault_refusal at (decode_fault_at no_character 1 1)) }
{
    if byte >= 0x80 {
        return Err(not_utf8(at + 1, 1));
    }
    Ok(Escape {
        character: char::from(short_escape(byte)),
        len: 2,
    })
}

/// The ASCII character that a backslash and this byte stand for: the byte itself, where it has no meaning of its own.
#[inline(always)]
#[tactic(auto, unfolding(crate::specs::Decode::short_escape))]
fn short_escape(byte: u8) -> u8
    requires { byte < 0x80 }
    ensures value { short_of byte (short_escape_of byte) ≡ Some (result, 2) }
    ensures ascii { result < 0x80 }
{
    match byte {
        b'b' => 0x08,
        b'f' => 0x0c,
        b'n' => b'\n',
        b'r' => b'\r',
        b't' => b'\t',
        _ => byte,
    }
}

/// The escape at `at` of a backslash, `u` and what is after them.
#[inline(always)]
fn unit_at(rest: &[u8], at: usize) -> Result<Escape, Fault>
    requires backslash { slice_get rest.now 0 ≡ Some backslash }
    requires letter { slice_get rest.now 1 ≡ Some lower_u }
    requires fits { at + length rest.now < 2 ^ 64 }
    ensures found { IfOk result (λ e. piece_at rest.now ≡ Some (e.character, e.len)) }
    ensures len { IfOk result (λ e. (0 < e.len) × (e.len ≤ length rest.now)) }
    ensures none { IfErr result (λ _. piece_at rest.now ≡ None) }
    ensures refused { IfErr result (λ e. told_refusal e ≡ fault_refusal at (fault_of rest.now)) }
{
    if rest.len() < 6 {
        return Err(Fault {
            kind: FaultKind::UnexpectedEof(Inside::UnicodeEscape),
            span: Span::new(at, rest.len()),
        });
    }
    let unit = code_unit_at(rest, 2, at)?;
    if is_high_surrogate(unit) {
        return pair_at(rest, at, unit);
    }
    match char::from_u32(unit) {
        Some(character) => Ok(Escape { character, len: 6 }),
        None => Err(not_utf8(at + 2, 4)),
    }
}

/// The escape at `at` of a high surrogate, and what is after its first six bytes.
fn pair_at(rest: &[u8], at: usize, high: u32) -> Result<Escape, Fault>
    requires in_range { 6 ≤ length rest.now }
    requires high { is_high_surrogate_of high ≡ true }
    requires fits { at + length rest.now < 2 ^ 64 }
    ensures found { IfOk result (λ e. low_at high (drop 6 rest.now) ≡ Some (e.character, e.len)) }
    ensures len { IfOk result (λ e. (0 < e.len) × (e.len ≤ length rest.now)) }
    ensures none { IfErr result (λ _. low_at high (drop 6 rest.now) ≡ None) }
    ensures refused { IfErr result (λ e. told_refusal e ≡ fault_refusal at (pair_fault (drop 6 rest.now))) }
{
    if rest.len() < 12 || rest[6] != b'\\' || rest[7] != b'u' {
        return Err(not_utf8(at, 6));
    }
    let low = code_unit_at(rest, 8, at)?;
    if !is_low_surrogate(low) {
        return Err(not_utf8(at + 8, 4));
    }
    match char::from_u32(0x10000 + (high - 0xd800) * 0x400 + (low - 0xdc00)) {
        Some(character) => Ok(Escape { character, len: 12 }),
        None => unreachable!(),
    }
}

/// The number that four hexadecimal digits spell (RFC 8259, section 7), which stand at `from` in `rest`.
#[inline(always)]
fn code_unit_at(rest: &[u8], from: usize, at: usize) -> Result<u32, Fault>
    requires in_range { from + 4 ≤ length rest.now }
    requires fits { at + length rest.now < 2 ^ 64 }
    ensures unit { IfOk result (λ u. code_unit_of (slice_index rest.now from) (slice_index rest.now (from + 1))
        (slice_index rest.now (from + 2)) (slice_index rest.now (from + 3)) ≡ Some u) }
    ensures range { IfOk result (λ u. u < 0x10000) }
    ensures none { IfErr result (λ _. code_unit_of (slice_index rest.now from) (slice_index rest.now (from + 1))
        (slice_index rest.now (from + 2)) (slice_index rest.now (from + 3)) ≡ None) }
    ensures refused { IfErr result (λ e. told_refusal e ≡ fault_refusal at (decode_fault_at not_digits from 4)) }
{
    match code_unit(rest[from], rest[from + 1], rest[from + 2], rest[from + 3]) {
        Some(unit) => Ok(unit),
        None => Err(Fault {
            kind: FaultKind::UnexpectedChar('?'),
            span: Span::new(at + from, 4),
        }),
    }
}

/// The number that four hexadecimal digits of either case spell. Where one is no digit, the sum is past four digits.
#[inline(always)]
#[tactic(auto, unfolding(crate::specs::Decode::code_unit))]
fn code_unit(a: u8, b: u8, c: u8, d: u8) -> Option<u32>
    ensures value { result ≡ code_unit_of a b c d }
    ensures range { IfSome result (λ u. u < 0x10000) }
{
    let (a, b, c, d) = (hex_value(a), hex_value(b), hex_value(c), hex_value(d));
    let unit = a * 0x1000 + b * 0x100 + c * 0x10 + d;
    if unit < PAST { Some(unit) } else { None }
}

/// What the table has for a byte that is no hexadecimal digit: a number past those that four digits spell.
const PAST: u32 = 0x10000;

/// The values of the bytes as hexadecimal digits of either case.
static HEX_VALUES: [u32; 256] = [
    PAST, PAST, PAST, PAST, PAST, PAST, PAST, PAST, PAST, PAST, PAST, PAST, PAST, PAST, PAST, PAST,
    PAST, PAST, PAST, PAST, PAST, PAST, PAST, PAST, PAST, PAST, PAST, PAST, PAST, PAST, PAST, PAST,
    PAST, PAST, PAST, PAST, PAST, PAST, PAST, PAST, PAST, PAST, PAST, PAST, PAST, PAST, PAST, PAST,
    0, 1, 2, 3, 4, 5, 6, 7, 8, 9, PAST, PAST, PAST, PAST, PAST, PAST, PAST, 10, 11, 12, 13, 14, 15,
    PAST, PAST, PAST, PAST, PAST, PAST, PAST, PAST, PAST, PAST, PAST, PAST, PAST, PAST, PAST, PAST,
    PAST, PAST, PAST, PAST, PAST, PAST, PAST, PAST, PAST, PAST, 10, 11, 12, 13, 14, 15, PAST, PAST,
    PAST, PAST, PAST, PAST, PAST, PAST, PAST, PAST, PAST, PAST, PAST, PAST, PAST, PAST, PAST, PAST,
    PAST, PAST, PAST, PAST, PAST, PAST, PAST, PAST, PAST, PAST, PAST, PAST, PAST, PAST, PAST, PAST,
    PAST, PAST, PAST, PAST, PAST, PAST, PAST, PAST, PAST, PAST, PAST, PAST, PAST, PAST, PAST, PAST,
    PAST, PAST, PAST, PAST, PAST, PAST, PAST, PAST, PAST, PAST, PAST, PAST, PAST, PAST, PAST, PAST,
    PAST, PAST, PAST, PAST, PAST, PAST, PAST, PAST, PAST, PAST, PAST, PAST, PAST, PAST, PAST, PAST,
    PAST, PAST, PAST, PAST, PAST, PAST, PAST, PAST, PAST, PAST, PAST, PAST, PAST, PAST, PAST, PAST,
    PAST, PAST, PAST, PAST, PAST, PAST, PAST, PAST, PAST, PAST, PAST, PAST, PAST, PAST, PAST, PAST,
    PAST, PAST, PAST, PAST, PAST, PAST, PAST, PAST, PAST, PAST, PAST, PAST, PAST, PAST, PAST, PAST,
    PAST, PAST, PAST, PAST, PAST, PAST, PAST, PAST, PAST, PAST, PAST, PAST, PAST, PAST, PAST, PAST,
    PAST, PAST, PAST, PAST, PAST, PAST, PAST,
];

/// The value of a hexadecimal digit of either case, and of another byte a number past four digits.
#[inline(always)]
fn hex_value(byte: u8) -> u32
    ensures digit { digit_value byte < 16 → result ≡ digit_value byte }
    ensures other { 16 ≤ digit_value byte → result ≡ 0x10000 }
{
    HEX_VALUES[byte as usize]
}

/// Whether the number is the first of a pair that spells one character.
fn is_high_surrogate(unit: u32) -> bool
    ensures { result ≡ is_high_surrogate_of unit }
{
    unit >= 0xd800 && unit < 0xdc00
}

/// Whether the number is the second of a pair that spells one character.
fn is_low_surrogate(unit: u32) -> bool
    ensures { result ≡ is_low_surrogate_of unit }
{
    unit >= 0xdc00 && unit < 0xe000
}

/// The refusal of bytes that spell no character.
fn not_utf8(offset: usize, len: usize) -> Fault
    ensures { told_refusal result ≡ refusal_at invalid_utf8 (span_at offset len) }
{
    Fault {
        kind: FaultKind::InvalidUtf8,
        span: Span::new(offset, len),
    }
}
