//! What a few bytes decide: tokens that the bytes after an offset show whole (all but faults, strings with escapes, and what stands after
//! comments or at the end), the ends of gaps and texts, for readers that make no token of them, and texts in which no backslash stands.
//! Everything else is left to `cutting` and `decode`.

ghost use Rattle.std.specs.Prelude.{◌≡◌, ℕ, ◌+◌, ◌-◌, ◌<◌, ◌≤◌, false, length, drop, Some, slice_get, IfNone, IfSome, MatchOption, true};
ghost use Rattle.std.specs.Prelude.{slice_range, IsUtf8};
ghost use Rattle.facet_format.specs.Bytes.{quote, space, is_space};
ghost use Rattle.facet_json_token.specs.Gap.{Mode as SpecMode};
ghost use Rattle.facet_json_token.specs.Token.{string, Kind};
ghost use Rattle.facet_json_token.specs.Cut.{cut_here, past_gap, token_at, has_backslash};
ghost use Rattle.facet_json_token.specs.Views.{mode_of, kind_of};
ghost use Rattle.facet_format.specs.NumberParts.{parts, parts_len, parts_hint, is_bare};
ghost use Rattle.facet_json_token.specs.Shape.{IsStructural};
ghost use Rattle.facet_json_token.specs.Inner.InSight.{told};
ghost use Rattle.facet_json_token.specs.Decoded.{decoded};
ghost use Rattle.facet_json_token.specs.Quoted.{IsQuoted};
ghost use Rattle.facet_json_token.specs.DecodeViews.{IsItsText};
ghost use Rattle.facet_json_token.specs.Cut as spec_cut;

use crate::ascii::ascii_text;
use crate::cutting::skip_gap;
use crate::mode::Mode;
use crate::runs::{Blank, Plain, run_end};
use crate::token::{SpannedToken, Token};
use facet_format::Span;
use facet_format::numeral::parts_at;
use std::str;

/// The offset of the quote that closes the string whose quote is at `at`, where no escape stands in it.
#[inline(always)]
pub fn plain_text_end(buffer: &[u8], at: usize) -> Option<usize>
    requires { slice_get buffer.now at ≡ Some quote }
    ensures token { IfSome result (λ end. (mode : SpecMode)
        → cut_here mode at (drop at buffer.now) ≡ token_at (string (at + 1) end false) at ((end + 1) - at)) }
    ensures within { IfSome result (λ end. (at < end) × (end < length buffer.now)) }
{
    let end = run_end::<Plain>(buffer, at + 1);
    match buffer.get(end) {
        Some(b'"') => Some(end),
        _ => None,
    }
}

/// The offset after the gap at `position`: most gaps are empty, one space or white space alone.
#[inline(always)]
pub fn gap_end(buffer: &[u8], position: usize, mode: Mode) -> usize
    requires { position ≤ length buffer.now }
    ensures end { result ≡ past_gap buffer.now position (mode_of mode) }
    ensures within { result ≤ length buffer.now }
{
    match buffer.get(position) {
        Some(b' ' | b'\t' | b'\n' | b'\r' | b'/') => blank_end(buffer, position, mode),
        Some(_) => position,
        None => skip_gap(buffer, position, mode),
    }
}

/// The offset after the gap at `position`, where nearly all gaps are empty: another one is passed by a call.
#[inline(always)]
pub fn empty_gap_end(buffer: &[u8], position: usize, mode: Mode) -> usize
    requires { position ≤ length buffer.now }
    ensures end { result ≡ past_gap buffer.now position (mode_of mode) }
    ensures within { result ≤ length buffer.now }
{
    match buffer.get(position) {
        Some(b' ' | b'\t' | b'\n' | b'\r' | b'/') => blank_end_out_of_line(buffer, position, mode),
        Some(_) => position,
        None => skip_gap(buffer, position, mode),
    }
}

/// The offset after the gap at `position`, by a call.
#[inline(never)]
fn blank_end_out_of_line(buffer: &[u8], position: usize, mode: Mode) -> usize
    requires { position ≤ length buffer.now }
    ensures end { result ≡ past_gap buffer.now position (mode_of mode) }
    ensures within { result ≤ length buffer.now }
{
    blank_end(buffer, position, mode)
}

/// The offset after the gap at `position`, where one stands, most likely of white space alone.
#[inline(always)]
fn blank_end(buffer: &[u8], position: usize, mode: Mode) -> usize
    requires { position ≤ length buffer.now }
    ensures end { result ≡ past_gap buffer.now position (mode_of mode) }
    ensures within { result ≤ length buffer.now }
{
    let at = past_blank(buffer, position);
    match buffer.get(at) {
        Some(b'/') => skip_gap(buffer, at, mode),
        Some(_) => at,
        None => skip_gap(buffer, at, mode),
    }
}

/// The offset after the white space at `position`.
#[inline(always)]
pub fn past_space(buffer: &[u8], position: usize) -> usize
    requires { position ≤ length buffer.now }
    ensures same { (mode : SpecMode) → past_gap buffer.now result mode ≡ past_gap buffer.now position mode }
    ensures within { result ≤ length buffer.now }
{
    match buffer.get(position) {
        Some(byte) if *byte > b' ' => position,
        _ => past_blank(buffer, position),
    }
}

/// The offset after the white space at `position`, where some stands, most likely one space: no white space stands after it.
#[inline(always)]
fn past_blank(buffer: &[u8], position: usize) -> usize
    requires { position ≤ length buffer.now }
    ensures same { (mode : SpecMode) → past_gap buffer.now result mode ≡ past_gap buffer.now position mode }
    ensures stops { (b : ℕ) → slice_get buffer.now result ≡ Some b → is_space b ≡ false }
    ensures within { result ≤ length buffer.now }
{
    match buffer.get(position) {
        Some(b' ') if is_above_space(buffer, position + 1) => position + 1,
        _ => run_end::<Blank>(buffer, position),
    }
}

/// Whether a byte above a space stands there, which is never white space.
#[inline(always)]
fn is_above_space(buffer: &[u8], at: usize) -> bool
    ensures within { result ≡ true → at < length buffer.now }
    ensures above { result ≡ true → (b : ℕ) → slice_get buffer.now at ≡ Some b → space < b }
{
    match buffer.get(at) {
        Some(byte) => *byte > b' ',
        None => false,
    }
}

/// The token at `at`, where a look tells it.
#[inline(always)]
pub fn token_in_sight(buffer: &[u8], at: usize) -> Option<SpannedToken>
    ensures { IfSome result (λ t. (mode : SpecMode) → told t ≡ Some (spec_cut.cut buffer.now at mode)) }
{
    let first = *buffer.get(at)?;
    // First: behind the range of digits these bytes would pass more tests.
    if let Some(token) = structural(first, at) {
        return Some(token);
    }
    match first {
        b'"' => text_in_sight(buffer, at),
        b'-' | b'0'..=b'9' => number_in_sight(buffer, at),
        b't' => word_in_sight(buffer, at, b"true", Token::True),
        b'f' => word_in_sight(buffer, at, b"false", Token::False),
        b'n' => word_in_sight(buffer, at, b"null", Token::Null),
        _ => None,
    }
}

/// The token that this byte at `at` is alone, if it is a bracket, a colon or a comma (RFC 8259, section 2).
#[inline(always)]
pub fn structural(byte: u8, at: usize) -> Option<SpannedToken>
    ensures { MatchOption result
        ((kind : Kind) → IsStructural byte kind → ⊥)
        (λ t. (kind : Kind) × IsStructural byte kind × (told t ≡ Some (token_at kind at 1))) }
{
    match byte {
        b'{' => Some(spanned(Token::ObjectStart, at, 1)),
        b'}' => Some(spanned(Token::ObjectEnd, at, 1)),
        b'[' => Some(spanned(Token::ArrayStart, at, 1)),
        b']' => Some(spanned(Token::ArrayEnd, at, 1)),
        b':' => Some(spanned(Token::Colon, at, 1)),
        b',' => Some(spanned(Token::Comma, at, 1)),
        _ => None,
    }
}

/// This token, which takes `len` bytes at `at`.
#[inline(always)]
pub(crate) fn spanned(token: Token, at: usize, len: usize) -> SpannedToken
    ensures { (k : Kind) → kind_of token ≡ Some k → told result ≡ Some (spec_cut.token_at k at len) }
{
    SpannedToken {
        token,
        span: Span::new(at, len),
    }
}

/// The string without escapes whose quote is at `at`.
#[inline(always)]
fn text_in_sight(buffer: &[u8], at: usize) -> Option<SpannedToken>
    requires { slice_get buffer.now at ≡ Some quote }
    ensures { IfSome result (λ t. (mode : SpecMode) → told t ≡ Some (spec_cut.cut buffer.now at mode)) }
{
    let end = plain_text_end(buffer, at)?;
    let token = Token::String {
        start: at + 1,
        end,
        has_escapes: false,
    };
    Some(spanned(token, at, end + 1 - at))
}

/// The literal of these letters at `at`.
#[inline(always)]
fn word_in_sight(buffer: &[u8], at: usize, word: &[u8], token: Token) -> Option<SpannedToken>
    requires { at ≤ length buffer.now }
    ensures { let bytes = drop at buffer.now in (k : Kind) → kind_of token ≡ Some k → IfSome result (λ t. told t
        ≡ Some (spec_cut.cut_word at bytes word.now k (spec_cut.common_len word.now bytes))) }
{
    if buffer[at..].starts_with(word) {
        Some(spanned(token, at, word.len()))
    } else {
        None
    }
}

/// The number at `at`, where more than a minus stands.
#[inline(always)]
pub(crate) fn number_in_sight(buffer: &[u8], at: usize) -> Option<SpannedToken>
    requires { at < length buffer.now }
    ensures told { IfSome result (λ t. let p = parts (drop at buffer.now) in told t
        ≡ Some (spec_cut.cut_number at (drop (at + 1) buffer.now) (parts_len p) (parts_hint p) (is_bare p))) }
    ensures bare { IfNone result (is_bare (parts (drop at buffer.now)) ≡ true) }
{
    let parts = parts_at(buffer, at);
    if parts.is_bare() {
        return None;
    }
    let len = parts.len();
    let token = Token::Number {
        start: at,
        end: at + len,
        hint: parts.hint(),
    };
    Some(spanned(token, at, len))
}

/// The content of a string that stands in `buf[start..end]`, where that is UTF-8: what `decode_string_borrowed` gives of a content
/// in which no backslash stands.
#[inline(always)]
pub fn plain_text(buf: &[u8], start: usize, end: usize) -> Option<&str>
    requires in_order { start ≤ end }
    requires in_range { end ≤ length buf.now }
    requires plain { has_backslash (slice_range buf.now start end) ≡ false }
    ensures borrowed { MatchOption result (IsUtf8 (slice_range buf.now start end) → ⊥)
        (λ s. (s.now ≡ slice_range buf.now start end) × IsItsText (slice_range buf.now start end)) }
    ensures text { IfSome result (λ s. decoded (slice_range buf.now start end) ≡ Some s.now) }
{
    match ascii_text(buf, start, end) {
        Some(text) => Some(text),
        None => str::from_utf8(&buf[start..end]).ok(),
    }
}

/// As `plain_text`, for a content in UTF-8, which is its text.
#[inline(always)]
pub fn plain_text_unchecked(buf: &[u8], start: usize, end: usize) -> &str
    requires in_order { start ≤ end }
    requires in_range { end ≤ length buf.now }
    requires plain { has_backslash (slice_range buf.now start end) ≡ false }
    requires utf8 { IsUtf8 (slice_range buf.now start end) }
    ensures borrowed { result.now ≡ slice_range buf.now start end }
    ensures text { decoded (slice_range buf.now start end) ≡ Some result.now }
{
    // The last requirement is what the call needs.
    unsafe { str::from_utf8_unchecked(&buf[start..end]) }
}

/// As `plain_text`, for a content between its quotes in a buffer in UTF-8: it is its text, and not checked again.
#[inline(always)]
pub fn quoted_text(buf: &[u8], start: usize, end: usize) -> &str
    requires quoted { IsQuoted buf.now start end }
    requires plain { has_backslash (slice_range buf.now start end) ≡ false }
    requires utf8 { IsUtf8 buf.now }
    ensures borrowed { result.now ≡ slice_range buf.now start end }
    ensures text { decoded (slice_range buf.now start end) ≡ Some result.now }
{
    plain_text_unchecked(buf, start, end)
}
