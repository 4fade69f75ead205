//! Texts without an escape, from their bytes: sixteen at once, then thirty-two at a time; and where those with an escape end.

ghost use Rattle.std.specs.Prelude.{◌≡◌, ◌<◌, ◌+◌, ℕ, Bool, true, List, not, length, Some, slice_get, slice_range, IfSome, IsUtf8, ◌≤◌, drop};
ghost use Rattle.std.specs.Prelude.{map};
ghost use Rattle.facet_format.specs.Bytes.{quote, space};
ghost use Rattle.facet_json_reader.specs.PlaceViews.{language_of, least_of};
ghost use Rattle.facet_json_reader.specs.Values.{AreUnescaped, IsClosedAt, IsEscapedAt, IsPlainText};
ghost use Rattle.facet_json_grammar.specs.StrictTokens.{Allows};
ghost use Rattle.facet_json_token.specs.Token.{string};
ghost use Rattle.facet_format.specs.Span.{Span as SpecSpan};
ghost use Rattle.std.specs.List.{prefix_len};
ghost use Rattle.std.specs.Simd.Lanes.{mask_l};
ghost use Rattle.facet_json_reader.specs.Inner.Window.{is_stop_from, is_unescaped, is_mark, is_ordinary};

use crate::place::Language;
use facet_json_token::cutting::cut_token;
use facet_json_token::{
    Mode, Token, Trust, check_string_strict, plain_text_unchecked, quoted_text,
};
use std::simd::prelude::*;
use std::str;

/// The text of the string whose quote is at `at`, where it holds no escape and the language allows it, and the offset of the quote
/// that closes it.
#[inline(always)]
pub(crate) fn text_at<'de>(
    input: &'de [u8],
    language: Language,
    trust: Trust,
    at: usize,
) -> Option<(usize, &'de str)>
    requires here { slice_get input.now at ≡ Some quote }
    requires utf8 { trust ≡ Trust.Utf8 → IsUtf8 input.now }
    ensures text { IfSome result (λ r. IsPlainText input.now at r.0 r.1.now) }
    ensures unescaped { IfSome result (λ r. AreUnescaped (least_of (language_of language)) (slice_range input.now (at + 1) r.0)) }
    ensures within { IfSome result (λ r. (at < r.0) × (r.0 < length input.now)) }
{
    match language {
        Language::Plain | Language::Jsonc => text_from(input, trust, at, 0),
        Language::Strict => strict_text_at(input, trust, at),
    }
}

/// The text of a string without an escape, where RFC 8259 alone is read. It is a function of its own, so that lenient texts are
/// compared with no bound.
#[inline(never)]
fn strict_text_at<'de>(input: &'de [u8], trust: Trust, at: usize) -> Option<(usize, &'de str)>
    requires here { slice_get input.now at ≡ Some quote }
    requires utf8 { trust ≡ Trust.Utf8 → IsUtf8 input.now }
    ensures text { IfSome result (λ r. IsPlainText input.now at r.0 r.1.now) }
    ensures unescaped { IfSome result (λ r. AreUnescaped space (slice_range input.now (at + 1) r.0)) }
    ensures within { IfSome result (λ r. (at < r.0) × (r.0 < length input.now)) }
{
    text_from(input, trust, at, b' ')
}

/// The offset of the quote that closes the string whose quote is at `at`, where it holds no escape, is UTF-8 and the language allows it.
#[inline(always)]
pub(crate) fn text_end(input: &[u8], language: Language, at: usize) -> Option<usize>
    requires { slice_get input.now at ≡ Some quote }
    ensures { IfSome result (λ end. IsClosedAt (least_of (language_of language)) input.now at end
        × IsUtf8 (slice_range input.now (at + 1) end)) }
{
    let least = least_in(language);
    let end = run_end::<Ordinary>(input, at + 1, least);
    match input.get(end) {
        Some(b'"') => Some(end),
        _ => other_text_end(input, at, end, least),
    }
}

/// The offset of the quote that closes the string whose quote is at `at`, where an escape stands in it and the language allows it.
#[inline(always)]
pub(crate) fn escaped_end(input: &[u8], language: Language, at: usize) -> Option<usize>
    requires { slice_get input.now at ≡ Some quote }
    ensures escaped { IfSome result (λ end. IsEscapedAt input.now at end) }
    ensures allowed { IfSome result (λ end. (s : SpecSpan)
        → Allows (language_of language) input.now (record { kind = string (at + 1) end true; span = s })) }
{
    let end = closed_with_escapes(input, at)?;
    if allows_content(input, language, at + 1, end) {
        Some(end)
    } else {
        None
    }
}

/// The offset of the quote that closes the string whose quote is at `at`, where an escape stands in it.
#[inline(always)]
fn closed_with_escapes(input: &[u8], at: usize) -> Option<usize>
    requires { slice_get input.now at ≡ Some quote }
    ensures { IfSome result (λ end. IsEscapedAt input.now at end) }
{
    let Ok(token) = cut_token(input, at, b'"', Mode::Plain) else {
        return None;
    };
    match token.token {
        Token::String {
            end,
            has_escapes,
            ..
        } => { if has_escapes { Some(end) } else { None } }
        _ => None,
    }
}

/// Whether the language allows a string with the content that stands in `input[start..end]`.
#[inline(always)]
fn allows_content(input: &[u8], language: Language, start: usize, end: usize) -> bool
    requires in_order { start ≤ end }
    requires within { end ≤ length input.now }
    ensures { result ≡ true → (escaped : Bool) (s : SpecSpan)
        → Allows (language_of language) input.now (record { kind = string start end escaped; span = s }) }
{
    match language {
        Language::Plain | Language::Jsonc => true,
        Language::Strict => check_string_strict(input, start, end).is_ok(),
    }
}

/// The least byte that may stand unescaped in a text of this language.
#[inline(always)]
fn least_in(language: Language) -> u8
    ensures { result ≡ least_of (language_of language) }
{
    match language {
        Language::Plain | Language::Jsonc => 0,
        Language::Strict => b' ',
    }
}

/// The end of such a text whose ordinary bytes end at `from`, by a call.
#[inline(never)]
fn other_text_end(input: &[u8], at: usize, from: usize, least: u8) -> Option<usize>
    requires here { slice_get input.now at ≡ Some quote }
    requires ordinary { from ≡ (at + 1) + prefix_len (is_ordinary least) (drop (at + 1) input.now) }
    ensures { IfSome result (λ end. IsClosedAt least input.now at end × IsUtf8 (slice_range input.now (at + 1) end)) }
{
    let (end, _) = other_text_at(input, at, from, least)?;
    Some(end)
}

/// The text of a string in which no escape and no byte below `least` stands.
#[inline(always)]
fn text_from<'de>(input: &'de [u8], trust: Trust, at: usize, least: u8) -> Option<(usize, &'de str)>
    requires here { slice_get input.now at ≡ Some quote }
    requires utf8 { trust ≡ Trust.Utf8 → IsUtf8 input.now }
    ensures text { IfSome result (λ r. IsPlainText input.now at r.0 r.1.now) }
    ensures unescaped { IfSome result (λ r. AreUnescaped least (slice_range input.now (at + 1) r.0)) }
    ensures within { IfSome result (λ r. (at < r.0) × (r.0 < length input.now)) }
{
    match trust {
        Trust::Nothing => checked_text_at(input, at, least),
        Trust::Utf8 => quoted_text_at(input, at, least),
    }
}

/// The text of the string whose quote is at `at`, where no escape and no byte below `least` stands in it and it is UTF-8, and the
/// offset of the quote that closes it.
#[inline(always)]
fn checked_text_at<'de>(input: &'de [u8], at: usize, least: u8) -> Option<(usize, &'de str)>
    requires here { slice_get input.now at ≡ Some quote }
    ensures text { IfSome result (λ r. IsPlainText input.now at r.0 r.1.now) }
    ensures unescaped { IfSome result (λ r. AreUnescaped least (slice_range input.now (at + 1) r.0)) }
    ensures within { IfSome result (λ r. (at < r.0) × (r.0 < length input.now)) }
{
    let end = run_end::<Ordinary>(input, at + 1, least);
    match input.get(end) {
        Some(b'"') => Some((end, plain_text_unchecked(input, at + 1, end))),
        _ => other_text_at(input, at, end, least),
    }
}

/// The text of such a string whose ordinary bytes end at `from`. Where a byte that is no ASCII ends them, the text's end is sought, and
/// then it is checked, from there on. Another byte, as the backslash of an escape, tells at once that there is no such text.
#[inline(never)]
fn other_text_at<'de>(
    input: &'de [u8],
    at: usize,
    from: usize,
    least: u8,
) -> Option<(usize, &'de str)>
    requires here { slice_get input.now at ≡ Some quote }
    requires ordinary { from ≡ (at + 1) + prefix_len (is_ordinary least) (drop (at + 1) input.now) }
    ensures text { IfSome result (λ r. IsClosedAt least input.now at r.0 × IsPlainText input.now at r.0 r.1.now) }
    ensures utf8 { IfSome result (λ r. IsUtf8 (slice_range input.now (at + 1) r.0)) }
{
    let Some(0x80..) = input.get(from) else {
        return None;
    };
    let end = closing_quote(input, at, from, least)?;
    match str::from_utf8(&input[from..end]) {
        Ok(_) => Some((end, plain_text_unchecked(input, at + 1, end))),
        Err(_) => None,
    }
}

/// As `checked_text_at`, of an input that is UTF-8: nothing is checked.
#[inline(always)]
fn quoted_text_at<'de>(input: &'de [u8], at: usize, least: u8) -> Option<(usize, &'de str)>
    requires here { slice_get input.now at ≡ Some quote }
    requires utf8 { IsUtf8 input.now }
    ensures text { IfSome result (λ r. IsPlainText input.now at r.0 r.1.now) }
    ensures unescaped { IfSome result (λ r. AreUnescaped least (slice_range input.now (at + 1) r.0)) }
    ensures within { IfSome result (λ r. (at < r.0) × (r.0 < length input.now)) }
{
    match closing_quote(input, at, at + 1, least) {
        Some(end) => Some((end, quoted_text(input, at + 1, end))),
        None => None,
    }
}

/// The offset of the quote that closes the string whose quote is at `at`, where no other byte ends the run of its text before. It is
/// sought from `from` on, a place within that run.
#[inline(always)]
fn closing_quote(input: &[u8], at: usize, from: usize, least: u8) -> Option<usize>
    requires here { slice_get input.now at ≡ Some quote }
    requires ahead { at < from }
    requires passed { from ≤ (at + 1) + prefix_len (is_unescaped least) (drop (at + 1) input.now) }
    ensures closed { IfSome result (λ end. IsClosedAt least input.now at end) }
    ensures after { IfSome result (λ end. from ≤ end) }
{
    let end = run_end::<Unescaped>(input, from, least);
    match input.get(end) {
        Some(b'"') => Some(end),
        _ => None,
    }
}

/// Bytes that end a run of a text in which none below a bound may stand, a quote and a backslash among them.
trait Ends {
    /// By the bound, whether a byte is one of them.
    ghost ends: { ℕ → ℕ → Bool };

    /// A bit for each of thirty-two bytes that is one of them.
    fn stops(window: u8x32, least: u8) -> u64
        ensures { result ≡ mask_l (map (ends least) window) };

    /// A bit for each of sixteen bytes that is one of them.
    fn first_stops(window: u8x16, least: u8) -> u64
        ensures { result ≡ mask_l (map (ends least) window) };

    /// Whether a byte is one of them.
    fn stops_at(byte: u8, least: u8) -> bool
        ensures { result ≡ ends least byte };
}

/// Bytes that may stand in a text unescaped: any other ends their run.
struct Unescaped;

impl Ends for Unescaped {
    ghost ends = { is_stop_from };

    #[inline(always)]
    fn stops(window: u8x32, least: u8) -> u64 {
        let ends = window.simd_eq(u8x32::splat(b'"')) | window.simd_eq(u8x32::splat(b'\\'));
        (ends | window.simd_lt(u8x32::splat(least))).to_bitmask()
    }

    #[inline(always)]
    fn first_stops(window: u8x16, least: u8) -> u64 {
        let ends = window.simd_eq(u8x16::splat(b'"')) | window.simd_eq(u8x16::splat(b'\\'));
        (ends | window.simd_lt(u8x16::splat(least))).to_bitmask()
    }

    #[inline(always)]
    fn stops_at(byte: u8, least: u8) -> bool {
        byte == b'"' || byte == b'\\' || byte < least
    }
}

/// Those of them that are ASCII: any other ends their run.
struct Ordinary;

impl Ends for Ordinary {
    ghost ends = { is_mark };

    #[inline(always)]
    fn stops(window: u8x32, least: u8) -> u64 {
        let ends = window.simd_eq(u8x32::splat(b'"')) | window.simd_eq(u8x32::splat(b'\\'));
        let others = window.simd_ge(u8x32::splat(0x80)) | window.simd_lt(u8x32::splat(least));
        (ends | others).to_bitmask()
    }

    #[inline(always)]
    fn first_stops(window: u8x16, least: u8) -> u64 {
        let ends = window.simd_eq(u8x16::splat(b'"')) | window.simd_eq(u8x16::splat(b'\\'));
        let others = window.simd_ge(u8x16::splat(0x80)) | window.simd_lt(u8x16::splat(least));
        (ends | others).to_bitmask()
    }

    #[inline(always)]
    fn stops_at(byte: u8, least: u8) -> bool {
        byte == b'"' || byte == b'\\' || byte < least || byte >= 0x80
    }
}

/// The offset of the first of these bytes from `from` on, or the length. Most texts are short, so sixteen bytes are looked at first.
#[inline(always)]
fn run_end<E: Ends>(buffer: &[u8], from: usize, least: u8) -> usize
    requires { from ≤ length buffer.now }
    ensures value { result ≡ from + prefix_len (λ b. not (E.ends least b)) (drop from buffer.now) }
    ensures ahead { from ≤ result }
    ensures within { result ≤ length buffer.now }
{
    if buffer.len() - from < 16 {
        return run_end_bytewise::<E>(buffer, from, least);
    }
    let found = E::first_stops(u8x16::from_slice(&buffer[from..]), least);
    if found != 0 {
        return from + found.trailing_zeros() as usize;
    }
    run_end_out_of_line::<E>(buffer, from + 16, least)
}

/// The offset of the first of these bytes from `from` on, or the length, by a call. Where the bound is 0, no byte is compared with it.
#[inline(never)]
fn run_end_out_of_line<E: Ends>(buffer: &[u8], from: usize, least: u8) -> usize
    requires { from ≤ length buffer.now }
    ensures value { result ≡ from + prefix_len (λ b. not (E.ends least b)) (drop from buffer.now) }
    ensures ahead { from ≤ result }
    ensures within { result ≤ length buffer.now }
{
    if least == 0 {
        run_end_wide::<E>(buffer, from, 0)
    } else {
        run_end_wide::<E>(buffer, from, least)
    }
}

/// The offset of the first of these bytes from `from` on, or the length, sought thirty-two bytes at a time.
#[inline(always)]
fn run_end_wide<E: Ends>(buffer: &[u8], from: usize, least: u8) -> usize
    requires { from ≤ length buffer.now }
    ensures value { result ≡ from + prefix_len (λ b. not (E.ends least b)) (drop from buffer.now) }
    ensures ahead { from ≤ result }
    ensures within { result ≤ length buffer.now }
{
    let mut at = from;
    while buffer.len() - at >= 32 {
        let found = E::stops(u8x32::from_slice(&buffer[at..]), least);
        if found != 0 {
            return at + found.trailing_zeros() as usize;
        }
        at += 32;
    }
    run_end_bytewise::<E>(buffer, at, least)
}

/// The offset of the first of these bytes, sought byte by byte: in what is left after the last window.
#[inline(never)]
fn run_end_bytewise<E: Ends>(buffer: &[u8], from: usize, least: u8) -> usize
    requires { from ≤ length buffer.now }
    ensures value { result ≡ from + prefix_len (λ b. not (E.ends least b)) (drop from buffer.now) }
    ensures ahead { from ≤ result }
    ensures within { result ≤ length buffer.now }
{
    let mut at = from;
    while at < buffer.len() && !E::stops_at(buffer[at], least) {
        at += 1;
    }
    at
}
