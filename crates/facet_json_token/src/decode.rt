//! Strings' contents to text (RFC 8259, section 7), in one pass: runs of bytes up to a backslash are checked and copied
//! whole, and escapes between them are read one by one, in `escape`.

ghost use Rattle.std.specs.Prelude.{◌≡◌, ℕ, ◌≤◌, ◌<◌, List, [], Some, None, true, false, length, slice_range, slice_index, string_bytes};
ghost use Rattle.std.specs.Prelude.{Err, IfOk, IfErr, IfSome, IsSome, IsUtf8, MatchOption, MatchResult};
ghost use Rattle.std.specs.Cow.{cow_str_bytes, IsOwnedStr, IsBorrowedStr};
ghost use Rattle.facet_json_token.specs.declared.decode.DecodeError.TheVariants as refusal;
ghost use Rattle.facet_format.specs.Bytes.{backslash};
ghost use Rattle.facet_json_token.specs.Decode.{Decodes};
ghost use Rattle.facet_json_token.specs.Decoded.{decoded};
ghost use Rattle.facet_json_token.specs.Cut.{has_backslash};
ghost use Rattle.facet_json_token.specs.DecodeViews.{IsItsText, IsFirstRefusal, RefusesContent, SaysScan, whole_refused};
ghost use Rattle.facet_json_token.specs.Inner.Run.{StopsBeingText};
ghost use Rattle.facet_json_token.specs.Views.{told_refusal};

mod escape;
mod unchecked;

use crate::ascii::ascii_text;
use crate::fault::{Fault, FaultKind};
use crate::mode::Trust;
use crate::quick::{plain_text, plain_text_unchecked};
use crate::runs::{Unescaped, run_end_within};
use crate::token::{ScanError, ScanErrorKind};
use escape::escape_at;
use facet_format::Span;
use std::alloc::{AllocError, Global};
use std::borrow::CowStr;
use std::str;
pub use unchecked::{
    decode_string_borrowed_unchecked, decode_string_owned_unchecked, decode_string_unchecked,
};

/// Why a string's content has no text, or why it could not be built.
#[derive(Debug, PartialEq, Drop)]
pub enum DecodeError {
    /// The content has no text: what is wrong first, and where.
    Scan(ScanError),
    /// An allocation failed.
    OutOfMemory,
}

impl From<ScanError> for DecodeError {
    ghost from_gives = { λ scan e. e ≡ refusal.Scan scan };

    fn from(error: ScanError) -> Self {
        DecodeError::Scan(error)
    }
}

impl From<Fault> for DecodeError {
    ghost from_gives = { λ fault e. SaysScan fault e };

    fn from(fault: Fault) -> Self {
        DecodeError::Scan(ScanError::from(fault))
    }
}

impl From<AllocError> for DecodeError {
    ghost from_gives = { λ _ e. e ≡ refusal.OutOfMemory };

    fn from(_e: AllocError) -> Self {
        DecodeError::OutOfMemory
    }
}

/// Decodes the content of a string (RFC 8259, section 7) that stands in `buf[start..end]`, between its quotes. A
/// backslash before an ASCII character without an escape is passed over. A refusal is about the first thing from
/// the left that has no text, with offsets of `buf`; it takes room for `end - start` bytes at once.
///
/// ```text
/// decode_string_owned(alloc, br"caf\u00e9\n", 0, 11)   Ok: "café" and a line feed
/// decode_string_owned(alloc, br"\q", 0, 2)             Ok: "q"
/// decode_string_owned(alloc, br"\ud800", 0, 6)         Err: InvalidUtf8, span 0+6
/// decode_string_owned(alloc, br"\u+123", 0, 6)         Err: UnexpectedChar('?'), span 2+4
/// decode_string_owned(alloc, br"a\u12", 0, 5)          Err: UnexpectedEof("in unicode escape"), span 1+4
/// ```
pub fn decode_string_owned(
    alloc: Global,
    buf: &[u8],
    start: usize,
    end: usize,
) -> Result<String, DecodeError>
    requires in_order { start ≤ end }
    requires in_range { end ≤ length buf.now }
    ensures text { IfOk result (λ s. decoded (slice_range buf.now start end) ≡ Some (string_bytes s)) }
    ensures decodes { IfOk result (λ s. Decodes (slice_range buf.now start end) (string_bytes s)) }
    ensures refused { IfErr result (λ e. RefusesContent buf.now start end e) }
    ensures only { (text : List ℕ) → decoded (slice_range buf.now start end) ≡ Some text
        → MatchResult result (λ s. string_bytes s ≡ text) (λ e. e ≡ DecodeError.OutOfMemory) }
{
    decode_runs(alloc, buf, start, end, Trust::Nothing)
}

/// Decodes a content run by run and escape by escape, for `decode_string_owned` and its unchecked form.
fn decode_runs(
    alloc: Global,
    buf: &[u8],
    start: usize,
    end: usize,
    trust: Trust,
) -> Result<String, DecodeError>
    requires in_order { start ≤ end }
    requires in_range { end ≤ length buf.now }
    requires utf8 { trust ≡ Trust.Utf8 → IsUtf8 (slice_range buf.now start end) }
    ensures text { IfOk result (λ s. decoded (slice_range buf.now start end) ≡ Some (string_bytes s)) }
    ensures decodes { IfOk result (λ s. Decodes (slice_range buf.now start end) (string_bytes s)) }
    ensures refused { IfErr result (λ e. RefusesContent buf.now start end e) }
    ensures only { (text : List ℕ) → decoded (slice_range buf.now start end) ≡ Some text
        → MatchResult result (λ s. string_bytes s ≡ text) (λ e. e ≡ DecodeError.OutOfMemory) }
{
    let mut text = String::with_capacity(alloc, end - start)?;
    match push_runs(&mut text, buf, start, end, trust) {
        Ok(()) => Ok(text),
        Err(error) => Err(error),
    }
}

/// Appends the text of a content to one that is empty.
fn push_runs(
    text: &mut String,
    buf: &[u8],
    start: usize,
    end: usize,
    trust: Trust,
) -> Result<(), DecodeError>
    requires in_order { start ≤ end }
    requires in_range { end ≤ length buf.now }
    requires utf8 { trust ≡ Trust.Utf8 → IsUtf8 (slice_range buf.now start end) }
    requires empty { string_bytes text.now ≡ [] }
    ensures decodes { IfOk result (λ _. Decodes (slice_range buf.now start end) (string_bytes text.new)) }
    ensures refused { IfErr result (λ e. RefusesContent buf.now start end e) }
{
    let mut at = start;
    while at < end {
        if buf[at] == b'\\' {
            let escape = escape_at(&buf[at..end], at)?;
            text.push(escape.character)?;
            at += escape.len;
        } else {
            let stop = run_end(buf, at, end);
            text.push_str(run_text(buf, at, stop, trust)?)?;
            at = stop;
        }
    }
    Ok(())
}

/// Whether the content of a string that stands in `buf[start..end]` has a text: the refusal of `decode_string_owned`
/// where it has none. Does not allocate.
///
/// ```text
/// check_content(br"caf\u00e9\n", 0, 11)   Ok
/// check_content(br"\ud800", 0, 6)         Err: InvalidUtf8, span 0+6
/// ```
pub fn check_content(buf: &[u8], start: usize, end: usize) -> Result<(), Fault>
    requires in_order { start ≤ end }
    requires in_range { end ≤ length buf.now }
    ensures text { IfOk result (λ _. IsSome (decoded (slice_range buf.now start end))) }
    ensures refused { IfErr result (λ e. IsFirstRefusal (slice_range buf.now start end) start (told_refusal e)) }
{
    let mut at = start;
    while at < end {
        if buf[at] == b'\\' {
            let escape = escape_at(&buf[at..end], at)?;
            at += escape.len;
        } else {
            let stop = run_end(buf, at, end);
            run_at(buf, at, stop)?;
            at = stop;
        }
    }
    Ok(())
}

/// Where the bytes from `at` on that are no backslash end.
#[inline(always)]
fn run_end(buf: &[u8], at: usize, end: usize) -> usize
    requires in_order { at ≤ end }
    requires in_range { end ≤ length buf.now }
    ensures ahead { at ≤ result }
    ensures within { result ≤ end }
    ensures plain { has_backslash (slice_range buf.now at result) ≡ false }
    ensures stops { result < end → slice_index buf.now result ≡ backslash }
{
    run_end_within::<Unescaped>(buf, at, end)
}

/// The text of bytes among which no backslash stands.
#[inline(always)]
fn run_at(buf: &[u8], at: usize, stop: usize) -> Result<&str, Fault>
    requires in_order { at ≤ stop }
    requires in_range { stop ≤ length buf.now }
    ensures text { IfOk result (λ s. (s.now ≡ slice_range buf.now at stop) × IsUtf8 (slice_range buf.now at stop)) }
    ensures none { IfErr result (λ _. IsUtf8 (slice_range buf.now at stop) → ⊥) }
    ensures refused { IfErr result (λ e. StopsBeingText (slice_range buf.now at stop) at e) }
{
    if let Some(text) = ascii_text(buf, at, stop) {
        return Ok(text);
    }
    match str::from_utf8(&buf[at..stop]) {
        Ok(text) => Ok(text),
        Err(error) => Err(Fault {
            kind: FaultKind::InvalidUtf8,
            span: Span::new(at + error.valid_up_to(), 1),
        }),
    }
}

/// The text of a run, whose bytes are checked where nothing is known of them.
#[inline(always)]
fn run_text(buf: &[u8], at: usize, stop: usize, trust: Trust) -> Result<&str, Fault>
    requires in_order { at ≤ stop }
    requires in_range { stop ≤ length buf.now }
    requires utf8 { trust ≡ Trust.Utf8 → IsUtf8 (slice_range buf.now at stop) }
    ensures text { IfOk result (λ s. (s.now ≡ slice_range buf.now at stop) × IsUtf8 (slice_range buf.now at stop)) }
    ensures none { IfErr result (λ _. IsUtf8 (slice_range buf.now at stop) → ⊥) }
    ensures refused { IfErr result (λ e. StopsBeingText (slice_range buf.now at stop) at e) }
{
    match trust {
        Trust::Nothing => run_at(buf, at, stop),
        // The requirement is what the call needs.
        Trust::Utf8 => Ok(unsafe { str::from_utf8_unchecked(&buf[at..stop]) }),
    }
}

/// The content of a string that stands in `buf[start..end]`, where that is its text: where no backslash stands in it,
/// and its bytes are UTF-8.
pub fn decode_string_borrowed(buf: &[u8], start: usize, end: usize) -> Option<&str>
    requires in_order { start ≤ end }
    requires in_range { end ≤ length buf.now }
    ensures borrowed { MatchOption result (IsItsText (slice_range buf.now start end) → ⊥)
        (λ s. (s.now ≡ slice_range buf.now start end) × IsItsText (slice_range buf.now start end)) }
    ensures text { IfSome result (λ s. decoded (slice_range buf.now start end) ≡ Some s.now) }
{
    borrowed_run(buf, start, end, Trust::Nothing)
}

/// The content of a string where it is one run of text, for `decode_string_borrowed` and its unchecked form.
fn borrowed_run(buf: &[u8], start: usize, end: usize, trust: Trust) -> Option<&str>
    requires in_order { start ≤ end }
    requires in_range { end ≤ length buf.now }
    requires utf8 { trust ≡ Trust.Utf8 → IsUtf8 (slice_range buf.now start end) }
    ensures borrowed { MatchOption result (IsItsText (slice_range buf.now start end) → ⊥)
        (λ s. (s.now ≡ slice_range buf.now start end) × IsItsText (slice_range buf.now start end)) }
    ensures text { IfSome result (λ s. decoded (slice_range buf.now start end) ≡ Some s.now) }
{
    if run_end(buf, start, end) < end {
        return None;
    }
    match trust {
        Trust::Nothing => plain_text(buf, start, end),
        Trust::Utf8 => Some(plain_text_unchecked(buf, start, end)),
    }
}

/// Decodes the content of a string that stands in `buf[start..end]`: into a text of its own where `has_escapes` says
/// that a backslash stands in it, and without memory elsewhere.
pub fn decode_string<'b>(
    alloc: Global,
    buf: &'b [u8],
    start: usize,
    end: usize,
    has_escapes: bool,
) -> Result<CowStr<'b>, DecodeError>
    requires in_order { start ≤ end }
    requires in_range { end ≤ length buf.now }
    ensures text { IfOk result (λ c. decoded (slice_range buf.now start end) ≡ Some (cow_str_bytes c)) }
    ensures owned { has_escapes ≡ true
        → MatchResult result (λ c. IsOwnedStr c) (λ e. RefusesContent buf.now start end e) }
    ensures borrowed { has_escapes ≡ false → MatchResult result
        (λ c. IsBorrowedStr c × (cow_str_bytes c ≡ slice_range buf.now start end)
        × IsItsText (slice_range buf.now start end))
        (λ e. (e ≡ whole_refused start end) × (IsItsText (slice_range buf.now start end) → ⊥)) }
{
    if has_escapes {
        let text = decode_string_owned(alloc, buf, start, end)?;
        return Ok(CowStr::Owned(text));
    }
    lent(decode_string_borrowed(buf, start, end), start, end)
}

/// The content that is its own text, without memory, or the refusal of one that isn't.
fn lent<'b>(text: Option<&'b str>, start: usize, end: usize) -> Result<CowStr<'b>, DecodeError>
    requires { start ≤ end }
    ensures { MatchOption text.entry
        (result ≡ Err (whole_refused start end))
        (λ s. MatchResult result (λ c. IsBorrowedStr c × (cow_str_bytes c ≡ s.now)) (λ _. ⊥)) }
{
    match text {
        Some(text) => Ok(CowStr::Borrowed(text)),
        None => Err(DecodeError::Scan(ScanError {
            kind: ScanErrorKind::InvalidUtf8,
            span: Span::new(start, end - start),
        })),
    }
}
