//! The decoders for contents that are known to be UTF-8, which they don't check again.

ghost use Rattle.std.specs.Prelude.{◌≡◌, ℕ, ◌+◌, ◌≤◌, List, Some, true, false, length, slice_range, string_bytes, IfOk, IfErr, IfSome};
ghost use Rattle.std.specs.Prelude.{IsUtf8, MatchOption, MatchResult};
ghost use Rattle.std.specs.Cow.{cow_str_bytes, IsOwnedStr, IsBorrowedStr};
ghost use Rattle.facet_json_token.specs.Decode.{Decodes};
ghost use Rattle.facet_json_token.specs.Decoded.{decoded};
ghost use Rattle.facet_json_token.specs.DecodeViews.{IsItsText, RefusesContent, whole_refused};

use super::{DecodeError, borrowed_run, decode_runs, lent};
use crate::mode::Trust;
use std::alloc::Global;
use std::borrow::CowStr;

/// As `decode_string_owned`, for a content in UTF-8.
pub fn decode_string_owned_unchecked(
    alloc: Global,
    buf: &[u8],
    start: usize,
    end: usize,
) -> Result<String, DecodeError>
    requires in_order { start ≤ end }
    requires in_range { end ≤ length buf.now }
    requires utf8 { IsUtf8 (slice_range buf.now start end) }
    ensures text { IfOk result (λ s. decoded (slice_range buf.now start end) ≡ Some (string_bytes s)) }
    ensures decodes { IfOk result (λ s. Decodes (slice_range buf.now start end) (string_bytes s)) }
    ensures refused { IfErr result (λ e. RefusesContent buf.now start end e) }
    ensures only { (text : List ℕ) → decoded (slice_range buf.now start end) ≡ Some text
        → MatchResult result (λ s. string_bytes s ≡ text) (λ e. e ≡ DecodeError.OutOfMemory) }
{
    decode_runs(alloc, buf, start, end, Trust::Utf8)
}

/// As `decode_string_borrowed`, for a content in UTF-8.
pub fn decode_string_borrowed_unchecked(buf: &[u8], start: usize, end: usize) -> Option<&str>
    requires in_order { start ≤ end }
    requires in_range { end ≤ length buf.now }
    requires utf8 { IsUtf8 (slice_range buf.now start end) }
    ensures borrowed { MatchOption result (IsItsText (slice_range buf.now start end) → ⊥)
        (λ s. (s.now ≡ slice_range buf.now start end) × IsItsText (slice_range buf.now start end)) }
    ensures text { IfSome result (λ s. decoded (slice_range buf.now start end) ≡ Some s.now) }
{
    borrowed_run(buf, start, end, Trust::Utf8)
}

/// As `decode_string`, for a content in UTF-8.
pub fn decode_string_unchecked<'b>(
    alloc: Global,
    buf: &'b [u8],
    start: usize,
    end: usize,
    has_escapes: bool,
) -> Result<CowStr<'b>, DecodeError>
    requires in_order { start ≤ end }
    requires in_range { end ≤ length buf.now }
    requires utf8 { IsUtf8 (slice_range buf.now start end) }
    ensures text { IfOk result (λ c. decoded (slice_range buf.now start end) ≡ Some (cow_str_bytes c)) }
    ensures owned { has_escapes ≡ true
        → MatchResult result (λ c. IsOwnedStr c) (λ e. RefusesContent buf.now start end e) }
    ensures borrowed { has_escapes ≡ false → MatchResult result
        (λ c. IsBorrowedStr c × (cow_str_bytes c ≡ slice_range buf.now start end)
        × IsItsText (slice_range buf.now start end))
        (λ e. (e ≡ whole_refused start end) × (IsItsText (slice_range buf.now start end) → ⊥)) }
{
    if has_escapes {
        let text = decode_string_owned_unchecked(alloc, buf, start, end)?;
        return Ok(CowStr::Owned(text));
    }
    lent(
        decode_string_borrowed_unchecked(buf, start, end),
        start,
        end,
    )
}
