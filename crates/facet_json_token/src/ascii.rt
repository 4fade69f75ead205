//! ASCII, which is text as it is.

ghost use Rattle.std.specs.Prelude.{◌≡◌, ◌+◌, ◌≤◌, false, length, drop, nat_le, slice_range, IsUtf8, MatchOption};
ghost use Rattle.std.specs.List.{prefix_len};
ghost use Rattle.facet_json_token.specs.Inner.Ascii.{is_low};

use crate::runs::{Ascii, run_end_within};
use std::str;

/// The bytes from `start` up to `end` as a text, where all are below 0x80.
#[inline(always)]
pub(crate) fn ascii_text(buf: &[u8], start: usize, end: usize) -> Option<&str>
    requires in_order { start ≤ end }
    requires in_range { end ≤ length buf.now }
    ensures { MatchOption result (nat_le end (start + prefix_len is_low (drop start buf.now)) ≡ false)
        (λ s. (s.now ≡ slice_range buf.now start end) × IsUtf8 (slice_range buf.now start end)) }
{
    if is_ascii(buf, start, end) {
        // Such bytes are UTF-8.
        Some(unsafe { str::from_utf8_unchecked(&buf[start..end]) })
    } else {
        None
    }
}

/// Whether each byte from `start` up to `end` is below 0x80.
#[inline(always)]
fn is_ascii(buf: &[u8], start: usize, end: usize) -> bool
    requires in_order { start ≤ end }
    requires in_range { end ≤ length buf.now }
    ensures { result ≡ nat_le end (start + prefix_len is_low (drop start buf.now)) }
{
    run_end_within::<Ascii>(buf, start, end) == end
}
