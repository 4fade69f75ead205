//! Whether a string's content is one of RFC 8259, as far as it is told before it is decoded.

ghost use Rattle.std.specs.Prelude.{◌≡◌, ◌≤◌, ◌<◌, None, true, get_or, length, slice_range, MatchResult};
ghost use Rattle.facet_json_token.specs.Strict.{content_fault, may_stand};
ghost use Rattle.facet_json_token.specs.StrictViews.{IsWrong, byte_fault};
ghost use Rattle.facet_json_token.specs.Views.{cut_of};

use crate::fault::{Fault, FaultKind};
use crate::runs::{RfcPlain, run_end_within};
use facet_format::Span;

/// Whether the content that stands in `buf[start..end]` has no byte below 0x20, but where a backslash escapes it, and whether after
/// a backslash no other ASCII stands than RFC 8259 (section 7) has there. It is refused for the first byte that is wrong.
///
/// ```text
/// check_string_strict(br"a\u00e9\n", 0, 9)    Ok
/// check_string_strict(br"a\q", 0, 3)          Err: UnexpectedChar('q'), span 2+1
/// ```
pub fn check_string_strict(buf: &[u8], start: usize, end: usize) -> Result<(), Fault>
    requires in_order { start ≤ end }
    requires within { end ≤ length buf.now }
    ensures { let content = slice_range buf.now start end in MatchResult result
        (λ _. content_fault start content ≡ None)
        (λ e. IsWrong content start (cut_of (Err e))) }
{
    let mut at = start;
    while at < end {
        at = run_end_within::<RfcPlain>(buf, at, end);
        if at == end {
            return Ok(());
        }
        if buf[at] != b'\\' {
            return Err(wrong(buf, at));
        }
        let escaped = at + 1;
        if escaped == end {
            return Ok(());
        }
        if !may_be_escaped(buf[escaped]) {
            return Err(wrong(buf, escaped));
        }
        at = escaped + 1;
    }
    Ok(())
}

/// Whether a byte may stand after a backslash: one of the nine that RFC 8259 names, or none of ASCII.
#[inline(always)]
fn may_be_escaped(byte: u8) -> bool
    ensures { result ≡ may_stand true byte }
{
    match byte {
        b'"' => true,
        b'\\' => true,
        b'/' => true,
        b'b' => true,
        b'f' => true,
        b'n' => true,
        b'r' => true,
        b't' => true,
        b'u' => true,
        _ => byte >= 0x80,
    }
}

/// The refusal of this byte.
#[inline(never)]
fn wrong(buf: &[u8], at: usize) -> Fault
    requires { at < length buf.now }
    ensures { result ≡ byte_fault (get_or buf.now at 0) at }
{
    Fault {
        kind: FaultKind::UnexpectedChar(char::from(buf[at])),
        span: Span::new(at, 1),
    }
}
