//! What `facet_json_token` cuts and checks, with its faults as users see them.

ghost use Rattle.std.specs.Prelude.{◌≡◌, ◌≤◌, Ok, Some, None, length, slice_range, IfErr, IfOk, IsSome, MatchResult};
ghost use Rattle.facet_format.specs.Span.{span_at};
ghost use Rattle.facet_format.specs.Views.{span_of};
ghost use Rattle.facet_json_token.specs.Cut as spec_cut;
ghost use Rattle.facet_json_token.specs.Decoded.{decoded};
ghost use Rattle.facet_json_token.specs.DecodeViews.{TellsFirstFault};
ghost use Rattle.facet_json_token.specs.RfcNumber.{IsRfcNumber};
ghost use Rattle.facet_json_token.specs.Strict.{content_fault};
ghost use Rattle.facet_json_token.specs.NumberViews.{number_refusal};
ghost use Rattle.facet_json_token.specs.StrictViews.{TellsWrong};
ghost use Rattle.facet_json_token.specs.Views.{cut_of, mode_of, scanned};

use facet_json_token::quick::{past_space, token_in_sight};
use facet_json_token::{CutResult, Mode, ScanError, ScanResult, Token};

/// What is cut, as users see it.
#[inline(always)]
pub(crate) fn told(cut: CutResult) -> ScanResult
    ensures answer { scanned result ≡ cut_of cut }
    ensures token { IfOk result (λ t. cut ≡ Ok t) }
{
    match cut {
        Ok(token) => Ok(token),
        Err(fault) => Err(ScanError::from(fault)),
    }
}

/// Cuts what stands at `position`: the gap (RFC 8259, section 2), and then a token, the end or a fault. `buffer` is the
/// whole input.
///
/// ```text
/// cut(b" [1]", 0, Mode::Plain)    Ok: Token::ArrayStart, span 1+1
/// cut(b" [1]", 4, Mode::Plain)    Ok: Token::Eof, span 4+0
/// cut(b"trux", 0, Mode::Plain)    Err: ScanErrorKind::UnexpectedChar('x'), span 3+1
/// ```
#[inline(always)]
pub fn cut(buffer: &[u8], position: usize, mode: Mode) -> ScanResult
    requires { position ≤ length buffer.now }
    ensures answer { scanned result ≡ Some (spec_cut.cut buffer.now position (mode_of mode)) }
    ensures end { IfOk result (λ t. t.token ≡ Token.Eof → span_of t.span ≡ span_at (length buffer.now) 0) }
{
    let at = past_space(buffer, position);
    match token_in_sight(buffer, at) {
        Some(token) => Ok(token),
        None => cut_apart(buffer, at, mode),
    }
}

/// Cuts what is not in sight. Its answer is a value of its own, so that a token in sight, which never passes
/// through this, needs no memory.
#[inline(always)]
fn cut_apart(buffer: &[u8], position: usize, mode: Mode) -> ScanResult
    requires { position ≤ length buffer.now }
    ensures answer { scanned result ≡ Some (spec_cut.cut buffer.now position (mode_of mode)) }
    ensures end { IfOk result (λ t. t.token ≡ Token.Eof → span_of t.span ≡ span_at (length buffer.now) 0) }
{
    let result = cut_out_of_line(buffer, position, mode);
    result
}

/// Cuts what is not in sight, by a call: it stays out of the code for what is.
#[inline(never)]
fn cut_out_of_line(buffer: &[u8], position: usize, mode: Mode) -> ScanResult
    requires { position ≤ length buffer.now }
    ensures answer { scanned result ≡ Some (spec_cut.cut buffer.now position (mode_of mode)) }
    ensures end { IfOk result (λ t. t.token ≡ Token.Eof → span_of t.span ≡ span_at (length buffer.now) 0) }
{
    told(facet_json_token::cut(buffer, position, mode))
}

/// Whether the content of a string that stands in `buf[start..end]` has a text: the refusal of `decode_string_owned`
/// where it has none. Does not allocate.
///
/// ```text
/// check_content(br"caf\u00e9\n", 0, 11)   Ok
/// check_content(br"\ud800", 0, 6)         Err: InvalidUtf8, span 0+6
/// ```
pub fn check_content(buf: &[u8], start: usize, end: usize) -> Result<(), ScanError>
    requires in_order { start ≤ end }
    requires in_range { end ≤ length buf.now }
    ensures text { IfOk result (λ _. IsSome (decoded (slice_range buf.now start end))) }
    ensures refused { IfErr result (λ e. TellsFirstFault (slice_range buf.now start end) start e) }
{
    match facet_json_token::check_content(buf, start, end) {
        Ok(()) => Ok(()),
        Err(fault) => Err(ScanError::from(fault)),
    }
}

/// Whether the content that stands in `buf[start..end]` has no byte below 0x20, but where a backslash escapes it, and whether after
/// a backslash no other ASCII stands than RFC 8259 (section 7) has there. It is refused for the first byte that is wrong.
///
/// ```text
/// check_string_strict(br"a\u00e9\n", 0, 9)    Ok
/// check_string_strict(br"a\q", 0, 3)          Err: UnexpectedChar('q'), span 2+1
/// ```
pub fn check_string_strict(buf: &[u8], start: usize, end: usize) -> Result<(), ScanError>
    requires in_order { start ≤ end }
    requires within { end ≤ length buf.now }
    ensures { let content = slice_range buf.now start end in MatchResult result
        (λ _. content_fault start content ≡ None)
        (λ e. TellsWrong content start e) }
{
    match facet_json_token::check_string_strict(buf, start, end) {
        Ok(()) => Ok(()),
        Err(fault) => Err(ScanError::from(fault)),
    }
}

/// Whether `buf[start..end]` is a number of RFC 8259 (section 6): perhaps a minus, 0 or digits of which the first is another, and
/// perhaps a fraction and an exponent, each with digits. Else it is refused as a question mark over the slice.
///
/// ```text
/// check_number_strict(b"[-0.5e+1]", 1, 8)    Ok
/// check_number_strict(b"[007]", 1, 4)        Err: UnexpectedChar('?'), span 1+3
/// ```
pub fn check_number_strict(buf: &[u8], start: usize, end: usize) -> Result<(), ScanError>
    requires in_order { start ≤ end }
    requires within { end ≤ length buf.now }
    ensures { let text = slice_range buf.now start end in MatchResult result
        (λ _. IsRfcNumber text)
        (λ e. (IsRfcNumber text → ⊥) × (e ≡ number_refusal start end)) }
{
    match facet_json_token::check_number_strict(buf, start, end) {
        Ok(()) => Ok(()),
        Err(fault) => Err(ScanError::from(fault)),
    }
}
