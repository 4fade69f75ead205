//! Tokens that open and close nothing, passed without a token made of them, where a few bytes tell them.

ghost use Rattle.std.specs.Prelude.{◌≡◌, ◌≤◌, ◌<◌, length, Some, slice_get, IfSome};
ghost use Rattle.facet_json_token.specs.Cut.{start_of, opens_number};
ghost use Rattle.facet_json_token.specs.Gap.{Mode as SpecMode};
ghost use Rattle.facet_json_token.specs.Views.{mode_of};
ghost use Rattle.facet_json_parser.specs.Inner.Quiet.{RunLeadsOn, EndsGap};

use facet_format::numeral::parts_at;
use facet_json_token::Mode;
use facet_json_token::quick::{gap_end, plain_text_end};

/// The offset, after a gap, up to which texts without an escape, numbers, commas and colons stand from `position` on.
#[inline(always)]
pub(crate) fn past_quiet(input: &[u8], position: usize, mode: Mode) -> usize
    requires { position ≤ length input.now }
    ensures { RunLeadsOn input.now (mode_of mode) position result }
{
    let mut at = gap_end(input, position, mode);
    while let Some(end) = quiet_end(input, at) {
        at = gap_end(input, end, mode);
    }
    at
}

/// The offset after the text, the number, the comma or the colon at `at`, and after the comma or colon right after it.
#[inline(always)]
fn quiet_end(input: &[u8], at: usize) -> Option<usize>
    ensures on { (mode : SpecMode) → EndsGap input.now mode at → IfSome result (λ end. RunLeadsOn input.now mode at end) }
    ensures past { IfSome result (λ end. (at < end) × (end ≤ length input.now)) }
{
    let end = token_end(input, at)?;
    Some(past_separator(input, end))
}

/// The offset after the text without an escape, the number, the comma or the colon at `at`.
#[inline(always)]
fn token_end(input: &[u8], at: usize) -> Option<usize>
    ensures on { (mode : SpecMode) → EndsGap input.now mode at → IfSome result (λ end. RunLeadsOn input.now mode at end) }
    ensures past { IfSome result (λ end. (at < end) × (end ≤ length input.now)) }
{
    let first = *input.get(at)?;
    match first {
        b'"' => Some(plain_text_end(input, at)? + 1),
        b',' => Some(at + 1),
        b':' => Some(at + 1),
        b'-' | b'0'..=b'9' => number_end(input, at, first),
        _ => None,
    }
}

/// The offset after the number at `at`, of which this is the first byte.
#[inline(always)]
fn number_end(input: &[u8], at: usize, first: u8) -> Option<usize>
    requires here { slice_get input.now at ≡ Some first }
    requires number { start_of first ≡ opens_number }
    ensures on { (mode : SpecMode) → EndsGap input.now mode at → IfSome result (λ end. RunLeadsOn input.now mode at end) }
    ensures past { IfSome result (λ end. (at < end) × (end ≤ length input.now)) }
{
    let parts = parts_at(input, at);
    if parts.is_bare() {
        return None;
    }
    Some(at + parts.len())
}

/// The offset after the comma or colon at `at`, if one stands there.
#[inline(always)]
fn past_separator(input: &[u8], at: usize) -> usize
    requires { at ≤ length input.now }
    ensures { (mode : SpecMode) → RunLeadsOn input.now mode at result }
{
    match input.get(at) {
        Some(b',') => at + 1,
        Some(b':') => at + 1,
        _ => at,
    }
}
