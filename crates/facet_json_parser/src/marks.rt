//! Consumes a container 64 bytes at a time: of each block only the marked bytes are looked at.

ghost use Rattle.std.specs.Prelude.{◌≡◌, ◌≤◌, ◌<◌, ◌+◌, ◌-◌, ◌^◌, ◌==◌, ◌||◌, ℕ, true, false, Bool, suc, length, get_or, slice_get, Some};
ghost use Rattle.std.specs.Prelude.{IfOk};
ghost use Rattle.facet_format.specs.Span.{stop, span_at};
ghost use Rattle.facet_format.specs.Views.{span_of};
ghost use Rattle.facet_format.specs.Bytes.{is_digit, backslash, dot, is_exponent_mark};
ghost use Rattle.facet_json_token.specs.Views.{mode_of};
ghost use Rattle.facet_json_token.specs.Gap.{Mode as SpecMode};
ghost use Rattle.facet_json_parser.specs.Inner.Marks.{test, inside, is_calm, is_marked};
ghost use Rattle.facet_json_parser.specs.Inner.Passing.{IsPassed, Outside, InText};
ghost use Rattle.facet_json_parser.specs.Inner.Quiet.{RunLeadsOn};
ghost use Rattle.facet_json_parser.specs.Inner.Leads.{PassesOn, AreOpen};
ghost use Rattle.facet_json_parser.specs.Inner.Passages.{IsPassage};

use crate::block::block;
use crate::run::pass_mark;
use facet_format::Span;
use facet_json_reader::{Contexts, Refused};
use facet_json_token::Mode;
use std::simd::prelude::*;

/// How far a container is passed by blocks.
#[derive(Clone, Copy, Drop)]
pub(crate) struct Passage {
    /// The last token that was told, or an empty span where one may begin.
    pub(crate) passed: Span,
    /// The offset up to which bytes are passed.
    pub(crate) at: usize,
    /// Whether that stands within a text.
    pub(crate) within: bool,
    /// Whether to go on by blocks.
    pub(crate) goes_on: bool,
}

/// Consumes blocks while that pays, and the bracket is open that opened all.
#[inline(never)]
pub(crate) fn pass_blocks(
    contexts: &mut Contexts,
    input: &[u8],
    mode: Mode,
    from: Span,
    last: Span,
) -> Result<Passage, Refused>
    requires open { AreOpen contexts.old }
    requires within { stop (span_of from) ≤ length input.now }
    ensures leads { PassesOn input.now (mode_of mode) contexts.old (span_of from) (span_of last) result contexts.new
        (λ s. span_of s.passed) }
    ensures passage { IfOk result (λ s. IsPassage input.now (mode_of mode) s) }
    ensures onward { IfOk result (λ s. stop (span_of from) ≤ stop (span_of s.passed)) }
{
    let mut passage = settled_at(from, true);
    while passage.goes_on && input.len() - passage.at >= 64 {
        passage = pass_block(contexts, input, mode, passage, last)?;
    }
    Ok(passage)
}

/// Consumes a block, or goes on elsewhere.
#[inline(always)]
fn pass_block(
    contexts: &mut Contexts,
    input: &[u8],
    mode: Mode,
    passage: Passage,
    last: Span,
) -> Result<Passage, Refused>
    requires open { AreOpen contexts.old }
    requires passage { IsPassage input.now (mode_of mode) passage }
    requires room { passage.at + 64 ≤ length input.now }
    ensures leads { PassesOn input.now (mode_of mode) contexts.old (span_of passage.passed) (span_of last) result contexts.new
        (λ s. span_of s.passed) }
    ensures passage { IfOk result (λ s. IsPassage input.now (mode_of mode) s) }
    ensures onward { IfOk result (λ s. (stop (span_of passage.passed) ≤ stop (span_of s.passed)) × (s.goes_on ≡ true
        → (stop (span_of passage.passed) + passage.at < stop (span_of s.passed) + s.at) × AreOpen contexts.new)) }
{
    let v = u8x64::from_slice(&input[passage.at..]);
    let (marks, texts) = block(v, passage.within);
    if is_dense(marks) {
        return Ok(Passage {
            goes_on: false,
            ..passage
        });
    }
    pass_marks(input, mode, passage, v, marks, texts, last, contexts)
}

/// Whether so many bytes are marked that tokens pass them faster.
#[inline(always)]
fn is_dense(marks: u64) -> bool {
    // A mark with none right before it begins a run of marks.
    (marks & !(marks << 1)).count_ones() > 9 || marks.count_ones() > 40
}

/// Consumes a block by its marks.
#[inline(always)]
fn pass_marks(
    input: &[u8],
    mode: Mode,
    passage: Passage,
    v: u8x64,
    marks: u64,
    texts: u64,
    last: Span,
    contexts: &mut Contexts,
) -> Result<Passage, Refused>
    requires open { AreOpen contexts.old }
    requires passage { IsPassage input.now (mode_of mode) passage }
    requires room { passage.at + 64 ≤ length input.now }
    requires bytes { (i : ℕ) → i < 64 → get_or v i 0 ≡ get_or input.now (passage.at + i) 0 }
    requires marks { (i : ℕ) → i < 64 → test marks i ≡ is_marked passage.within v i }
    requires texts { (i : ℕ) → i < 64 → test texts i ≡ inside passage.within v (suc i) }
    ensures leads { PassesOn input.now (mode_of mode) contexts.old (span_of passage.passed) (span_of last) result contexts.new
        (λ s. span_of s.passed) }
    ensures passage { IfOk result (λ s. IsPassage input.now (mode_of mode) s) }
    ensures onward { IfOk result (λ s. (stop (span_of passage.passed) ≤ stop (span_of s.passed)) × (s.goes_on ≡ true
        → (stop (span_of passage.passed) + passage.at < stop (span_of s.passed) + s.at) × AreOpen contexts.new)) }
{
    let at = passage.at;
    let mut passed = passage.passed;
    let mut left = marks;
    while left != 0 {
        let place = left.trailing_zeros();
        let mark = at + place as usize;
        if (texts >> place) % 2 == 1 {
            return Ok(behind_escape(input, passed, mark));
        }
        let from = token_start(input, passed.end(), mark);
        passed = pass_mark(contexts, input, mode, passed, from, last)?;
        let goes_on = contexts.innermost().is_some();
        let behind = passed.end() - at;
        if !goes_on || behind == 0 || behind >= 64 || (texts >> (behind - 1)) % 2 == 1 {
            return Ok(settled_at(passed, goes_on));
        }
        // What stands before this byte was passed with its token.
        left &= u64::MAX << behind;
    }
    Ok(behind_block(input, passed, at + 64, texts >> 63 == 1))
}

/// Goes on behind this token.
#[inline(always)]
fn settled_at(passed: Span, goes_on: bool) -> Passage
    ensures { (result.passed ≡ passed) × (result.within ≡ false) × (result.goes_on ≡ goes_on)
        × (stop (span_of passed) < 2 ^ 64 → result.at ≡ stop (span_of passed)) }
{
    Passage {
        passed,
        at: passed.end(),
        within: false,
        goes_on,
    }
}

/// Goes on behind the backslash of a text and the byte that it escapes.
#[inline(always)]
fn behind_escape(input: &[u8], passed: Span, mark: usize) -> Passage
    requires { mark < length input.now }
    ensures passage { (mode : SpecMode) → InText input.now mode (stop (span_of passed)) mark → slice_get input.now mark ≡ Some backslash
        → IsPassage input.now mode result }
    ensures passed { result.passed ≡ passed }
    ensures onward { result.goes_on ≡ true → mark < result.at }
{
    if input.len() - mark >= 2 {
        Passage {
            passed,
            at: mark + 2,
            within: true,
            goes_on: true,
        }
    } else {
        Passage {
            passed,
            at: mark,
            within: true,
            goes_on: false,
        }
    }
}

/// Goes on behind a block, from there if no text and no number may go on.
#[inline(always)]
fn behind_block(input: &[u8], passed: Span, at: usize, within: bool) -> Passage
    requires within { (0 < at) × (at ≤ length input.now) }
    requires passed { stop (span_of passed) ≤ at }
    ensures passage { (mode : SpecMode) → IsPassed input.now mode (stop (span_of passed)) at within → IsPassage input.now mode result }
    ensures on { (mode : SpecMode) → IsPassed input.now mode (stop (span_of passed)) at within
        → RunLeadsOn input.now mode (stop (span_of passed)) (stop (span_of result.passed))
        × (span_of result.passed ≡ span_at (stop (span_of result.passed)) 0) }
    ensures at { result.at ≡ at }
{
    let settled = settled_before(input, passed.end(), at, within);
    Passage {
        passed: Span::new(settled, 0),
        at,
        within,
        goes_on: true,
    }
}

/// The offset itself, if no text and no number may go on there; else the one up to which tokens are passed.
#[inline(always)]
fn settled_before(input: &[u8], settled: usize, at: usize, within: bool) -> usize
    requires { (0 < at) × (at ≤ length input.now) }
    ensures { (mode : SpecMode) → IsPassed input.now mode settled at within → RunLeadsOn input.now mode settled result
        × IsPassed input.now mode result at within }
{
    if within {
        return settled;
    }
    if input[at - 1].is_ascii_digit() {
        return settled;
    }
    at
}

/// Where the token begins that a mark outside of texts is of: a point or an exponent goes on a number.
#[inline(always)]
fn token_start(input: &[u8], settled: usize, mark: usize) -> usize
    requires { mark < length input.now }
    ensures on { (mode : SpecMode) → Outside input.now mode settled mark → is_calm (get_or input.now mark 0) ≡ false
        → RunLeadsOn input.now mode settled result }
    ensures near { (result ≤ mark) × (mark ≤ result + 1) }
{
    if goes_on_number(input[mark]) {
        number_start(input, settled, mark)
    } else {
        mark
    }
}

/// Whether the byte may stand within a number, but not first.
#[inline(always)]
fn goes_on_number(byte: u8) -> bool
    ensures { result ≡ ((byte == dot) || is_exponent_mark byte) }
{
    byte == b'.' || byte == b'e' || byte == b'E'
}

/// The offset of the digit before a mark, if one is not yet passed.
#[inline(always)]
fn number_start(input: &[u8], settled: usize, mark: usize) -> usize
    requires { mark < length input.now }
    ensures on { (mode : SpecMode) → Outside input.now mode settled mark → RunLeadsOn input.now mode settled result }
    ensures near { (result ≤ mark) × (mark ≤ result + 1) }
{
    if mark > settled && input[mark - 1].is_ascii_digit() {
        mark - 1
    } else {
        mark
    }
}
