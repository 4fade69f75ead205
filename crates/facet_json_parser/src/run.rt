//! Skips a value's tokens up to its last one, whatever stands between its brackets.

ghost use Rattle.std.specs.Prelude.{◌≡◌, ◌≤◌, ◌<◌, ◌⊎◌, true, List, [], ◌∷◌, Some, length, IfOk, IfErr, MatchResult};
ghost use Rattle.facet_format.specs.Cursor.{no_memory_at};
ghost use Rattle.facet_format.specs.Event.{ContainerKind as SpecContainer};
ghost use Rattle.facet_format.specs.Span.{stop, span_at};
ghost use Rattle.facet_format.specs.Views.{span_of, container_of};
ghost use Rattle.facet_json_token.specs.Token.{Kind};
ghost use Rattle.facet_json_token.specs.Cut as spec_cut;
ghost use Rattle.facet_json_token.specs.Views.{kind_of, mode_of, cut_of};
ghost use Rattle.facet_json_grammar.specs.Place.{root, goes_on};
ghost use Rattle.facet_json_grammar.specs.Run.{opening};
ghost use Rattle.facet_json_grammar.specs.Inner.PassedRun.{leaves, crosses, closing_one, passing};
ghost use Rattle.facet_json_reader.specs.PlaceViews.{refused_of};
ghost use Rattle.facet_json_parser.specs.Inner.Quiet.{RunLeadsOn};
ghost use Rattle.facet_json_parser.specs.Inner.Leads.{PassesOn, AreOpen};
ghost use Rattle.facet_json_parser.specs.RunViews.{AnswersRun, value_expected};

use crate::marks::pass_blocks;
use crate::quiet::past_quiet;
use facet_format::{ContainerKind, Span};
use facet_json_reader::{Contexts, Expected, Name, Refused, Why};
use facet_json_token::quick::structural;
use facet_json_token::{CutResult, Mode, SpannedToken, Token, cut};
use std::alloc::Global;
use std::mem;

/// Consumes the run of the value that begins with this token, which was cut off the input, and returns the run's last token. A
/// scalar is its own run. From an opening bracket on memory is taken for the kinds of open brackets alone: where it runs
/// out, the refusal names `last`.
pub fn pass_run(
    alloc: Global,
    input: &[u8],
    mode: Mode,
    first: &SpannedToken,
    last: Span,
) -> Result<Span, Refused>
    requires { stop (span_of first.now.span) ≤ length input.now }
    ensures run { (kind : Kind) → kind_of first.now.token ≡ Some kind → goes_on root kind ≡ true
        → AnswersRun input.now (mode_of mode) (record { kind = kind; span = span_of first.now.span }) (span_of last) result }
    ensures onward { IfOk result (λ s. stop (span_of first.now.span) ≤ stop (span_of s)) }
    ensures within { IfOk result (λ s. stop (span_of s) ≤ length input.now) }
    ensures refused { stop (span_of last) ≤ length input.now → IfErr result (λ r. stop (span_of r.span) ≤ length input.now) }
{
    match &first.token {
        Token::ObjectStart => pass_container(
            alloc,
            input,
            mode,
            ContainerKind::Object,
            first.span,
            last,
        ),
        Token::ArrayStart => pass_container(
            alloc,
            input,
            mode,
            ContainerKind::Array,
            first.span,
            last,
        ),
        _ => Ok(first.span),
    }
}

/// Consumes the run that begins with the bracket that opens a container of this kind, `first`, and returns its last token.
pub fn pass_container(
    alloc: Global,
    input: &[u8],
    mode: Mode,
    kind: ContainerKind,
    first: Span,
    last: Span,
) -> Result<Span, Refused>
    requires { stop (span_of first) ≤ length input.now }
    ensures run { AnswersRun input.now (mode_of mode) (record { kind = opening (container_of kind); span = span_of first })
        (span_of last) result }
    ensures onward { IfOk result (λ s. stop (span_of first) ≤ stop (span_of s)) }
    ensures within { IfOk result (λ s. stop (span_of s) ≤ length input.now) }
    ensures refused { stop (span_of last) ≤ length input.now → IfErr result (λ r. stop (span_of r.span) ≤ length input.now) }
{
    let mut contexts = Contexts::new(alloc);
    open_bracket(&mut contexts, kind, last)?;
    pass_open(alloc, &mut contexts, input, mode, first, last)
}

/// Consumes all up to the bracket that closes the last one of these: first by tokens, then by blocks, and by tokens again where that is
/// faster.
fn pass_open(
    alloc: Global,
    contexts: &mut Contexts,
    input: &[u8],
    mode: Mode,
    first: Span,
    last: Span,
) -> Result<Span, Refused>
    requires { stop (span_of first) ≤ length input.now }
    ensures leads { PassesOn input.now (mode_of mode) contexts.old (span_of first) (span_of last) result [] (λ s. span_of s) }
    ensures onward { IfOk result (λ s. (stop (span_of first) ≤ stop (span_of s)) × (stop (span_of s) ≤ length input.now)) }
{
    let mut stretch = 128;
    let until = first.end().saturating_add(stretch);
    let mut passed = pass_tokens(alloc, input, mode, contexts, first, until, last)?;
    while contexts.innermost().is_some() {
        let passage = pass_blocks(contexts, input, mode, passed, last)?;
        stretch = next_stretch(stretch, passage.at == passed.end());
        let until = passage.at.saturating_add(stretch);
        passed = pass_tokens(alloc, input, mode, contexts, passage.passed, until, last)?;
    }
    Ok(passed)
}

/// How far to go by tokens before blocks are tried again: farther each time, while no block is passed.
fn next_stretch(stretch: usize, stays: bool) -> usize {
    if stays && stretch < 8192 {
        2 * stretch
    } else {
        256
    }
}

/// Consumes tokens up to the end, or to one that ends beyond the offset. The kinds of brackets stand apart meanwhile, so that they need not
/// lie in memory.
#[inline(never)]
fn pass_tokens(
    alloc: Global,
    input: &[u8],
    mode: Mode,
    brackets: &mut Contexts,
    first: Span,
    until: usize,
    last: Span,
) -> Result<Span, Refused>
    requires { stop (span_of first) ≤ length input.now }
    ensures leads { PassesOn input.now (mode_of mode) brackets.old (span_of first) (span_of last) result brackets.new (λ s. span_of s) }
    ensures onward { IfOk result (λ s. (stop (span_of first) ≤ stop (span_of s)) × (stop (span_of s) ≤ length input.now)) }
    ensures beyond { IfOk result (λ s. AreOpen brackets.new → until < stop (span_of s)) }
{
    let mut passed = first;
    let mut contexts = mem::replace(brackets, Contexts::new(alloc));
    while let Some(innermost) = contexts.innermost() {
        if passed.end() > until {
            *brackets = contexts;
            return Ok(passed);
        }
        let (_, token) = token_beyond(input, passed.end(), mode);
        let token = token?;
        pass_token(&mut contexts, innermost, &token, last)?;
        passed = token.span;
    }
    *brackets = contexts;
    Ok(passed)
}

/// The offset up to which tokens that open and close nothing are passed, and the next token there. Where a bracket stands at the
/// position itself, one look tells, and nothing is passed.
#[inline(always)]
fn token_beyond(input: &[u8], position: usize, mode: Mode) -> (usize, CutResult)
    requires { position ≤ length input.now }
    ensures on { RunLeadsOn input.now (mode_of mode) position result.0 }
    ensures answer { cut_of result.1 ≡ Some (spec_cut.cut input.now result.0 (mode_of mode)) }
    ensures end { IfOk result.1 (λ t. t.token ≡ Token.Eof → span_of t.span ≡ span_at (length input.now) 0) }
{
    match input.get(position) {
        Some(b'[' | b']' | b'{' | b'}') => (position, next_token(input, position, mode)),
        _ => {
            let at = past_quiet(input, position, mode);
            (at, next_token(input, at, mode))
        }
    }
}

/// Consumes the token that begins at this offset, up to which quiet tokens stand.
#[inline(always)]
pub(crate) fn pass_mark(
    contexts: &mut Contexts,
    input: &[u8],
    mode: Mode,
    passed: Span,
    from: usize,
    last: Span,
) -> Result<Span, Refused>
    requires open { AreOpen contexts.old }
    requires on { RunLeadsOn input.now (mode_of mode) (stop (span_of passed)) from }
    ensures leads { PassesOn input.now (mode_of mode) contexts.old (span_of passed) (span_of last) result contexts.new (λ s. span_of s) }
    ensures onward { IfOk result (λ s. (stop (span_of passed) ≤ from) × (from < stop (span_of s)) × (stop (span_of s) ≤ length input.now)) }
{
    let Some(innermost) = contexts.innermost() else {
        return Ok(passed);
    };
    let token = next_token(input, from, mode)?;
    pass_token(contexts, innermost, &token, last)?;
    Ok(token.span)
}

/// The next token, as `cut` gives it. Where a bracket, a comma or a colon stands at the position itself, its byte says which.
#[inline(always)]
fn next_token(input: &[u8], position: usize, mode: Mode) -> CutResult
    requires { position ≤ length input.now }
    ensures answer { cut_of result ≡ Some (spec_cut.cut input.now position (mode_of mode)) }
    ensures end { IfOk result (λ t. t.token ≡ Token.Eof → span_of t.span ≡ span_at (length input.now) 0) }
{
    match input.get(position) {
        Some(byte) => match structural(*byte, position) {
            Some(token) => Ok(token),
            None => cut(input, position, mode),
        },
        None => cut(input, position, mode),
    }
}

/// Consumes a token within these brackets, of which this is the innermost.
#[inline(always)]
fn pass_token(
    contexts: &mut Contexts,
    innermost: ContainerKind,
    token: &SpannedToken,
    last: Span,
) -> Result<(), Refused>
    ensures end { token.now.token ≡ Token.Eof
        → MatchResult result (λ _. ⊥) (λ r. refused_of r ≡ value_expected (span_of token.now.span)) }
    ensures token { (kind : Kind) (around : List SpecContainer) → kind_of token.now.token ≡ Some kind
        → contexts.old ≡ container_of innermost ∷ around
        → let p = passing (container_of innermost) around (span_of token.now.span) kind in
        MatchResult result (λ _. p ≡ leaves contexts.new)
        (λ r. (refused_of r ≡ no_memory_at (span_of last)) ⊎ (p ≡ crosses (refused_of r))) }
{
    match &token.token {
        Token::ObjectStart => open_bracket(contexts, ContainerKind::Object, last),
        Token::ArrayStart => open_bracket(contexts, ContainerKind::Array, last),
        Token::ObjectEnd => close_bracket(contexts, innermost, ContainerKind::Object, token.span),
        Token::ArrayEnd => close_bracket(contexts, innermost, ContainerKind::Array, token.span),
        Token::Eof => Err(Refused {
            why: Why::End(Expected::Value),
            span: token.span,
        }),
        _ => Ok(()),
    }
}

/// Opens a bracket within the others.
#[inline(always)]
fn open_bracket(contexts: &mut Contexts, kind: ContainerKind, last: Span) -> Result<(), Refused>
    ensures { MatchResult result (λ _. contexts.new ≡ container_of kind ∷ contexts.old) (λ r. refused_of r ≡ no_memory_at (span_of last)) }
{
    match contexts.push(kind) {
        Ok(()) => Ok(()),
        Err(_) => Err(Refused::out_of_memory(last)),
    }
}

/// Closes the innermost bracket by one of this kind, which takes these bytes.
#[inline(always)]
fn close_bracket(
    contexts: &mut Contexts,
    innermost: ContainerKind,
    kind: ContainerKind,
    span: Span,
) -> Result<(), Refused>
    ensures { (around : List SpecContainer) → contexts.old ≡ container_of innermost ∷ around
        → let p = closing_one (container_of innermost) (container_of kind) around (span_of span) in
        MatchResult result (λ _. p ≡ leaves contexts.new) (λ r. p ≡ crosses (refused_of r)) }
{
    let why = match (innermost, kind) {
        (ContainerKind::Object, ContainerKind::Array) => Why::Token {
            got: Name::ClosingBracket,
            expected: Expected::ObjectEnd,
        },
        (ContainerKind::Array, ContainerKind::Object) => Why::Token {
            got: Name::ClosingBrace,
            expected: Expected::ArrayEnd,
        },
        _ => {
            contexts.pop();
            return Ok(());
        }
    };
    Err(Refused { why, span })
}
