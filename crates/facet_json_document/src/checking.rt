//! Whether an input has a document, of which nothing is kept.

ghost use Rattle.std.specs.Prelude.{◌≡◌, ◌≤◌, ◌<◌, ◌⊎◌, Ok, Err, length, true, false, None, OnOk, IfOk, IfErr};
ghost use Rattle.facet_format.specs.Cursor.{event, next};
ghost use Rattle.facet_format.specs.Span.{stop};
ghost use Rattle.facet_format.specs.Views.{refusal_of, span_of};
ghost use Rattle.facet_json_token.specs.Gap.{jsonc, plain};
ghost use Rattle.facet_json_token.specs.TokenList.{tokens_from};
ghost use Rattle.facet_json_token.specs.Tokens.{ended};
ghost use Rattle.facet_json_token.specs.Views.{mode_of};
ghost use Rattle.facet_json_document.specs.Formatted.{GetsStuck, BeginsDocument, HasOneDocument, LacksOrGetsStuck, LacksOrRefusesOne};
ghost use Rattle.facet_json_grammar.specs.Move.{Moves};
ghost use Rattle.facet_json_grammar.specs.Now.{ahead, fresh};
ghost use Rattle.facet_json_grammar.specs.PrefixRefusal.{Refuses};
ghost use Rattle.facet_json_document.specs.Inner.Checking.{IsStuckBehind, PassesUp, Told};
ghost use Rattle.facet_json_grammar.specs.StrictDocument.{IsStrict};
ghost use Rattle.facet_json_grammar.specs.UnreadLaws.{RefusalWithin};
ghost use Rattle.facet_json_core.specs.Reading.{LacksMemory};

use facet_format::{DeserializeError, FormatParser, ParseError, Span};
use facet_json_core::last_span;
use facet_json_parser::{JsonParser, pass_in_sight};
use facet_json_reader::{Contexts, Language, Place, Reader, Stage};
use facet_json_token::Mode;
use facet_json_token::cutting::skip_gap;
use facet_json_tree::parser_of;
use std::alloc::Global;

/// Checks that the bytes begin with a document without comments (RFC 8259, sections 2 to 7, with lenient readings such as a trailing
/// comma): what `tree_from_slice` reads, but nothing is kept of it. What follows it is not looked at.
///
/// It does not recurse. Memory is asked for by deeper nesting and by texts with escapes.
///
/// ```text
/// check(alloc, b"[1,]")     Ok
/// check(alloc, b"[1 2]")    Err: UnexpectedToken { got: "U64", expected: "',' or ']'" }, span 3+1
/// ```
///
/// # Errors
///
/// As `tree_from_slice`: the bytes begin with no document, or an allocation failed.
pub fn check<'t>(alloc: Global, input: &[u8]) -> Result<(), DeserializeError<'t>>
    ensures document { OnOk result (BeginsDocument input.now plain) }
    ensures only { BeginsDocument input.now plain → IfErr result (λ e. LacksMemory (refusal_of e)) }
    ensures refused { IfErr result (λ e. LacksMemory (refusal_of e) ⊎ Refuses input.now plain (refusal_of e)) }
    ensures within { IfErr result (λ e. RefusalWithin input.now (refusal_of e)) }
{
    check_in(alloc, input, Mode::Plain)
}

/// Checks as `check`, where comments are allowed wherever white space is.
///
/// ```text
/// check_jsonc(alloc, b"[1, /* one */]")    Ok
/// ```
///
/// # Errors
///
/// As `tree_from_slice_jsonc`.
pub fn check_jsonc<'t>(alloc: Global, input: &[u8]) -> Result<(), DeserializeError<'t>>
    ensures document { OnOk result (BeginsDocument input.now jsonc) }
    ensures only { BeginsDocument input.now jsonc → IfErr result (λ e. LacksMemory (refusal_of e)) }
    ensures refused { IfErr result (λ e. LacksMemory (refusal_of e) ⊎ Refuses input.now jsonc (refusal_of e)) }
    ensures within { IfErr result (λ e. RefusalWithin input.now (refusal_of e)) }
{
    check_in(alloc, input, Mode::Jsonc)
}

/// Checks that the bytes are one text of RFC 8259, with white space alone around it, as `tree_from_slice_strict` reads.
///
/// ```text
/// check_strict(alloc, b" [1] ")    Ok
/// check_strict(alloc, b"[1,]")     Err: UnexpectedToken { got: "ArrayEnd", expected: "value" }, span 3+1
/// ```
///
/// # Errors
///
/// As `tree_from_slice_strict`.
pub fn check_strict<'t>(alloc: Global, input: &[u8]) -> Result<(), DeserializeError<'t>>
    ensures document { OnOk result (IsStrict input.now) }
    ensures only { IsStrict input.now → IfErr result (λ e. LacksMemory (refusal_of e)) }
    ensures within { IfErr result (λ e. RefusalWithin input.now (refusal_of e)) }
    ensures refused { IfErr result (λ e. LacksOrGetsStuck input.now (refusal_of e)) }
{
    pass_up(&mut JsonParser::new_strict(alloc, input))?;
    Ok(())
}

/// Checks that all of the text is one document: nothing but a gap follows it.
///
/// ```text
/// check_whole(alloc, b"[1] // one", Mode::Jsonc)    Ok
/// check_whole(alloc, b"[1] 2", Mode::Plain)         Err: UnexpectedToken { got: "U64", expected: "end of input" }, span 4+1
/// ```
///
/// # Errors
///
/// As `check`, or `check_jsonc`, where no document begins; and what stands behind the document: `UnexpectedToken`, expected `end of input`,
/// where it is a token, and else as a scanner refuses it. Or out of memory. A span is an offset and a length in bytes.
pub fn check_whole<'t>(alloc: Global, text: &[u8], mode: Mode) -> Result<(), DeserializeError<'t>>
    ensures document { OnOk result (HasOneDocument text.now (mode_of mode)) }
    ensures only { HasOneDocument text.now (mode_of mode) → IfErr result (λ e. LacksMemory (refusal_of e)) }
    ensures refused { IfErr result (λ e. LacksOrRefusesOne text.now (mode_of mode) (refusal_of e)) }
    ensures within { IfErr result (λ e. RefusalWithin text.now (refusal_of e)) }
{
    let last = last_token(alloc, text, mode)?;
    pass_behind(alloc, text, mode, last)
}

/// Checks as `check`, with these gaps between tokens.
fn check_in<'t>(alloc: Global, input: &[u8], mode: Mode) -> Result<(), DeserializeError<'t>>
    ensures document { OnOk result (BeginsDocument input.now (mode_of mode)) }
    ensures only { BeginsDocument input.now (mode_of mode) → IfErr result (λ e. LacksMemory (refusal_of e)) }
    ensures refused { IfErr result (λ e. LacksMemory (refusal_of e) ⊎ Refuses input.now (mode_of mode) (refusal_of e)) }
    ensures within { IfErr result (λ e. RefusalWithin input.now (refusal_of e)) }
{
    last_token(alloc, input, mode)?;
    Ok(())
}

/// The last token of a document, all of whose events are passed.
fn last_token<'t>(alloc: Global, text: &[u8], mode: Mode) -> Result<Span, DeserializeError<'t>>
    ensures up { IfOk result (λ last. PassesUp (fresh text.now (mode_of mode)) (span_of last)) }
    ensures inside { IfOk result (λ last. stop (span_of last) ≤ length text.now) }
    ensures refused { IfErr result (λ e. LacksMemory (refusal_of e) ⊎ Refuses text.now (mode_of mode) (refusal_of e)) }
    ensures within { IfErr result (λ e. RefusalWithin text.now (refusal_of e)) }
{
    pass_up(&mut parser_of(alloc, text, mode))
}

/// Consumes all events, and returns the last token.
fn pass_up<'t>(parser: &mut JsonParser<'_>) -> Result<Span, DeserializeError<'t>>
    requires unpeeked { parser.old.cursor.spot.peeked ≡ false }
    ensures up { IfOk result (λ last. PassesUp parser.old (span_of last)) }
    ensures refused { parser.old.cursor.refusal ≡ None
        → IfErr result (λ e. LacksMemory (refusal_of e) ⊎ GetsStuck parser.old (refusal_of e)) }
    ensures inside { IfOk result (λ last. stop (span_of last) ≤ length parser.old.buffer) }
    ensures within { IfErr result (λ e. RefusalWithin parser.old.buffer (refusal_of e)) }
{
    pass_in_sight(parser, &mut ());
    while passes_event(parser)? {
        pass_in_sight(parser, &mut ());
    }
    Ok(last_span(parser))
}

/// Consumes the next event, and says whether there was one.
fn passes_event<'t>(parser: &mut JsonParser<'_>) -> Result<bool, DeserializeError<'t>>
    ensures passed { IfOk result (λ some. Told some parser.old parser.new) }
    ensures refused { IfErr result (λ e. Moves parser.old next (event (Err (refusal_of e))) parser.new) }
    ensures shorter { result ≡ Ok true → ahead parser.new < ahead parser.old }
    ensures within { IfErr result (λ e. RefusalWithin parser.new.buffer (refusal_of e)) }
    ensures same { parser.new.buffer ≡ parser.old.buffer }
{
    let event = parser.next_event()?;
    Ok(event.is_some())
}

/// Skips what stands behind a document whose last token takes these bytes: a gap alone.
fn pass_behind<'t>(
    alloc: Global,
    text: &[u8],
    mode: Mode,
    last: Span,
) -> Result<(), DeserializeError<'t>>
    requires inside { stop (span_of last) ≤ length text.now }
    ensures done { OnOk result (tokens_from text.now (mode_of mode) (stop (span_of last)) ≡ ended) }
    ensures refused { IfErr result
        (λ e. IsStuckBehind text.now (tokens_from text.now (mode_of mode) (stop (span_of last))) (refusal_of e)) }
    ensures within { IfErr result (λ e. RefusalWithin text.now (refusal_of e)) }
{
    if skip_gap(text, last.end(), mode) == text.len() {
        return Ok(());
    }
    let behind = Reader {
        last,
        contexts: Contexts::new(alloc),
        stage: Stage::Within(Place::AfterRoot),
    };
    let language = Language::from(mode);
    match behind.upcoming(alloc, text, language) {
        Ok(_) => Ok(()),
        Err(refused) => Err(DeserializeError::from(ParseError::from(refused))),
    }
}
