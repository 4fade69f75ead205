//! Skips what stands first where a reader goes on, its text unread.

ghost use Rattle.std.specs.Prelude.{◌≡◌, ◌≤◌, ◌-◌, true, false, List, Ok, Err, length, slice_range, codes, IfOk, MatchResult};
ghost use Rattle.std.specs.Str.{is_utf8};
ghost use Rattle.facet_format.specs.Event.{ContainerKind as SpecContainer};
ghost use Rattle.facet_format.specs.Part.{no_raw};
ghost use Rattle.facet_format.specs.Span.{stop, span_at};
ghost use Rattle.facet_format.specs.Views.{span_of};
ghost use Rattle.facet_json_token.specs.TokenList.{tokens_from};
ghost use Rattle.facet_json_token.specs.Views.{mode_of};
ghost use Rattle.facet_json_grammar.specs.Reader.{Reader as SpecReader};
ghost use Rattle.facet_json_grammar.specs.Language.{Language as SpecLanguage, gaps};
ghost use Rattle.facet_json_grammar.specs.Unread.{past_key, HasColon};
ghost use Rattle.facet_json_reader.specs.PlaceViews.{no_raw_text, refused_of};
ghost use Rattle.facet_json_reader.specs.Views.{reader_of};
ghost use Rattle.facet_json_parser.specs.PartViews.{first_span_of, after_part, IsFirst, Skips, Captures};

use crate::part::{Part, misplaced};
use crate::run::pass_run;
use facet_format::Span;
use facet_json_reader::{Expected, Name, NoRaw, Place, Reader, Refused, Stage, Why};
use facet_json_token::{Mode, SpannedToken, Token, cut};
use std::alloc::Global;

/// Consumes the part that stands first, and returns its last token: that of a value's run, of a key its colon, or the closing
/// bracket. Memory is taken for the kinds of open brackets alone: where it runs out, the refusal names `last`.
pub fn pass(
    alloc: Global,
    input: &[u8],
    mode: Mode,
    part: &Part,
    last: Span,
) -> Result<Span, Refused>
    requires { stop (first_span_of part.now) ≤ length input.now }
    ensures skips { (language : SpecLanguage) (s : SpecReader) → gaps language ≡ mode_of mode → IsFirst input.now language s part.now
        → MatchResult result
        (λ final. Skips input.now language s (span_of last) part.now (Ok (span_of final)))
        (λ r. Skips input.now language s (span_of last) part.now (Err (refused_of r))) }
    ensures within { IfOk result (λ final. stop (span_of final) ≤ length input.now) }
{
    match part {
        Part::Value(first) => pass_run(alloc, input, mode, first, last),
        Part::Key(span) => colon(input, span.end(), mode),
        Part::Closing(span) => Ok(*span),
    }
}

/// Skips the value that stands first, and returns its bytes, as they are in the input, and its last token. A key and a
/// closing bracket are refused, and a value whose bytes are not UTF-8.
pub fn capture<'de>(
    alloc: Global,
    input: &'de [u8],
    mode: Mode,
    part: &Part,
    last: Span,
) -> Result<(&'de str, Span), Refused>
    requires { stop (first_span_of part.now) ≤ length input.now }
    ensures captures { (language : SpecLanguage) (s : SpecReader) → gaps language ≡ mode_of mode → IsFirst input.now language s part.now
        → MatchResult result
        (λ raw. Captures input.now language s (span_of last) part.now (Ok (raw.0.now, span_of raw.1)))
        (λ r. Captures input.now language s (span_of last) part.now (Err (refused_of r))) }
    ensures within { IfOk result (λ raw. stop (span_of raw.1) ≤ length input.now) }
{
    match part {
        Part::Value(first) => {
            let end = pass_run(alloc, input, mode, first, last)?;
            let text = text(input, first.span.offset, end.end())?;
            Ok((text, end))
        }
        Part::Key(span) => Err(no_raw(NoRaw::Key, span.offset, 0)),
        Part::Closing(span) => Err(no_raw(NoRaw::End, span.offset, 0)),
    }
}

/// The reader goes on after the part, whose last token takes these bytes.
pub fn leave(reader: &mut Reader, part: &Part, last: Span)
    ensures { reader_of reader.new ≡ after_part part.now (span_of last) reader.old.contexts }
{
    match part {
        Part::Value(_) => reader.stage = Stage::after_value(&reader.contexts),
        Part::Key(_) => reader.stage = Stage::Within(Place::AfterColon),
        Part::Closing(_) => reader.close(),
    }
    reader.last = last;
}

/// The bytes of the colon that is the next token after a key.
fn colon(input: &[u8], position: usize, mode: Mode) -> Result<Span, Refused>
    requires { position ≤ length input.now }
    ensures colon { (stack : List SpecContainer)
        → MatchResult result
        (λ s. HasColon input.now stack (tokens_from input.now (mode_of mode) position) (Ok (past_key (span_of s) stack)))
        (λ r. HasColon input.now stack (tokens_from input.now (mode_of mode) position) (Err (refused_of r))) }
    ensures within { IfOk result (λ s. stop (span_of s) ≤ length input.now) }
{
    let token = cut(input, position, mode)?;
    match token.token {
        Token::Colon => Ok(token.span),
        Token::Eof => Err(Refused {
            why: Why::Token {
                got: Name::Eof,
                expected: Expected::Colon,
            },
            span: token.span,
        }),
        _ => Err(misplaced(&token, Expected::Colon)),
    }
}

/// The text that stands between the offsets, where it is UTF-8.
fn text(input: &[u8], start: usize, finish: usize) -> Result<&str, Refused>
    requires ordered { start ≤ finish }
    requires within { finish ≤ length input.now }
    ensures { MatchResult result
        (λ s. (s.now ≡ slice_range input.now start finish) × (is_utf8 (slice_range input.now start finish) ≡ true))
        (λ r. (is_utf8 (slice_range input.now start finish) ≡ false)
        × (refused_of r ≡ no_raw (codes "invalid UTF-8 in raw JSON") (span_at start (finish - start)))) }
{
    match str::from_utf8(&input[start..finish]) {
        Ok(text) => Ok(text),
        Err(_) => Err(no_raw(NoRaw::Text, start, finish - start)),
    }
}

/// There is no raw text at these bytes.
fn no_raw(why: NoRaw, offset: usize, len: usize) -> Refused
    ensures { refused_of result ≡ no_raw (no_raw_text why) (span_at offset len) }
{
    Refused {
        why: Why::NoRaw(why),
        span: Span::new(offset, len),
    }
}
