//! Whether a source is one document, with nothing but a gap around it (RFC 8259, section 2), and how it is laid out.

ghost use Rattle.std.specs.Prelude.{OnOk, IfErr};
ghost use Rattle.facet_json.specs.FormatViews.{refusal_of};
ghost use Rattle.facet_json.specs.LanguageViews.{language_of};
ghost use Rattle.facet_json.specs.Reading.{LacksMemory};
ghost use Rattle.facet_json_lint.specs.Checked.{IsWholeSource};

use facet_json::scanner::{Mode, Trust};
use facet_json::{
    DeserializeError, DeserializeErrorKind, FormatOptions, FormatParser, JsonParser, Language,
    ParseEvent, ParseEventKind, Span, check_strict, check_whole, format_text, format_text_strict,
};
use std::alloc::{AllocError, Global};

/// Why a source is not one document.
#[derive(Clone, Copy)]
pub struct Finding {
    /// What is wrong, and where.
    pub error: DeserializeError<'static>,
    /// The innermost bracket that is open there.
    pub opened: Option<Span>,
}

impl Finding {
    /// Where it is told: what is missing at the end of the source is told behind the last of it that is no white space.
    pub fn told_at(self, source: &[u8]) -> Span {
        match self.error.span {
            Some(Span { offset, len: 0 }) => {
                Span::new(offset.min(source.trim_ascii_end().len()), 0)
            }
            Some(span) => span,
            None => Span::new(0, 0),
        }
    }

    /// The bracket that is open there, where a closing one is missing.
    pub fn unclosed(self) -> Option<Span> {
        match self.error.kind {
            DeserializeErrorKind::UnexpectedEof {
                expected: "',' or '}'"
                | "',' or ']'"
                | "field name or '}'"
                | "value or ']'"
                | "value",
            } => self.opened,
            DeserializeErrorKind::UnexpectedToken {
                got: "ArrayEnd",
                expected: "',' or '}'" | "field name or '}'",
            } => self.opened,
            DeserializeErrorKind::UnexpectedToken {
                got: "ObjectEnd",
                expected: "',' or ']'",
            } => self.opened,
            _ => None,
        }
    }
}

/// Checks that the source is one document.
///
/// # Errors
///
/// As `check_whole`, and where RFC 8259 alone is read as `check_strict`.
pub fn check(alloc: Global, language: Language, source: &[u8]) -> Result<(), Finding>
    ensures document { OnOk result (IsWholeSource (language_of language) source.now) }
    ensures only { IsWholeSource (language_of language) source.now → IfErr result (λ fault. LacksMemory (refusal_of fault.error)) }
{
    match checked(alloc, language, source) {
        Ok(()) => Ok(()),
        Err(error) => Err(Finding {
            error,
            opened: opened(alloc, language, source),
        }),
    }
}

/// Whether the source is one document, as the library tells it.
fn checked(
    alloc: Global,
    language: Language,
    source: &[u8],
) -> Result<(), DeserializeError<'static>>
    ensures document { OnOk result (IsWholeSource (language_of language) source.now) }
    ensures only { IsWholeSource (language_of language) source.now → IfErr result (λ error. LacksMemory (refusal_of error)) }
{
    match language {
        Language::Plain => check_whole(alloc, source, Mode::Plain),
        Language::Jsonc => check_whole(alloc, source, Mode::Jsonc),
        Language::Strict => check_strict(alloc, source),
    }
}

/// The document of the source, laid out, with its comments.
///
/// # Errors
///
/// As `format_text`, and where RFC 8259 alone is read as `format_text_strict`.
pub fn formatted(
    alloc: Global,
    language: Language,
    source: &[u8],
) -> Result<Vec<u8>, DeserializeError<'static>>
    ensures document { OnOk result (IsWholeSource (language_of language) source.now) }
    ensures only { IsWholeSource (language_of language) source.now → IfErr result (λ error. LacksMemory (refusal_of error)) }
{
    let options = FormatOptions::new();
    match language {
        Language::Plain => format_text(alloc, source, Mode::Plain, options),
        Language::Jsonc => format_text(alloc, source, Mode::Jsonc, options),
        Language::Strict => format_text_strict(alloc, source, options),
    }
}

/// The innermost bracket that is open where the source's events end, as far as there is memory to tell.
fn opened(alloc: Global, language: Language, source: &[u8]) -> Option<Span> {
    let mut open = Vec::new(alloc);
    let mut parser = JsonParser::in_language(alloc, source, language, Trust::Nothing);
    match pass_events(&mut parser, &mut open) {
        Ok(()) => open.last().copied(),
        Err(_) => None,
    }
}

/// Consumes all events, and keeps which brackets are open.
fn pass_events(parser: &mut JsonParser<'_>, open: &mut Vec<Span>) -> Result<(), AllocError> {
    while let Ok(Some(event)) = parser.next_event() {
        follow(open, &event)?;
    }
    Ok(())
}

/// Keeps which brackets are open after one more event.
fn follow(open: &mut Vec<Span>, event: &ParseEvent<'_>) -> Result<(), AllocError> {
    match event.kind {
        ParseEventKind::StructStart(_) | ParseEventKind::SequenceStart(_) => open.push(event.span)?,
        ParseEventKind::StructEnd | ParseEventKind::SequenceEnd => {
            open.pop();
        }
        ParseEventKind::FieldKey(_) | ParseEventKind::Scalar(_) => {}
    }
    Ok(())
}
