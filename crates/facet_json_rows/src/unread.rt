//! Skips and captures at each place of an input.

use facet_format::{FormatParser, ParseError, Span};
use facet_json::JsonParser;
use facet_json_row_values::shown::{Telling, push, separate, write_error};
use facet_json_row_values::told::Told;

/// A call that passes what comes, its text unread.
#[derive(Clone, Copy)]
pub enum Unread {
    Skip,
    Capture,
}

/// What such a call passes.
#[derive(Clone, Copy)]
pub enum Passed {
    /// All up to this token.
    Token(Span),
    /// So many bytes of text.
    Bytes(usize),
    /// Nothing, in words.
    Nothing(&'static str),
}

/// What the call does wherever an event of an input of so many bytes comes, and at the end: the last token after a skip, and how
/// many bytes a capture answers. The events are passed one by one.
pub fn tell_parts(
    parser: &mut JsonParser<'_>,
    call: Unread,
    is_peeked: bool,
    len: usize,
    told: &mut Told,
) {
    for _ in 0..=len {
        tell_part(call, is_peeked, parser, len, told);
        if !matches!(next_span(parser), Ok(Some(_))) {
            return;
        }
    }
    push(told, "no end", Telling::All);
}

/// What the call does where the parser stands, which stands there afterwards.
fn tell_part(
    call: Unread,
    is_peeked: bool,
    parser: &mut JsonParser<'_>,
    len: usize,
    told: &mut Told,
) {
    let Ok(point) = parser.save() else {
        return push(told, "no point", Telling::All);
    };
    if is_peeked {
        let _ = parser.peek_event();
    }
    tell_call(call, parser, told);
    if !is_within(parser, len) {
        push(told, "outside", Telling::All);
    }
    parser.restore(point);
}

/// What the call does, and where its refusal does not repeat.
fn tell_call(call: Unread, parser: &mut JsonParser<'_>, told: &mut Told) {
    separate(told);
    match passed_by(parser, call) {
        Ok(passed) => write_passed(passed, told),
        Err(error) => {
            write_error(&error, told);
            if !is_refused_again(parser, call, error) {
                push(told, "not again", Telling::All);
            }
        }
    }
}

/// Whether the last token, and a refusal that comes next, are of the first so many bytes.
fn is_within(parser: &mut JsonParser<'_>, len: usize) -> bool {
    let last = last_span(parser).unwrap_or(Span::new(0, 0));
    let next = match next_span(parser) {
        Err(error) => error.span,
        Ok(_) => last,
    };
    last.end() <= len && next.end() <= len
}

/// Whether the call once more, and then the next event, are refused so.
fn is_refused_again(
    parser: &mut JsonParser<'_>,
    call: Unread,
    refusal: ParseError<'static>,
) -> bool {
    let again = passed_by(parser, call);
    match (again, next_span(parser)) {
        (Err(again), Err(error)) => again == refusal && error == refusal,
        _ => false,
    }
}

/// The next event's span, or the refusal.
pub fn next_span(parser: &mut JsonParser<'_>) -> Result<Option<Span>, ParseError<'static>> {
    match parser.next_event() {
        Ok(Some(event)) => Ok(Some(event.span)),
        Ok(None) => Ok(None),
        Err(error) => Err(error),
    }
}

/// The last token.
pub fn last_span(parser: &JsonParser<'_>) -> Option<Span> {
    parser.current_span()
}

/// What the call passes, or its refusal.
pub fn passed_by(parser: &mut JsonParser<'_>, call: Unread) -> Result<Passed, ParseError<'static>> {
    match call {
        Unread::Skip => skipped(parser),
        Unread::Capture => captured(parser),
    }
}

/// What a skip passes.
fn skipped(parser: &mut JsonParser<'_>) -> Result<Passed, ParseError<'static>> {
    parser.skip_value()?;
    match last_span(parser) {
        Some(span) => Ok(Passed::Token(span)),
        None => Ok(Passed::Nothing("no span")),
    }
}

/// What a capture passes.
fn captured(parser: &mut JsonParser<'_>) -> Result<Passed, ParseError<'static>> {
    match parser.capture_raw()? {
        Some(text) => Ok(Passed::Bytes(text.len())),
        None => Ok(Passed::Nothing("no raw text")),
    }
}

/// Writes what is passed.
pub fn write_passed(passed: Passed, told: &mut Told) {
    match passed {
        Passed::Token(span) => told.span(span),
        Passed::Bytes(count) => {
            told.show(&count);
            told.say(" bytes");
        }
        Passed::Nothing(words) => told.say(words),
    }
}
