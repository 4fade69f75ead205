//! Looking ahead by points, and lists of calls.

use facet_json::{Answer, Call, FormatParser, JsonParser, ParseError, ParseEventKind, drive};
use std::alloc::{AllocError, Global};

/// Whether an object comes next. The parser goes back to where it stood.
pub fn object_comes(parser: &mut JsonParser<'_>) -> Result<bool, ParseError<'static>> {
    let point = parser.save()?;
    let comes = begins_object(parser);
    parser.restore(point);
    comes
}

/// Whether the next event begins an object.
fn begins_object(parser: &mut JsonParser<'_>) -> Result<bool, ParseError<'static>> {
    match parser.next_event()? {
        Some(event) => Ok(matches!(event.kind, ParseEventKind::StructStart(_))),
        None => Ok(false),
    }
}

/// What a parser of the input returns for a look ahead, two events and its current span.
pub fn answers<'a>(alloc: Global, input: &'a [u8]) -> Result<Vec<Answer<'a>>, AllocError> {
    let mut parser = JsonParser::new(alloc, input);
    drive(
        alloc,
        &mut parser,
        &[Call::Peek, Call::Next, Call::Next, Call::Span],
    )
}
