//! Loops over a document's events.

ghost use Rattle.std.specs.Prelude.{◌≤◌, IfOk, length};
ghost use Rattle.facet_json.specs.Now.{ahead};

use facet_json::{FormatParser, JsonParser, ParseError, ParseEventKind, ScalarValue};
use std::alloc::Global;

/// Whether a null is still to come in the document as a value of its own: not as part of a text.
pub fn has_null(parser: &mut JsonParser<'_>) -> Result<bool, ParseError<'static>> {
    while let Some(event) = parser.next_event()? {
        if matches!(event.kind, ParseEventKind::Scalar(ScalarValue::Null)) {
            return Ok(true);
        }
    }
    Ok(false)
}

/// How many events the document has: no more than the input has bytes.
pub fn count(alloc: Global, input: &[u8]) -> Result<usize, ParseError<'static>>
    ensures { IfOk result (λ n. n ≤ length input.now) }
{
    count_left(&mut JsonParser::new(alloc, input))
}

/// How many events the parser has left: no more than its measure.
pub(crate) fn count_left(parser: &mut JsonParser<'_>) -> Result<usize, ParseError<'static>>
    ensures { IfOk result (λ n. n ≤ ahead parser.old) }
{
    let mut count: usize = 0;
    while let Some(_event) = parser.next_event()? {
        count = count.saturating_add(1);
    }
    Ok(count)
}
