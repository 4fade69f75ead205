//! Events of a document, with a look ahead.

use facet_json::{FormatParser, JsonParser, ParseError, ParseEventKind};
use std::alloc::Global;
use std::collections::VecDeque;

/// Whether a list comes next, and how many of the next ten events are there. A parser by `JsonParser::new_jsonc` lets the
/// input have comments.
fn look(alloc: Global, parser: &mut JsonParser<'_>) -> Result<(bool, usize), ParseError<'static>> {
    let is_list = list_comes(parser)?;
    let mut events = VecDeque::new(alloc);
    let count = parser.next_events(&mut events, 10)?;
    Ok((is_list, count))
}

/// Whether a list comes next, which stays next.
fn list_comes(parser: &mut JsonParser<'_>) -> Result<bool, ParseError<'static>> {
    match parser.peek_event()? {
        Some(event) => Ok(matches!(event.kind, ParseEventKind::SequenceStart(_))),
        None => Ok(false),
    }
}
