//! Readers over any parser, as users write them, and their calls with one of JSON.

ghost use Rattle.facet_json.specs.Now.{ahead};
ghost use Rattle.std.specs.Prelude.{◌≡◌, ◌+◌, ◌^◌, ◌<◌, ◌≤◌, IfOk, length};

use facet_format::{DeserializeError, FormatParser, ParseError};
use facet_json::JsonParser;
use facet_json_row_values::shown::write_error;
use facet_json_row_values::told::Told;
use std::alloc::Global;

/// How many events come: no more than what is passed of the input.
fn count<'de, 't, P: FormatParser<'de>>(parser: &mut P) -> Result<usize, ParseError<'t>>
    requires fits { P.ahead parser.old < 2 ^ 64 }
    ensures { IfOk result (λ n. n + P.ahead parser.new ≤ P.ahead parser.old) }
{
    let mut count = 0;
    while let Some(_event) = parser.next_event()? {
        count += 1;
    }
    Ok(count)
}

/// How many events come, refused as a reader of values refuses.
fn count_read<'de, 't, P: FormatParser<'de>>(parser: &mut P) -> Result<usize, DeserializeError<'t>>
    requires fits { P.ahead parser.old < 2 ^ 64 }
{
    Ok(count(parser)?)
}

/// The name of the format.
fn name_of<'de, 't, P: FormatParser<'de>>(parser: &P) -> Option<&'t str> {
    parser.format_namespace()
}

/// How many events the input's document has: no more than the input has bytes.
fn count_in(alloc: Global, input: &[u8]) -> Result<usize, ParseError<'static>>
    ensures { IfOk result (λ n. n ≤ length input.now) }
{
    count(&mut JsonParser::new(alloc, input))
}

/// Whether the number of the events that come is odd, by a loop over the parser itself.
fn has_odd_events(parser: &mut JsonParser<'_>) -> Result<bool, ParseError<'static>> {
    let mut odd = false;
    while let Some(_event) = parser.next_event()? {
        odd = !odd;
    }
    Ok(odd)
}

/// Whether `count_read` agrees with this count or refusal.
fn read_agrees(parser: &mut JsonParser<'_>, counted: Result<usize, ParseError<'static>>) -> bool
    requires fits { ahead parser.old < 2 ^ 64 }
{
    match (count_read(parser), counted) {
        (Ok(count), Ok(wanted)) => count == wanted,
        (Err(error), Err(wanted)) => error == DeserializeError::from(wanted),
        _ => false,
    }
}

/// Whether `has_odd_events` agrees with this count or refusal.
fn odd_agrees(parser: &mut JsonParser<'_>, counted: Result<usize, ParseError<'static>>) -> bool {
    match (has_odd_events(parser), counted) {
        (Ok(odd), Ok(count)) => odd == (count % 2 == 1),
        (Err(error), Err(wanted)) => error == wanted,
        _ => false,
    }
}

/// Whether parsers of the input are of JSON, and all readers agree with this count or refusal.
fn agree(alloc: Global, input: &[u8], counted: Result<usize, ParseError<'static>>) -> bool {
    let named = name_of(&JsonParser::new(alloc, input)) == Some("json");
    let read = read_agrees(&mut JsonParser::new(alloc, input), counted);
    let odd = odd_agrees(&mut JsonParser::new(alloc, input), counted);
    named && read && odd
}

/// Tells how many events a parser of the input has, or its refusal; and where the other readers differ.
pub fn answer_count(alloc: Global, input: &[u8], told: &mut Told) {
    let counted = count_in(alloc, input);
    if !agree(alloc, input, counted) {
        return told.line("DIFFERS: another reader");
    }
    match counted {
        Ok(count) => {
            told.show(&count);
            told.say(" events");
        }
        Err(error) => write_error(&error, told),
    }
    told.say("\n");
}
