//! The core of a message: its parameters stay text, for whoever knows its method, and fields that it doesn't have are skipped.

ghost use Rattle.std.specs.Prelude.{◌≤◌, ◌<◌, IfOk, OnSome};
ghost use Rattle.facet_json.specs.Now.{ahead};

use facet_json::{
    FormatParser, JsonParser, ParseError, ParseEvent, ParseEventKind, RawJson, ScalarValue,
};
use std::alloc::Global;
use std::borrow::CowStr;

/// A message, as `{"id":7,"method":"add","params":[1,2]}`. What it lacks is `None`.
#[derive(Drop)]
pub struct Message<'de> {
    /// The number by which it is answered.
    pub id: Option<u64>,
    /// What is asked for.
    pub method: Option<CowStr<'de>>,
    /// The parameters, as they are in the input.
    pub params: Option<&'de str>,
}

/// A field of a message.
#[derive(Clone, Copy)]
enum Field {
    Id,
    Method,
    Params,
    Unknown,
}

/// Reads a message. What is no number or text where one belongs is left out.
pub fn read_message<'de>(
    alloc: Global,
    input: &'de [u8],
) -> Result<Message<'de>, ParseError<'static>> {
    message_of(&mut JsonParser::new(alloc, input))
}

/// Reads the message that comes.
fn message_of<'de>(parser: &mut JsonParser<'de>) -> Result<Message<'de>, ParseError<'static>> {
    let mut message = Message {
        id: None,
        method: None,
        params: None,
    };
    read_fields(parser, &mut message)?;
    Ok(message)
}

/// Reads the fields of a message, in whatever order they come.
fn read_fields<'de>(
    parser: &mut JsonParser<'de>,
    message: &mut Message<'de>,
) -> Result<(), ParseError<'static>> {
    parser.next_event()?;
    while let Some(field) = next_field(parser)? {
        read_field(parser, field, message)?;
    }
    Ok(())
}

/// The field that comes next, or `None` where no key does.
fn next_field(parser: &mut JsonParser<'_>) -> Result<Option<Field>, ParseError<'static>>
    ensures { IfOk result (λ o. OnSome o (ahead parser.new < ahead parser.old)) }
{
    match parser.next_event()? {
        Some(event) => Ok(field_of(&event)),
        None => Ok(None),
    }
}

/// The field whose key the event is.
fn field_of(event: &ParseEvent<'_>) -> Option<Field> {
    let ParseEventKind::FieldKey(key) = &event.kind else {
        return None;
    };
    Some(match key.name.as_str() {
        "id" => Field::Id,
        "method" => Field::Method,
        "params" => Field::Params,
        _ => Field::Unknown,
    })
}

/// Reads a field's value into the message.
fn read_field<'de>(
    parser: &mut JsonParser<'de>,
    field: Field,
    message: &mut Message<'de>,
) -> Result<(), ParseError<'static>>
    ensures { ahead parser.new ≤ ahead parser.old }
{
    match field {
        Field::Id => message.id = read_number(parser)?,
        Field::Method => message.method = read_text(parser)?,
        Field::Params => message.params = parser.capture_raw()?,
        Field::Unknown => parser.skip_value()?,
    }
    Ok(())
}

/// The number that comes next; another value is skipped.
fn read_number(parser: &mut JsonParser<'_>) -> Result<Option<u64>, ParseError<'static>>
    ensures { ahead parser.new ≤ ahead parser.old }
{
    let number = match parser.peek_event()? {
        Some(event) => number_of(&event),
        None => None,
    };
    parser.skip_value()?;
    Ok(number)
}

/// The number that the event gives.
fn number_of(event: &ParseEvent<'_>) -> Option<u64> {
    match &event.kind {
        ParseEventKind::Scalar(ScalarValue::U64(number)) => Some(*number),
        _ => None,
    }
}

/// The text that comes next; another value is skipped.
fn read_text<'de>(parser: &mut JsonParser<'de>) -> Result<Option<CowStr<'de>>, ParseError<'static>>
    ensures { ahead parser.new ≤ ahead parser.old }
{
    let text = match parser.peek_event()? {
        Some(event) => text_of(event),
        None => None,
    };
    parser.skip_value()?;
    Ok(text)
}

/// The text that the event gives.
fn text_of(event: ParseEvent<'_>) -> Option<CowStr<'_>> {
    match event.kind {
        ParseEventKind::Scalar(ScalarValue::Str(text)) => Some(text),
        _ => None,
    }
}

/// The parameters of a message as a value that is kept or passed on.
pub fn params<'de>(message: &Message<'de>) -> Option<RawJson<'de>> {
    match message.params {
        Some(text) => Some(RawJson::new(text)),
        None => None,
    }
}
