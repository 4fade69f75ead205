//! What a document is checked against, by its events: limits of its parts, and values that have to be there. No tree is made of it.

ghost use Rattle.std.specs.Prelude.{◌≡◌, ◌≤◌, ◌<◌, length, OnOk, OnErr};

use facet_json::steps::{FindError, find_pointer, next_of_value};
use facet_json::{
    DeserializeError, DeserializeErrorKind, FormatParser, JsonParser, ParseEvent, ParseEventKind,
    Span,
};
use std::alloc::Global;

/// The greatest sizes of a document's parts.
#[derive(Clone, Copy)]
pub struct Limits {
    /// How many containers stand within each other.
    pub depth: usize,
    /// How many items or members one of them has.
    pub items: usize,
    /// How many bytes a key or a scalar has, as it is in the document, quotes included.
    pub length: usize,
}

/// A value that has to be there.
#[derive(Clone, Copy)]
pub struct Rule<'a> {
    /// Where, as a JSON pointer (RFC 6901).
    pub pointer: &'a str,
    /// What it is: one of `KINDS`.
    pub kind: &'static str,
}

/// What a value may be.
pub static KINDS: [&str; 6] = ["null", "bool", "number", "string", "array", "object"];

/// Whether all is as it should be, or the first that isn't.
pub type Checked = Result<(), DeserializeError<'static>>;

/// Refuses what is more than the most.
fn within(size: usize, most: usize, span: Span, message: &'static str) -> Checked
    ensures fits { OnOk result (size ≤ most) }
    ensures exceeds { OnErr result (most < size) }
{
    if size <= most {
        return Ok(());
    }
    Err(DeserializeError {
        kind: DeserializeErrorKind::InvalidValue { message },
        span: Some(span),
    })
}

/// Counts a value in the container that it stands in.
fn count(counts: &mut Vec<usize>, limits: Limits, span: Span) -> Checked
    ensures same { length counts.new.items ≡ length counts.old.items }
{
    match counts.last_mut() {
        Some(count) => {
            *count = count.saturating_add(1);
            within(*count, limits.items, span, "too many items")
        }
        None => Ok(()),
    }
}

/// Checks an event against the limits. There is a count for each container that is open, of its values so far: no more than the limits
/// allow.
fn check_event(counts: &mut Vec<usize>, limits: Limits, event: &ParseEvent<'_>) -> Checked
    ensures within { length counts.old.items ≤ limits.depth → OnOk result (length counts.new.items ≤ limits.depth) }
{
    let span = event.span;
    match &event.kind {
        ParseEventKind::StructStart(_) | ParseEventKind::SequenceStart(_) => {
            count(counts, limits, span)?;
            counts.push(0)?;
            within(counts.len(), limits.depth, span, "nested too deeply")
        }
        ParseEventKind::StructEnd | ParseEventKind::SequenceEnd => {
            let _closed = counts.pop();
            Ok(())
        }
        ParseEventKind::FieldKey(_) => within(span.len, limits.length, span, "too long a key"),
        ParseEventKind::Scalar(_) => {
            count(counts, limits, span)?;
            within(span.len, limits.length, span, "too long a value")
        }
    }
}

/// Checks all events of a document against the limits.
fn check_events(counts: &mut Vec<usize>, limits: Limits, parser: &mut JsonParser<'_>) -> Checked
    ensures within { length counts.old.items ≤ limits.depth → OnOk result (length counts.new.items ≤ limits.depth) }
{
    while let Some(event) = parser.next_event()? {
        check_event(counts, limits, &event)?;
    }
    Ok(())
}

/// Checks that an input is one text of RFC 8259 within the limits. The first that isn't is refused, from the left.
pub fn check_limits(alloc: Global, input: &[u8], limits: Limits) -> Checked {
    let mut parser = JsonParser::new_strict(alloc, input);
    check_events(&mut Vec::new(alloc), limits, &mut parser)
}

/// What the value is whose text begins so.
fn kind_of(text: &[u8]) -> &'static str {
    match text {
        [b'n', ..] => "null",
        [b't' | b'f', ..] => "bool",
        [b'"', ..] => "string",
        [b'[', ..] => "array",
        [b'{', ..] => "object",
        _ => "number",
    }
}

/// Refuses what was found in place of a kind, at this span.
fn expect(kind: &'static str, found: &'static str, span: Option<Span>) -> Checked {
    if kind == found {
        return Ok(());
    }
    Err(DeserializeError {
        kind: DeserializeErrorKind::TypeMismatch {
            expected: kind,
            got: found,
        },
        span,
    })
}

/// Goes to the value that a rule names, and checks it. Where there is none, the end of what lacks it is refused.
fn check_value(input: &[u8], rule: Rule<'_>, parser: &mut JsonParser<'_>) -> Checked {
    match find_pointer(parser, rule.pointer) {
        Ok(true) => {
            let span = next_of_value(parser)?.span;
            let text = input.get(span.offset..).unwrap_or(&[]);
            expect(rule.kind, kind_of(text), Some(span))
        }
        Ok(false) | Err(FindError::Pointer(_)) => {
            expect(rule.kind, "nothing", parser.current_span())
        }
        Err(FindError::Read(refused)) => Err(refused),
    }
}

/// Checks that a document has what a rule says. Of several members of one name the first counts.
pub fn check_rule(alloc: Global, input: &[u8], rule: Rule<'_>) -> Checked {
    check_value(input, rule, &mut JsonParser::new(alloc, input))
}
