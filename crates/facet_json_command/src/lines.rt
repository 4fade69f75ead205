//! The lines that `events` and `drive` print.

ghost use Rattle.std.specs.Prelude.{◌≡◌, ◌++◌, None, Some, Ok, codes, map, IfOk, IfErr, IfSome, OnOk};
ghost use Rattle.std.specs.Io.KnownBytes.{Appends};
ghost use Rattle.std.specs.List.{flat_map};
ghost use Rattle.std.specs.Option.{option_map};
ghost use Rattle.facet_format.specs.Event.{bytes_of};
ghost use Rattle.facet_format.specs.HeldText.{text_of};
ghost use Rattle.facet_format.specs.Views.{span_of, event_of, scalar_value_of, parse_refusal, answer_of_event, answer_of_skip};
ghost use Rattle.facet_format.specs.Views.{answer_of_capture, answer_of_save, answer_of_span};
ghost use Rattle.facet_json_core.specs.ScriptViews.{answer_of};
ghost use Rattle.facet_json_grammar.specs.Quoted.{quoted as quoted_text};
ghost use Rattle.facet_json_grammar.specs.Text.{default_options, text as tree_text};
ghost use Rattle.facet_json_tree.specs.Views.{tree_view};
ghost use Rattle.facet_json_command.specs.declared.run.Outcome.TheVariants as outcome;
ghost use Rattle.facet_json_command.specs.Lines.{head_text, place_line, value_line, scalar_line, event_line, refusal_line, count_line};
ghost use Rattle.facet_json_command.specs.Lines.{next_line, raw_line, answer_lines};
ghost use Rattle.facet_json_command.specs.Views.{count_of};
ghost use Rattle.facet_json_command.specs.Run.{Prints};
ghost use Rattle.facet_json_command.specs.Session.{Marks, outcome_of};

use crate::run::{OUT_OF_MEMORY, Outcome, Session};
use facet_format::{ParseError, ParseEvent, ParseEventKind, SavePoint, ScalarValue, Span};
use facet_json_core::Answer;
use facet_json_serializer::{JsonSerializeError, JsonSerializer};
use facet_json_tree::{Tree, write_tree};
use std::alloc::Global;
use std::borrow::CowStr;
use std::collections::VecDeque;
use std::fmt::Display;
use std::io;
use std::io::Write;

/// Writes the line of an event.
pub fn write_event<W: Write>(
    session: &mut Session,
    event: ParseEvent<'_>,
    writer: &mut W,
) -> Result<(), Outcome>
    ensures printed { Prints (W.contents writer.old) (W.contents writer.new) (event_line (event_of event.entry)) result }
    ensures marks { Marks session.old.failed session.new.failed (outcome_of result) }
{
    let span = event.span;
    match event.kind {
        ParseEventKind::StructStart(_) => write_place(session, writer, "StructStart", span),
        ParseEventKind::StructEnd => write_place(session, writer, "StructEnd", span),
        ParseEventKind::SequenceStart(_) => write_place(session, writer, "SequenceStart", span),
        ParseEventKind::SequenceEnd => write_place(session, writer, "SequenceEnd", span),
        ParseEventKind::FieldKey(key) => write_text(session, writer, "FieldKey", span, key.name),
        ParseEventKind::Scalar(value) => write_scalar(session, value, span, writer),
    }
}

/// Writes the line of a scalar.
fn write_scalar<W: Write>(
    session: &mut Session,
    value: ScalarValue<'_>,
    span: Span,
    writer: &mut W,
) -> Result<(), Outcome>
    ensures printed { Prints (W.contents writer.old) (W.contents writer.new)
        (scalar_line (scalar_value_of value.entry) (span_of span)) result }
    ensures marks { Marks session.old.failed session.new.failed (outcome_of result) }
{
    match value {
        ScalarValue::Null => write_place(session, writer, "Null", span),
        ScalarValue::Unit => write_place(session, writer, "Unit", span),
        ScalarValue::Bool(b) => write_value(session, writer, "Bool", span, b),
        ScalarValue::Char(c) => write_value(session, writer, "Char", span, c),
        ScalarValue::I64(n) => write_value(session, writer, "I64", span, n),
        ScalarValue::U64(n) => write_value(session, writer, "U64", span, n),
        ScalarValue::I128(n) => write_value(session, writer, "I128", span, n),
        ScalarValue::U128(n) => write_value(session, writer, "U128", span, n),
        ScalarValue::Decimal(decimal) => write_value(
            session,
            writer,
            "Decimal",
            span,
            decimal.as_str(),
        ),
        ScalarValue::Str(text) => write_text(session, writer, "Str", span, text),
        ScalarValue::Bytes(_) => write_place(session, writer, "Bytes", span),
    }
}

/// Writes the lines of an answer; of several events, one of each and then one of their number.
pub fn write_answer<W: Write>(
    session: &mut Session,
    answer: Answer<'_>,
    writer: &mut W,
) -> Result<(), Outcome>
    ensures printed { Prints (W.contents writer.old) (W.contents writer.new) (answer_lines (answer_of answer.entry)) result }
    ensures marks { Marks session.old.failed session.new.failed (outcome_of result) }
{
    match answer {
        Answer::Event(event) => write_given(session, event, writer),
        Answer::Events(events, count) => write_batch(session, events, count, writer),
        Answer::Skipped(passed) => write_skipped(session, writer, passed),
        Answer::Raw(text) => write_captured(session, writer, text),
        Answer::Saved(point) => write_point(session, writer, point),
        Answer::Restored => session.told(writeln!(writer, "ok")),
        Answer::Span(span) => write_span(session, writer, span),
    }
}

/// Writes the line of the next event or of the end, or of the refusal in its place.
fn write_given<W: Write>(
    session: &mut Session,
    event: Result<Option<ParseEvent<'_>>, ParseError<'_>>,
    writer: &mut W,
) -> Result<(), Outcome>
    ensures printed { Prints (W.contents writer.old) (W.contents writer.new) (answer_lines (answer_of_event event.entry)) result }
    ensures marks { Marks session.old.failed session.new.failed (outcome_of result) }
{
    match event {
        Ok(event) => write_next(session, event, writer),
        Err(error) => write_refusal(session, writer, error),
    }
}

/// Writes the line of the point that is kept, or of the refusal in its place.
fn write_point<W: Write>(
    session: &mut Session,
    writer: &mut W,
    point: Result<SavePoint, ParseError<'_>>,
) -> Result<(), Outcome>
    ensures printed { Prints (W.contents writer.old) (W.contents writer.new) (answer_lines (answer_of_save point.entry)) result }
    ensures marks { Marks session.old.failed session.new.failed (outcome_of result) }
{
    match point {
        Ok(SavePoint(point)) => session.told(writeln!(writer, "point {point}")),
        Err(error) => write_refusal(session, writer, error),
    }
}

/// Writes the line of a skip, or of the refusal in its place.
fn write_skipped<W: Write>(
    session: &mut Session,
    writer: &mut W,
    passed: Result<(), ParseError<'_>>,
) -> Result<(), Outcome>
    ensures printed { Prints (W.contents writer.old) (W.contents writer.new) (answer_lines (answer_of_skip passed.entry)) result }
    ensures marks { Marks session.old.failed session.new.failed (outcome_of result) }
{
    match passed {
        Ok(()) => session.told(writeln!(writer, "ok")),
        Err(error) => write_refusal(session, writer, error),
    }
}

/// Writes the line of a captured text, or of the refusal in its place.
fn write_captured<W: Write>(
    session: &mut Session,
    writer: &mut W,
    text: Result<Option<&str>, ParseError<'_>>,
) -> Result<(), Outcome>
    ensures printed { Prints (W.contents writer.old) (W.contents writer.new) (answer_lines (answer_of_capture text.entry)) result }
    ensures marks { Marks session.old.failed session.new.failed (outcome_of result) }
{
    match text {
        Ok(Some(text)) => write_raw(session, writer, text),
        Ok(None) => session.told(writeln!(writer, "None")),
        Err(error) => write_refusal(session, writer, error),
    }
}

/// Writes the line of a raw text, between quotes.
fn write_raw<W: Write>(session: &mut Session, writer: &mut W, text: &str) -> Result<(), Outcome>
    ensures printed { Prints (W.contents writer.old) (W.contents writer.new) (raw_line (Some text.now)) result }
    ensures marks { Marks session.old.failed session.new.failed (outcome_of result) }
{
    match quoted(session.alloc, CowStr::Borrowed(text)) {
        Ok(quoted) => session.told(write_raw_pieces(writer, quoted.as_slice())),
        Err(outcome) => Err(outcome),
    }
}

/// Writes a line of some bytes, after what names a raw text.
fn write_raw_pieces<W: Write>(writer: &mut W, bytes: &[u8]) -> io::Result<()>
    ensures { OnOk result (Appends (W.contents writer.old) (W.contents writer.new) (codes "raw " ++ bytes.now ++ codes "\n")) }
{
    writer.write_all(b"raw ")?;
    writer.write_all(bytes)?;
    writer.write_all(b"\n")
}

/// Writes the line of the current span.
fn write_span<W: Write>(
    session: &mut Session,
    writer: &mut W,
    span: Option<Span>,
) -> Result<(), Outcome>
    ensures printed { Prints (W.contents writer.old) (W.contents writer.new) (answer_lines (answer_of_span span)) result }
    ensures marks { Marks session.old.failed session.new.failed (outcome_of result) }
{
    match span {
        Some(span) => write_place(session, writer, "span", span),
        None => session.told(writeln!(writer, "None")),
    }
}

/// Writes the line of the next event, or of the end.
fn write_next<W: Write>(
    session: &mut Session,
    event: Option<ParseEvent<'_>>,
    writer: &mut W,
) -> Result<(), Outcome>
    ensures printed { Prints (W.contents writer.old) (W.contents writer.new) (next_line (option_map event_of event.entry)) result }
    ensures marks { Marks session.old.failed session.new.failed (outcome_of result) }
{
    match event {
        Some(event) => write_event(session, event, writer),
        None => session.told(writeln!(writer, "None")),
    }
}

/// Writes the lines of several events, and then of their number or of the refusal after them.
fn write_batch<W: Write>(
    session: &mut Session,
    events: VecDeque<ParseEvent<'_>>,
    count: Result<usize, ParseError<'_>>,
    writer: &mut W,
) -> Result<(), Outcome>
    ensures printed { Prints (W.contents writer.old) (W.contents writer.new)
        (flat_map event_line (map event_of events.entry.items) ++ count_line (count_of count.entry)) result }
    ensures marks { Marks session.old.failed session.new.failed (outcome_of result) }
{
    write_events(session, events, writer)?;
    write_count(session, writer, count)
}

/// Writes the line of how many events were given out, or of the refusal after them.
fn write_count<W: Write>(
    session: &mut Session,
    writer: &mut W,
    count: Result<usize, ParseError<'_>>,
) -> Result<(), Outcome>
    ensures printed { Prints (W.contents writer.old) (W.contents writer.new) (count_line (count_of count.entry)) result }
    ensures marks { Marks session.old.failed session.new.failed (outcome_of result) }
{
    match count {
        Ok(count) => session.told(writeln!(writer, "events {count}")),
        Err(error) => write_refusal(session, writer, error),
    }
}

/// Writes the lines of several events.
fn write_events<W: Write>(
    session: &mut Session,
    events: VecDeque<ParseEvent<'_>>,
    writer: &mut W,
) -> Result<(), Outcome>
    ensures printed { Prints (W.contents writer.old) (W.contents writer.new)
        (flat_map event_line (map event_of events.entry.items)) result }
    ensures marks { Marks session.old.failed session.new.failed (outcome_of result) }
{
    let mut events = events;
    while let Some(event) = events.pop_front() {
        write_event(session, event, writer)?;
    }
    Ok(())
}

/// Writes the line of a refused call.
fn write_refusal<W: Write>(
    session: &mut Session,
    writer: &mut W,
    error: ParseError<'_>,
) -> Result<(), Outcome>
    ensures printed { Prints (W.contents writer.old) (W.contents writer.new) (refusal_line (parse_refusal error.entry)) result }
    ensures marks { Marks session.old.failed session.new.failed (outcome_of result) }
{
    let code = error.kind.code();
    let offset = error.span.offset;
    let len = error.span.len;
    session.told(writeln!(writer, "error {code} {offset}+{len}"))
}

/// Writes a line of a name and its place.
pub fn write_place<W: Write>(
    session: &mut Session,
    writer: &mut W,
    name: &str,
    span: Span,
) -> Result<(), Outcome>
    ensures printed { Prints (W.contents writer.old) (W.contents writer.new) (place_line name.now (span_of span)) result }
    ensures marks { Marks session.old.failed session.new.failed (outcome_of result) }
{
    let offset = span.offset;
    let len = span.len;
    session.told(writeln!(writer, "{name} {offset}+{len}"))
}

/// Writes a line of a name, its place, and a value.
pub fn write_value<W: Write, D: Display + Drop>(
    session: &mut Session,
    writer: &mut W,
    name: &str,
    span: Span,
    value: D,
) -> Result<(), Outcome>
    ensures printed { IfSome (D.output value)
        (λ text. Prints (W.contents writer.old) (W.contents writer.new) (value_line name.now (span_of span) text) result) }
    ensures marks { Marks session.old.failed session.new.failed (outcome_of result) }
{
    let offset = span.offset;
    let len = span.len;
    session.told(writeln!(writer, "{name} {offset}+{len} {value}"))
}

/// Writes a line of a name, its place, and a text between quotes.
fn write_text<W: Write>(
    session: &mut Session,
    writer: &mut W,
    name: &str,
    span: Span,
    text: CowStr<'_>,
) -> Result<(), Outcome>
    ensures printed { Prints (W.contents writer.old) (W.contents writer.new)
        (value_line name.now (span_of span) (quoted_text (bytes_of (text_of text.entry)))) result }
    ensures marks { Marks session.old.failed session.new.failed (outcome_of result) }
{
    match quoted(session.alloc, text) {
        Ok(quoted) => session.told(write_pieces(writer, name, span, quoted.as_slice())),
        Err(outcome) => Err(outcome),
    }
}

/// Writes a line of a name, its place, and some bytes.
fn write_pieces<W: Write>(writer: &mut W, name: &str, span: Span, bytes: &[u8]) -> io::Result<()>
    ensures { OnOk result (Appends (W.contents writer.old) (W.contents writer.new) (value_line name.now (span_of span) bytes.now)) }
{
    write_head(writer, name, span)?;
    writer.write_all(bytes)?;
    writer.write_all(b"\n")
}

/// Writes the prefix of a line, a name and its place.
fn write_head<W: Write>(writer: &mut W, name: &str, span: Span) -> io::Result<()>
    ensures { OnOk result (Appends (W.contents writer.old) (W.contents writer.new) (head_text name.now (span_of span))) }
{
    let offset = span.offset;
    let len = span.len;
    write!(writer, "{name} {offset}+{len} ")
}

/// The text as it is written in a document.
fn quoted(alloc: Global, text: CowStr<'_>) -> Result<Vec<u8>, Outcome>
    ensures text { IfOk result (λ v. v.items ≡ quoted_text (bytes_of (text_of text.entry))) }
    ensures refused { IfErr result (λ o. o ≡ outcome.Refused 9 None) }
{
    match text.into_owned(alloc) {
        Ok(text) => text_of_tree(alloc, &Tree::Text(text)),
        Err(_) => Err(OUT_OF_MEMORY),
    }
}

/// The compact text of a tree.
fn text_of_tree(alloc: Global, tree: &Tree) -> Result<Vec<u8>, Outcome>
    ensures text { IfOk result (λ v. v.items ≡ tree_text default_options 0 (tree_view tree.now)) }
    ensures refused { IfErr result (λ o. o ≡ outcome.Refused 9 None) }
{
    match compact(alloc, tree) {
        Ok(text) => Ok(text),
        Err(_) => Err(OUT_OF_MEMORY),
    }
}

/// The compact text of a tree, or why it is not written.
fn compact(alloc: Global, tree: &Tree) -> Result<Vec<u8>, JsonSerializeError>
    ensures { IfOk result (λ v. v.items ≡ tree_text default_options 0 (tree_view tree.now)) }
{
    let mut serializer = JsonSerializer::new(alloc);
    write_tree(&mut serializer, tree)?;
    serializer.finish()
}
