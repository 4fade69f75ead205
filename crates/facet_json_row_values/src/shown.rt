//! Answers of a parser as texts, so that all that is told of an input is one line.

use crate::told::Told;
use facet_format::{ParseError, ParseEvent, ParseEventKind};
use facet_json::{Answer, Call, JsonParser, drive};
use facet_json_command::script::parse_script;
use std::alloc::Global;
use std::collections::VecDeque;

/// What is told of what is seen.
#[derive(Clone, Copy)]
pub enum Telling {
    /// All of it.
    All,
    /// What wasn't told last.
    New,
}

/// Appends a text after those that are told.
pub fn push(told: &mut Told, text: &str, telling: Telling) {
    if !(matches!(telling, Telling::New) && told.as_str().ends_with(text)) {
        separate(told);
        told.say(text);
    }
}

/// Separates what is told from what comes next.
pub fn separate(told: &mut Told) {
    if told.len() > 0 {
        told.say("; ");
    }
}

/// Appends the answers to the calls.
pub fn push_answers(
    alloc: Global,
    parser: &mut JsonParser<'_>,
    calls: &[Call],
    telling: Telling,
    told: &mut Told,
) {
    match drive(alloc, parser, calls) {
        Ok(answers) => {
            for answer in answers.as_slice() {
                push_answer(alloc, answer, telling, told);
            }
        }
        Err(_) => told.lack(),
    }
}

/// Appends the answers to the calls of a script.
pub fn push_script(alloc: Global, parser: &mut JsonParser<'_>, script: &str, told: &mut Told) {
    match parse_script(alloc, script) {
        Ok(calls) => push_answers(alloc, parser, calls.as_slice(), Telling::All, told),
        Err(_) => told.say("NO SCRIPT"),
    }
}

/// Appends an answer; of several events one after the other, and then their number or the refusal after them.
/// Where only what is new is told, their number is told where it isn't right.
pub fn push_answer(alloc: Global, answer: &Answer<'_>, telling: Telling, told: &mut Told) {
    if let Answer::Events(events, answered) = answer {
        push_events(alloc, events, telling, told);
        if matches!(telling, Telling::New) && *answered == Ok(events.len()) {
            return;
        }
    }
    let mut text = Told::new(alloc);
    write_answer(answer, &mut text);
    push(told, text.as_str(), telling);
}

/// Appends events, one after the other.
fn push_events(
    alloc: Global,
    events: &VecDeque<ParseEvent<'_>>,
    telling: Telling,
    told: &mut Told,
) {
    for event in events {
        let mut text = Told::new(alloc);
        write_event(event, &mut text);
        push(told, text.as_str(), telling);
    }
}

/// Writes an answer; of several events their number, or the refusal after them.
fn write_answer(answer: &Answer<'_>, text: &mut Told) {
    match answer {
        Answer::Event(Ok(Some(event))) => write_event(event, text),
        Answer::Event(Ok(None)) => text.say("None"),
        Answer::Events(_, Ok(count)) => {
            text.say("events ");
            text.show(count);
        }
        Answer::Skipped(Ok(())) => text.say("skipped"),
        Answer::Raw(Ok(Some(raw))) => {
            text.say("raw ");
            text.show(raw);
        }
        Answer::Raw(Ok(None)) => text.say("no raw text"),
        Answer::Saved(Ok(point)) => {
            text.say("point ");
            text.show(&point.0);
        }
        Answer::Event(Err(error)) | Answer::Events(_, Err(error)) | Answer::Saved(Err(error)) => {
            write_error(error, text);
        }
        Answer::Skipped(Err(error)) | Answer::Raw(Err(error)) => write_error(error, text),
        Answer::Restored => text.say("restored"),
        Answer::Span(Some(span)) => {
            text.say("span ");
            text.span(*span);
        }
        Answer::Span(None) => text.say("no span"),
    }
}

/// Writes an event and its span.
fn write_event(event: &ParseEvent<'_>, text: &mut Told) {
    match &event.kind {
        ParseEventKind::StructStart(_) => text.say("{"),
        ParseEventKind::StructEnd => text.say("}"),
        ParseEventKind::SequenceStart(_) => text.say("["),
        ParseEventKind::SequenceEnd => text.say("]"),
        ParseEventKind::FieldKey(key) => {
            text.say("key(");
            text.show(&key.name.as_str());
            text.say(")");
        }
        ParseEventKind::Scalar(value) => text.show(value),
    }
    text.say(" ");
    text.span(event.span);
}

/// Writes a refusal.
pub fn write_error(error: &ParseError<'_>, text: &mut Told) {
    text.say("refused ");
    text.show(&error.kind);
    text.say(" ");
    text.span(error.span);
}
