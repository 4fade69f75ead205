//! Calls whose requests for memory stand between two marks, so that `checks/allocations` can refuse each of these and no other.

use crate::compared::Reading;
use crate::pieces::agree;
use crate::row::text_of;
use crate::scans::scan_of;
use facet_format::{FormatParser, ParseError, ParseEvent};
use facet_json::{Answer, Call, JsonParser, drive};
use facet_json_command::script::parse_script;
use facet_json_row_values::marks::mark;
use facet_json_row_values::shown::{Telling, push_answer};
use facet_json_row_values::told::Told;
use facet_json_row_values::types::answer_marked_read;
use facet_json_row_values::words::{first_word, languages};
use std::alloc::{AllocError, Global};
use std::collections::VecDeque;

/// Tells what the calls answer: `parser LANGUAGE TRUST SCRIPT`, `queue LANGUAGE TRUST LIMIT`, `scan MODE STEP` or `scanner`; or
/// `read ENTRY TYPE`.
pub fn answer_marked(alloc: Global, words: &str, input: &[u8], told: &mut Told) {
    let (name, words) = first_word(words);
    if name == "read" {
        return answer_marked_read(alloc, words, text_of(input), told);
    }
    let (language, words) = first_word(words);
    let Some(language) = languages(language).first() else {
        return told.line("NO LANGUAGE");
    };
    let (trust, calls) = first_word(words);
    let reading = Reading {
        alloc,
        language: *language,
        is_trusted: trust == "trusting",
        input,
    };
    match (name, calls.parse()) {
        ("scan", _) => answer_scan(reading, words, told),
        ("scanner", _) => answer_scanner(reading, told),
        ("parser", _) => answer_script(reading, calls, told),
        ("queue", Ok(limit)) => answer_queue(reading, limit, told),
        _ => told.line("NO CALLS"),
    }
}

/// Tells what a parser of the input answers to a script's calls.
fn answer_script(reading: Reading<'_>, script: &str, told: &mut Told) {
    match parse_script(reading.alloc, script) {
        Ok(calls) => answer_calls(reading, calls.as_slice(), told),
        Err(_) => told.line("NO CALLS"),
    }
}

/// Tells what a parser of the input answers to the calls, a line each. It has the whole input then, too.
fn answer_calls(reading: Reading<'_>, calls: &[Call], told: &mut Told) {
    let alloc = reading.alloc;
    mark(alloc);
    let mut parser = reading.parser();
    let answers = drive(alloc, &mut parser, calls);
    let is_whole = parser.input() == Some(reading.input);
    mark(alloc);
    match answers {
        Ok(answers) if is_whole => write_answers(alloc, answers.as_slice(), told),
        Ok(_) => told.line("NO INPUT"),
        Err(_) => told.line("NO ROOM"),
    }
}

/// Tells each answer in a line.
fn write_answers(alloc: Global, answers: &[Answer<'_>], told: &mut Told) {
    for answer in answers {
        write_answer(alloc, answer, told);
    }
}

/// Tells an answer in a line.
fn write_answer(alloc: Global, answer: &Answer<'_>, told: &mut Told) {
    let mut line = Told::new(alloc);
    push_answer(alloc, answer, Telling::All, &mut line);
    told.line(line.as_str());
}

/// Tells the events that a parser of the input puts into one queue, up to so many at a time, and what ends that.
fn answer_queue(reading: Reading<'_>, limit: usize, told: &mut Told) {
    let alloc = reading.alloc;
    mark(alloc);
    let mut events = VecDeque::new(alloc);
    let ended = fill(
        &mut reading.parser(),
        limit,
        reading.input.len(),
        &mut events,
    );
    mark(alloc);
    write_answer(alloc, &Answer::Events(events, ended), told);
}

/// Puts all events of an input of so many bytes into the queue, up to so many at a time, and returns how many it has then.
fn fill<'de>(
    parser: &mut JsonParser<'de>,
    limit: usize,
    len: usize,
    events: &mut VecDeque<ParseEvent<'de>>,
) -> Result<usize, ParseError<'static>> {
    for _ in 0..=len {
        if parser.next_events(events, limit)? < limit {
            break;
        }
    }
    Ok(events.len())
}

/// Tells what a scan of the input in pieces of so many bytes gives.
fn answer_scan(reading: Reading<'_>, step: &str, told: &mut Told) {
    let step = step.parse().unwrap_or(0);
    if step == 0 {
        return told.line("NO STEP");
    }
    let mut reader = reading.input;
    mark(reading.alloc);
    let scanned = scan_of(reading.alloc, &mut reader, step, reading.language.mode());
    mark(reading.alloc);
    told.show_line(&scanned);
}

/// Tells whether scanners of both languages find the same tokens in pieces of the input.
fn answer_scanner(reading: Reading<'_>, told: &mut Told) {
    mark(reading.alloc);
    let agrees = agree(reading.input);
    mark(reading.alloc);
    told.show_line(&agrees);
}
