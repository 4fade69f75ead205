//! What the program prints, and how a run of it ends.

use crate::faults::{Case, FaultyReader, run_over, write_untold};
use facet_json::Span;
use facet_json_command::run::{OUT_OF_MEMORY, Outcome, status, write_line};
use facet_json_row_values::told::Told;
use std::alloc::Global;
use std::io::ErrorKind;

/// Tells what the program writes, and which failures of a reader or writer it does not tell of.
pub fn answer_program(alloc: Global, words: &str, input: &[u8], told: &mut Told) {
    let mut args = Vec::new(alloc);
    if !are_split(alloc, words, &mut args) {
        return told.lack();
    }
    let mut written = Vec::new(alloc);
    let mut reader = input;
    let outcome = run_over(alloc, args.as_slice(), &mut reader, &mut written);
    let case = Case {
        args: args.as_slice(),
        input,
        outcome,
        written: written.as_slice(),
    };
    write_end(alloc, outcome, case.written, told);
    write_untold(alloc, &case, told);
}

/// Tells what the program writes where a read fails once the first bytes are read.
pub fn answer_failed(alloc: Global, kind: ErrorKind, command: &str, input: &[u8], told: &mut Told) {
    let mut args = Vec::new(alloc);
    match command.strip_prefix("facet_json_tool ") {
        Some(words) if are_split(alloc, words, &mut args) => {
            let mut reader = FaultyReader::new(input, 1, kind);
            write_run(alloc, args.as_slice(), &mut reader, told);
        }
        _ => told.line("NO COMMAND"),
    }
}

/// Tells what a run over this reader writes.
fn write_run(alloc: Global, args: &[String], reader: &mut FaultyReader<'_>, told: &mut Told) {
    let mut written = Vec::new(alloc);
    let outcome = run_over(alloc, args, reader, &mut written);
    write_end(alloc, outcome, written.as_slice(), told);
}

/// Tells what the program writes at a run's end in this way.
pub fn answer_ended(alloc: Global, way: &str, told: &mut Told) {
    let outcome = match way {
        "done" => Outcome::Done,
        "io" => Outcome::Io,
        "memory" => OUT_OF_MEMORY,
        "usage" => Outcome::Usage,
        "value" => Outcome::Refused(5, Some(Span::new(1, 40))),
        _ => return told.line("NO END"),
    };
    write_end(alloc, outcome, b"", told);
}

/// Tells what the program wrote to its standard output, then its line for the standard error, and its status where that isn't 0.
fn write_end(alloc: Global, outcome: Outcome, written: &[u8], told: &mut Told) {
    told.lines(written);
    let mut line = Vec::new(alloc);
    if write_line(outcome, &mut line).is_err() {
        told.line("NO LINE");
    }
    told.lines(line.as_slice());
    let status = status(outcome);
    if status != 0 {
        told.say("status ");
        told.show_line(&status);
    }
}

/// Appends the words, which blanks part; single quotes around one are no part of it. Whether there is memory for them.
fn are_split(alloc: Global, words: &str, args: &mut Vec<String>) -> bool {
    for word in words.split(' ') {
        if !(word.is_empty() || is_kept(alloc, word.trim_matches('\''), args)) {
            return false;
        }
    }
    true
}

/// Appends the word, and returns whether there is memory for it.
fn is_kept(alloc: Global, word: &str, args: &mut Vec<String>) -> bool {
    match String::from_str(alloc, word) {
        Ok(word) => args.push(word).is_ok(),
        Err(_) => false,
    }
}
