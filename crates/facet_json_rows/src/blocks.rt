//! The skip of a value whose bytes stand at each place of the windows and blocks that it is passed by.

use crate::compared::Reading;
use crate::unread::{Passed, Unread, passed_by};
use facet_format::{ParseError, Span};
use facet_json::Language;
use facet_json_row_values::shown::write_error;
use facet_json_row_values::told::Told;
use std::alloc::Global;

/// How often a part is repeated at most: over two blocks of sixty-four, and a little more.
const MOST: usize = 130;

/// More white space than a block is long.
const BLANK: &str = "                                                                      ";

/// An input in three parts.
#[derive(Clone, Copy)]
struct Parts<'a> {
    before: &'a str,
    repeated: &'a str,
    after: &'a str,
}

/// The parts that `|` parts.
fn parts_of(text: &str) -> Parts<'_> {
    let (before, rest) = text.split_once('|').unwrap_or((text, ""));
    let (repeated, after) = rest.split_once('|').unwrap_or((rest, ""));
    Parts {
        before,
        repeated,
        after,
    }
}

/// Tells for each language where a skip of the root ends, where the second of three parts is repeated 0 to 130 times.
pub fn answer_blocks(alloc: Global, languages: &[Language], text: &str, told: &mut Told) {
    for language in languages {
        write_ends(alloc, *language, parts_of(text), told);
    }
}

/// Where a skip of the root ends, or its refusal, counted from the end of the repeated part; nothing where white space after it changes
/// that.
type Ending = Option<Result<usize, ParseError<'static>>>;

/// Tells where the skip ends for each number of times from which on it ends elsewhere.
fn write_ends(alloc: Global, language: Language, parts: Parts<'_>, told: &mut Told) {
    let mut last = None;
    for count in 0..=MOST {
        let end = end_of(alloc, language, parts, count);
        if count == 0 || end != last {
            write_end(count, &end, told);
        }
        last = end;
    }
}

/// Tells where the skip ends where the part is repeated so often.
fn write_end(count: usize, end: &Ending, told: &mut Told) {
    told.show(&count);
    told.say(": ");
    match end {
        Some(Ok(end)) => told.show(end),
        Some(Err(error)) => write_error(error, told),
        None => told.say("DIFFERS"),
    }
    told.say("\n");
}

/// Where a skip of these parts ends, the second one so many times, where white space after them changes nothing.
fn end_of(alloc: Global, language: Language, parts: Parts<'_>, count: usize) -> Ending {
    let mut input = Told::new(alloc);
    input.say(parts.before);
    input.repeat(parts.repeated, count);
    input.say(parts.after);
    let less = parts.repeated.len().saturating_mul(count);
    let alone = skip_end(alloc, language, input.as_str(), less);
    input.say(BLANK);
    if skip_end(alloc, language, input.as_str(), less) == alone {
        alone
    } else {
        None
    }
}

/// Where a skip of the root ends, or its refusal, so many bytes less.
fn skip_end(alloc: Global, language: Language, input: &str, less: usize) -> Ending {
    let reading = Reading {
        alloc,
        language,
        is_trusted: false,
        input: input.as_bytes(),
    };
    match passed_by(&mut reading.parser(), Unread::Skip) {
        Ok(Passed::Token(span)) => Some(Ok(span.end().saturating_sub(less))),
        Ok(_) => None,
        Err(ParseError { span, kind }) => {
            let span = Span::new(span.offset.saturating_sub(less), span.len);
            Some(Err(ParseError { span, kind }))
        }
    }
}
