//! Inputs cut after each of their bytes.

use crate::compared::{Reading, Way, compare, write_disagreement};
use crate::row::ALL_EVENTS;
use crate::unread::{Passed, Unread, last_span, next_span, passed_by, write_passed};
use facet_format::{ParseError, Span};
use facet_json::{JsonParser, Language};
use facet_json_row_values::told::Told;
use std::alloc::Global;

/// What is passed of a prefix, or the refusal.
type Cut = Result<Passed, ParseError<'static>>;

/// Tells what comes of each prefix of the input, and where parsers of a prefix, or ways to ask them, tell different things.
pub fn answer_cuts(alloc: Global, languages: &[Language], input: &[u8], told: &mut Told) {
    compare(alloc, languages, &[Way::Cuts], input, told);
    for language in languages {
        for len in 0..=input.len() {
            let prefix = &input[..len];
            write_disagreement(alloc, *language, &ALL_EVENTS, prefix, told);
            for way in &UNREAD {
                write_disagreement(alloc, *language, &[*way], prefix, told);
            }
        }
    }
}

/// The ways to skip and to capture each part.
static UNREAD: [Way<'static>; 4] = [
    Way::ByUnread(Unread::Skip, false),
    Way::ByUnread(Unread::Skip, true),
    Way::ByUnread(Unread::Capture, false),
    Way::ByUnread(Unread::Capture, true),
];

/// Of each prefix of the input, the empty one first: how many events come, and then the end or the refusal; and what a skip and a
/// capture of its root do, unless both are refused alike.
pub fn tell_cuts(reading: Reading<'_>, told: &mut Told) {
    for len in 0..=reading.input.len() {
        if len > 0 {
            told.say("; ");
        }
        let input = &reading.input[..len];
        tell_cut(Reading { input, ..reading }, told);
    }
}

/// What comes of a prefix.
fn tell_cut(reading: Reading<'_>, told: &mut Told) {
    let (parser, len) = (&mut reading.parser(), reading.input.len());
    told.show(&come_in(parser, len));
    told.say(", ");
    let end = end_of(parser, len);
    write_cut(end, told);
    let skip = passed_by(&mut reading.parser(), Unread::Skip);
    let capture = passed_by(&mut reading.parser(), Unread::Capture);
    if !(is_refused_so(skip, end) && is_refused_so(capture, end)) {
        told.say(", ");
        write_cut(skip, told);
        told.say(", ");
        write_cut(capture, told);
    }
}

/// Whether both are refusals of one number and span.
fn is_refused_so(one: Cut, other: Cut) -> bool {
    match (one, other) {
        (Err(one), Err(other)) => one.kind.code() == other.kind.code() && one.span == other.span,
        _ => false,
    }
}

/// How many of the first so many events come, which are all that an input of so many bytes may have.
fn come_in(parser: &mut JsonParser<'_>, len: usize) -> usize {
    let mut come = 0_usize;
    for _ in 0..len {
        if comes(parser, len) == Some(Ok(true)) {
            come = come.saturating_add(1);
        }
    }
    come
}

/// The end or the refusal, which comes again.
fn end_of(parser: &mut JsonParser<'_>, len: usize) -> Cut {
    let end = comes(parser, len);
    if comes(parser, len) != end {
        return Ok(Passed::Nothing("not again"));
    }
    match end {
        Some(Ok(false)) => Ok(Passed::Nothing("None")),
        Some(Err(error)) => Err(error),
        _ => Ok(Passed::Nothing("no end")),
    }
}

/// Whether an event comes, or the refusal; nothing where one of these, or the last token then, is of other than the first so many bytes.
fn comes(parser: &mut JsonParser<'_>, len: usize) -> Option<Result<bool, ParseError<'static>>> {
    let (span, came) = match next_span(parser) {
        Ok(Some(span)) => (span, Ok(true)),
        Ok(None) => (Span::new(0, 0), Ok(false)),
        Err(error) => (error.span, Err(error)),
    };
    if span.end() <= len && last_span(parser)?.end() <= len {
        Some(came)
    } else {
        None
    }
}

/// Tells what is passed, or the refusal's number and span.
fn write_cut(cut: Cut, told: &mut Told) {
    match cut {
        Ok(passed) => write_passed(passed, told),
        Err(error) => told.show_at(&error.kind.code(), error.span),
    }
}
