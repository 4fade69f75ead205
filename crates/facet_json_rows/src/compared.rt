//! What parsers tell of an input: each language, trusted and checking parsers, and each way to ask tell the same.

use crate::cuts::tell_cuts;
use crate::unread::{Unread, next_span, tell_parts};
use facet_json::scanner::Trust;
use facet_json::{
    Answer, Call, JsonParser, Language, drive, tree_from_slice, tree_from_slice_jsonc,
    tree_from_slice_strict,
};
use facet_json_row_values::shown::{Telling, push, push_answers};
use facet_json_row_values::told::Told;
use std::alloc::Global;

/// An input, and how it is read.
#[derive(Clone, Copy)]
pub struct Reading<'a> {
    pub alloc: Global,
    pub language: Language,
    /// Whether a text's strings are not checked.
    pub is_trusted: bool,
    pub input: &'a [u8],
}

impl<'a> Reading<'a> {
    /// A parser of the input; one that need not check its strings only where it is a text.
    pub fn parser(self) -> JsonParser<'a> {
        match str::from_utf8(self.input) {
            Ok(text) if self.is_trusted => self.trusting_parser(text),
            _ => self.checking_parser(),
        }
    }

    fn trusting_parser(self, text: &'a str) -> JsonParser<'a> {
        JsonParser::in_language(self.alloc, text.as_bytes(), self.language, Trust::Utf8)
    }

    fn checking_parser(self) -> JsonParser<'a> {
        match self.language {
            Language::Plain => JsonParser::new(self.alloc, self.input),
            Language::Jsonc => JsonParser::new_jsonc(self.alloc, self.input),
            Language::Strict => JsonParser::new_strict(self.alloc, self.input),
        }
    }

    /// What it is called.
    fn name(self) -> &'static str {
        match (self.language, self.is_trusted) {
            (Language::Plain, false) => "plain, checked",
            (Language::Plain, true) => "plain, trusted",
            (Language::Jsonc, false) => "jsonc, checked",
            (Language::Jsonc, true) => "jsonc, trusted",
            (Language::Strict, false) => "strict, checked",
            (Language::Strict, true) => "strict, trusted",
        }
    }
}

/// How an input is asked for what is in it.
#[derive(Clone, Copy)]
pub enum Way<'a> {
    /// All events and the end, one at a time.
    ByNext,
    /// All events and the end, one at a time, each after a look at it.
    ByPeekAndNext,
    /// All events and the end, at once.
    ByEvents,
    /// How many of the first so many events come, one at a time, and then the next one and the span.
    FirstByNext(usize),
    /// How many of the first so many events come, at once, and then the next one and the span.
    FirstByEvents(usize),
    /// The answers to these calls.
    ByCalls(&'a [Call]),
    /// What a skip or a capture does at each event, or after a look at it.
    ByUnread(Unread, bool),
    /// The tree.
    Tree,
    /// What comes of the input cut after each of its bytes.
    Cuts,
}

impl Way<'_> {
    fn name(self) -> &'static str {
        match self {
            Way::ByNext => "by next",
            Way::ByPeekAndNext => "by peek and next",
            Way::ByEvents => "by events",
            Way::FirstByNext(_) => "the first by next",
            Way::FirstByEvents(_) => "the first by events",
            Way::ByCalls(_) => "by calls",
            Way::ByUnread(_, false) => "unread",
            Way::ByUnread(_, true) => "unread after a peek",
            Way::Tree => "as a tree",
            Way::Cuts => "cut",
        }
    }
}

/// Tells what is told of the input, and each other telling of it.
pub fn compare(
    alloc: Global,
    languages: &[Language],
    ways: &[Way<'_>],
    input: &[u8],
    written: &mut Told,
) {
    let ([language, ..], [way, ..]) = (languages, ways) else {
        return written.line("NO LANGUAGE");
    };
    let mut told = Told::new(alloc);
    ask(checked_reading(alloc, *language, input), *way, &mut told);
    written.line(told.as_str());
    write_differences(alloc, languages, ways, input, told.as_str(), written);
}

/// Tells where these ways to ask, and parsers that trust the input and that check it, tell different things of it.
pub fn write_disagreement(
    alloc: Global,
    language: Language,
    ways: &[Way<'_>],
    input: &[u8],
    written: &mut Told,
) {
    if let [way, ..] = ways {
        let mut told = Told::new(alloc);
        ask(checked_reading(alloc, language, input), *way, &mut told);
        write_differences(alloc, &[language], ways, input, told.as_str(), written);
    }
}

/// An input that is checked.
fn checked_reading(alloc: Global, language: Language, input: &[u8]) -> Reading<'_> {
    Reading {
        alloc,
        language,
        is_trusted: false,
        input,
    }
}

/// Tells what is told of the input, each time that it isn't this.
fn write_differences(
    alloc: Global,
    languages: &[Language],
    ways: &[Way<'_>],
    input: &[u8],
    expected: &str,
    written: &mut Told,
) {
    for language in languages {
        for way in ways {
            for is_trusted in &[false, true] {
                let reading = Reading {
                    alloc,
                    language: *language,
                    is_trusted: *is_trusted,
                    input,
                };
                let mut told = Told::new(alloc);
                ask(reading, *way, &mut told);
                if told.as_str() != expected {
                    write_difference(reading, *way, told.as_str(), written);
                }
            }
        }
    }
}

/// Tells what is told of the input, behind how it is read and asked.
fn write_difference(reading: Reading<'_>, way: Way<'_>, told: &str, written: &mut Told) {
    for text in &["DIFFERS: ", reading.name(), ", ", way.name(), ": "] {
        written.say(text);
    }
    written.line(told);
}

/// Appends what is told of the input when it is asked this way.
fn ask(reading: Reading<'_>, way: Way<'_>, told: &mut Told) {
    let (alloc, len) = (reading.alloc, reading.input.len());
    let parser = &mut reading.parser();
    match way {
        Way::ByNext => tell_by_next(alloc, parser, len, told),
        Way::ByPeekAndNext => tell_by_peek_and_next(alloc, parser, len, told),
        Way::ByEvents => {
            let calls = [Call::Events(len), Call::Events(0), Call::Next, Call::Span];
            push_answers(alloc, parser, &calls, Telling::New, told);
        }
        Way::FirstByNext(count) => {
            tell_come(come_by_next(parser, count), told);
            push_answers(alloc, parser, &AFTER, Telling::All, told);
        }
        Way::FirstByEvents(count) => {
            tell_come_by_events(alloc, parser, count, told);
            push_answers(alloc, parser, &AFTER, Telling::All, told);
        }
        Way::ByCalls(calls) => push_answers(alloc, parser, calls, Telling::All, told),
        Way::ByUnread(call, is_peeked) => tell_parts(parser, call, is_peeked, len, told),
        Way::Tree => push_tree(reading, told),
        Way::Cuts => tell_cuts(reading, told),
    }
}

/// All events of an input of so many bytes and what comes after them, twice, and then the span.
fn tell_by_next(alloc: Global, parser: &mut JsonParser<'_>, len: usize, told: &mut Told) {
    for _ in 0..=len {
        push_answers(alloc, parser, &[Call::Next], Telling::New, told);
    }
    push_answers(alloc, parser, &[Call::Next, Call::Span], Telling::New, told);
}

/// Tells all events and the end, one at a time, each after a look at it, which has to show what comes.
fn tell_by_peek_and_next(alloc: Global, parser: &mut JsonParser<'_>, len: usize, told: &mut Told) {
    for _ in 0..=len {
        push_answers(alloc, parser, &[Call::Peek], Telling::New, told);
        let looked = told.len();
        push_answers(alloc, parser, &[Call::Next], Telling::New, told);
        if told.len() != looked {
            push(told, "not the event that was seen", Telling::New);
        }
    }
    push_answers(alloc, parser, &[Call::Span], Telling::New, told);
}

/// What is asked after the first events.
static AFTER: [Call; 2] = [Call::Next, Call::Span];

/// Appends that so many events came.
fn tell_come(come: usize, told: &mut Told) {
    told.show(&come);
    told.say(" events");
}

/// How many of the first so many events come, one at a time.
fn come_by_next(parser: &mut JsonParser<'_>, count: usize) -> usize {
    let mut come = 0_usize;
    for _ in 0..count {
        if matches!(next_span(parser), Ok(Some(_))) {
            come = come.saturating_add(1);
        }
    }
    come
}

/// Appends how many of the first so many events come, all at once.
fn tell_come_by_events(alloc: Global, parser: &mut JsonParser<'_>, count: usize, told: &mut Told) {
    match drive(alloc, parser, &[Call::Events(count)]) {
        Ok(answers) => tell_come(come_in(answers.as_slice()), told),
        Err(_) => told.lack(),
    }
}

/// How many events the first answer has; none where it has other than it says.
fn come_in(answers: &[Answer<'_>]) -> usize {
    match answers.first() {
        Some(Answer::Events(events, Ok(come))) if events.len() == *come => *come,
        _ => 0,
    }
}

/// Appends the tree or the refusal.
fn push_tree(reading: Reading<'_>, told: &mut Told) {
    let Reading {
        alloc,
        language,
        input,
        ..
    } = reading;
    told.show(&match language {
        Language::Plain => tree_from_slice(alloc, input),
        Language::Jsonc => tree_from_slice_jsonc(alloc, input),
        Language::Strict => tree_from_slice_strict(alloc, input),
    });
}
