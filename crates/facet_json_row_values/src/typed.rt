//! Values of types that are read of a text: by each function that reads one, and by a type's own readers among other calls of a parser.

use crate::entries::{By, ENTRIES, Entry, is_one, read_by, takes_depth};
use crate::marks::mark;
use crate::shown::{Telling, push, push_script};
use crate::told::Told;
use facet_format::FormatParser;
use facet_json::{DeserializeError, Facet, JsonParser, to_string, to_vec};
use facet_json_facet::value_in;
use std::alloc::Global;

/// How a type is asked for values of a text.
#[derive(Clone, Copy)]
pub enum How<'a> {
    /// By some entries, which have to tell the same; where a depth is given, by those that take one.
    Entries(By, Option<usize>),
    /// By its own readers, among these calls of a parser.
    Calls(&'a str),
    /// By this entry, whose requests for memory are marked.
    Marked(Entry),
}

/// A text, and how a type is asked for values of it.
#[derive(Clone, Copy)]
pub struct Asked<'a> {
    pub alloc: Global,
    pub how: How<'a>,
    pub text: &'a str,
}

/// Tells what the type reads.
pub fn tell<'a, T: Facet<'a>>(asked: Asked<'a>, told: &mut Told) {
    match asked.how {
        How::Entries(by, depth) => tell_entries::<T>(asked, by, depth, told),
        How::Calls(calls) => tell_calls::<T>(asked, calls, told),
        How::Marked(Entry::Owned) => tell_marked_reader::<T>(asked, false, told),
        How::Marked(Entry::Borrowed) => tell_marked_reader::<T>(asked, true, told),
        How::Marked(entry) => tell_marked::<T>(asked, &entry, told),
    }
}

/// Tells what the first of these entries reads, and each that reads something else.
fn tell_entries<'a, T: Facet<'a>>(asked: Asked<'a>, by: By, depth: Option<usize>, told: &mut Told) {
    let mut expected: Option<Told> = None;
    for (entry, name) in &ENTRIES {
        if is_one(entry, by) && (depth.is_none() || takes_depth(entry)) {
            let read = read_of::<T>(asked, entry, depth);
            match &expected {
                None => {
                    told.line(read.as_str());
                    expected = Some(read);
                }
                Some(expected) if expected.as_str() == read.as_str() => (),
                Some(_) => tell_difference(name, read.as_str(), told),
            }
        }
    }
}

/// Tells what is read otherwise than it was, behind who reads it so.
pub fn tell_difference(name: &str, read: &str, told: &mut Told) {
    for text in &["DIFFERS: ", name, ": "] {
        told.say(text);
    }
    told.line(read);
}

/// What is told of what the entry reads, within the depth where it takes one.
fn read_of<'a, T: Facet<'a>>(asked: Asked<'a>, entry: &Entry, depth: Option<usize>) -> Told {
    match entry {
        Entry::Owned => called_of::<T>(asked, "read", false),
        Entry::Borrowed => called_of::<T>(asked, "read", true),
        _ => told_of(
            asked.alloc,
            read_by::<T>(asked.alloc, entry, depth, asked.text),
        ),
    }
}

/// Tells what the calls answer where the type's reader borrows nothing, and anew where it may borrow, if that is something else.
fn tell_calls<'a, T: Facet<'a>>(asked: Asked<'a>, calls: &str, told: &mut Told) {
    let copied = called_of::<T>(asked, calls, false);
    told.line(copied.as_str());
    let lent = called_of::<T>(asked, calls, true);
    if lent.as_str() != copied.as_str() {
        tell_difference("borrowed", lent.as_str(), told);
    }
}

/// What is told of what a parser of the text answers to the calls that commas part. `read` is the type's own reader.
fn called_of<'a, T: Facet<'a>>(asked: Asked<'a>, calls: &str, borrows: bool) -> Told {
    let alloc = asked.alloc;
    let mut told = Told::new(alloc);
    let mut parser = JsonParser::new(alloc, asked.text.as_bytes());
    for call in calls.split(',') {
        if call == "read" {
            let read = told_of(alloc, value_in::<T>(alloc, &mut parser, borrows));
            push(&mut told, read.as_str(), Telling::All);
        } else {
            push_script(alloc, &mut parser, call, &mut told);
        }
    }
    told
}

/// What is told of a value, or of its refusal.
fn told_of<'a, T: Facet<'a>>(alloc: Global, answer: Result<T, DeserializeError<'_>>) -> Told {
    let mut told = Told::new(alloc);
    match answer {
        Ok(value) => tell_value(alloc, &value, &mut told),
        Err(error) => tell_refusal(&error, &mut told),
    }
    told
}

/// Tells the text as which the value is written.
fn tell_value<'a, T: Facet<'a>>(alloc: Global, value: &T, told: &mut Told) {
    match &to_string(alloc, value).ok() {
        Some(text) if is_written(alloc, value, text.as_bytes()) => told.say(text.as_str()),
        _ => told.say("NO TEXT"),
    }
}

/// Whether these are the bytes as which the value is written.
fn is_written<'a, T: Facet<'a>>(alloc: Global, value: &T, text: &[u8]) -> bool {
    match to_vec(alloc, value) {
        Ok(bytes) => bytes.as_slice() == text,
        Err(_) => false,
    }
}

/// Tells a refusal, and its place.
pub fn tell_refusal(error: &DeserializeError<'_>, told: &mut Told) {
    told.say("refused ");
    match error.span {
        Some(span) => told.show_at(&error.kind, span),
        None => told.show(&error.kind),
    }
}

/// Tells what the entry reads, whose requests are marked.
fn tell_marked<'a, T: Facet<'a>>(asked: Asked<'a>, entry: &Entry, told: &mut Told) {
    mark(asked.alloc);
    let answer = read_by::<T>(asked.alloc, entry, None, asked.text);
    mark(asked.alloc);
    told.line(told_of(asked.alloc, answer).as_str());
}

/// Tells what the type's own reader reads, whose requests are marked, and then what the parser answers next and where it stands.
fn tell_marked_reader<'a, T: Facet<'a>>(asked: Asked<'a>, borrows: bool, told: &mut Told) {
    let alloc = asked.alloc;
    mark(alloc);
    let mut parser = JsonParser::new(alloc, asked.text.as_bytes());
    let answer = value_in::<T>(alloc, &mut parser, borrows);
    mark(alloc);
    told.line(told_of(alloc, answer).as_str());
    let mut after = Told::new(alloc);
    push_script(alloc, &mut parser, "span,next,span", &mut after);
    told.line(after.as_str());
}
