//! Searches by pointers.

use crate::changed::tell_no_pointer;
use crate::shown::separate;
use crate::told::Told;
use crate::trees::tell_tree;
use facet_json::steps::{FindError, find_pointer};
use facet_json::{FormatParser, JsonParser, read_tree};
use std::alloc::Global;

/// Tells how searches end in the input on the text's first line, by the pointer on each line after that; where the last one finds
/// something, also the value that is read from there, and where that ends.
pub fn answer_find(alloc: Global, text: &str, told: &mut Told) {
    let (input, pointers) = text.split_once('\n').unwrap_or((text, ""));
    let mut line = Told::new(alloc);
    let mut parser = JsonParser::new(alloc, input.as_bytes());
    if is_found(&mut parser, pointers, &mut line) {
        push_value(alloc, &mut parser, &mut line);
    }
    told.line(line.as_str());
}

/// Appends how each search ends, and returns whether the last one finds something.
fn is_found(parser: &mut JsonParser<'_>, pointers: &str, line: &mut Told) -> bool {
    let mut is_found = false;
    for pointer in pointers.split('\n') {
        separate(line);
        is_found = finds(parser, pointer, line);
    }
    is_found
}

/// Appends how the search ends, and returns whether it finds something.
fn finds(parser: &mut JsonParser<'_>, pointer: &str, line: &mut Told) -> bool {
    match find_pointer(parser, pointer) {
        Ok(true) => {
            line.say("found");
            return true;
        }
        Ok(false) => {
            line.say("none, up to ");
            push_end(parser, line);
        }
        Err(FindError::Pointer(error)) => tell_no_pointer(error, line),
        Err(FindError::Read(error)) => {
            line.say("refused at ");
            line.place(error.span);
        }
    }
    false
}

/// Appends where the last token ends.
fn push_end(parser: &JsonParser<'_>, line: &mut Told) {
    match parser.current_span() {
        Some(span) => line.show(&span.end()),
        None => line.say("no token"),
    }
}

/// Appends the value that comes next, and where it ends.
fn push_value(alloc: Global, parser: &mut JsonParser<'_>, line: &mut Told) {
    line.say("; ");
    match read_tree(alloc, parser) {
        Ok(value) => tell_tree(alloc, &value, line),
        Err(_) => line.say("NO VALUE"),
    }
    line.say(" up to ");
    push_end(parser, line);
}
