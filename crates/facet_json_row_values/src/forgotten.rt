//! Points of a parser that are forgotten.

use crate::shown::{Telling, push, push_script};
use crate::told::Told;
use facet_json::{JsonParser, SavePoint};
use std::alloc::Global;

/// Tells what a parser of the input answers to the calls of a script, in which `forget:N` forgets the point of that number.
pub fn answer_forget(alloc: Global, script: &str, input: &[u8], told: &mut Told) {
    let mut line = Told::new(alloc);
    let mut parser = JsonParser::new(alloc, input);
    for word in script.split(',') {
        push_step(alloc, &mut parser, word, &mut line);
    }
    told.line(line.as_str());
}

/// Appends what the parser answers to a call.
fn push_step(alloc: Global, parser: &mut JsonParser<'_>, word: &str, line: &mut Told) {
    if let Some(number) = word.strip_prefix("forget:") {
        parser.forget(SavePoint(number.parse().unwrap_or(0)));
        return push(line, "forgotten", Telling::All);
    }
    push_script(alloc, parser, word, line);
}
