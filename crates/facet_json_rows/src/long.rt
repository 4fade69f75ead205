//! Long inputs.

use crate::numbers::answer_number;
use crate::row::answer_parser;
use facet_json_row_values::documents::answer_document;
use facet_json_row_values::readings::answer_read_tree;
use facet_json_row_values::told::Told;
use facet_json_row_values::words::first_word;
use std::alloc::Global;

/// Tells what a command prints of a long input, `COUNT COUNT | COMMAND`: the parts of the text before and after its `|`, each
/// repeated so often.
pub fn answer_long(alloc: Global, words: &str, text: &str, told: &mut Told) {
    let (counts, command) = words.split_once(" | ").unwrap_or((words, ""));
    let mut input = Told::new(alloc);
    push_parts(counts, text, &mut input);
    let input = input.as_str().as_bytes();
    let (name, words) = first_word(command);
    match name {
        "number" => answer_number(words, input, told),
        "read_tree" => answer_read_tree(alloc, words, input, told),
        "parser" => answer_parser(alloc, words, input, told),
        "document" => answer_document(alloc, words, input, told),
        _ => told.line("NO COMMAND"),
    }
}

/// Appends the parts of the text before and after the `|`, each as often as its count says.
fn push_parts(counts: &str, text: &str, input: &mut Told) {
    let (part, after) = text.split_once('|').unwrap_or((text, ""));
    let (count, count_after) = first_word(counts);
    input.repeat(part, count.parse().unwrap_or(0));
    input.repeat(after, count_after.parse().unwrap_or(0));
}
