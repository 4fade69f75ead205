//! Trees that are read by each function.

use crate::marks::mark;
use crate::told::Told;
use crate::trees::tell_tree;
use crate::words::first_word;
use facet_json::{
    DeserializeError, JsonParser, Tree, read_tree, tree_from_slice, tree_from_slice_jsonc,
    tree_from_slice_strict, tree_from_slice_within, tree_from_slice_within_jsonc,
    tree_from_slice_within_strict,
};
use std::alloc::Global;

/// Tells the tree that the function of this name reads, within a depth where it has one, or the refusal. Its requests for memory stand
/// between two marks.
pub fn answer_read_tree(alloc: Global, words: &str, input: &[u8], told: &mut Told) {
    mark(alloc);
    let read = read_by(alloc, words, input);
    mark(alloc);
    match read {
        Ok(tree) => tell_tree(alloc, &tree, told),
        Err(error) => tell_refusal(&error, told),
    }
    told.say("\n");
}

/// What the function reads.
fn read_by<'t>(alloc: Global, words: &str, input: &[u8]) -> Result<Tree, DeserializeError<'t>> {
    let (name, depth) = first_word(words);
    let depth = depth.parse().unwrap_or(0);
    match name {
        "plain" => tree_from_slice(alloc, input),
        "jsonc" => tree_from_slice_jsonc(alloc, input),
        "strict" => tree_from_slice_strict(alloc, input),
        "within" => tree_from_slice_within(alloc, input, depth),
        "within_jsonc" => tree_from_slice_within_jsonc(alloc, input, depth),
        "within_strict" => tree_from_slice_within_strict(alloc, input, depth),
        _ => read_tree(alloc, &mut JsonParser::new(alloc, input)),
    }
}

/// Tells a reader's refusal, its number and its place.
fn tell_refusal(error: &DeserializeError<'_>, told: &mut Told) {
    told.show(&error.kind);
    told.say(" ");
    told.show(&error.kind.code());
    told.say(" at ");
    told.place(error.span);
}
