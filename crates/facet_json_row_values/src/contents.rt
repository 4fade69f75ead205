//! What a tree is.

use crate::shown::separate;
use crate::told::Told;
use crate::trees::tree_of;
use facet_json::Tree;
use std::alloc::Global;
use std::fmt::Debug;

/// Tells which calls answer that the text's tree is what they ask for, and with what.
pub fn answer_content(alloc: Global, text: &str, told: &mut Told) {
    let mut line = Told::new(alloc);
    match tree_of(alloc, text) {
        Some(tree) => push_content(&tree, &mut line),
        None => line.say("NO TREE"),
    }
    if line.len() == 0 {
        line.say("nothing");
    }
    told.line(line.as_str());
}

/// Appends what each call answers of the tree that answers something.
fn push_content(tree: &Tree, line: &mut Told) {
    if tree.is_null() {
        line.say("is_null");
    }
    push_some("as_bool", &tree.as_bool(), line);
    push_some("as_u64", &tree.as_u64(), line);
    push_some("as_i64", &tree.as_i64(), line);
    push_some("as_u128", &tree.as_u128(), line);
    push_some("as_i128", &tree.as_i128(), line);
    push_some("as_decimal", &tree.as_decimal(), line);
    push_some("as_str", &tree.as_str(), line);
    push_some("as_raw", &tree.as_raw(), line);
    push_some("as_list", &tree.as_list(), line);
    push_some("as_pairs", &tree.as_pairs(), line);
}

/// Appends a call and its answer, where there is one.
pub fn push_some<T: Debug>(call: &str, answer: &Option<T>, line: &mut Told) {
    if let Some(value) = answer {
        separate(line);
        line.say(call);
        line.say(" ");
        line.show(value);
    }
}
