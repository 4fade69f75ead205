//! Trees that are equal, and trees as text.

use crate::told::Told;
use crate::words::first_word;
use facet_json::{
    HexBytesOptions, OwnedDecimal, SerializeOptions, Tree, to_string, to_string_pretty,
    to_string_with_options, to_vec, to_vec_pretty, to_vec_with_options, tree_from_slice,
};
use std::alloc::Global;

/// The tree of the text, or the value that its first word names: `list` is a list of other such values, whose texts `;` parts.
pub fn tree_of(alloc: Global, text: &str) -> Option<Tree> {
    match first_word(text) {
        ("list", texts) => list_of(alloc, texts),
        _ => leaf_of(alloc, text),
    }
}

/// The tree of a text that is no `list`: of one value, which its first word names.
fn leaf_of(alloc: Global, text: &str) -> Option<Tree> {
    match first_word(text) {
        ("unit", _) => Some(Tree::Unit),
        ("char", text) => Some(Tree::from(text.chars().next()?)),
        ("i64", digits) => Some(Tree::from(digits.parse::<i64>().ok()?)),
        ("i128", digits) => Some(Tree::from(digits.parse::<i128>().ok()?)),
        ("u128", digits) => Some(Tree::from(digits.parse::<u128>().ok()?)),
        ("literal", digits) => Some(Tree::from(decimal_of(alloc, digits)?)),
        ("bytes", numbers) => Some(Tree::Bytes(bytes_of(alloc, numbers)?)),
        ("object", _) => Some(Tree::from(Vec::<(String, Tree)>::new(alloc))),
        ("text", text) => Some(Tree::from(String::from_str(alloc, text).ok()?)),
        ("bool", word) => Some(Tree::from(word == "true")),
        ("u64", digits) => Some(Tree::from(digits.parse::<u64>().ok()?)),
        ("raw", text) => Some(Tree::Raw(String::from_str(alloc, text).ok()?)),
        _ => tree_from_slice(alloc, text.as_bytes()).ok(),
    }
}

/// The numbers between the blanks, each a byte.
fn bytes_of(alloc: Global, numbers: &str) -> Option<Vec<u8>> {
    let mut bytes = Vec::new(alloc);
    match push_bytes(numbers, &mut bytes) {
        Some(()) => Some(bytes),
        None => None,
    }
}

/// Appends the numbers between the blanks.
fn push_bytes(numbers: &str, bytes: &mut Vec<u8>) -> Option<()> {
    for number in numbers.split(' ') {
        bytes.push(number.parse().ok()?).ok()?;
    }
    Some(())
}

/// A list of the trees of the texts that `;` parts.
fn list_of(alloc: Global, texts: &str) -> Option<Tree> {
    let mut items = Vec::new(alloc);
    match push_leaves(alloc, texts, &mut items) {
        Some(()) => Some(Tree::from(items)),
        None => None,
    }
}

/// Appends the trees of the texts that `;` parts.
fn push_leaves(alloc: Global, texts: &str, items: &mut Vec<Tree>) -> Option<()> {
    for text in texts.split(';') {
        items.push(leaf_of(alloc, text)?).ok()?;
    }
    Some(())
}

/// The decimal of this text.
fn decimal_of(alloc: Global, text: &str) -> Option<OwnedDecimal> {
    OwnedDecimal::from_string(String::from_str(alloc, text).ok()?).ok()
}

/// Tells whether the trees of the texts before and after the `|` are equal.
pub fn answer_equal(alloc: Global, input: &str, told: &mut Told) {
    let (a, b) = input.split_once('|').unwrap_or((input, ""));
    match (tree_of(alloc, a), tree_of(alloc, b)) {
        (Some(a), Some(b)) => told.show_line(&(a == b)),
        _ => told.line("NO TREE"),
    }
}

/// The options that the words name: bytes as hexadecimal text, which three numbers shorten, or a tabulator for each container.
fn options(words: &str) -> SerializeOptions<'static> {
    match first_word(words) {
        ("hex", "") => SerializeOptions::new().bytes_as_hex(),
        ("hex", numbers) => SerializeOptions::new().bytes_as_hex_with_options(shortened(numbers)),
        _ => SerializeOptions::new().indent("\t"),
    }
}

/// Above so many bytes only so many of the first and so many of the last ones.
fn shortened(numbers: &str) -> HexBytesOptions {
    let (above, ends) = first_word(numbers);
    let (head, tail) = first_word(ends);
    HexBytesOptions::new()
        .truncate(above.parse().unwrap_or(0))
        .head_tail(head.parse().unwrap_or(0), tail.parse().unwrap_or(0))
}

/// The bytes that are written of the tree, in the layout that the word names.
fn bytes_written(alloc: Global, tree: &Tree, word: &str) -> Option<Vec<u8>> {
    let written = match word {
        "" | "display" => to_vec(alloc, tree),
        "pretty" => to_vec_pretty(alloc, tree),
        other => to_vec_with_options(alloc, tree, &options(other)),
    };
    written.ok()
}

/// The text that is displayed of the tree.
pub fn text_displayed(alloc: Global, tree: &Tree) -> Option<String> {
    format!(in alloc; "{tree}").ok()
}

/// Tells a tree by its text; one that this text is not read to, as it is shown to programmers.
pub fn tell_tree(alloc: Global, tree: &Tree, told: &mut Told) {
    match &text_displayed(alloc, tree) {
        Some(text) if is_read_to(alloc, text.as_str(), tree) => told.say(text.as_str()),
        _ => told.show(tree),
    }
}

/// Whether the text is read to this tree.
fn is_read_to(alloc: Global, text: &str, tree: &Tree) -> bool {
    match tree_from_slice(alloc, text.as_bytes()) {
        Ok(read) => read.is_same(tree) && read == *tree,
        Err(_) => false,
    }
}

/// The text that is written of the tree, in the layout that the word names.
fn text_written(alloc: Global, tree: &Tree, word: &str) -> Option<String> {
    let written = match word {
        "display" => return text_displayed(alloc, tree),
        "" => to_string(alloc, tree),
        "pretty" => to_string_pretty(alloc, tree),
        other => to_string_with_options(alloc, tree, &options(other)),
    };
    written.ok()
}

/// Tells the text of the text's tree, in the layout that the word names; none where bytes and text differ.
pub fn answer_write(alloc: Global, word: &str, input: &str, told: &mut Told) {
    match tree_of(alloc, input) {
        Some(tree) => write_tree(alloc, &tree, word, told),
        None => told.line("NO TREE"),
    }
}

fn write_tree(alloc: Global, tree: &Tree, word: &str, told: &mut Told) {
    match &text_written(alloc, tree, word) {
        Some(text) if are_written(alloc, tree, word, text.as_bytes()) => {
            told.lines(text.as_bytes());
        }
        _ => told.line("NO TREE"),
    }
}

/// Whether these are the bytes that are written of the tree, in the layout that the word names.
fn are_written(alloc: Global, tree: &Tree, word: &str, text: &[u8]) -> bool {
    match bytes_written(alloc, tree, word) {
        Some(bytes) => bytes.as_slice() == text,
        None => false,
    }
}
