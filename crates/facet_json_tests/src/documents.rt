//! Trees that are taken of a document of nodes, and values of one that are written by a serializer that the caller holds. What a document's
//! values are, the rows of `facet_json_rows` say.

use crate::expecting::expect_of;
use crate::typed;
use facet_format::FormatSerializer;
use facet_json::{
    Document, JsonSerializeError, JsonSerializer, SerializeOptions, Tree, Value, tree_from_slice,
};
use std::alloc::Global;

/// Whether the tree is the text's, which is read where memory suffices.
pub fn is_of(alloc: Global, tree: &Tree, text: &str) -> Option<bool> {
    match tree_from_slice(alloc, text.as_bytes()) {
        Ok(wanted) => Some(tree.is_same(&wanted)),
        Err(_) => None,
    }
}

/// The tree of the value that a pointer names in a document, which is gone then; none where it names no value, or memory runs out.
pub fn tree_at(alloc: Global, text: &str, pointer: &str) -> Option<Tree> {
    let document = Document::parse(alloc, text.as_bytes()).ok()?;
    let value = document.root().pointer(pointer).ok()??;
    value.to_tree(alloc).ok()
}

/// Writes the root twice in a list.
fn write_twice(
    document: &Document<'_>,
    serializer: &mut JsonSerializer<'_>,
) -> Result<(), JsonSerializeError> {
    serializer.begin_seq()?;
    document.root().write(serializer)?;
    document.root().write(serializer)?;
    serializer.end_seq()
}

/// The root twice in a list.
fn written_twice(alloc: Global, document: &Document<'_>) -> Result<Vec<u8>, JsonSerializeError> {
    let mut serializer = JsonSerializer::new(alloc);
    write_twice(document, &mut serializer)?;
    serializer.finish()
}

/// Whether the text of it is this, if memory suffices.
pub fn is_written(alloc: Global, text: &str, wanted: &str) -> Option<bool> {
    match Document::parse(alloc, text.as_bytes()) {
        Ok(document) => typed::is_written(written_twice(alloc, &document), wanted),
        Err(_) => None,
    }
}

/// A value, an element on each line.
fn written_pretty(alloc: Global, value: &Value<'_, '_>) -> Result<Vec<u8>, JsonSerializeError> {
    let mut serializer = JsonSerializer::with_options(alloc, SerializeOptions::new().pretty());
    value.write(&mut serializer)?;
    serializer.finish()
}

/// Whether the member `a` of an object is laid out so.
fn is_laid_out(alloc: Global, text: &str, wanted: &str) -> bool {
    match Document::parse(alloc, text.as_bytes()) {
        Ok(document) => match document.root().get("a") {
            Some(member) => typed::is_written(written_pretty(alloc, &member), wanted) == Some(true),
            None => false,
        },
        Err(_) => false,
    }
}

#[test]
fn a_value_is_laid_out(rt: HostRuntime) {
    let text = "{\"a\":[{\"b\":[1,{}]}]}";
    let wanted = "[\n  {\n    \"b\": [\n      1,\n      {}\n    ]\n  }\n]";
    expect_of(&rt, is_laid_out(rt.alloc(), text, wanted), text);
}
