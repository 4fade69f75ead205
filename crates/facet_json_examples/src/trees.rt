//! Trees of documents, and texts of trees.

use facet_json::{
    DeserializeError, JsonSerializeError, Tree, to_vec, tree, tree_from_slice_within,
};
use std::alloc::Global;

/// How many items the input's list has, and 0 where it is no list. The input may come from a stranger: one that nests
/// deeper than 100 is refused. With `tree_from_slice_within_jsonc` it may have comments.
fn count<'t>(alloc: Global, input: &[u8]) -> Result<usize, DeserializeError<'t>> {
    match tree_from_slice_within(alloc, input, 100)? {
        Tree::List(items) => Ok(items.len()),
        _ => Ok(0),
    }
}

/// A text such as `{"name":"Ada","ids":[1,2],"next":null}`.
fn person(alloc: Global, name: &str) -> Result<Vec<u8>, JsonSerializeError> {
    let tree = tree!(in alloc; {"name": name, "ids": [1, 2], "next": null})?;
    to_vec(alloc, &tree)
}

/// The first user's name in `{"users":[{"name":"Ada"}]}`, and none where the tree has none.
fn first_name(tree: &Tree) -> Option<&str> {
    tree.get("users")?.item(0)?.get("name")?.as_str()
}
