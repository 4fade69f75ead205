//! A JSON value in memory, `Tree`: when two are equal, what stands in one, copies, how one is made, changed, sorted and displayed; how one
//! is read from a parser's events (`read_tree`, `tree_from_slice` and its kin, also within a depth, and from texts of RFC 8259 alone); and
//! how it is written by a serializer's calls (`write_tree`). A failure to write a text to a writer is a `WriteError`.
#![tactic(auto)]

mod content;
mod copy;
mod display;
mod edit;
mod entry;
mod error;
mod from;
pub mod laws;
mod lookup;
mod merge;
mod not_stored;
mod owned_decimal;
pub mod pointer;
mod pointer_error;
mod pointer_mut;
mod reader;
mod sort;
mod strict;
mod tree;
mod tree_calls;
mod within;
mod writers;

pub use error::WriteError;
pub use not_stored::NotStored;
pub use owned_decimal::OwnedDecimal;
pub use pointer_error::PointerError;
pub use reader::{parser_of, read_tree, tree_from_slice, tree_from_slice_jsonc};
pub use strict::{tree_from_slice_strict, tree_from_slice_within_strict};
pub use tree::Tree;
pub use tree_calls::write_tree;
pub use within::{tree_from_slice_within, tree_from_slice_within_jsonc};
pub use writers::write_text;
