//! Trees and documents of nodes that are read and dropped, and trees that are written.

use crate::seen::{Seen, wide};
use facet_json::scanner::Mode;
use facet_json::{
    Document, JsonSerializer, Tree, check, check_jsonc, to_vec, tree_from_slice,
    tree_from_slice_jsonc,
};
use std::alloc::Global;
use std::hint::black_box;

/// The tree of the document.
pub fn tree_of(alloc: Global, input: &[u8], mode: Mode) -> Option<Tree> {
    let tree = match mode {
        Mode::Plain => tree_from_slice(alloc, input),
        Mode::Jsonc => tree_from_slice_jsonc(alloc, input),
    };
    tree.ok()
}

/// A tree is read and dropped.
pub fn tree(alloc: Global, input: &[u8], mode: Mode) -> Option<Seen> {
    let _tree = black_box(tree_of(alloc, input, mode)?);
    Some(Seen::none().with(0))
}

/// The document as nodes.
pub fn document_of(alloc: Global, input: &[u8], mode: Mode) -> Option<Document<'_>> {
    let document = match mode {
        Mode::Plain => Document::parse(alloc, input),
        Mode::Jsonc => Document::parse_jsonc(alloc, input),
    };
    document.ok()
}

/// The document is read into nodes, and they are dropped.
pub fn document(alloc: Global, input: &[u8], mode: Mode) -> Option<Seen> {
    let _document = black_box(document_of(alloc, input, mode)?);
    Some(Seen::none().with(0))
}

/// The input has a document.
pub fn checked(alloc: Global, input: &[u8], mode: Mode) -> Option<Seen> {
    let answer = match mode {
        Mode::Plain => check(alloc, input),
        Mode::Jsonc => check_jsonc(alloc, input),
    };
    answer.ok()?;
    Some(Seen::none().with(0))
}

/// The tree is written.
pub fn text(alloc: Global, tree: &Tree) -> Option<Seen> {
    let text = black_box(to_vec(alloc, tree).ok()?);
    Some(Seen::none().with(wide(text.len())))
}

/// The document of nodes is written.
pub fn document_text(alloc: Global, document: &Document<'_>) -> Option<Seen> {
    let mut serializer = JsonSerializer::new(alloc);
    document.root().write(&mut serializer).ok()?;
    let text = black_box(serializer.finish().ok()?);
    Some(Seen::none().with(wide(text.len())))
}
