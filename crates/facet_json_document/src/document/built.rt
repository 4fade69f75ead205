//! The nodes that are made of events.

ghost use Rattle.std.specs.Prelude.{All};
ghost use Rattle.facet_json_document.specs.Inner.Held.{FindsHeld};

use crate::document::node::Node;
use facet_format::ScalarValue;
use std::alloc::Global;

/// A container that is not closed yet.
#[derive(Clone, Copy)]
pub(crate) struct Opened {
    /// The index of its node.
    pub(crate) index: usize,
    /// The offset of its opening bracket, in bytes.
    pub(crate) offset: usize,
}

/// The nodes of the events so far.
#[derive(Drop)]
pub(crate) struct Built<'i> {
    /// Where texts are allocated.
    pub(crate) alloc: Global,
    /// The input.
    pub(crate) input: &'i [u8],
    /// The values that no node tells by its bytes.
    pub(crate) held: Vec<ScalarValue<'i>>,
    /// The nodes.
    pub(crate) nodes: Vec<Node<'i>>,
    /// The containers that are not closed yet, the innermost last.
    pub(crate) unclosed: Vec<Opened>,
    /// How many more containers may be opened, where there is a limit.
    pub(crate) room: Option<usize>,
    ghost sound: { All (FindsHeld held.items) nodes.items },
}
