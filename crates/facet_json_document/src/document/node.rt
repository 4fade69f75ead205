//! The nodes of a document.

ghost use Rattle.std.specs.Prelude.{◌≡◌, true};
ghost use Rattle.facet_json_document.specs.Inner.NodeSound.{is_sound};

mod told;

use facet_format::Decimal;

/// What a node is of.
#[derive(Clone, Copy)]
pub enum NodeKind {
    /// `null`
    Null,
    /// `true`
    True,
    /// `false`
    False,
    /// A number, which is read of its bytes when it is asked for.
    Number,
    /// A text in the input, as it is.
    Text,
    /// Any other value that holds no others: a text with escapes, or the digits of a whole number past 64 bits. The document holds it
    /// beside its nodes.
    Held,
    /// The name of a member, in the input as it is; its value begins at the next node.
    Key,
    /// The name of a member, which the document holds beside its nodes.
    HeldKey,
    /// An array.
    List,
    /// An object.
    Object,
    /// The end of an array or an object.
    End,
}

/// A node: of a value, a key, or a container's end. Of a value it has the bytes in the input, and whatever they tell is read of them when
/// it is asked for. So a node takes 24 bytes, and is copied freely.
#[derive(Clone, Copy)]
pub struct Node<'i> {
    /// What it is of.
    pub(crate) kind: NodeKind,
    /// Of an array or an object how many of the next nodes belong to it, up to that of its end; of what the document holds beside its
    /// nodes, the index.
    pub(crate) more: u32,
    /// Its bytes in the input: of a text and a key with the quotes; of an array or an object from its first to its last bracket.
    pub(crate) text: &'i [u8],
    ghost sound: { is_sound kind text.now ≡ true },
}

// The bytes that a node takes.
const _: () = prove!(size_of::<Node<'static>>() == 24);

/// A value that holds no others, as its node tells it.
#[derive(Drop)]
pub enum Leaf<'d> {
    /// `null`
    Null,
    /// `true` or `false`
    Bool(bool),
    /// A whole number of 64 bits, with a sign.
    I64(i64),
    /// A whole number of 64 bits, without one.
    U64(u64),
    /// A number with a fraction or an exponent.
    Decimal(Decimal<'d>),
    /// A text.
    Text(&'d str),
    /// What no document has.
    Other,
}

/// What a value is in JSON (RFC 8259, section 3).
#[derive(Debug, Clone, Copy, PartialEq, Eq)]
pub enum ValueKind {
    /// `null`
    Null,
    /// `true` or `false`
    Bool,
    /// A number.
    Number,
    /// A string, or a whole number past 64 bits, which is read as the text of its digits.
    Text,
    /// An array.
    List,
    /// An object.
    Object,
}
