//! A JSON value in memory.
ghost use Rattle.std.specs.Prelude.{◌≡◌, ◌↔◌, IsTrue};
ghost use Rattle.std.specs.Cmp.{on_per, on_equiv, partial_equiv_from_equiv};
ghost use Rattle.std.specs.Ordering.{on};
ghost use Rattle.facet_json_tree.specs.Same.{same_tree};
ghost use Rattle.facet_json_tree.specs.Views.{tree_view, trees_view, pairs_view};
ghost use Rattle.facet_json_tree.specs.Inner.SameLaws.{same_tree-equivalence};

use crate::owned_decimal::OwnedDecimal;

/// A JSON value. Lists and pairs keep their order, and a key that comes twice stands twice.
///
/// A document is read to `Null`, `Bool`, `I64`, `U64`, `Decimal`, `Text`, `List` and `Pairs` alone; the others are written, and read
/// back as what their text is.
#[derive(Debug, Drop)]
pub enum Tree {
    /// `null`
    Null,
    /// The value of the type with one value, which is written as `null`.
    Unit,
    /// `true` or `false`
    Bool(bool),
    /// A character, which is written as a text.
    Char(char),
    /// A whole number with a sign, within 64 bits.
    I64(i64),
    /// A whole number without a sign, within 64 bits.
    U64(u64),
    /// A whole number with a sign, within 128 bits.
    I128(i128),
    /// A whole number without a sign, within 128 bits.
    U128(u128),
    /// A number with a fraction or an exponent, as its text: `OwnedDecimal::from_string` makes one of a text, `OwnedDecimal::new` of a
    /// `Decimal`.
    Decimal(OwnedDecimal),
    /// A text. Whole numbers past 64 bits are read as the text of their digits.
    Text(String),
    /// Bytes, which are written as a list of numbers or as hexadecimal text.
    Bytes(Vec<u8>),
    /// JSON text, which is written verbatim, unchecked: whoever makes such a value says that it is JSON. That of a `RawJson` is
    /// `raw.0.into_owned(alloc)?`.
    Raw(String),
    /// An array.
    List(Vec<Tree>),
    /// An object, its members in order.
    Pairs(Vec<(String, Tree)>),
}

// The bytes that an item of a list takes, and a member of an object.
const _: () = prove!(size_of::<Tree>() == 32);

const _: () = prove!(size_of::<(String, Tree)>() == 64);

/// Equal exactly where the values are, lists and pairs in their order.
impl PartialEq for Tree {
    ghost eq = { on tree_view same_tree };

    ghost laws = { on_per tree_view (partial_equiv_from_equiv same_tree-equivalence) };

    fn eq(&self, other: &Tree) -> bool {
        self.is_same(other)
    }
}

impl Eq for Tree {
    ghost laws = { on_equiv tree_view same_tree-equivalence };
}

impl Tree {
    /// Whether both stand for one value, lists and pairs in their order. This is what `==` answers.
    #[cycle(same)]
    pub fn is_same(&self, other: &Tree) -> bool
        ensures { IsTrue result ↔ (tree_view self.now ≡ tree_view other.now) }
    {
        match (self, other) {
            (Tree::Null, Tree::Null) => true,
            (Tree::Unit, Tree::Unit) => true,
            (Tree::Bool(a), Tree::Bool(b)) => a == b,
            (Tree::Char(a), Tree::Char(b)) => a == b,
            (Tree::I64(a), Tree::I64(b)) => a == b,
            (Tree::U64(a), Tree::U64(b)) => a == b,
            (Tree::I128(a), Tree::I128(b)) => a == b,
            (Tree::U128(a), Tree::U128(b)) => a == b,
            (Tree::Decimal(a), Tree::Decimal(b)) => a == b,
            (Tree::Text(a), Tree::Text(b)) => a == b,
            (Tree::Bytes(a), Tree::Bytes(b)) => a == b,
            (Tree::Raw(a), Tree::Raw(b)) => a == b,
            (Tree::List(a), Tree::List(b)) => are_same(a, b),
            (Tree::Pairs(a), Tree::Pairs(b)) => have_same(a, b),
            _ => false,
        }
    }
}

/// Whether both have the same items in the same order.
#[cycle(same)]
fn are_same(items: &[Tree], others: &[Tree]) -> bool
    ensures { IsTrue result ↔ (trees_view items.now ≡ trees_view others.now) }
{
    if items.len() != others.len() {
        return false;
    }
    for (i, item) in items.iter().enumerate() {
        if !item.is_same(&others[i]) {
            return false;
        }
    }
    true
}

/// Whether both have the same keys and values in the same order.
#[cycle(same)]
fn have_same(members: &[(String, Tree)], others: &[(String, Tree)]) -> bool
    ensures { IsTrue result ↔ (pairs_view members.now ≡ pairs_view others.now) }
{
    if members.len() != others.len() {
        return false;
    }
    for (i, member) in members.iter().enumerate() {
        let other = &others[i];
        if member.0 != other.0 || !member.1.is_same(&other.1) {
            return false;
        }
    }
    true
}
