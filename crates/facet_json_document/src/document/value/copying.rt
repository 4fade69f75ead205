//! The tree of a document's value, in memory of its own.

ghost use Rattle.std.specs.Prelude.{◌≡◌, ◌<◌, suc, true, IfOk, MatchResult};
ghost use Rattle.facet_json_document.specs.Inner.Looking.{many, pairs_at, trees_at};
ghost use Rattle.facet_json_document.specs.Nodes.{leaf_view, nothing, value_view};
ghost use Rattle.facet_json_tree.specs.Content.{may_allocate};
ghost use Rattle.facet_json_tree.specs.Views.{tree_view, trees_view, pairs_view};

use crate::document::node::Leaf;
use crate::document::value::Value;
use facet_json_tree::{OwnedDecimal, Tree};
use std::alloc::{AllocError, Global};

impl<'d, 'i> Value<'d, 'i> {
    /// The value's tree: the value that `tree_from_slice` reads where the document's text has this one, in memory of its own, so that it
    /// outlives the document and may be changed.
    ///
    /// Lists and objects are copied by recursion, a level of the stack for each level of nesting, as by `Tree::clone`. Where a document
    /// comes from strangers, `Document::parse_within` bounds its depth.
    ///
    /// ```text
    /// of [1,{"a":null}]: to_tree(alloc)                       Ok: Tree::List of Tree::U64(1) and an object
    /// ```
    ///
    /// # Errors
    ///
    /// `AllocError` alone, where an allocation fails: never for `null`, a truth value or a whole number of 64 bits.
    pub fn to_tree(&self, alloc: Global) -> Result<Tree, AllocError>
        ensures { MatchResult result
            (λ t. tree_view t ≡ value_view self.now)
            (λ _. may_allocate (value_view self.now) ≡ true) }
    {
        copy_value(self, alloc)
    }
}

/// The value's tree.
#[cycle(copy)]
fn copy_value(value: &Value<'_, '_>, alloc: Global) -> Result<Tree, AllocError>
    ensures { MatchResult result
        (λ t. tree_view t ≡ value_view value.now)
        (λ _. may_allocate (value_view value.now) ≡ true) }
{
    let Some(node) = value.node(value.index) else {
        return Ok(no_value(alloc));
    };
    if node.is_list() {
        return Ok(Tree::List(copy_items(value, alloc)?));
    }
    if node.is_object() {
        return Ok(Tree::Pairs(copy_members(value, alloc)?));
    }
    match node.leaf(value.document) {
        Some(leaf) => copy_leaf(leaf, alloc),
        None => Ok(no_value(alloc)),
    }
}

/// The trees of a list's items, in their order.
#[cycle(copy)]
fn copy_items(value: &Value<'_, '_>, alloc: Global) -> Result<Vec<Tree>, AllocError>
    requires { value.now.index < many value.now }
    ensures { IfOk result (λ copies. trees_view copies.items ≡ trees_at value.now (suc value.now.index)) }
{
    let mut copies = Vec::with_capacity(alloc, value.items_len())?;
    let mut at = value.index + 1;
    while let Some(next) = value.next_item(at) {
        copies.push(copy_value(&Value::at(value.document, at), alloc)?)?;
        at = next;
    }
    Ok(copies)
}

/// The trees of an object's members, in their order, each with its name.
#[cycle(copy)]
fn copy_members(value: &Value<'_, '_>, alloc: Global) -> Result<Vec<(String, Tree)>, AllocError>
    requires { value.now.index < many value.now }
    ensures { IfOk result (λ copies. pairs_view copies.items ≡ pairs_at value.now (suc value.now.index)) }
{
    let mut copies = Vec::with_capacity(alloc, value.members_len())?;
    let mut at = value.index + 1;
    while let Some((key, next)) = value.member_there(at) {
        let name = String::from_str(alloc, key)?;
        let copy = copy_value(&Value::at(value.document, at + 1), alloc)?;
        copies.push((name, copy))?;
        at = next;
    }
    Ok(copies)
}

/// The tree of a value that holds no others.
fn copy_leaf(leaf: Leaf<'_>, alloc: Global) -> Result<Tree, AllocError>
    ensures { MatchResult result (λ t. tree_view t ≡ leaf_view leaf.entry) (λ _. may_allocate (leaf_view leaf.entry) ≡ true) }
{
    match leaf {
        Leaf::Null => Ok(Tree::Null),
        Leaf::Bool(b) => Ok(Tree::Bool(b)),
        Leaf::I64(n) => Ok(Tree::I64(n)),
        Leaf::U64(n) => Ok(Tree::U64(n)),
        Leaf::Decimal(decimal) => Ok(Tree::Decimal(OwnedDecimal::new(alloc, &decimal)?)),
        Leaf::Text(text) => Ok(Tree::Text(String::from_str(alloc, text)?)),
        Leaf::Other => Ok(no_value(alloc)),
    }
}

/// What stands for a value where none begins, as none does in a document.
fn no_value(alloc: Global) -> Tree
    ensures { tree_view result ≡ nothing }
{
    Tree::Bytes(Vec::new(alloc))
}
