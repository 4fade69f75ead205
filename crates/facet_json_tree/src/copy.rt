//! Copies of values.

ghost use Rattle.std.specs.Prelude.{◌≡◌, true, MatchResult, IfOk};
ghost use Rattle.facet_json_tree.specs.Content.{may_allocate};
ghost use Rattle.facet_json_tree.specs.Views.{tree_view, trees_view, pairs_view};

use crate::tree::Tree;
use std::alloc::{AllocError, Global};

impl Tree {
    /// Copies the value into memory of its own.
    ///
    /// Lists and objects are copied by recursion, a level of the stack for each level of nesting.
    ///
    /// ```text
    /// let copy = tree.clone(alloc)?;
    /// copy == tree                                            true
    /// ```
    ///
    /// # Errors
    ///
    /// `AllocError` alone, where an allocation fails: never for `null`, a truth value, a character or a whole number.
    pub fn clone(&self, alloc: Global) -> Result<Tree, AllocError>
        ensures { MatchResult result
            (λ copy. tree_view copy ≡ tree_view self.now)
            (λ _. may_allocate (tree_view self.now) ≡ true) }
    {
        copy_tree(self, alloc)
    }
}

/// A copy of the value, in memory of its own.
#[cycle(copy)]
pub fn copy_tree(tree: &Tree, alloc: Global) -> Result<Tree, AllocError>
    ensures { MatchResult result
        (λ copy. tree_view copy ≡ tree_view tree.now)
        (λ _. may_allocate (tree_view tree.now) ≡ true) }
{
    match tree {
        Tree::Null => Ok(Tree::Null),
        Tree::Unit => Ok(Tree::Unit),
        Tree::Bool(b) => Ok(Tree::Bool(*b)),
        Tree::Char(c) => Ok(Tree::Char(*c)),
        Tree::I64(n) => Ok(Tree::I64(*n)),
        Tree::U64(n) => Ok(Tree::U64(*n)),
        Tree::I128(n) => Ok(Tree::I128(*n)),
        Tree::U128(n) => Ok(Tree::U128(*n)),
        Tree::Decimal(decimal) => Ok(Tree::Decimal(decimal.clone(alloc)?)),
        Tree::Text(text) => Ok(Tree::Text(String::from_str(alloc, text.as_str())?)),
        Tree::Bytes(bytes) => Ok(Tree::Bytes(Vec::from_slice(alloc, bytes)?)),
        Tree::Raw(json) => Ok(Tree::Raw(String::from_str(alloc, json.as_str())?)),
        Tree::List(items) => Ok(Tree::List(copy_items(items, alloc)?)),
        Tree::Pairs(members) => Ok(Tree::Pairs(copy_members(members, alloc)?)),
    }
}

/// Copies of the items, in their order.
#[cycle(copy)]
fn copy_items(items: &[Tree], alloc: Global) -> Result<Vec<Tree>, AllocError>
    ensures { IfOk result (λ copies. trees_view copies.items ≡ trees_view items.now) }
{
    let mut copies = Vec::with_capacity(alloc, items.len())?;
    for item in items {
        copies.push(copy_tree(item, alloc)?)?;
    }
    Ok(copies)
}

/// Copies of the members, in their order.
#[cycle(copy)]
fn copy_members(
    members: &[(String, Tree)],
    alloc: Global,
) -> Result<Vec<(String, Tree)>, AllocError>
    ensures { IfOk result (λ copies. pairs_view copies.items ≡ pairs_view members.now) }
{
    let mut copies = Vec::with_capacity(alloc, members.len())?;
    for member in members {
        let name = String::from_str(alloc, member.0.as_str())?;
        let value = copy_tree(&member.1, alloc)?;
        copies.push((name, value))?;
    }
    Ok(copies)
}
