//! Sorting the members of objects by their names.

ghost use Rattle.std.specs.Prelude.{◌≡◌, IfOk, OnErr, OnOk};
ghost use Rattle.facet_json_tree.specs.Sorted.{in_order, items_sorted, sorted, values_sorted};
ghost use Rattle.facet_json_tree.specs.Views.{tree_view, trees_view, pairs_view};

use crate::copy::copy_tree;
use crate::tree::Tree;
use std::alloc::{AllocError, Global};

impl Tree {
    /// Puts the members of each object, at any depth, in the order of their names: byte by byte, as UTF-8 orders characters. Members of
    /// one name keep their order, so `get` finds what it found before; items of lists stay where they are.
    ///
    /// ```text
    /// of {"b":1,"a":[{"d":2,"c":3}],"":4}: sort_keys(alloc)   Ok, and it is {"":4,"a":[{"c":3,"d":2}],"b":1}
    /// of {"b":1,"a":2,"b":3}: sort_keys(alloc)                Ok, and it is {"a":2,"b":1,"b":3}
    /// ```
    ///
    /// A copy is sorted, and takes the value's place. It is made by recursion, a level of the stack for each level of nesting.
    ///
    /// # Errors
    ///
    /// `AllocError` alone, where an allocation fails. The value is as it was then.
    pub fn sort_keys(&mut self, alloc: Global) -> Result<(), AllocError>
        ensures sorted { OnOk result (tree_view self.new ≡ sorted (tree_view self.old)) }
        ensures unchanged { OnErr result (tree_view self.new ≡ tree_view self.old) }
    {
        *self = sorted_copy(self, alloc)?;
        Ok(())
    }
}

/// A copy whose objects have their members in order.
#[cycle(sort)]
fn sorted_copy(tree: &Tree, alloc: Global) -> Result<Tree, AllocError>
    ensures { IfOk result (λ copy. tree_view copy ≡ sorted (tree_view tree.now)) }
{
    match tree {
        Tree::List(items) => Ok(Tree::List(sorted_items(items, alloc)?)),
        Tree::Pairs(members) => Ok(Tree::Pairs(sorted_members(members, alloc)?)),
        _ => copy_tree(tree, alloc),
    }
}

/// Sorted copies of the items.
#[cycle(sort)]
fn sorted_items(items: &[Tree], alloc: Global) -> Result<Vec<Tree>, AllocError>
    ensures { IfOk result (λ copies. trees_view copies.items ≡ items_sorted (trees_view items.now)) }
{
    let mut copies = Vec::with_capacity(alloc, items.len())?;
    for item in items {
        copies.push(sorted_copy(item, alloc)?)?;
    }
    Ok(copies)
}

/// Copies of the members in order, their values sorted.
#[cycle(sort)]
fn sorted_members(
    members: &[(String, Tree)],
    alloc: Global,
) -> Result<Vec<(String, Tree)>, AllocError>
    ensures { IfOk result (λ copies. pairs_view copies.items ≡ in_order (values_sorted (pairs_view members.now))) }
{
    let mut copies = Vec::with_capacity(alloc, members.len())?;
    for member in members {
        let name = String::from_str(alloc, member.0.as_str())?;
        let value = sorted_copy(&member.1, alloc)?;
        copies.push((name, value))?;
    }
    sort_members(&mut copies)?;
    Ok(copies)
}

/// Puts the members in the order of their names.
fn sort_members(members: &mut Vec<(String, Tree)>) -> Result<(), AllocError>
    ensures { OnOk result (pairs_view members.new.items ≡ in_order (pairs_view members.old.items)) }
{
    members.sort_by(|one, other| one.0.cmp(&other.0))
}
