//! JSON Merge Patch (RFC 7396): a value is changed by a patch, which is a value too.

ghost use Rattle.std.specs.Prelude.{◌≡◌, IfOk, OnErr, OnOk, unwrap_or};
ghost use Rattle.facet_json_grammar.specs.Tree.{null};
ghost use Rattle.facet_json_tree.specs.Edit.{set_member};
ghost use Rattle.facet_json_tree.specs.Lookup.{last_member};
ghost use Rattle.facet_json_tree.specs.Merge.{member_merged, members_merged as members_merged_of, members_within, merged as merged_of};
ghost use Rattle.facet_json_tree.specs.Views.{tree_view, pairs_view};

use crate::copy::copy_tree;
use crate::edit::{insert_member, remove_members};
use crate::tree::Tree;
use std::alloc::{AllocError, Global};

impl Tree {
    /// Changes the value by a patch (JSON Merge Patch, RFC 7396). A patch that is no object takes the value's place. An object goes into
    /// the value's members by name: `null` removes the members of the name, and any other value patches the last member of the name, or
    /// stands in a new one at the end. A value that is no object is taken for an empty one.
    ///
    /// ```text
    /// of {"a":"b","c":{"d":1}}: merge_patch(alloc, of {"a":null,"c":{"e":2}})
    ///                                                         Ok, and it is {"c":{"d":1,"e":2}}
    /// of [1]: merge_patch(alloc, of {"a":null})               Ok, and it is {}
    /// ```
    ///
    /// The value and the patch are copied by recursion, a level of the stack for each level of nesting.
    ///
    /// # Errors
    ///
    /// `AllocError` alone, where an allocation fails. The value is as it was then.
    pub fn merge_patch(&mut self, alloc: Global, patch: &Tree) -> Result<(), AllocError>
        ensures merged { OnOk result (tree_view self.new ≡ merged_of (tree_view self.old) (tree_view patch.now)) }
        ensures unchanged { OnErr result (tree_view self.new ≡ tree_view self.old) }
    {
        let copy = copy_tree(self, alloc)?;
        *self = merged(patch, copy, alloc)?;
        Ok(())
    }
}

/// What the target becomes by the patch.
#[cycle(merge)]
fn merged(patch: &Tree, target: Tree, alloc: Global) -> Result<Tree, AllocError>
    ensures { IfOk result (λ new. tree_view new ≡ merged_of (tree_view target) (tree_view patch.now)) }
{
    match patch {
        Tree::Pairs(members) => Ok(Tree::Pairs(members_merged(
            members,
            members_of(target, alloc),
            alloc,
        )?)),
        _ => copy_tree(patch, alloc),
    }
}

/// The members of the target, or none.
fn members_of(target: Tree, alloc: Global) -> Vec<(String, Tree)>
    ensures { pairs_view result.items ≡ members_within (tree_view target) }
{
    match target {
        Tree::Pairs(members) => members,
        _ => Vec::new(alloc),
    }
}

/// What the members of the target become by those of the patch.
#[cycle(merge)]
fn members_merged(
    patch: &[(String, Tree)],
    target: Vec<(String, Tree)>,
    alloc: Global,
) -> Result<Vec<(String, Tree)>, AllocError>
    ensures { IfOk result (λ new. pairs_view new.items ≡ members_merged_of (pairs_view target.items) (pairs_view patch.now)) }
{
    let mut members = target;
    for member in patch {
        merge_member(&member.1, &mut members, alloc, member.0.as_str())?;
    }
    Ok(members)
}

/// Puts the patch of one name into the members.
#[cycle(merge)]
fn merge_member(
    patch: &Tree,
    members: &mut Vec<(String, Tree)>,
    alloc: Global,
    name: &str,
) -> Result<(), AllocError>
    ensures { OnOk result (pairs_view members.new.items ≡ member_merged name.now (tree_view patch.now) (pairs_view members.old.items)) }
{
    if patch.is_null() {
        remove_members(members, name);
        return Ok(());
    }
    let before = store(members, alloc, name, Tree::Null)?;
    let value = merged(patch, before, alloc)?;
    store(members, alloc, name, value)?;
    Ok(())
}

/// Stores the value of a member, and returns the one that it had, or `null`.
fn store(
    members: &mut Vec<(String, Tree)>,
    alloc: Global,
    name: &str,
    value: Tree,
) -> Result<Tree, AllocError>
    ensures stored { OnOk result (pairs_view members.new.items ≡ set_member name.now (tree_view value) (pairs_view members.old.items)) }
    ensures before { IfOk result (λ had. tree_view had ≡ unwrap_or (last_member name.now (pairs_view members.old.items)) null) }
{
    match insert_member(members, alloc, name, value) {
        Ok(Some(before)) => Ok(before),
        Ok(None) => Ok(Tree::Null),
        Err(_) => Err(AllocError),
    }
}
