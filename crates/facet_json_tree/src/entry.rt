//! A member of an object to be changed in place, whether it was there or not.

ghost use Rattle.std.specs.Prelude.{◌≡◌, ◌<◌, length, IfErr, IfOk, OnErr, OnOk};
ghost use Rattle.std.specs.List.{HoldsAt};
ghost use Rattle.std.specs.Option.{unwrap_or};
ghost use Rattle.facet_json_tree.specs.Edit.{inserted};
ghost use Rattle.facet_json_tree.specs.EditViews.{GivesBack, IsMemory, value_of};
ghost use Rattle.facet_json_tree.specs.Inner.WithMember.{with_member};
ghost use Rattle.facet_json_tree.specs.Lookup.{last_member, member};
ghost use Rattle.facet_json_tree.specs.Views.{tree_view, pairs_view};

use crate::edit::insert_member;
use crate::lookup::index_of_last;
use crate::not_stored::NotStored;
use crate::tree::Tree;
use std::alloc::Global;

impl Tree {
    /// The value that `get` finds, to be changed in place. Where none has the name, a member with this value is added at the end,
    /// and is lent; where one has it, the given value is dropped.
    ///
    /// ```text
    /// of {"a":1}: get_or_insert(alloc, "a", Tree::Null)       Ok: 1
    /// get_or_insert(alloc, "b", Tree::Null)                   Ok: null, and it is {"a":1,"b":null}
    /// of []: get_or_insert(alloc, "a", Tree::Null)            Err: WrongKind(Null)
    /// ```
    ///
    /// # Errors
    ///
    /// `WrongKind` where the value is no object, and `Memory` where an allocation fails, as it may for a name that is not there. The value
    /// is as it was, and the error holds the one that was to be stored.
    pub fn get_or_insert(
        &mut self,
        alloc: Global,
        key: &str,
        value: Tree,
    ) -> Result<&mut Tree, NotStored>
        ensures lent { IfOk result (λ t. tree_view t.now ≡ unwrap_or (member key.now (tree_view self.old)) (tree_view value)) }
        ensures refused { IfErr result (λ e. GivesBack e (tree_view value) (inserted key.now (tree_view value) (tree_view self.old))) }
    {
        match self {
            Tree::Pairs(members) => member_or_insert(members, alloc, key, value),
            _ => Err(NotStored::WrongKind(value)),
        }
    }
}

/// The value of the last member of this name, or of a new one.
fn member_or_insert<'t>(
    members: &'t mut Vec<(String, Tree)>,
    alloc: Global,
    key: &str,
    value: Tree,
) -> Result<&'t mut Tree, NotStored>
    ensures lent { IfOk result (λ t. tree_view t.now ≡ unwrap_or (last_member key.now (pairs_view members.old.items)) (tree_view value)) }
    ensures refused { IfErr result (λ e. tree_view (value_of e) ≡ tree_view value) }
    ensures memory { IfErr result IsMemory }
{
    let index = index_or_insert(members, alloc, key, value)?;
    let member = &mut members[index];
    Ok(&mut member.1)
}

/// The index of the last member of this name, or of a new one.
fn index_or_insert(
    members: &mut Vec<(String, Tree)>,
    alloc: Global,
    key: &str,
    value: Tree,
) -> Result<usize, NotStored>
    ensures held { IfOk result
        (HoldsAt (λ m. tree_view m.1
        ≡ unwrap_or (last_member key.now (pairs_view members.old.items)) (tree_view value)) members.new.items) }
    ensures within { IfOk result (λ i. i < length members.new.items) }
    ensures stored { OnOk result (pairs_view members.new.items ≡ with_member key.now (tree_view value) (pairs_view members.old.items)) }
    ensures unchanged { OnErr result (members.new.items ≡ members.old.items) }
    ensures refused { IfErr result (λ e. tree_view (value_of e) ≡ tree_view value) }
    ensures memory { IfErr result IsMemory }
{
    match index_of_last(members, key) {
        Some(index) => Ok(index),
        None => {
            let end = members.len();
            insert_member(members, alloc, key, value)?;
            Ok(end)
        }
    }
}
