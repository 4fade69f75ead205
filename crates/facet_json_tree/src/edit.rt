//! Changing a value: storing and removing the items of a list (RFC 8259, section 5), the members of an object (section 4).

ghost use Rattle.std.specs.Prelude.{◌≡◌, None, Some, IfErr, IfOk, OnErr, OnOk, option_map, string_bytes};
ghost use Rattle.facet_json_tree.specs.Edit.{drop_item, drop_members, inserted, item_removed, push_item, pushed, removed, set_member};
ghost use Rattle.facet_json_tree.specs.EditViews.{GivesBack, IsMemory, value_of};
ghost use Rattle.facet_json_tree.specs.Lookup.{item, item_at, last_member, member};
ghost use Rattle.facet_json_tree.specs.Views.{tree_view, trees_view, pairs_view};

use crate::lookup::index_of_last;
use crate::not_stored::NotStored;
use crate::tree::Tree;
use std::alloc::{AllocError, Global};
use std::mem;

impl Tree {
    /// Stores an item at the end of a list (RFC 8259, section 5).
    ///
    /// ```text
    /// of [7]: push(Tree::Null)                                Ok: [7,null]
    /// of {}: push(Tree::Null)                                 Err: WrongKind(Null)
    /// ```
    ///
    /// # Errors
    ///
    /// `WrongKind` where the value is no list, and `Memory` where an allocation fails. The value is as it was, and the error holds the
    /// item.
    pub fn push(&mut self, item: Tree) -> Result<(), NotStored>
        ensures stored { OnOk result (pushed (tree_view item) (tree_view self.old) ≡ Some (tree_view self.new)) }
        ensures refused { IfErr result (λ e. GivesBack e (tree_view item) (pushed (tree_view item) (tree_view self.old))) }
        ensures unchanged { OnErr result (tree_view self.new ≡ tree_view self.old) }
    {
        match self {
            Tree::List(items) => push_to(items, item),
            _ => Err(NotStored::WrongKind(item)),
        }
    }

    /// Stores a value as an object's member of this name (RFC 8259, section 4), and returns the one that it had before, if it had one. Of
    /// several members with one name the last counts, as for `get`, and its value is replaced. Where none has the name, a member is
    /// added at the end.
    ///
    /// ```text
    /// of {"a":1}: insert(alloc, "a", Tree::Null)              Ok(Some: 1), and it is {"a":null}
    /// insert(alloc, "b", Tree::Bool(true))                    Ok(None), and it is {"a":null,"b":true}
    /// of []: insert(alloc, "a", Tree::Null)                   Err: WrongKind(Null)
    /// ```
    ///
    /// # Errors
    ///
    /// `WrongKind` where the value is no object, and `Memory` where an allocation fails, as it may for a name that is not there. The value
    /// is as it was, and the error holds the one that was to be stored.
    pub fn insert(
        &mut self,
        alloc: Global,
        key: &str,
        value: Tree,
    ) -> Result<Option<Tree>, NotStored>
        ensures stored { OnOk result (inserted key.now (tree_view value) (tree_view self.old) ≡ Some (tree_view self.new)) }
        ensures before { IfOk result (λ had. option_map tree_view had ≡ member key.now (tree_view self.old)) }
        ensures refused { IfErr result (λ e. GivesBack e (tree_view value) (inserted key.now (tree_view value) (tree_view self.old))) }
        ensures unchanged { OnErr result (tree_view self.new ≡ tree_view self.old) }
    {
        match self {
            Tree::Pairs(members) => insert_member(members, alloc, key, value),
            _ => Err(NotStored::WrongKind(value)),
        }
    }

    /// Removes each member of an object that has this name (RFC 8259, section 4), and returns the value that `get` found, if it found one.
    /// `get` finds none of this name afterwards. Other values have no members, and stay as they are.
    ///
    /// ```text
    /// of {"a":1,"b":2,"a":3}: remove("a")                     Some: 3, and it is {"b":2}
    /// remove("c")                                             None
    /// ```
    pub fn remove(&mut self, key: &str) -> Option<Tree>
        ensures found { option_map tree_view result ≡ member key.now (tree_view self.old) }
        ensures left { tree_view self.new ≡ removed key.now (tree_view self.old) }
    {
        match self {
            Tree::Pairs(members) => remove_members(members, key),
            _ => None,
        }
    }

    /// Removes the item of a list at this index (RFC 8259, section 5), and returns it, if it is there. Those after it move up. Other values
    /// have no items, and stay as they are.
    ///
    /// ```text
    /// of [7,8,9]: remove_item(1)                              Some: 8, and it is [7,9]
    /// remove_item(2)                                          None
    /// ```
    pub fn remove_item(&mut self, index: usize) -> Option<Tree>
        ensures found { option_map tree_view result ≡ item index (tree_view self.old) }
        ensures left { tree_view self.new ≡ item_removed index (tree_view self.old) }
    {
        match self {
            Tree::List(items) => remove_at(items, index),
            _ => None,
        }
    }
}

/// Stores an item at the end.
fn push_to(items: &mut Vec<Tree>, item: Tree) -> Result<(), NotStored>
    ensures stored { OnOk result (trees_view items.new.items ≡ push_item (tree_view item) (trees_view items.old.items)) }
    ensures refused { IfErr result (λ e. tree_view (value_of e) ≡ tree_view item) }
    ensures unchanged { OnErr result (items.new.items ≡ items.old.items) }
    ensures memory { IfErr result IsMemory }
{
    items.push(item)?;
    Ok(())
}

/// Stores a value as that of the last member of this name, or of a new one.
pub fn insert_member(
    members: &mut Vec<(String, Tree)>,
    alloc: Global,
    key: &str,
    value: Tree,
) -> Result<Option<Tree>, NotStored>
    ensures stored { OnOk result (pairs_view members.new.items ≡ set_member key.now (tree_view value) (pairs_view members.old.items)) }
    ensures before { IfOk result (λ had. option_map tree_view had ≡ last_member key.now (pairs_view members.old.items)) }
    ensures refused { IfErr result (λ e. tree_view (value_of e) ≡ tree_view value) }
    ensures unchanged { OnErr result (members.new.items ≡ members.old.items) }
    ensures memory { IfErr result IsMemory }
{
    match index_of_last(members, key) {
        Some(index) => {
            let member = &mut members[index];
            Ok(Some(mem::replace(&mut member.1, value)))
        }
        None => match String::from_str(alloc, key) {
            Ok(name) => push_member(members, name, value),
            Err(AllocError) => Err(NotStored::Memory(value)),
        },
    }
}

/// Stores a new member at the end.
fn push_member(
    members: &mut Vec<(String, Tree)>,
    name: String,
    value: Tree,
) -> Result<Option<Tree>, NotStored>
    requires { last_member (string_bytes name) (pairs_view members.old.items) ≡ None }
    ensures stored { OnOk result
        (pairs_view members.new.items ≡ set_member (string_bytes name) (tree_view value) (pairs_view members.old.items)) }
    ensures new { IfOk result (λ had. had ≡ None) }
    ensures refused { IfErr result (λ e. tree_view (value_of e) ≡ tree_view value) }
    ensures unchanged { OnErr result (members.new.items ≡ members.old.items) }
    ensures memory { IfErr result IsMemory }
{
    match members.push((name, value)) {
        Ok(()) => Ok(None),
        Err(refused) => {
            let (_, value) = refused.value;
            Err(NotStored::Memory(value))
        }
    }
}

/// Removes the members of this name.
pub fn remove_members(members: &mut Vec<(String, Tree)>, key: &str) -> Option<Tree>
    ensures found { option_map tree_view result ≡ last_member key.now (pairs_view members.old.items) }
    ensures left { pairs_view members.new.items ≡ drop_members key.now (pairs_view members.old.items) }
{
    let index = index_of_last(members, key)?;
    let (_, value) = members.remove(index);
    members.retain(|member| member.0.as_str() != key);
    Some(value)
}

/// Removes the item at this index.
fn remove_at(items: &mut Vec<Tree>, index: usize) -> Option<Tree>
    ensures found { option_map tree_view result ≡ item_at index (trees_view items.old.items) }
    ensures left { trees_view items.new.items ≡ drop_item index (trees_view items.old.items) }
{
    if index < items.len() {
        Some(items.remove(index))
    } else {
        None
    }
}
