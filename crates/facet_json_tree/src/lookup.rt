//! Looking into a value: members by their names (RFC 8259, section 4), items by their index (section 5).

ghost use Rattle.std.specs.Prelude.{◌≡◌, ◌<◌, length, None, IfSome, MatchOption, option_map};
ghost use Rattle.facet_json_tree.specs.Lookup.{last_member, member, item, item_at};
ghost use Rattle.facet_json_tree.specs.Inner.LastNamed.{IsLastNamed};
ghost use Rattle.facet_json_tree.specs.Views.{tree_view, trees_view, pairs_view};

use crate::tree::Tree;

impl Tree {
    /// The value of an object's member with this name: of several with one name the last counts, as a map reads them
    /// (RFC 8259, section 4). Other values have no members. The names are compared one by one, from the last.
    ///
    /// ```text
    /// of {"a":1,"b":2,"a":3}: get("a")                        Some: 3
    /// get("c")                                                None
    /// ```
    pub fn get(&self, key: &str) -> Option<&Tree>
        ensures { option_map (λ t. tree_view t.now) result ≡ member key.now (tree_view self.now) }
    {
        match self {
            Tree::Pairs(members) => last_named(members, key),
            _ => None,
        }
    }

    /// The item of a list at this index, the first at 0 (RFC 8259, section 5). Other values have no items.
    ///
    /// ```text
    /// of [7,true]: item(1)                                    Some: true
    /// item(2)                                                 None
    /// ```
    pub fn item(&self, index: usize) -> Option<&Tree>
        ensures { option_map (λ t. tree_view t.now) result ≡ item index (tree_view self.now) }
    {
        match self {
            Tree::List(items) => item_of(items, index),
            _ => None,
        }
    }

    /// The value that `get` finds, to be changed in place.
    ///
    /// ```text
    /// if let Some(port) = tree.get_mut("port") {
    ///     *port = Tree::U64(8080);
    /// }
    /// ```
    pub fn get_mut(&mut self, key: &str) -> Option<&mut Tree>
        ensures { option_map (λ t. tree_view t.now) result ≡ member key.now (tree_view self.old) }
    {
        match self {
            Tree::Pairs(members) => last_named_mut(members, key),
            _ => None,
        }
    }

    /// The item that `item` finds, to be changed in place.
    ///
    /// ```text
    /// if let Some(first) = tree.item_mut(0) {
    ///     *first = Tree::Null;
    /// }
    /// ```
    pub fn item_mut(&mut self, index: usize) -> Option<&mut Tree>
        ensures { option_map (λ t. tree_view t.now) result ≡ item index (tree_view self.old) }
    {
        match self {
            Tree::List(items) => item_of_mut(items, index),
            _ => None,
        }
    }
}

/// The item at this index.
fn item_of(items: &[Tree], index: usize) -> Option<&Tree>
    ensures { option_map (λ t. tree_view t.now) result ≡ item_at index (trees_view items.now) }
{
    if index < items.len() {
        Some(&items[index])
    } else {
        None
    }
}

/// The value of the last member with this name.
fn last_named<'t>(members: &'t [(String, Tree)], key: &str) -> Option<&'t Tree>
    ensures { option_map (λ t. tree_view t.now) result ≡ last_member key.now (pairs_view members.now) }
{
    let index = index_of_last(members, key)?;
    Some(&members[index].1)
}

/// The item at this index, to be changed.
pub fn item_of_mut(items: &mut [Tree], index: usize) -> Option<&mut Tree>
    ensures { option_map (λ t. tree_view t.now) result ≡ item_at index (trees_view items.old) }
{
    if index < items.len() {
        Some(&mut items[index])
    } else {
        None
    }
}

/// The value of the last member with this name, to be changed.
fn last_named_mut<'t>(members: &'t mut [(String, Tree)], key: &str) -> Option<&'t mut Tree>
    ensures { option_map (λ t. tree_view t.now) result ≡ last_member key.now (pairs_view members.old) }
{
    let index = index_of_last(members, key)?;
    let member = &mut members[index];
    Some(&mut member.1)
}

/// The index of the last member with this name.
pub fn index_of_last(members: &[(String, Tree)], key: &str) -> Option<usize>
    ensures found { MatchOption result
        (last_member key.now (pairs_view members.now) ≡ None)
        (IsLastNamed key.now members.now) }
    ensures within { IfSome result (λ i. i < length members.now) }
{
    for index in (0..members.len()).rev() {
        if members[index].0.as_str() == key {
            return Some(index);
        }
    }
    None
}
