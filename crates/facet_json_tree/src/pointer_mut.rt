//! The value that a JSON pointer names (RFC 6901), to be changed in place.

ghost use Rattle.std.specs.Prelude.{◌≡◌, ℕ, List, IfOk, IfErr, option_map, option_and_then};
ghost use Rattle.facet_json_tree.specs.Inner.PointerParts.{unescaped};
ghost use Rattle.facet_json_tree.specs.Lookup.{last_member, item_at};
ghost use Rattle.facet_json_tree.specs.Pointer.{IsPointer, PointsTo, child as child_of, index, named as named_of};
ghost use Rattle.facet_json_tree.specs.PointerViews.{RefusesPointer};
ghost use Rattle.facet_json_tree.specs.Views.{tree_view, trees_view, pairs_view};

use crate::lookup::item_of_mut;
use crate::pointer::{checked, first_token, index_of, last_with_name};
use crate::pointer_error::PointerError;
use crate::tree::Tree;

impl Tree {
    /// The value that `pointer` finds, to be changed in place (RFC 6901).
    ///
    /// ```text
    /// if let Some(port) = tree.pointer_mut("/servers/0/port")? {
    ///     *port = Tree::U64(8080);
    /// }
    /// ```
    ///
    /// # Errors
    ///
    /// Those of `pointer`: the text is no pointer, whatever the value is.
    pub fn pointer_mut(&mut self, pointer: &str) -> Result<Option<&mut Tree>, PointerError>
        ensures ok { IfOk result (λ found. PointsTo pointer.now (tree_view self.old) (option_map (λ t. tree_view t.now) found)) }
        ensures err { IfErr result (λ error. RefusesPointer pointer.now error) }
    {
        let bytes = checked(pointer)?;
        Ok(named_mut(self, bytes))
    }
}

/// What a text names that is a pointer.
fn named_mut<'t>(tree: &'t mut Tree, pointer: &[u8]) -> Option<&'t mut Tree>
    ensures { (names : List (List ℕ)) → IsPointer pointer.now names → option_map (λ t. tree_view t.now) result
        ≡ named_of names (tree_view tree.old) }
{
    let mut found = tree;
    let mut start = 0;
    while start < pointer.len() {
        let token = first_token(&pointer[start + 1..]);
        start += 1 + token.len();
        found = child_mut(found, token)?;
    }
    Some(found)
}

/// What a token names directly within a value.
fn child_mut<'t>(tree: &'t mut Tree, token: &[u8]) -> Option<&'t mut Tree>
    ensures { option_map (λ t. tree_view t.now) result ≡ child_of (unescaped token.now) (tree_view tree.old) }
{
    match tree {
        Tree::Pairs(members) => member_named_mut(members, token),
        Tree::List(items) => item_named_mut(items, token),
        _ => None,
    }
}

/// The value of the last member whose name a token stands for.
fn member_named_mut<'t>(members: &'t mut [(String, Tree)], token: &[u8]) -> Option<&'t mut Tree>
    ensures { option_map (λ t. tree_view t.now) result ≡ last_member (unescaped token.now) (pairs_view members.old) }
{
    let index = last_with_name(members, token)?;
    let member = &mut members[index];
    Some(&mut member.1)
}

/// The item whose index a token is.
fn item_named_mut<'t>(items: &'t mut [Tree], token: &[u8]) -> Option<&'t mut Tree>
    ensures { option_map (λ t. tree_view t.now) result
        ≡ option_and_then (λ i. item_at i (trees_view items.old)) (index (unescaped token.now)) }
{
    let index = index_of(token)?;
    item_of_mut(items, index)
}
