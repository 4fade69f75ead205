//! The value that a JSON pointer names in a document (RFC 6901).
//!
//! The pointer is checked as a whole, and its tokens are taken one after the other, as for a tree: nothing is allocated.

ghost use Rattle.std.specs.Prelude.{◌≡◌, ◌<◌, suc, ℕ, List, IfOk, IfErr, option_map, option_and_then, slice_get};
ghost use Rattle.facet_json_document.specs.Inner.Looking.{from, many};
ghost use Rattle.facet_json_document.specs.Nodes.{child_nodes, items, last_named, members, named_nodes, nodes_from, value_view};
ghost use Rattle.facet_json_tree.specs.Inner.PointerParts.{unescaped};
ghost use Rattle.facet_json_tree.specs.Pointer.{IsPointer, PointsTo, child as child_of, index as index_for, named as named_of};
ghost use Rattle.facet_json_tree.specs.PointerViews.{RefusesPointer};

use crate::document::value::Value;
use facet_json_tree::PointerError;
use facet_json_tree::pointer::{checked, first_token, index_of, stands_for};

impl<'d, 'i> Value<'d, 'i> {
    /// The value that a JSON pointer names (RFC 6901), as `Tree::pointer` finds it. The empty pointer names the whole value; each token
    /// behind a `/` names a member of an object, the last of its name, or an item of a list by its index. In a token `~1` stands for `/`
    /// and `~0` for `~`. `None` where nothing has that name.
    ///
    /// ```text
    /// of {"foo":["bar","baz"],"a/b":1}: pointer("/foo/1")     Ok(Some: "baz")
    /// pointer("/a~1b")                                        Ok(Some: 1)
    /// pointer("/foo/01")                                      Ok(None)
    /// pointer("foo")                                          Err(NoSlash)
    /// ```
    ///
    /// # Errors
    ///
    /// The text is no pointer, whatever the value is: it does not begin with `/`, or a `~` stands in it with neither `0` nor `1` behind it.
    pub fn pointer(&self, pointer: &str) -> Result<Option<Value<'d, 'i>>, PointerError>
        ensures nodes { (names : List (List ℕ)) → IsPointer pointer.now names
            → IfOk result (λ found. option_map nodes_from found ≡ named_nodes names (nodes_from self.now)) }
        ensures ok { IfOk result (λ found. PointsTo pointer.now (value_view self.now) (option_map value_view found)) }
        ensures err { IfErr result (λ error. RefusesPointer pointer.now error) }
    {
        let bytes = checked(pointer)?;
        Ok(self.named(bytes))
    }

    /// What a text names that is a pointer.
    fn named(&self, pointer: &[u8]) -> Option<Value<'d, 'i>>
        ensures nodes { (names : List (List ℕ)) → IsPointer pointer.now names
            → option_map nodes_from result ≡ named_nodes names (nodes_from self.now) }
        ensures value { (names : List (List ℕ)) → IsPointer pointer.now names
            → option_map value_view result ≡ named_of names (value_view self.now) }
    {
        let mut found = *self;
        let mut start = 0;
        while start < pointer.len() {
            let token = first_token(&pointer[start + 1..]);
            found = found.child(token)?;
            start += 1 + token.len();
        }
        Some(found)
    }

    /// What a token names directly within the value.
    fn child(&self, token: &[u8]) -> Option<Value<'d, 'i>>
        ensures nodes { option_map nodes_from result ≡ child_nodes (unescaped token.now) (nodes_from self.now) }
        ensures value { option_map value_view result ≡ child_of (unescaped token.now) (value_view self.now) }
    {
        let node = self.node(self.index)?;
        if node.is_object() {
            return self.last_for_token(token);
        }
        if node.is_list() {
            return self.item_for_token(token);
        }
        None
    }

    /// The value of the last member whose name a token stands for.
    fn last_for_token(&self, token: &[u8]) -> Option<Value<'d, 'i>>
        requires { self.now.index < many self.now }
        ensures { option_map nodes_from result ≡ last_named (unescaped token.now) (members 0 (from self.now (suc self.now.index))) }
    {
        let mut at = self.index + 1;
        let mut found = None;
        while let Some((name, next)) = self.member_there(at) {
            if stands_for(token, name.as_bytes()) {
                found = Some(Value::at(self.document, at + 1));
            }
            at = next;
        }
        found
    }

    /// The item whose index a token is.
    fn item_for_token(&self, token: &[u8]) -> Option<Value<'d, 'i>>
        requires { self.now.index < many self.now }
        ensures { option_map nodes_from result
            ≡ option_and_then (slice_get (items 0 (from self.now (suc self.now.index)))) (index_for (unescaped token.now)) }
    {
        let most = self.document.nodes.len();
        let index = index_of(token)?;
        if index < most {
            self.item_of_list(index)
        } else {
            None
        }
    }
}
