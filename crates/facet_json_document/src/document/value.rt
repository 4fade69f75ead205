//! The values of a document.

ghost use Rattle.std.specs.Prelude.{◌≡◌, ◌<◌, ◌≤◌, suc, length, drop, option_map, slice_get};
ghost use Rattle.std.specs.Int.{w64};
ghost use Rattle.facet_format.specs.Event.{bytes_of};
ghost use Rattle.facet_json_tree.specs.Content as content;
ghost use Rattle.facet_json_tree.specs.Content.{TellsUnsigned, TellsSigned};
ghost use Rattle.facet_json_tree.specs.Lookup.{member, item};
ghost use Rattle.facet_json_document.specs.Nodes.{value_kind, value_view, inner_len, items, members, items_left, members_left, item_nodes};
ghost use Rattle.facet_json_document.specs.Nodes.{item_nodes_left, list_items, last_named, len, member_nodes, member_nodes_left};
ghost use Rattle.facet_json_document.specs.Nodes.{object_members, nodes_from, pairs_list, raw_text, trees_list};
ghost use Rattle.facet_json_document.specs.Inner.Looking.{IsLeaf, IsNodeAt, IsNextItem, IsMemberAt, from, many, seen};

mod copying;
mod pointer;
mod writing;

use crate::document::Document;
use crate::document::held::{Items, Members};
use crate::document::node::{Leaf, Node, ValueKind};
use facet_format::Decimal;

/// A value of a document: a place in it, which is copied freely.
#[derive(Clone, Copy)]
pub struct Value<'d, 'i> {
    /// The document.
    document: &'d Document<'i>,
    /// The index of the value's node.
    index: usize,
}

impl<'d, 'i> Value<'d, 'i> {
    /// The value of a document whose node has this index.
    pub(crate) fn at(document: &'d Document<'i>, index: usize) -> Value<'d, 'i>
        ensures same { result.document.now ≡ document.now }
        ensures index { result.index ≡ index }
    {
        Value { document, index }
    }

    /// What the value is (RFC 8259, section 3).
    ///
    /// ```text
    /// of 1.5: kind()                                          ValueKind::Number
    /// ```
    pub fn kind(&self) -> ValueKind
        ensures { result ≡ value_kind (value_view self.now) }
    {
        match self.node(self.index) {
            Some(node) => node.kind(self.document),
            None => ValueKind::Null,
        }
    }

    /// Whether the value is `null` (RFC 8259, section 3).
    ///
    /// ```text
    /// of null: is_null()                                      true
    /// of false: is_null()                                     false
    /// ```
    pub fn is_null(&self) -> bool
        ensures { result ≡ content.is_null (value_view self.now) }
    {
        match self.leaf() {
            Some(Leaf::Null) => true,
            _ => false,
        }
    }

    /// The truth value (RFC 8259, section 3), where it is one.
    ///
    /// ```text
    /// of true: as_bool()                                      Some(true)
    /// of 1: as_bool()                                         None
    /// ```
    pub fn as_bool(&self) -> Option<bool>
        ensures { result ≡ content.as_bool (value_view self.now) }
    {
        match self.leaf() {
            Some(Leaf::Bool(b)) => Some(b),
            _ => None,
        }
    }

    /// The text of a string (RFC 8259, section 7), unescaped, or of a whole number past 64 bits. It lies in the input where no escape
    /// stands in it.
    ///
    /// ```text
    /// of "a\n": as_str()                                      Some("a" and a line feed)
    /// of 1: as_str()                                          None
    /// ```
    pub fn as_str(&self) -> Option<&'d str>
        ensures { option_map (λ t. t.now) result ≡ content.as_str (value_view self.now) }
    {
        match self.leaf() {
            Some(Leaf::Text(text)) => Some(text),
            _ => None,
        }
    }

    /// The whole number that the value is, where it is one of 64 bits without a sign (RFC 8259, section 6).
    ///
    /// ```text
    /// of 5: as_u64()                                          Some(5)
    /// of -5: as_u64()                                         None
    /// ```
    pub fn as_u64(&self) -> Option<u64>
        ensures { TellsUnsigned w64 (value_view self.now) result }
    {
        match self.leaf() {
            Some(Leaf::I64(n)) => u64::try_from(n).ok(),
            Some(Leaf::U64(n)) => Some(n),
            _ => None,
        }
    }

    /// The whole number that the value is, where it is one of 64 bits with a sign.
    ///
    /// ```text
    /// of -5: as_i64()                                         Some(-5)
    /// of 9223372036854775808: as_i64()                        None
    /// ```
    pub fn as_i64(&self) -> Option<i64>
        ensures { TellsSigned w64 (value_view self.now) result }
    {
        match self.leaf() {
            Some(Leaf::I64(n)) => Some(n),
            Some(Leaf::U64(n)) => i64::try_from(n).ok(),
            _ => None,
        }
    }

    /// The number, as its text, where it has a fraction or an exponent (RFC 8259, section 6).
    ///
    /// ```text
    /// of 1.50: as_decimal()                                   Some: its text is "1.50"
    /// of 1: as_decimal()                                      None
    /// ```
    pub fn as_decimal(&self) -> Option<Decimal<'d>>
        ensures { option_map bytes_of result ≡ content.as_decimal (value_view self.now) }
    {
        match self.leaf() {
            Some(Leaf::Decimal(decimal)) => Some(decimal),
            _ => None,
        }
    }

    /// The value's bytes in the input, from its first to its last: of a list or an object with all that stands between its brackets, white
    /// space and comments too. A message can so be passed on, or read by another, as it came.
    ///
    /// ```text
    /// of {"a": [1, 2.0 ], "b": "\u0061"}: get("a") and raw()    [1, 2.0 ]
    /// get("b") and raw()                                       "\u0061"
    /// ```
    pub fn raw(&self) -> &'i [u8]
        ensures { result.now ≡ raw_text (nodes_from self.now) }
    {
        match self.node(self.index) {
            Some(node) => node.raw(),
            None => &[],
        }
    }

    /// The value of an object's member with this name: of several with one name the last counts, as a map reads them (RFC 8259, section 4).
    /// Other values have no members. The names are compared one by one, and what the members hold is passed at once.
    ///
    /// ```text
    /// of {"a":1,"b":2,"a":3}: get("a")                        Some: 3
    /// get("c")                                                None
    /// ```
    pub fn get(&self, key: &str) -> Option<Value<'d, 'i>>
        ensures nodes { option_map nodes_from result ≡ member_nodes key.now (nodes_from self.now) }
        ensures value { option_map value_view result ≡ member key.now (value_view self.now) }
    {
        let node = self.node(self.index)?;
        if !node.is_object() {
            return None;
        }
        self.last_named(key)
    }

    /// The item of a list at this index, the first at 0 (RFC 8259, section 5). Other values have no items. What the items before it hold is
    /// passed at once.
    ///
    /// ```text
    /// of [7,true]: item(1)                                    Some: true
    /// item(2)                                                 None
    /// ```
    pub fn item(&self, index: usize) -> Option<Value<'d, 'i>>
        ensures nodes { option_map nodes_from result ≡ item_nodes index (nodes_from self.now) }
        ensures value { option_map value_view result ≡ item index (value_view self.now) }
    {
        let node = self.node(self.index)?;
        if !node.is_list() {
            return None;
        }
        self.item_of_list(index)
    }

    /// How many items or members the value has (RFC 8259, sections 4 and 5), where it is a list or an object. They are counted one by one,
    /// and what they hold is passed at once.
    ///
    /// ```text
    /// of [7,[8,9]]: len()                                     Some(2)
    /// of "a": len()                                           None
    /// ```
    pub fn len(&self) -> Option<usize>
        ensures { result ≡ len (value_view self.now) }
    {
        let node = self.node(self.index)?;
        if node.is_list() {
            return Some(self.items_len());
        }
        if node.is_object() {
            return Some(self.members_len());
        }
        None
    }

    /// The items of a list, in order (RFC 8259, section 5).
    ///
    /// ```text
    /// of [7,[8]]: items()                                     Some: 7, then [8]
    /// of {}: items()                                          None
    /// ```
    pub fn items(&self) -> Option<Items<'d, 'i>>
        ensures nodes { option_map item_nodes_left result ≡ list_items (nodes_from self.now) }
        ensures values { option_map items_left result ≡ option_map trees_list (content.as_list (value_view self.now)) }
    {
        let node = self.node(self.index)?;
        if !node.is_list() {
            return None;
        }
        Some(Items::new(self.document, self.index + 1))
    }

    /// The members of an object, in order (RFC 8259, section 4). A name that comes twice stands twice.
    ///
    /// ```text
    /// of {"a":1,"a":2}: members()                             Some: ("a", 1), then ("a", 2)
    /// of []: members()                                        None
    /// ```
    pub fn members(&self) -> Option<Members<'d, 'i>>
        ensures nodes { option_map member_nodes_left result ≡ object_members (nodes_from self.now) }
        ensures values { option_map members_left result ≡ option_map pairs_list (content.as_pairs (value_view self.now)) }
    {
        let node = self.node(self.index)?;
        if !node.is_object() {
            return None;
        }
        Some(Members::new(self.document, self.index + 1))
    }

    /// How many items a list has.
    fn items_len(&self) -> usize
        requires { self.now.index < many self.now }
        ensures { result ≡ length (items 0 (from self.now (suc self.now.index))) }
    {
        let mut at = self.index + 1;
        let mut len = 0;
        while let Some(next) = self.next_item(at) {
            at = next;
            len += 1;
        }
        len
    }

    /// How many members an object has.
    fn members_len(&self) -> usize
        requires { self.now.index < many self.now }
        ensures { result ≡ length (members 0 (from self.now (suc self.now.index))) }
    {
        let mut at = self.index + 1;
        let mut len = 0;
        while let Some((_, next)) = self.member_there(at) {
            at = next;
            len += 1;
        }
        len
    }

    /// The value that holds no others, where it is one.
    fn leaf(&self) -> Option<Leaf<'d>>
        ensures { IsLeaf (value_view self.now) result }
    {
        let node = self.node(self.index)?;
        node.leaf(self.document)
    }

    /// The node of this index.
    fn node(&self, at: usize) -> Option<&'d Node<'i>>
        ensures { IsNodeAt self.now at result }
    {
        match self.document.nodes.get(at) {
            Some(node) => Some(node),
            None => None,
        }
    }

    /// The index after a node and those that belong to it.
    fn past(&self, at: usize, node: &Node<'i>) -> usize
        requires { at < many self.now }
        ensures left { from self.now result ≡ drop (inner_len (seen self.now node.now)) (from self.now (suc at)) }
        ensures further { at < result }
        ensures within { result ≤ many self.now }
    {
        let inner = node.inner();
        let len = self.document.nodes.len();
        if inner < len - at - 1 {
            at + 1 + inner
        } else {
            len
        }
    }

    /// The item of a list at this index.
    fn item_of_list(&self, index: usize) -> Option<Value<'d, 'i>>
        requires { self.now.index < many self.now }
        ensures { option_map nodes_from result ≡ slice_get (items 0 (from self.now (suc self.now.index))) index }
    {
        let mut at = self.index + 1;
        let mut left = index;
        while left > 0 {
            at = self.next_item(at)?;
            left -= 1;
        }
        self.item_there(at)
    }

    /// The index of the item behind the one at this index.
    pub(crate) fn next_item(&self, at: usize) -> Option<usize>
        ensures { IsNextItem self.now at result }
    {
        let node = self.node(at)?;
        if node.is_end() {
            return None;
        }
        Some(self.past(at, node))
    }

    /// The item at this index, where no end stands there.
    fn item_there(&self, at: usize) -> Option<Value<'d, 'i>>
        ensures { option_map nodes_from result ≡ slice_get (items 0 (from self.now at)) 0 }
    {
        let node = self.node(at)?;
        if node.is_end() {
            return None;
        }
        Some(Value::at(self.document, at))
    }

    /// The value of the last member with this name.
    fn last_named(&self, key: &str) -> Option<Value<'d, 'i>>
        requires { self.now.index < many self.now }
        ensures { option_map nodes_from result ≡ last_named key.now (members 0 (from self.now (suc self.now.index))) }
    {
        let mut at = self.index + 1;
        let mut found = None;
        while let Some((name, next)) = self.member_there(at) {
            if name == key {
                found = Some(Value::at(self.document, at + 1));
            }
            at = next;
        }
        found
    }

    /// The name of the member at this index, and the index of the one behind it.
    pub(crate) fn member_there(&self, at: usize) -> Option<(&'d str, usize)>
        ensures { IsMemberAt self.now at result }
    {
        let key = self.node(at)?;
        let name = key.name(self.document)?;
        let value = self.node(at + 1)?;
        Some((name, self.past(at + 1, value)))
    }
}
