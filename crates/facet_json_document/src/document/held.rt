//! What the lists and objects of a document hold, one after another.

ghost use Rattle.std.specs.Prelude.{◌≡◌};
ghost use Rattle.std.specs.Iterator.{YieldsFirstBy, item_count};
ghost use Rattle.facet_json_document.specs.Nodes.{item_nodes_left, member_nodes_left, member_from, nodes_from};

use crate::document::Document;
use crate::document::value::Value;

/// The items of a list, in order.
#[derive(Clone, Copy, Drop)]
pub struct Items<'d, 'i> {
    /// The document.
    document: &'d Document<'i>,
    /// The index of the next item's node, or of the list's end.
    at: usize,
}

impl<'d, 'i> Items<'d, 'i> {
    /// Those from this index on.
    pub(crate) fn new(document: &'d Document<'i>, at: usize) -> Items<'d, 'i>
        ensures same { result.document.now ≡ document.now }
        ensures at { result.at ≡ at }
    {
        Items { document, at }
    }
}

impl<'d, 'i> Iterator for Items<'d, 'i> {
    type Item = Value<'d, 'i>;

    ghost next_gives = { YieldsFirstBy nodes_from item_nodes_left };

    ghost remaining = { item_count item_nodes_left };

    fn next(&mut self) -> Option<Value<'d, 'i>> {
        let here = Value::at(self.document, self.at);
        let next = here.next_item(self.at)?;
        self.at = next;
        Some(here)
    }
}

/// The members of an object, in order: each with its name.
#[derive(Clone, Copy, Drop)]
pub struct Members<'d, 'i> {
    /// The document.
    document: &'d Document<'i>,
    /// The index of the next member's key, or of the object's end.
    at: usize,
}

impl<'d, 'i> Members<'d, 'i> {
    /// Those from this index on.
    pub(crate) fn new(document: &'d Document<'i>, at: usize) -> Members<'d, 'i>
        ensures same { result.document.now ≡ document.now }
        ensures at { result.at ≡ at }
    {
        Members { document, at }
    }
}

impl<'d, 'i> Iterator for Members<'d, 'i> {
    type Item = (&'d str, Value<'d, 'i>);

    ghost next_gives = { YieldsFirstBy member_from member_nodes_left };

    ghost remaining = { item_count member_nodes_left };

    fn next(&mut self) -> Option<(&'d str, Value<'d, 'i>)> {
        let here = Value::at(self.document, self.at);
        let (name, next) = here.member_there(self.at)?;
        let value = Value::at(self.document, self.at + 1);
        self.at = next;
        Some((name, value))
    }
}
