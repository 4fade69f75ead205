//! What the definitions of `specs/` mean, in the subject's own words: each law is the contract of a function without effect.

ghost use Rattle.facet_json_serializer.specs.TreeCalls.{TreeByCalls, TakenInOrder, TreeTaken};

/// The calls of a tree, made one after the other, append the tree's text at the depth that is open.
pub fn tree_by_calls()
    ensures { TreeByCalls }
{}

/// Calls that a serializer takes one after the other leave what they append: from the contract of code over any
/// `FormatSerializer`, this gives the text.
pub fn taken_in_order()
    ensures { TakenInOrder }
{}

/// Where a serializer takes the calls of a tree, one after the other, the tree's text is appended.
pub fn tree_taken()
    ensures { TreeTaken }
{}
