//! A document's value, written by a serializer's calls.

ghost use Rattle.std.specs.Prelude.{◌≡◌, ◌<◌, ℕ, suc, None, IfErr, OnOk, OnErr};
ghost use Rattle.facet_json_grammar.specs.Text.{Options, text};
ghost use Rattle.facet_json_grammar.specs.Tree.{Tree, list, pairs};
ghost use Rattle.facet_json_document.specs.Inner.Looking.{many, pairs_at, trees_at};
ghost use Rattle.facet_json_document.specs.Nodes.{leaf_view, nothing, value_view};
ghost use Rattle.facet_json_serializer.specs.Serializer.{out_of_memory};
ghost use Rattle.facet_json_serializer.specs.Views.{write_refusal_of};
ghost use Rattle.facet_json_tree.specs.Write.{HasWritten};

use crate::document::node::Leaf;
use crate::document::value::Value;
use facet_format::{FormatSerializer, ScalarValue};
use facet_json_serializer::{JsonSerializeError, JsonSerializer};
use std::borrow::CowStr;

impl<'d, 'i> Value<'d, 'i> {
    /// Writes the value, where a value stands, in the layout of the serializer's options (RFC 8259, sections 2 to 7): what `write_tree`
    /// writes of its tree, which is not made.
    ///
    /// Lists and objects are written by recursion, a level of the stack for each level of nesting, as by `write_tree`. Where a document
    /// comes from strangers, `Document::parse_within` bounds its depth.
    ///
    /// ```text
    /// of [1.50,{"a":"\u0062"}]: write(&mut serializer)        Ok
    /// serializer.finish()                                      Ok: [1.50,{"a":"b"}]
    /// ```
    ///
    /// # Errors
    ///
    /// `OutOfMemory` alone; the serializer is then out of memory for good.
    pub fn write(&self, serializer: &mut JsonSerializer<'_>) -> Result<(), JsonSerializeError>
        ensures written { OnOk result (HasWritten serializer.old (value_view self.now) serializer.new) }
        ensures refused { IfErr result (λ e. write_refusal_of e ≡ out_of_memory) }
        ensures spent { OnErr result (serializer.new ≡ None) }
    {
        write_value(serializer, self)
    }
}

/// Writes a value.
#[cycle(write)]
fn write_value(
    serializer: &mut JsonSerializer<'_>,
    value: &Value<'_, '_>,
) -> Result<(), JsonSerializeError>
    ensures written { OnOk result (HasWritten serializer.old (value_view value.now) serializer.new) }
    ensures refused { IfErr result (λ e. write_refusal_of e ≡ out_of_memory) }
    ensures spent { OnErr result (serializer.new ≡ None) }
{
    let Some(node) = value.node(value.index) else {
        return write_nothing(serializer);
    };
    if node.is_list() {
        return write_items(serializer, value);
    }
    if node.is_object() {
        return write_members(serializer, value);
    }
    if let Some(number) = node.plain_number() {
        return write_plain(serializer, number);
    }
    match node.leaf(value.document) {
        Some(leaf) => write_leaf(serializer, leaf),
        None => write_nothing(serializer),
    }
}

/// Writes a list, its items in order.
#[cycle(write)]
fn write_items(
    serializer: &mut JsonSerializer<'_>,
    value: &Value<'_, '_>,
) -> Result<(), JsonSerializeError>
    requires { value.now.index < many value.now }
    ensures written { OnOk result (HasWritten serializer.old (list (trees_at value.now (suc value.now.index))) serializer.new) }
    ensures refused { IfErr result (λ e. write_refusal_of e ≡ out_of_memory) }
    ensures spent { OnErr result (serializer.new ≡ None) }
{
    serializer.begin_seq()?;
    let mut at = value.index + 1;
    while let Some(next) = value.next_item(at) {
        write_value(serializer, &Value::at(value.document, at))?;
        at = next;
    }
    serializer.end_seq()
}

/// Writes an object, its members in order.
#[cycle(write)]
fn write_members(
    serializer: &mut JsonSerializer<'_>,
    value: &Value<'_, '_>,
) -> Result<(), JsonSerializeError>
    requires { value.now.index < many value.now }
    ensures written { OnOk result (HasWritten serializer.old (pairs (pairs_at value.now (suc value.now.index))) serializer.new) }
    ensures refused { IfErr result (λ e. write_refusal_of e ≡ out_of_memory) }
    ensures spent { OnErr result (serializer.new ≡ None) }
{
    serializer.begin_struct()?;
    let mut at = value.index + 1;
    while let Some((key, next)) = value.member_there(at) {
        serializer.field_key(key)?;
        write_value(serializer, &Value::at(value.document, at + 1))?;
        at = next;
    }
    serializer.end_struct()
}

/// Writes a value by its text.
#[inline(always)]
fn write_plain(serializer: &mut JsonSerializer<'_>, plain: &str) -> Result<(), JsonSerializeError>
    ensures written { (t : Tree) → ((o : Options) (depth : ℕ) → plain.now ≡ text o depth t)
        → OnOk result (HasWritten serializer.old t serializer.new) }
    ensures refused { IfErr result (λ e. write_refusal_of e ≡ out_of_memory) }
    ensures spent { OnErr result (serializer.new ≡ None) }
{
    serializer.raw_scalar(plain)
}

/// Writes a value that holds no others.
fn write_leaf(serializer: &mut JsonSerializer<'_>, leaf: Leaf<'_>) -> Result<(), JsonSerializeError>
    ensures written { OnOk result (HasWritten serializer.old (leaf_view leaf.entry) serializer.new) }
    ensures refused { IfErr result (λ e. write_refusal_of e ≡ out_of_memory) }
    ensures spent { OnErr result (serializer.new ≡ None) }
{
    match leaf {
        Leaf::Null => serializer.scalar(ScalarValue::Null),
        Leaf::Bool(b) => serializer.scalar(ScalarValue::Bool(b)),
        Leaf::I64(n) => serializer.scalar(ScalarValue::I64(n)),
        Leaf::U64(n) => serializer.scalar(ScalarValue::U64(n)),
        Leaf::Decimal(decimal) => serializer.raw_scalar(decimal.as_str()),
        Leaf::Text(text) => serializer.scalar(ScalarValue::Str(CowStr::Borrowed(text))),
        Leaf::Other => write_nothing(serializer),
    }
}

/// Writes what stands for a value where none begins, as none does in a document.
fn write_nothing(serializer: &mut JsonSerializer<'_>) -> Result<(), JsonSerializeError>
    ensures written { OnOk result (HasWritten serializer.old nothing serializer.new) }
    ensures refused { IfErr result (λ e. write_refusal_of e ≡ out_of_memory) }
    ensures spent { OnErr result (serializer.new ≡ None) }
{
    serializer.scalar(ScalarValue::Bytes(&[]))
}
