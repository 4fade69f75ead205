//! A tree, written by a serializer's calls.

ghost use Rattle.std.specs.Prelude.{◌≡◌, None, IfErr, OnOk, OnErr};
ghost use Rattle.facet_json_grammar.specs.Tree.{list, pairs};
ghost use Rattle.facet_json_grammar.specs.Tree as tree;
ghost use Rattle.facet_format.specs.Event as event;
ghost use Rattle.facet_format.specs.SerializerCall.{scalar, raw_scalar};
ghost use Rattle.facet_json_grammar.specs.Text.{bool_text};
ghost use Rattle.facet_json_serializer.specs.Serializer.{out_of_memory, Appends};
ghost use Rattle.facet_json_serializer.specs.Views.{call_answer_of, write_refusal_of};
ghost use Rattle.facet_json_tree.specs.Views.{tree_view, trees_view, pairs_view};
ghost use Rattle.facet_json_tree.specs.Write.{HasWritten, IsOfRust};

use crate::tree::Tree;
use facet_format::{FormatSerializer, ScalarValue};
use facet_json_serializer::{JsonSerializeError, JsonSerializer};
use std::borrow::CowStr;

/// Writes a tree, where a value stands, in the layout of the serializer's options (RFC 8259, sections 2 to 7).
///
/// ```text
/// serializer.begin_seq()                                       Ok
/// write_tree(&mut serializer, &Tree::U64(1))                   Ok
/// write_tree(&mut serializer, &Tree::Null)                     Ok
/// serializer.end_seq()                                         Ok
/// serializer.finish()                                          Ok: [1,null]
/// ```
///
/// # Errors
///
/// `OutOfMemory` alone; the serializer is then out of memory for good.
#[cycle(write)]
pub fn write_tree(
    serializer: &mut JsonSerializer<'_>,
    tree: &Tree,
) -> Result<(), JsonSerializeError>
    ensures written { OnOk result (HasWritten serializer.old (tree_view tree.now) serializer.new) }
    ensures refused { IfErr result (λ e. write_refusal_of e ≡ out_of_memory) }
    ensures spent { OnErr result (serializer.new ≡ None) }
    ensures of_rust { OnOk result (IsOfRust (tree_view tree.now)) }
{
    match tree {
        Tree::Null => write_raw(serializer, "null"),
        Tree::Unit => write_raw(serializer, "null"),
        Tree::Bool(b) => write_bool(serializer, *b),
        Tree::Char(c) => write_char(serializer, *c),
        Tree::I64(n) => write_signed(serializer, *n),
        Tree::U64(n) => write_unsigned(serializer, *n),
        Tree::I128(n) => write_number(serializer, *n),
        Tree::U128(n) => write_number(serializer, *n),
        Tree::Decimal(decimal) => write_raw(serializer, decimal.as_str()),
        Tree::Text(text) => write_text(serializer, text.as_str()),
        Tree::Bytes(bytes) => write_bytes(serializer, bytes.as_slice()),
        Tree::Raw(json) => write_raw(serializer, json.as_str()),
        Tree::List(items) => write_list(serializer, items),
        Tree::Pairs(members) => write_pairs(serializer, members),
    }
}

/// Writes a list, its items in order.
#[cycle(write)]
#[inline(never)]
fn write_list(serializer: &mut JsonSerializer<'_>, items: &[Tree]) -> Result<(), JsonSerializeError>
    ensures written { OnOk result (HasWritten serializer.old (list (trees_view items.now)) serializer.new) }
    ensures refused { IfErr result (λ e. write_refusal_of e ≡ out_of_memory) }
    ensures spent { OnErr result (serializer.new ≡ None) }
    ensures of_rust { OnOk result (IsOfRust (list (trees_view items.now))) }
{
    serializer.begin_seq()?;
    for item in items {
        write_tree(serializer, item)?;
    }
    serializer.end_seq()
}

/// Writes an object, its members in order.
#[cycle(write)]
#[inline(never)]
fn write_pairs(
    serializer: &mut JsonSerializer<'_>,
    members: &[(String, Tree)],
) -> Result<(), JsonSerializeError>
    ensures written { OnOk result (HasWritten serializer.old (pairs (pairs_view members.now)) serializer.new) }
    ensures refused { IfErr result (λ e. write_refusal_of e ≡ out_of_memory) }
    ensures spent { OnErr result (serializer.new ≡ None) }
    ensures of_rust { OnOk result (IsOfRust (pairs (pairs_view members.now))) }
{
    serializer.begin_struct()?;
    for member in members {
        serializer.field_key(member.0.as_str())?;
        write_tree(serializer, &member.1)?;
    }
    serializer.end_struct()
}

// A value of each kind is written by a function of its own, out of line: so `write_tree` has no frame, and a value of one kind costs
// nothing for the others.

/// Writes a text that is JSON, verbatim.
#[inline(never)]
fn write_raw(serializer: &mut JsonSerializer<'_>, json: &str) -> Result<(), JsonSerializeError>
    ensures { Appends serializer.old (raw_scalar json.now) (call_answer_of result) serializer.new }
{
    serializer.raw_scalar(json)
}

/// Writes `true` or `false`.
#[inline(never)]
fn write_bool(serializer: &mut JsonSerializer<'_>, b: bool) -> Result<(), JsonSerializeError>
    ensures { Appends serializer.old (raw_scalar (bool_text b)) (call_answer_of result) serializer.new }
{
    if b {
        serializer.raw_scalar("true")
    } else {
        serializer.raw_scalar("false")
    }
}

/// Writes a whole number of 64 bits without a sign.
#[inline(never)]
fn write_unsigned(serializer: &mut JsonSerializer<'_>, n: u64) -> Result<(), JsonSerializeError>
    ensures { Appends serializer.old (scalar (event.u64 n)) (call_answer_of result) serializer.new }
{
    serializer.scalar(ScalarValue::U64(n))
}

/// Writes a whole number of 64 bits that may have a sign.
#[inline(never)]
fn write_signed(serializer: &mut JsonSerializer<'_>, n: i64) -> Result<(), JsonSerializeError>
    ensures { Appends serializer.old (scalar (event.i64 n)) (call_answer_of result) serializer.new }
{
    serializer.scalar(ScalarValue::I64(n))
}

/// Writes a whole number of 128 bits by its digits.
#[inline(never)]
fn write_number<N: itoa::Integer>(
    serializer: &mut JsonSerializer<'_>,
    n: N,
) -> Result<(), JsonSerializeError>
    ensures { Appends serializer.old (raw_scalar (N.text n)) (call_answer_of result) serializer.new }
{
    let mut buffer = itoa::Buffer::new();
    serializer.raw_scalar(buffer.format(n))
}

/// Writes a character, as a text that holds it alone.
#[inline(never)]
fn write_char(serializer: &mut JsonSerializer<'_>, c: char) -> Result<(), JsonSerializeError>
    ensures { Appends serializer.old (scalar (event.char c)) (call_answer_of result) serializer.new }
{
    serializer.scalar(ScalarValue::Char(c))
}

/// Writes a text, between quotes.
#[inline(never)]
fn write_text(serializer: &mut JsonSerializer<'_>, text: &str) -> Result<(), JsonSerializeError>
    ensures { Appends serializer.old (scalar (event.text (event.borrowed text.now))) (call_answer_of result) serializer.new }
{
    serializer.scalar(ScalarValue::Str(CowStr::Borrowed(text)))
}

/// Writes bytes, in the format of the options.
#[inline(never)]
fn write_bytes(serializer: &mut JsonSerializer<'_>, bytes: &[u8]) -> Result<(), JsonSerializeError>
    ensures written { OnOk result (HasWritten serializer.old (tree.bytes bytes.now) serializer.new) }
    ensures refused { IfErr result (λ e. write_refusal_of e ≡ out_of_memory) }
    ensures spent { OnErr result (serializer.new ≡ None) }
    ensures of_rust { OnOk result (IsOfRust (tree.bytes bytes.now)) }
{
    serializer.scalar(ScalarValue::Bytes(bytes))
}
