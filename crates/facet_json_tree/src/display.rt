//! A value as its compact JSON text, for `{}`: written piece by piece, with no allocation.

ghost use Rattle.std.specs.Prelude.{◌≡◌, ◌<◌, ◌∷◌, [], ◌++◌, Some, true, codes};
ghost use Rattle.std.specs.Bool.{OnTrue, OnFalse};
ghost use Rattle.std.specs.Char.{encode_utf8};
ghost use Rattle.std.specs.Fmt.{WritesOnOk};
ghost use Rattle.std.specs.List.{flat_map};
ghost use Rattle.facet_format.specs.Bytes.{right_bracket};
ghost use Rattle.facet_json_grammar.specs.Quoted.{escaped, hex_byte, quoted};
ghost use Rattle.facet_json_grammar.specs.Quoted as spelled;
ghost use Rattle.facet_json_grammar.specs.Text as text;
ghost use Rattle.facet_json_grammar.specs.Text.{default_options, items_text, members_text, numbers};
ghost use Rattle.facet_json_tree.specs.Views.{tree_view, trees_view, pairs_view};

use crate::tree::Tree;
use std::fmt;
use std::fmt::{Formatter, Write};

/// The compact text of the value (RFC 8259, sections 2 to 7), as `write_tree` writes it: no white space, bytes as an array of numbers.
/// Lists and objects are written by recursion, a level of the stack for each level of nesting.
///
/// ```text
/// format!(in alloc; "{tree}")                             {"a":[1,null]}
/// ```
impl fmt::Display for Tree {
    ghost output = { λ t. Some (text.text default_options 0 (tree_view t)) };

    fn fmt<W: Write>(&self, f: &mut Formatter<W>) -> fmt::Result {
        show(self, f)
    }
}

/// Writes a value.
#[cycle(show)]
fn show<W: Write>(tree: &Tree, f: &mut Formatter<W>) -> fmt::Result
    ensures { WritesOnOk W.write_str_gives f.old result (text.text default_options 0 (tree_view tree.now)) f.new }
{
    match tree {
        Tree::Null => f.write_str("null"),
        Tree::Unit => f.write_str("null"),
        Tree::Bool(b) => f.write_str(bool_text(*b)),
        Tree::Char(c) => show_char(*c, f),
        Tree::I64(n) => show_number(*n, f),
        Tree::U64(n) => show_number(*n, f),
        Tree::I128(n) => show_number(*n, f),
        Tree::U128(n) => show_number(*n, f),
        Tree::Decimal(decimal) => f.write_str(decimal.as_str()),
        Tree::Text(text) => show_text(text.as_str(), f),
        Tree::Bytes(bytes) => {
            f.write_str("[")?;
            show_bytes(bytes, f)
        }
        Tree::Raw(json) => f.write_str(json.as_str()),
        Tree::List(items) => {
            f.write_str("[")?;
            show_items(items, f)
        }
        Tree::Pairs(members) => {
            f.write_str("{")?;
            show_members(members, f)
        }
    }
}

/// Writes the items of a list, and its closing bracket.
#[cycle(show)]
fn show_items<W: Write>(items: &[Tree], f: &mut Formatter<W>) -> fmt::Result
    ensures { WritesOnOk W.write_str_gives f.old result (items_text default_options 0 true (trees_view items.now)) f.new }
{
    let mut is_first = true;
    for item in items {
        f.write_str(separator(is_first))?;
        show(item, f)?;
        is_first = false;
    }
    f.write_str("]")
}

/// Writes the members of an object, and its closing brace.
#[cycle(show)]
fn show_members<W: Write>(members: &[(String, Tree)], f: &mut Formatter<W>) -> fmt::Result
    ensures { WritesOnOk W.write_str_gives f.old result (members_text default_options 0 true (pairs_view members.now)) f.new }
{
    let mut is_first = true;
    for member in members {
        f.write_str(separator(is_first))?;
        show_text(member.0.as_str(), f)?;
        f.write_str(":")?;
        show(&member.1, f)?;
        is_first = false;
    }
    f.write_str("}")
}

/// Writes bytes as numbers, and the closing bracket of their list.
fn show_bytes<W: Write>(bytes: &[u8], f: &mut Formatter<W>) -> fmt::Result
    ensures { WritesOnOk W.write_str_gives f.old result (numbers bytes.now ++ right_bracket ∷ []) f.new }
{
    let mut is_first = true;
    for byte in bytes {
        f.write_str(separator(is_first))?;
        show_number(*byte, f)?;
        is_first = false;
    }
    f.write_str("]")
}

/// What stands before an item or a member: a comma, but for the first.
fn separator(is_first: bool) -> &'static str
    ensures { result.now ≡ text.separator is_first }
{
    if is_first { "" } else { "," }
}

/// The text of a truth value.
fn bool_text(b: bool) -> &'static str
    ensures { result.now ≡ text.bool_text b }
{
    if b { "true" } else { "false" }
}

/// Writes a whole number by its digits.
fn show_number<N: itoa::Integer, W: Write>(n: N, f: &mut Formatter<W>) -> fmt::Result
    ensures { WritesOnOk W.write_str_gives f.old result (N.text n) f.new }
{
    let mut buffer = itoa::Buffer::new();
    f.write_str(buffer.format(n))
}

/// Writes a character between quotes.
fn show_char<W: Write>(c: char, f: &mut Formatter<W>) -> fmt::Result
    ensures { WritesOnOk W.write_str_gives f.old result (quoted (encode_utf8 c)) f.new }
{
    let mut buffer = [0; 4];
    show_text(c.encode_utf8(&mut buffer), f)
}

/// Writes a text between quotes (RFC 8259, section 7).
fn show_text<W: Write>(text: &str, f: &mut Formatter<W>) -> fmt::Result
    ensures { WritesOnOk W.write_str_gives f.old result (quoted text.now) f.new }
{
    f.write_str("\"")?;
    show_content(text, f)?;
    f.write_str("\"")
}

/// Writes what stands between the quotes: runs of bytes that stand for themselves, and the escapes between them.
fn show_content<W: Write>(text: &str, f: &mut Formatter<W>) -> fmt::Result
    ensures { WritesOnOk W.write_str_gives f.old result (flat_map escaped text.now) f.new }
{
    let bytes = text.as_bytes();
    let mut start = 0;
    for at in 0..bytes.len() {
        let byte = bytes[at];
        if needs_escape(byte) {
            f.write_str(&text[start..at])?;
            show_escaped(byte, f)?;
            start = at + 1;
        }
    }
    f.write_str(&text[start..])
}

/// Whether a byte cannot stand for itself between the quotes.
#[tactic(auto, unfolding(facet_json_grammar::specs::Quoted::escaped))]
fn needs_escape(byte: u8) -> bool
    ensures ascii { OnTrue result (byte < 128) }
    ensures plain { OnFalse result (escaped byte ≡ byte ∷ []) }
{
    byte < b' ' || byte == b'"' || byte == b'\\' || byte == 0x7f
}

/// Writes what stands between the quotes for an ASCII character: an escape, or the character.
#[tactic(auto, unfolding(facet_json_grammar::specs::Quoted::escaped))]
fn show_escaped<W: Write>(byte: u8, f: &mut Formatter<W>) -> fmt::Result
    requires { byte < 128 }
    ensures { WritesOnOk W.write_str_gives f.old result (escaped byte) f.new }
{
    match byte {
        b'"' => f.write_str("\\\""),
        b'\\' => f.write_str("\\\\"),
        b'\n' => f.write_str("\\n"),
        b'\r' => f.write_str("\\r"),
        b'\t' => f.write_str("\\t"),
        0x08 => f.write_str("\\b"),
        0x0c => f.write_str("\\f"),
        _ if byte < b' ' || byte == 0x7f => show_code(byte, f),
        _ => f.write_char(char::from(byte)),
    }
}

/// Writes the escape of six characters of a byte.
fn show_code<W: Write>(byte: u8, f: &mut Formatter<W>) -> fmt::Result
    ensures { WritesOnOk W.write_str_gives f.old result (codes "\\u00" ++ hex_byte byte) f.new }
{
    f.write_str("\\u00")?;
    f.write_char(hex_digit(byte / 16))?;
    f.write_char(hex_digit(byte % 16))
}

/// A lower-case hexadecimal digit.
fn hex_digit(n: u8) -> char
    requires { n < 16 }
    ensures value { result ≡ spelled.hex_digit n }
    ensures ascii { result < 128 }
{
    char::from(if n < 10 { n + b'0' } else { n - 10 + b'a' })
}
