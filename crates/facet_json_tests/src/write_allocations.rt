//! Failed allocations. With ample memory these tests pass as any other does. `checks/allocations` runs them once more for each
//! of their requests for memory, which is refused, and they have to pass in every such run. Each row is tried twice, its set-up too: as
//! one request is refused in a run, memory runs out in one of the two at most, and the other gives the whole answer.

use crate::expecting::expect_of;
use crate::twice::but_once;
use crate::writers::{FORMS, Form, sample, tabs_and_hex, text_by, write_by};
use crate::written::{Call, Layout, Row, is_after, is_text, writes};
use facet_format::FormatSerializer;
use facet_json::{
    to_string, to_string_pretty, to_string_with_options, to_vec, to_vec_pretty, to_vec_with_options,
};
use facet_json_serializer::{JsonSerializeError, JsonSerializer};
use facet_json_tree::{Tree, WriteError, tree_from_slice, write_tree};
use std::alloc::{AllocError, Global};
use std::io::ErrorKind;

#[rattlefmt::skip]
static ROWS: [Row; 6] = [
    (Layout::Compact, &[Call::BeginStruct, Call::Key("a"), Call::BeginSeq, Call::BeginSeq, Call::Number(18446744073709551615),
        Call::Text("a text that is longer\nthan the first growth"), Call::EndSeq, Call::Raw("[true, false, null]"), Call::Bytes(&[1, 2, 3]),
        Call::EndSeq, Call::EndStruct], &[],
        "{\"a\":[[18446744073709551615,\"a text that is longer\\nthan the first growth\"],[true, false, null],[1,2,3]]}"),
    (Layout::Compact, &[Call::BeginStruct, Call::EndSeq, Call::Key("a\n"), Call::BeginStruct, Call::EndStruct, Call::Key("b"),
        Call::Number(1234567890), Call::EndStruct, Call::EndStruct], &[0, 3, 0, 0, 0, 0, 0, 0, 2], "{\"a\\n\":{},\"b\":1234567890}"),
    (Layout::Compact, &[Call::BeginSeq, Call::Text("a\"\u{1}"), Call::BeginSeq, Call::Key("a"), Call::EndSeq, Call::Bytes(&[1, 22]),
        Call::Array(&[255]), Call::Raw("[2]"), Call::EndSeq], &[0, 0, 0, 1], "[\"a\\\"\\u0001\",[],[1,22],[255],[2]]"),
    (Layout::Pretty, &[Call::BeginSeq, Call::BeginStruct, Call::Key("a"), Call::Number(1), Call::EndStruct, Call::EndSeq], &[],
        "[\n  {\n    \"a\": 1\n  }\n]"),
    (Layout::ShortHex(3, 2, 1), &[Call::Bytes(&[0, 1, 2, 255])], &[], "\"0x0001..<1 bytes>..ff\""),
    (Layout::ShortHex(3, 2, 1), &[], &[], ""),
];

/// Whether each of some paddings is written so before the row's text. What is written grows where it passes 8 bytes, or the padding's
/// length where that is more, and again where it passes twice as many: so each of the first 32 bytes of the text is, after one of
/// them, the one that makes it grow.
fn are_written(alloc: Global, row: &Row) -> bool {
    let padding = "0123456789abcdefghijklmn";
    for n in 0..=padding.len() {
        let part = Some(padding.get(..n).unwrap_or("no part"));
        if !but_once(writes(alloc, part, row), writes(alloc, part, row)) {
            return false;
        }
    }
    true
}

#[test]
fn a_refused_growth_sticks(rt: HostRuntime) {
    for row in &ROWS {
        expect_of(&rt, are_written(rt.alloc(), row), row.3);
    }
}

/// How a tree's text is given.
enum Way {
    /// As bytes.
    Bytes,
    /// As a text.
    Text,
    /// To a writer that asks for no memory.
    Room,
    /// After these bytes of a vector.
    Vector(&'static [u8]),
}

static WAYS: [Way; 5] = [
    Way::Bytes,
    Way::Text,
    Way::Room,
    Way::Vector(b""),
    Way::Vector(b"before "),
];

/// Whether the sample is given so, or memory runs out.
fn gives(alloc: Global, form: Form, way: &Way) -> Option<bool> {
    match sample(alloc) {
        Some(tree) => gives_tree(alloc, form, &tree, way),
        None => None,
    }
}

/// Whether a tree is given so, or memory runs out.
fn gives_tree(alloc: Global, form: Form, tree: &Tree, way: &Way) -> Option<bool> {
    match way {
        Way::Bytes => is_text(&vec_by(form, alloc, tree), text_by(form)),
        Way::Text => is_string(&string_by(form, alloc, tree), text_by(form)),
        Way::Room => fills_room(alloc, form, tree),
        Way::Vector(before) => fills_vector(alloc, form, tree, *before),
    }
}

/// The text of the tree as bytes, by the function that gives what this one writes.
fn vec_by(form: Form, alloc: Global, tree: &Tree) -> Result<Vec<u8>, JsonSerializeError> {
    match form {
        Form::Compact => to_vec(alloc, tree),
        Form::Pretty => to_vec_pretty(alloc, tree),
        Form::WithOptions => to_vec_with_options(alloc, tree, &tabs_and_hex()),
    }
}

/// The text of the tree, by the function that gives what this one writes.
fn string_by(form: Form, alloc: Global, tree: &Tree) -> Result<String, JsonSerializeError> {
    match form {
        Form::Compact => to_string(alloc, tree),
        Form::Pretty => to_string_pretty(alloc, tree),
        Form::WithOptions => to_string_with_options(alloc, tree, &tabs_and_hex()),
    }
}

/// Whether this text was written, or memory ran out.
fn is_string(answer: &Result<String, JsonSerializeError>, text: &str) -> Option<bool> {
    match answer {
        Ok(written) => Some(written.as_str() == text),
        Err(JsonSerializeError::OutOfMemory) => None,
        Err(_) => Some(false),
    }
}

/// None where this holds, and else that the answer is wrong.
fn lacks(is_told: bool) -> Option<bool> {
    if is_told { None } else { Some(false) }
}

/// Whether the room begins with the text, and nothing else was written.
fn is_filled(room: &[u8], text: &str) -> bool {
    for byte in room.get(text.len()..).unwrap_or(&[1]) {
        if *byte != 0 {
            return false;
        }
    }
    room.starts_with(text.as_bytes())
}

/// Whether the tree is written to a writer that asks for no memory; or memory runs out, and nothing is written.
fn fills_room(alloc: Global, form: Form, tree: &Tree) -> Option<bool> {
    let mut room = [0; 32];
    let mut left = room.as_mut_slice();
    match write_by(form, alloc, &mut left, tree) {
        Ok(()) => Some(is_filled(&room, text_by(form))),
        Err(WriteError::Memory) => lacks(is_filled(&room, "")),
        Err(WriteError::Io(_)) => Some(false),
    }
}

/// Whether the tree is written after what a vector holds; or memory runs out, of the text, and then nothing is written, or of the vector.
fn fills_vector(alloc: Global, form: Form, tree: &Tree, before: &[u8]) -> Option<bool> {
    match Vec::from_slice(alloc, before) {
        Ok(mut out) => is_appended(
            &write_by(form, alloc, &mut out, tree),
            &out,
            before,
            text_by(form),
        ),
        Err(AllocError) => None,
    }
}

/// Whether the answer and the vector's bytes tell that; `None` where memory ran out.
fn is_appended(
    answer: &Result<(), WriteError>,
    bytes: &[u8],
    before: &[u8],
    text: &str,
) -> Option<bool> {
    match answer {
        Ok(()) => Some(is_after(bytes, before, text)),
        Err(WriteError::Memory) => lacks(bytes == before),
        Err(WriteError::Io(error)) => lacks(error.kind() == ErrorKind::OutOfMemory),
    }
}

/// One byte, by a function whose error is a `WriteError`.
fn one_byte(alloc: Global) -> Result<Vec<u8>, WriteError> {
    let mut bytes = Vec::new(alloc);
    bytes.push(1)?;
    Ok(bytes)
}

/// Whether it is given.
fn gives_byte(alloc: Global) -> Option<bool> {
    match one_byte(alloc) {
        Ok(bytes) => Some(bytes.as_slice() == b"\x01".as_slice()),
        Err(refusal) => lacks(refusal.code() == 1),
    }
}

/// Writes a list of two trees.
fn write_both(
    serializer: &mut JsonSerializer<'_>,
    first: &Tree,
    second: &Tree,
) -> Result<(), JsonSerializeError> {
    serializer.begin_seq()?;
    write_tree(serializer, first)?;
    write_tree(serializer, second)?;
    serializer.end_seq()
}

/// A list of this tree and of another, each written where a value stands.
fn list_of_trees(alloc: Global, tree: &Tree) -> Result<Vec<u8>, JsonSerializeError> {
    let mut serializer = JsonSerializer::new(alloc);
    write_both(&mut serializer, tree, &Tree::Bool(true))?;
    serializer.finish()
}

/// Whether a list of trees, each written where a value stands, is given.
fn gives_list(alloc: Global) -> Option<bool> {
    match tree_from_slice(alloc, b"[1,null]") {
        Ok(tree) => is_text(&list_of_trees(alloc, &tree), "[[1,null],true]"),
        Err(_) => None,
    }
}

#[test]
fn a_growth_is_refused_in_each_form(rt: HostRuntime) {
    let alloc = rt.alloc();
    for form in FORMS {
        for way in &WAYS {
            let first = gives(alloc, form, way);
            let again = gives(alloc, form, way);
            expect_of(&rt, but_once(first, again), text_by(form));
        }
    }
    assert!(rt; but_once(gives_byte(alloc), gives_byte(alloc)));
    assert!(rt; but_once(gives_list(alloc), gives_list(alloc)));
}
