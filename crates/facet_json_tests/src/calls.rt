//! Calls in any order, compact and indented.

use crate::byte_texts::BYTES;
use crate::error_samples::is_displayed;
use crate::expecting::expect_of;
use crate::written::{Call, Layout, Row, Scalar, is_text, writes};
use facet_format::FormatSerializer;
use facet_json_serializer::{JsonSerializeError, JsonSerializer};
use std::alloc::Global;
use std::process::Abort;

/// An object of an empty list and another one.
#[rattlefmt::skip]
const MEMBERS: &[Call] = &[
    Call::BeginStruct, Call::Key("a"), Call::BeginSeq, Call::EndSeq, Call::Key("b"), Call::BeginSeq, Call::Number(1), Call::EndSeq, Call::EndStruct,
];

/// A list of structs.
#[rattlefmt::skip]
const NUMBERED: &[Call] = &[
    Call::BeginStruct, Call::Key("List"), Call::BeginSeq,
    Call::BeginStruct, Call::Key("Number"), Call::Number(10), Call::EndStruct,
    Call::BeginStruct, Call::Key("Number"), Call::Number(20), Call::EndStruct,
    Call::BeginStruct, Call::Key("Number"), Call::Number(30), Call::EndStruct,
    Call::EndSeq, Call::EndStruct,
];

#[rattlefmt::skip]
static CALLS: [Row; 30] = [
    // Calls of which some do not fit: these are refused, and change nothing.
    (Layout::Compact, &[Call::BeginSeq, Call::EndStruct, Call::EndSeq], &[0, 2], "[]"),
    (Layout::Compact, &[Call::Key("a"), Call::EndSeq, Call::EndStruct], &[1, 3, 2], ""),
    (Layout::Compact, &[Call::BeginStruct, Call::EndSeq, Call::EndStruct, Call::Key("a")], &[0, 3, 0, 1], "{}"),
    // Values that stand where they are written.
    (Layout::Compact, &[Call::BeginStruct, Call::Number(1), Call::Key("a"), Call::Key("b")], &[], "{1\"a\":,\"b\":"),
    (Layout::Compact, &[Call::BeginStruct, Call::BeginSeq, Call::EndSeq, Call::Key("a")], &[], "{[]\"a\":"),
    (Layout::Compact, &[Call::Number(1), Call::Raw("[ 2]"), Call::Text("x")], &[], "1[ 2]\"x\""),
    // Items and members, and what separates them.
    (Layout::Compact, MEMBERS, &[], "{\"a\":[],\"b\":[1]}"),
    (Layout::Pretty, MEMBERS, &[], "{\n  \"a\": [],\n  \"b\": [\n    1\n  ]\n}"),
    (Layout::Tabs, MEMBERS, &[], "{\n\t\"a\": [],\n\t\"b\": [\n\t\t1\n\t]\n}"),
    (Layout::Pretty, NUMBERED, &[],
        "{\n  \"List\": [\n    {\n      \"Number\": 10\n    },\n    {\n      \"Number\": 20\n    },\n    {\n      \"Number\": 30\n    }\n  ]\n}"),
    // Values of each other kind.
    (Layout::Compact, &[Call::Scalar(Scalar::Null)], &[], "null"),
    (Layout::Compact, &[Call::Scalar(Scalar::Unit)], &[], "null"),
    (Layout::Compact, &[Call::Scalar(Scalar::Bool(true))], &[], "true"),
    (Layout::Compact, &[Call::Scalar(Scalar::Bool(false))], &[], "false"),
    (Layout::Compact, &[Call::Scalar(Scalar::Char('x'))], &[], "\"x\""),
    (Layout::Compact, &[Call::Scalar(Scalar::Char('"'))], &[], "\"\\\"\""),
    (Layout::Compact, &[Call::Scalar(Scalar::I64(-1))], &[], "-1"),
    (Layout::Compact, &[Call::Scalar(Scalar::I64(5))], &[], "5"),
    (Layout::Compact, &[Call::Scalar(Scalar::I128(-9223372036854775809))], &[], "-9223372036854775809"),
    (Layout::Compact, &[Call::Scalar(Scalar::U128(18446744073709551616))], &[], "18446744073709551616"),
    (Layout::Compact, &[Call::Scalar(Scalar::Bytes(&[1, 255]))], &[], "[1,255]"),
    (Layout::Compact, &[Call::Scalar(Scalar::Decimal("5e-05"))], &[], "5e-05"),
    (Layout::Compact, &[Call::Scalar(Scalar::Decimal("0.0"))], &[], "0.0"),
    // Texts between quotes: characters that are escaped, and others, past ASCII too, that stand as they are.
    (Layout::Compact, &[Call::Text("aaaaaaaaaaaaaaa\u{7f}")], &[], "\"aaaaaaaaaaaaaaa\\u007f\""),
    (Layout::Compact, &[Call::Text("中文\n")], &[], "\"中文\\n\""),
    (Layout::Compact, &[Call::Text("aaaaaaaaaaaaaaaé")], &[], "\"aaaaaaaaaaaaaaaé\""),
    (Layout::Compact, &[Call::Text("😀\r\n🎊")], &[], "\"😀\\r\\n🎊\""),
    (Layout::Compact, &[Call::Text("\"\\\n\r\t\u{8}\u{c}")], &[], "\"\\\"\\\\\\n\\r\\t\\b\\f\""),
    (Layout::Compact, &[Call::Text("\u{0}\u{1f}\u{b}/")], &[], "\"\\u0000\\u001f\\u000b/\""),
    (Layout::Compact, &[Call::Text("")], &[], "\"\""),
];

/// Whether a new serializer names its format, and takes an array of a byte in a list.
fn writes_compact(serializer: &mut JsonSerializer<'_>) -> bool {
    serializer.format_namespace() == Some("json")
        && serializer.begin_seq().is_ok()
        && matches!(serializer.serialize_byte_array(&[7]), Ok(true))
        && serializer.end_seq().is_ok()
}

/// Whether a new serializer does so, and gives the text of the calls.
fn gives_compact(alloc: Global) -> bool {
    let mut serializer = JsonSerializer::new(alloc);
    let is_taken = writes_compact(&mut serializer);
    let is_given = is_text(&serializer.finish(), "[[7]]") == Some(true);
    is_taken && is_given
}

/// Refusals, and their texts.
#[rattlefmt::skip]
static REFUSALS: [(JsonSerializeError, &str); 4] = [
    (JsonSerializeError::KeyOutsideStruct, "field_key called outside of a struct"),
    (JsonSerializeError::NoStructToEnd, "end_struct called without matching begin_struct"),
    (JsonSerializeError::NoListToEnd, "end_seq called without matching begin_seq"),
    (JsonSerializeError::OutOfMemory, "out of memory"),
];

/// Fails where a row's calls are not written or refused so.
fn expect_rows(rt: &impl Abort, alloc: Global, rows: &[Row]) {
    for row in rows {
        expect_of(rt, writes(alloc, None, row) == Some(true), row.3);
    }
}

#[test]
fn calls_are_written_or_refused(rt: HostRuntime) {
    let alloc = rt.alloc();
    expect_rows(&rt, alloc, &CALLS);
    expect_rows(&rt, alloc, &BYTES);
    expect_of(&rt, gives_compact(alloc), "[[7]]");
    for (refusal, text) in &REFUSALS {
        let is_displayed = is_displayed(alloc, refusal, *text) == Some(true);
        expect_of(&rt, is_displayed, *text);
    }
}
