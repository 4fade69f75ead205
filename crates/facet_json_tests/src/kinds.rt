//! Kinds: their name, their message and their label, and reports of them.

use crate::error_samples::{Row, Sample, Scan, holds};
use crate::expecting::expect_of;
use crate::own::OWN;
use crate::past_ascii::PAST_ASCII;
use std::alloc::Global;
use std::process::Abort;

#[rattlefmt::skip]
static ROWS: [Row; 21] = [
    // Scans.
    (Sample::Scan(Scan::Char('x')), "json::scan", "UnexpectedChar('x')", "unexpected 'x'"),
    (Sample::Scan(Scan::Char('é')), "json::scan", "UnexpectedChar('é')", "unexpected 'é'"),
    (Sample::Scan(Scan::Char('\'')), "json::scan", "UnexpectedChar('\\'')", "unexpected '''"),
    (Sample::Scan(Scan::End("in string")), "json::scan", "UnexpectedEof(\"in string\")", "unexpected end of input in string"),
    (Sample::Scan(Scan::Utf8), "json::scan", "InvalidUtf8", "invalid UTF-8 here"),
    // Scans while a type is read.
    (Sample::ScanIn(Scan::Char('x'), "u32"), "json::scan", "UnexpectedChar('x') (while parsing u32)", "unexpected 'x', expected u32"),
    (Sample::ScanIn(Scan::End("in string"), "u32"), "json::scan", "UnexpectedEof(\"in string\") (while parsing u32)",
        "unexpected end of input, expected u32"),
    (Sample::ScanIn(Scan::Utf8, "u32"), "json::scan", "InvalidUtf8 (while parsing u32)", "invalid UTF-8 here"),
    // Tokens and types.
    (Sample::Token("]", "value"), "json::unexpected_token", "unexpected token: got ], expected value", "expected value, got ']'"),
    (Sample::Expected("value"), "json::unexpected_eof", "unexpected end of input, expected value", "expected value"),
    (Sample::Mismatch("u32", "string"), "json::type_mismatch", "type mismatch: expected u32, got string", "expected u32, got string"),
    // Fields.
    (Sample::Unknown("nme", &["name", "age"], None), "json::unknown_field", "unknown field `nme`, expected one of: [\"name\", \"age\"]",
        "unknown field 'nme'"),
    (Sample::Unknown("nme", &["name", "age"], Some("name")), "json::unknown_field",
        "unknown field `nme`, expected one of: [\"name\", \"age\"] (did you mean `name`?)", "unknown field 'nme' - did you mean 'name'?"),
    (Sample::Missing("age"), "json::missing_field", "missing required field `age`", "missing field 'age'"),
    // Values.
    (Sample::Value("too long"), "json::invalid_value", "invalid value: too long", "invalid value"),
    (Sample::Range("300", "u8"), "json::number_out_of_range", "number `300` out of range for u8", "out of range for u8"),
    (Sample::Key("a"), "json::duplicate_key", "duplicate key `a`", "duplicate key 'a'"),
    (Sample::Key("名"), "json::duplicate_key", "duplicate key `名`", "duplicate key '名'"),
    (Sample::Utf8, "json::invalid_utf8", "invalid UTF-8 sequence", "invalid UTF-8"),
    // Tools.
    (Sample::Solver("two fit"), "json::solver", "solver error: two fit", "solver error"),
    (Sample::Io("disk full"), "json::io", "I/O error: disk full", "I/O error"),
];

/// Fails where a row's kind is not told and shown so.
fn expect_rows(rt: &impl Abort, alloc: Global, rows: &[Row]) {
    for row in rows {
        expect_of(rt, holds(alloc, row), row.2);
    }
}

#[test]
fn each_kind_is_told_and_shown(rt: HostRuntime) {
    let alloc = rt.alloc();
    expect_rows(&rt, alloc, &ROWS);
    expect_rows(&rt, alloc, &OWN);
    expect_rows(&rt, alloc, &PAST_ASCII);
}
