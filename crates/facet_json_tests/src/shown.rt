//! Reports of each kind of refusal, at each sort of place; lines and columns, and errors that keep their source.

use crate::error_samples::is_reported;
use crate::expecting::expect_of;
use facet_format::{DeserializeError, DeserializeErrorKind as Kind, Span};
use facet_json_core::{JsonError, JsonErrorKind, Position, position_at};
use facet_json_serializer::JsonSerializeError;
use std::alloc::Global;

/// A reader's refusal, or none where the kind is that of bytes that are no text; where it is, its source, and how it is shown.
struct Row {
    kind: Option<Kind<'static>>,
    span: Option<(usize, usize)>,
    source: &'static str,
    shown: &'static str,
}

/// The error of the row.
fn error_of(row: &Row) -> JsonError {
    let kind = match row.kind {
        Some(kind) => JsonErrorKind::Read(kind),
        None => JsonErrorKind::InvalidUtf8,
    };
    match row.span {
        Some((offset, len)) => JsonError::new(kind, Span::new(offset, len)),
        None => JsonError::without_span(kind),
    }
}

#[rattlefmt::skip]
static ROWS: [Row; 21] = [
    // An empty source, whose end is its start.
    Row { kind: Some(Kind::UnexpectedEof { expected: "value" }), span: Some((0, 0)), source: "",
        shown: "unexpected end of input, expected value at line 1, column 1\n\n^" },
    // The start.
    Row { kind: Some(Kind::UnexpectedChar { ch: 'x', expected: "valid JSON token" }), span: Some((0, 1)), source: "x",
        shown: "unexpected character 'x', expected valid JSON token at line 1, column 1\nx\n^" },
    // The middle.
    Row { kind: Some(Kind::UnexpectedToken { got: "U64", expected: "',' or ']'" }), span: Some((3, 1)), source: "[1 2]",
        shown: "unexpected token: got U64, expected ',' or ']' at line 1, column 4\n[1 2]\n   ^" },
    // The end, on the line of the last token and on one after it.
    Row { kind: Some(Kind::UnexpectedEof { expected: "value or ']'" }), span: Some((3, 0)), source: "[1,",
        shown: "unexpected end of input, expected value or ']' at line 1, column 4\n[1,\n   ^" },
    Row { kind: Some(Kind::UnexpectedEof { expected: "value or ']'" }), span: Some((4, 0)), source: "[1,\n",
        shown: "unexpected end of input, expected value or ']' at line 2, column 1\n\n^" },
    Row { kind: Some(Kind::UnexpectedEof { expected: "in string" }), span: Some((4, 2)), source: "[\n  \"a",
        shown: "unexpected end of input in string at line 2, column 3\n  \"a\n  ^^" },
    // Wide characters before and within what is meant.
    Row { kind: Some(Kind::TypeMismatch { expected: "u8", got: "string" }), span: Some((8, 5)), source: "{\"名\": \"né\"}",
        shown: "type mismatch: expected u8, got string at line 1, column 7\n{\"名\": \"né\"}\n      ^^^^" },
    Row { kind: Some(Kind::InvalidUtf8), span: Some((6, 4)), source: "[\"é\"😀]",
        shown: "invalid UTF-8 sequence at line 1, column 6\n[\"é\"😀]\n     ^" },
    // Tabs.
    Row { kind: Some(Kind::NumberOutOfRange { target_type: "u8" }), span: Some((8, 3)), source: "\t{\t\"a\":\t300}",
        shown: "number out of range for u8 at line 1, column 9\n\t{\t\"a\":\t300}\n\t \t    \t^^^" },
    // A carriage return before a line feed is a character of its line, and the line feed is none.
    Row { kind: Some(Kind::UnexpectedChar { ch: '\r', expected: "valid JSON token" }), span: Some((15, 1)), source: "{\r\n  \"age\": tru\r\n}",
        shown: "unexpected character '\\r', expected valid JSON token at line 2, column 13\n  \"age\": tru\r\n            ^" },
    Row { kind: Some(Kind::MissingField { field: "age" }), span: Some((17, 1)), source: "{\r\n  \"age\": tru\r\n}",
        shown: "missing required field `age` at line 3, column 1\n}\n^" },
    // A line feed stands at the end of its line.
    Row { kind: Some(Kind::UnexpectedChar { ch: '\n', expected: "valid JSON token" }), span: Some((4, 1)), source: "[tru\n]",
        shown: "unexpected character '\\n', expected valid JSON token at line 1, column 5\n[tru\n    ^" },
    // Bytes of several lines are marked on the first one.
    Row { kind: Some(Kind::InvalidValue { message: "not taken" }), span: Some((3, 9)), source: "[1,[2,\n 3],\n 4]",
        shown: "invalid value: not taken at line 1, column 4\n[1,[2,\n   ^^^" },
    // Past the end: where it begins there, and where it ends there.
    Row { kind: Some(Kind::SaveLimit), span: Some((9, 3)), source: "[1", shown: "too many save points at line 1, column 3\n[1\n  ^" },
    Row { kind: Some(Kind::OutOfMemory), span: Some((1, 18_446_744_073_709_551_615)), source: "[1]",
        shown: "out of memory at line 1, column 2\n[1]\n ^^" },
    Row { kind: Some(Kind::SaveLimit), span: Some((18_446_744_073_709_551_615, 18_446_744_073_709_551_615)), source: "a\nb\n",
        shown: "too many save points at line 3, column 1\n\n^" },
    // Within a character, which counts as the one after it.
    Row { kind: Some(Kind::InvalidUtf8), span: Some((1, 2)), source: "é]", shown: "invalid UTF-8 sequence at line 1, column 2\né]\n ^" },
    // No place.
    Row { kind: Some(Kind::OutOfMemory), span: None, source: "[1]", shown: "out of memory" },
    Row { kind: Some(Kind::MissingField { field: "größe" }), span: None, source: "", shown: "missing required field `größe`" },
    // A kind that is no reader's.
    Row { kind: None, span: None, source: SOURCE, shown: "invalid UTF-8 sequence" },
    Row { kind: None, span: Some((3, 0)), source: "é\t", shown: "invalid UTF-8 sequence at line 1, column 3\né\t\n \t^" },
];

/// Whether the row is reported as it says.
fn holds(alloc: Global, row: &Row) -> bool {
    is_reported(alloc, &error_of(row), row.source, row.shown)
}

const SOURCE: &str = "{\n  \"age\": \"x\"\n}";

/// A text where a `u32` is asked for.
const MISMATCH: DeserializeError<'static> = DeserializeError {
    kind: Kind::TypeMismatch {
        expected: "u32",
        got: "string",
    },
    span: Some(Span { offset: 11, len: 3 }),
};

/// How that is reported.
const MISMATCHED: &str =
    "type mismatch: expected u32, got string at line 2, column 10\n  \"age\": \"x\"\n         ^^^";

/// Whether the error keeps the source, and its span, and is reported.
fn has_source(alloc: Global, error: &JsonError) -> bool {
    let is_kept = matches!(&error.source_code, Some(source) if source.as_str() == SOURCE);
    is_kept && error.span == Some(Span::new(11, 3)) && is_reported(alloc, error, SOURCE, MISMATCHED)
}

/// Whether that error is reported, and given the source.
fn gets_source(alloc: Global, error: JsonError) -> bool {
    let is_shown = is_reported(alloc, &error, SOURCE, MISMATCHED);
    let (Ok(given) | Err(given)) = error.with_source(alloc, SOURCE);
    is_shown && has_source(alloc, &given)
}

/// Whether a writer's refusal is reported.
fn is_written_error_reported(alloc: Global) -> bool {
    let error = JsonError::from(JsonSerializeError::NoListToEnd);
    is_reported(
        alloc,
        &error,
        "[1]",
        "end_seq called without matching begin_seq",
    )
}

/// Texts, offsets, and the lines and columns of these.
static PLACES: [(&[u8], usize, Position); 3] = [
    (b"[1,\n x]", 5, Position { line: 2, column: 2 }),
    (b"", 0, Position { line: 1, column: 1 }),
    (b"a\r\nb", 9, Position { line: 2, column: 2 }),
];

#[test]
fn refusals_are_reported(rt: HostRuntime) {
    let alloc = rt.alloc();
    for row in &ROWS {
        expect_of(&rt, holds(alloc, row), row.shown);
    }
    for (text, offset, place) in &PLACES {
        assert!(rt; position_at(*text, *offset) == *place);
    }
    assert!(rt; is_written_error_reported(alloc));
    assert!(rt; gets_source(alloc, JsonError::from(MISMATCH)));
}
