//! The kinds of this library's own: what its reader's and its writer's refusals become, and out of memory.

use crate::error_samples::{Row, Sample};
use facet_format::DeserializeErrorKind as Kind;

#[rattlefmt::skip]
pub static OWN: [Row; 22] = [
    // Refusals of readers.
    (Sample::Read(Kind::InvalidUtf8), "json::invalid_utf8", "invalid UTF-8 sequence", "invalid UTF-8"),
    (Sample::Read(Kind::UnexpectedChar { ch: 'x', expected: "valid JSON token" }), "json::scan",
        "unexpected character 'x', expected valid JSON token", "expected valid JSON token"),
    (Sample::Read(Kind::UnexpectedChar { ch: '\'', expected: "valid JSON token" }), "json::scan",
        "unexpected character '\\'', expected valid JSON token", "expected valid JSON token"),
    (Sample::Read(Kind::UnexpectedChar { ch: '名', expected: "größe" }), "json::scan", "unexpected character '名', expected größe", "expected größe"),
    (Sample::Read(Kind::UnexpectedEof { expected: "value" }), "json::unexpected_eof", "unexpected end of input, expected value",
        "unexpected end of input, expected value"),
    (Sample::Read(Kind::UnexpectedEof { expected: "in string" }), "json::unexpected_eof", "unexpected end of input in string",
        "unexpected end of input in string"),
    (Sample::Read(Kind::UnexpectedEof { expected: "in größe" }), "json::unexpected_eof", "unexpected end of input in größe",
        "unexpected end of input in größe"),
    (Sample::Read(Kind::UnexpectedToken { got: "ArrayEnd", expected: "value" }), "json::unexpected_token",
        "unexpected token: got ArrayEnd, expected value", "expected value, got 'ArrayEnd'"),
    (Sample::Read(Kind::UnexpectedToken { got: "名", expected: "größe" }), "json::unexpected_token", "unexpected token: got 名, expected größe",
        "expected größe, got '名'"),
    (Sample::Read(Kind::InvalidValue { message: "nested too deeply" }), "json::invalid_value", "invalid value: nested too deeply", "invalid value"),
    (Sample::Read(Kind::InvalidValue { message: "größe 😀" }), "json::invalid_value", "invalid value: größe 😀", "invalid value"),
    (Sample::Read(Kind::TypeMismatch { expected: "u8", got: "string" }), "json::type_mismatch", "type mismatch: expected u8, got string",
        "expected u8, got string"),
    (Sample::Read(Kind::NumberOutOfRange { target_type: "u8" }), "json::number_out_of_range", "number out of range for u8", "out of range for u8"),
    (Sample::Read(Kind::MissingField { field: "age" }), "json::missing_field", "missing required field `age`", "missing field 'age'"),
    (Sample::Read(Kind::MissingField { field: "größe" }), "json::missing_field", "missing required field `größe`", "missing field 'größe'"),
    (Sample::Read(Kind::OutOfMemory), "json::out_of_memory", "out of memory", "out of memory"),
    (Sample::Read(Kind::SaveLimit), "json::save_limit", "too many save points", "too many save points"),
    // Refusals of writers, and out of memory.
    (Sample::KeyOutside, "json::write", "field_key called outside of a struct", "not written"),
    (Sample::NoStruct, "json::write", "end_struct called without matching begin_struct", "not written"),
    (Sample::NoList, "json::write", "end_seq called without matching begin_seq", "not written"),
    (Sample::NotWritten, "json::out_of_memory", "out of memory", "out of memory"),
    (Sample::OutOfMemory, "json::out_of_memory", "out of memory", "out of memory"),
];
