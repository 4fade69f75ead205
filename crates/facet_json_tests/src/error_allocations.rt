//! Failed allocations. With ample memory these tests pass as any other does. `checks/allocations` runs them once more for each
//! of their requests for memory, which is refused, and they have to pass in every such run. Each call is made twice, its set-up too: as
//! one request is refused in a run, memory runs out in one of the two at most, and the other gives the whole answer.

use crate::error_samples::{Sample, Scan, is_labelled, made};
use crate::expecting::expect_of;
use crate::twice::but_once;
use facet_format::{DeserializeErrorKind as Kind, Span};
use facet_json_core::{JsonError, JsonErrorKind};
use std::alloc::{AllocError, Global};

/// A kind of each sort, and its label.
#[rattlefmt::skip]
static ROWS: [(Sample, &str); 31] = [
    (Sample::Scan(Scan::Char('x')), "unexpected 'x'"),
    (Sample::Scan(Scan::End("in string")), "unexpected end of input in string"),
    (Sample::Scan(Scan::Utf8), "invalid UTF-8 here"),
    (Sample::ScanIn(Scan::Char('x'), "u32"), "unexpected 'x', expected u32"),
    (Sample::ScanIn(Scan::End("in string"), "u32"), "unexpected end of input, expected u32"),
    (Sample::ScanIn(Scan::Utf8, "u32"), "invalid UTF-8 here"),
    (Sample::Token("]", "value"), "expected value, got ']'"),
    (Sample::Expected("value"), "expected value"),
    (Sample::Mismatch("u32", "string"), "expected u32, got string"),
    (Sample::Unknown("nmae", &["name", "age"], None), "unknown field 'nmae'"),
    (Sample::Unknown("nmae", &["name", "age"], Some("name")), "unknown field 'nmae' - did you mean 'name'?"),
    (Sample::Missing("age"), "missing field 'age'"),
    (Sample::Value("too long"), "invalid value"),
    (Sample::Range("300", "u8"), "out of range for u8"),
    (Sample::Key("a"), "duplicate key 'a'"),
    (Sample::Utf8, "invalid UTF-8"),
    (Sample::Solver("two fit"), "solver error"),
    (Sample::Io("disk full"), "I/O error"),
    (Sample::KeyOutside, "not written"),
    (Sample::OutOfMemory, "out of memory"),
    (Sample::Read(Kind::UnexpectedChar { ch: 'x', expected: "valid JSON token" }), "expected valid JSON token"),
    (Sample::Read(Kind::UnexpectedEof { expected: "value" }), "unexpected end of input, expected value"),
    (Sample::Read(Kind::UnexpectedEof { expected: "in string" }), "unexpected end of input in string"),
    (Sample::Read(Kind::InvalidUtf8), "invalid UTF-8"),
    (Sample::Read(Kind::UnexpectedToken { got: "Comma", expected: "value" }), "expected value, got 'Comma'"),
    (Sample::Read(Kind::InvalidValue { message: "too long" }), "invalid value"),
    (Sample::Read(Kind::TypeMismatch { expected: "u8", got: "string" }), "expected u8, got string"),
    (Sample::Read(Kind::NumberOutOfRange { target_type: "u8" }), "out of range for u8"),
    (Sample::Read(Kind::MissingField { field: "age" }), "missing field 'age'"),
    (Sample::Read(Kind::OutOfMemory), "out of memory"),
    (Sample::Read(Kind::SaveLimit), "too many save points"),
];

/// Whether the kind of the sample has this label, or memory runs out.
fn has_label(alloc: Global, sample: &Sample, label: &str) -> Option<bool> {
    match made(alloc, sample) {
        Ok(kind) => is_labelled(alloc, &kind, label),
        Err(AllocError) => None,
    }
}

/// An error with a source.
fn twice_in(alloc: Global, source: &str) -> Option<JsonError> {
    match made(alloc, &Sample::Key("a")) {
        Ok(kind) => JsonError::new(kind, Span::new(1, 2))
            .with_source(alloc, source)
            .ok(),
        Err(AllocError) => None,
    }
}

/// Whether it is that error, with this source.
fn is_twice_in(error: &JsonError, source: &str) -> bool {
    let is_key = matches!(&error.kind, JsonErrorKind::DuplicateKey { key } if key.as_str() == "a");
    let is_kept = matches!(&error.source_code, Some(kept) if kept.as_str() == source);
    is_key && is_kept && error.span == Some(Span::new(1, 2))
}

/// Whether an error gets another source; or memory runs out, and it comes back as it was.
fn gets_source(alloc: Global) -> Option<bool> {
    match twice_in(alloc, "{}") {
        Some(error) => is_given(&error.with_source(alloc, "[1]")),
        None => None,
    }
}

/// Whether the answer is the error with another source; or memory ran out, and it is as it was.
fn is_given(answer: &Result<JsonError, JsonError>) -> Option<bool> {
    match answer {
        Ok(error) => Some(is_twice_in(error, "[1]")),
        Err(error) if is_twice_in(error, "{}") => None,
        Err(_) => Some(false),
    }
}

#[test]
fn a_growth_is_refused_in_a_label_and_a_source(rt: HostRuntime) {
    let alloc = rt.alloc();
    for (sample, label) in &ROWS {
        let first = has_label(alloc, sample, *label);
        let again = has_label(alloc, sample, *label);
        expect_of(&rt, but_once(first, again), *label);
    }
    assert!(rt; but_once(gets_source(alloc), gets_source(alloc)));
}
