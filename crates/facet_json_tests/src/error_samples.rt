//! Kinds of errors that the tests look at, and what they look at.

use facet_format::{DeserializeErrorKind, Span};
use facet_json_core::{JsonError, JsonErrorKind, Report};
use facet_json_serializer::JsonSerializeError;
use facet_json_token::ScanErrorKind;
use std::alloc::{AllocError, Global};
use std::fmt::Display;

/// What is wrong where no token stands.
pub enum Scan {
    Char(char),
    End(&'static str),
    Utf8,
}

/// A kind, by what it holds.
pub enum Sample {
    Scan(Scan),
    ScanIn(Scan, &'static str),
    Token(&'static str, &'static str),
    Expected(&'static str),
    Mismatch(&'static str, &'static str),
    Unknown(&'static str, &'static [&'static str], Option<&'static str>),
    Missing(&'static str),
    Value(&'static str),
    Range(&'static str, &'static str),
    Key(&'static str),
    Utf8,
    Solver(&'static str),
    Io(&'static str),
    Read(DeserializeErrorKind<'static>),
    KeyOutside,
    NoStruct,
    NoList,
    NotWritten,
    OutOfMemory,
}

/// A kind, its name, its message and its label.
pub type Row = (Sample, &'static str, &'static str, &'static str);

/// The kind of what is wrong there.
fn scan_error(scan: &Scan) -> ScanErrorKind {
    match scan {
        Scan::Char(character) => ScanErrorKind::UnexpectedChar(*character),
        Scan::End(place) => ScanErrorKind::UnexpectedEof(*place),
        Scan::Utf8 => ScanErrorKind::InvalidUtf8,
    }
}

/// The kind of the sample, where it holds no text of its own.
fn alone(sample: &Sample) -> JsonErrorKind {
    match sample {
        Sample::Scan(scan) => JsonErrorKind::Scan(scan_error(scan)),
        Sample::ScanIn(scan, expected_type) => JsonErrorKind::ScanWithContext {
            error: scan_error(scan),
            expected_type: *expected_type,
        },
        Sample::Expected(expected) => JsonErrorKind::UnexpectedEof {
            expected: *expected,
        },
        Sample::Mismatch(expected, got) => JsonErrorKind::TypeMismatch {
            expected: *expected,
            got: *got,
        },
        Sample::Missing(field) => JsonErrorKind::MissingField {
            field: *field,
            object_start: None,
            object_end: None,
        },
        Sample::Utf8 => JsonErrorKind::InvalidUtf8,
        Sample::Read(refusal) => JsonErrorKind::Read(*refusal),
        Sample::KeyOutside => JsonErrorKind::Write(JsonSerializeError::KeyOutsideStruct),
        Sample::NoStruct => JsonErrorKind::Write(JsonSerializeError::NoStructToEnd),
        Sample::NoList => JsonErrorKind::Write(JsonSerializeError::NoListToEnd),
        Sample::NotWritten => JsonErrorKind::Write(JsonSerializeError::OutOfMemory),
        _ => JsonErrorKind::OutOfMemory,
    }
}

/// The kind of a sample that holds this text.
fn with_text(sample: &Sample, text: String) -> JsonErrorKind {
    match sample {
        Sample::Token(_, expected) => JsonErrorKind::UnexpectedToken {
            got: text,
            expected: *expected,
        },
        Sample::Value(_) => JsonErrorKind::InvalidValue { message: text },
        Sample::Range(_, target_type) => JsonErrorKind::NumberOutOfRange {
            value: text,
            target_type: *target_type,
        },
        Sample::Key(_) => JsonErrorKind::DuplicateKey { key: text },
        Sample::Solver(_) => JsonErrorKind::Solver(text),
        _ => JsonErrorKind::Io(text),
    }
}

/// A field that the type does not have, which has those of these names.
fn unknown(
    alloc: Global,
    field: &str,
    names: &[&'static str],
    suggestion: Option<&'static str>,
) -> Result<JsonErrorKind, AllocError> {
    Ok(JsonErrorKind::UnknownField {
        field: String::from_str(alloc, field)?,
        expected: Vec::from_slice(alloc, names)?,
        suggestion,
    })
}

/// The kind of the sample.
pub fn made(alloc: Global, sample: &Sample) -> Result<JsonErrorKind, AllocError> {
    match sample {
        Sample::Unknown(field, names, suggestion) => unknown(alloc, *field, *names, *suggestion),
        Sample::Token(text, _)
        | Sample::Value(text)
        | Sample::Range(text, _)
        | Sample::Key(text)
        | Sample::Solver(text)
        | Sample::Io(text) => Ok(with_text(sample, String::from_str(alloc, *text)?)),
        _ => Ok(alone(sample)),
    }
}

/// Whether the value is displayed so, or memory runs out.
pub fn is_displayed<T: Display>(alloc: Global, value: &T, text: &str) -> Option<bool> {
    match format!(in alloc; "{value}") {
        Ok(shown) => Some(shown.as_str() == text),
        Err(_) => None,
    }
}

/// Whether the kind has this label, or memory runs out.
pub fn is_labelled(alloc: Global, kind: &JsonErrorKind, label: &str) -> Option<bool> {
    match kind.label(alloc) {
        Ok(said) => Some(said.as_str() == label),
        Err(AllocError) => None,
    }
}

/// Whether the error is reported so.
pub fn is_reported(alloc: Global, error: &JsonError, source: &str, text: &str) -> bool {
    is_displayed(alloc, &Report { error, source }, text) == Some(true)
}

/// Whether the error is reported with this message, at the second of three bytes.
fn is_reported_there(alloc: Global, error: &JsonError, message: &str) -> bool {
    match format!(in alloc; "{message} at line 1, column 2\n[x]\n ^") {
        Ok(text) => is_reported(alloc, error, "[x]", text.as_str()),
        Err(_) => false,
    }
}

/// Whether the error's kind has the row's name, message and label, and the error is reported.
fn is_told(alloc: Global, error: &JsonError, row: &Row) -> bool {
    error.kind.code() == row.1
        && is_displayed(alloc, &error.kind, row.2) == Some(true)
        && is_labelled(alloc, &error.kind, row.3) == Some(true)
        && is_reported_there(alloc, error, row.2)
}

/// Whether an error of the row's kind is told so.
pub fn holds(alloc: Global, row: &Row) -> bool {
    match made(alloc, &row.0) {
        Ok(kind) => is_told(alloc, &JsonError::new(kind, Span::new(1, 1)), row),
        Err(AllocError) => false,
    }
}
