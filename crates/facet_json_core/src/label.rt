//! What is said beside the bytes that an error is about.

ghost use Rattle.std.specs.Prelude.{◌≡◌, ◌++◌, IfOk, string_bytes, codes};
ghost use Rattle.facet_format.specs.Views.{complaint_of};
ghost use Rattle.facet_json_serializer.specs.Views.{write_refusal_of};
ghost use Rattle.facet_json_core.specs.ErrorKind.{label, read_label, scan, scan_with_context, write};
ghost use Rattle.facet_json_core.specs.ErrorViews.{error_kind_of, scan_of};

use crate::kind::JsonErrorKind;
use facet_format::DeserializeErrorKind;
use facet_format::message::tells_where;
use facet_json_serializer::JsonSerializeError;
use facet_json_token::ScanErrorKind;
use std::alloc::{AllocError, Global};

impl JsonErrorKind {
    /// What is said beside the bytes that the error is about, where a report points at them: shorter than the message, which
    /// stands above. Refused only where there is no memory for it.
    ///
    /// ```text
    /// JsonErrorKind::TypeMismatch { expected: "u8", got: "string" }.label(alloc)?     "expected u8, got string"
    /// ```
    pub fn label(&self, alloc: Global) -> Result<String, AllocError>
        ensures { IfOk result (λ text. string_bytes text ≡ label (error_kind_of self.now)) }
    {
        match self {
            JsonErrorKind::Scan(error) => scan_label(alloc, error),
            JsonErrorKind::ScanWithContext {
                error,
                expected_type,
            } => context_label(alloc, error, expected_type),
            JsonErrorKind::UnexpectedToken { got, expected } => other_token(alloc, expected, got),
            JsonErrorKind::UnexpectedEof { expected } => named(alloc, "expected ", expected),
            JsonErrorKind::TypeMismatch { expected, got } => other_type(alloc, expected, got),
            JsonErrorKind::UnknownField {
                field,
                suggestion: None,
                ..
            } => quoted(alloc, "unknown field '", field),
            JsonErrorKind::UnknownField {
                field,
                suggestion: Some(name),
                ..
            } => format!(in alloc; "unknown field '{field}' - did you mean '{name}'?"),
            JsonErrorKind::MissingField { field, .. } => quoted(alloc, "missing field '", field),
            JsonErrorKind::InvalidValue { .. } => String::from_str(alloc, "invalid value"),
            JsonErrorKind::NumberOutOfRange { target_type, .. } => {
                named(alloc, "out of range for ", target_type)
            }
            JsonErrorKind::DuplicateKey { key } => quoted(alloc, "duplicate key '", key),
            JsonErrorKind::InvalidUtf8 => String::from_str(alloc, "invalid UTF-8"),
            JsonErrorKind::Solver(_) => String::from_str(alloc, "solver error"),
            JsonErrorKind::Io(_) => String::from_str(alloc, "I/O error"),
            JsonErrorKind::Read(refused) => label_of_read(alloc, refused),
            JsonErrorKind::Write(refused) => label_of_write(alloc, refused),
            JsonErrorKind::OutOfMemory => String::from_str(alloc, "out of memory"),
        }
    }
}

/// What is said, and of what.
fn named(alloc: Global, said: &str, of: &str) -> Result<String, AllocError>
    ensures { IfOk result (λ text. string_bytes text ≡ said.now ++ of.now) }
{
    format!(in alloc; "{said}{of}")
}

/// What is said, and of which name, with a quote behind it.
fn quoted(alloc: Global, said: &str, name: &str) -> Result<String, AllocError>
    ensures { IfOk result (λ text. string_bytes text ≡ said.now ++ name.now ++ codes "'") }
{
    format!(in alloc; "{said}{name}'")
}

/// That another token stands there.
fn other_token(alloc: Global, expected: &str, got: &str) -> Result<String, AllocError>
    ensures { IfOk result (λ text. string_bytes text
        ≡ codes "expected " ++ expected.now ++ (codes ", got '" ++ got.now ++ codes "'")) }
{
    format!(in alloc; "expected {expected}, got '{got}'")
}

/// That a value of another type stands there.
fn other_type(alloc: Global, expected: &str, got: &str) -> Result<String, AllocError>
    ensures { IfOk result (λ text. string_bytes text ≡ codes "expected " ++ expected.now ++ (codes ", got " ++ got.now)) }
{
    format!(in alloc; "expected {expected}, got {got}")
}

/// The label of what is wrong where no token stands.
fn scan_label(alloc: Global, error: &ScanErrorKind) -> Result<String, AllocError>
    ensures { IfOk result (λ text. string_bytes text ≡ label (scan (scan_of error.now))) }
{
    match error {
        ScanErrorKind::UnexpectedChar(character) => {
            format!(in alloc; "unexpected '{character}'")
        }
        ScanErrorKind::UnexpectedEof(place) => { named(alloc, "unexpected end of input ", place) }
        ScanErrorKind::InvalidUtf8 => String::from_str(alloc, "invalid UTF-8 here"),
    }
}

/// The label of what is wrong where no token stands, while a value of this type is read.
fn context_label(
    alloc: Global,
    error: &ScanErrorKind,
    expected_type: &str,
) -> Result<String, AllocError>
    ensures { IfOk result (λ text. string_bytes text
        ≡ label (scan_with_context (scan_of error.now) expected_type.now)) }
{
    match error {
        ScanErrorKind::UnexpectedChar(character) => {
            format!(in alloc; "unexpected '{character}', expected {expected_type}")
        }
        ScanErrorKind::UnexpectedEof(_) => {
            named(alloc, "unexpected end of input, expected ", expected_type)
        }
        ScanErrorKind::InvalidUtf8 => String::from_str(alloc, "invalid UTF-8 here"),
    }
}

/// The label of a reader's refusal.
fn label_of_read(
    alloc: Global,
    refused: &DeserializeErrorKind<'static>,
) -> Result<String, AllocError>
    ensures { IfOk result (λ text. string_bytes text ≡ read_label (complaint_of refused.now)) }
{
    match refused {
        DeserializeErrorKind::UnexpectedChar { expected, .. } => {
            named(alloc, "expected ", expected)
        }
        DeserializeErrorKind::UnexpectedEof { expected } => {
            if tells_where(expected) {
                named(alloc, "unexpected end of input ", expected)
            } else {
                named(alloc, "unexpected end of input, expected ", expected)
            }
        }
        DeserializeErrorKind::UnexpectedToken { got, expected } => {
            other_token(alloc, expected, got)
        }
        DeserializeErrorKind::InvalidUtf8 => String::from_str(alloc, "invalid UTF-8"),
        DeserializeErrorKind::InvalidValue { .. } => String::from_str(alloc, "invalid value"),
        DeserializeErrorKind::TypeMismatch { expected, got } => { other_type(alloc, expected, got) }
        DeserializeErrorKind::NumberOutOfRange { target_type } => {
            named(alloc, "out of range for ", target_type)
        }
        DeserializeErrorKind::MissingField { field } => { quoted(alloc, "missing field '", field) }
        DeserializeErrorKind::OutOfMemory => String::from_str(alloc, "out of memory"),
        DeserializeErrorKind::SaveLimit => String::from_str(alloc, "too many save points"),
    }
}

/// The label of a writer's refusal.
fn label_of_write(alloc: Global, refused: &JsonSerializeError) -> Result<String, AllocError>
    ensures { IfOk result (λ text. string_bytes text ≡ label (write (write_refusal_of refused.now))) }
{
    match refused {
        JsonSerializeError::OutOfMemory => String::from_str(alloc, "out of memory"),
        JsonSerializeError::KeyOutsideStruct
        | JsonSerializeError::NoStructToEnd
        | JsonSerializeError::NoListToEnd => String::from_str(alloc, "not written"),
    }
}
