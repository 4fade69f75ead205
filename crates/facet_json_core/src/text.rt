//! Messages: how kinds and errors are displayed.

ghost use Rattle.std.specs.Prelude.{◌≡◌, map, Some};
ghost use Rattle.std.specs.Fmt.{◌++?◌, DisplaysOnOk};
ghost use Rattle.facet_json_core.specs.ErrorKind.{suggestion_text, error_text, unknown_text};
ghost use Rattle.facet_json_core.specs.ErrorViews.{error_kind_of};

use crate::error::JsonError;
use crate::kind::JsonErrorKind;
use facet_format::message::{write_message, write_named, write_pair, write_quoted};
use std::fmt;

/// The message: a line for a person, without its line feed.
impl fmt::Display for JsonErrorKind {
    ghost output = { λ kind. error_text (error_kind_of kind) };

    fn fmt<W: fmt::Write>(&self, f: &mut fmt::Formatter<W>) -> fmt::Result {
        match self {
            JsonErrorKind::Scan(error) => write!(f, "{error:?}"),
            JsonErrorKind::ScanWithContext {
                error,
                expected_type,
            } => write!(f, "{error:?} (while parsing {expected_type})"),
            JsonErrorKind::UnexpectedToken { got, expected } => {
                write_pair(f, "unexpected token: got ", got, ", expected ", expected)
            }
            JsonErrorKind::UnexpectedEof { expected } => {
                write_named(f, "unexpected end of input, expected ", expected)
            }
            JsonErrorKind::TypeMismatch { expected, got } => {
                write_pair(f, "type mismatch: expected ", expected, ", got ", got)
            }
            JsonErrorKind::UnknownField {
                field,
                expected,
                suggestion: None,
            } => write_unknown_field(f, field, expected),
            JsonErrorKind::UnknownField {
                field,
                expected,
                suggestion: Some(name),
            } => write_suggestion(f, field, expected, name),
            JsonErrorKind::MissingField { field, .. } => {
                write_quoted(f, "missing required field `", field)
            }
            JsonErrorKind::InvalidValue { message } => write_named(f, "invalid value: ", message),
            JsonErrorKind::NumberOutOfRange { value, target_type } => {
                write_pair(f, "number `", value, "` out of range for ", target_type)
            }
            JsonErrorKind::DuplicateKey { key } => write_quoted(f, "duplicate key `", key),
            JsonErrorKind::InvalidUtf8 => f.write_str("invalid UTF-8 sequence"),
            JsonErrorKind::Solver(message) => write_named(f, "solver error: ", message),
            JsonErrorKind::Io(message) => write_named(f, "I/O error: ", message),
            JsonErrorKind::Read(refused) => write_message(f, refused),
            JsonErrorKind::Write(refused) => write!(f, "{refused}"),
            JsonErrorKind::OutOfMemory => f.write_str("out of memory"),
        }
    }
}

/// The message of a field that the type does not have, with the fields that it has.
fn write_unknown_field<W: fmt::Write>(
    f: &mut fmt::Formatter<W>,
    field: &str,
    expected: &[&'static str],
) -> fmt::Result
    ensures { DisplaysOnOk W.write_str_gives f.old result (unknown_text field.now (map (λ t. t.now) expected.now)) f.new }
{
    write!(f, "unknown field `{field}`, expected one of: {expected:?}")
}

/// The message of a field that the type does not have, with the fields that it has and the one that may be meant.
fn write_suggestion<W: fmt::Write>(
    f: &mut fmt::Formatter<W>,
    field: &str,
    expected: &[&'static str],
    name: &str,
) -> fmt::Result
    ensures { DisplaysOnOk W.write_str_gives f.old result
        (unknown_text field.now (map (λ t. t.now) expected.now) ++? Some (suggestion_text name.now)) f.new }
{
    write!(
        f,
        "unknown field `{field}`, expected one of: {expected:?} (did you mean `{name}`?)"
    )
}

/// The message of its kind.
impl fmt::Display for JsonError {
    ghost output = { λ error. error_text (error_kind_of error.kind) };

    fn fmt<W: fmt::Write>(&self, f: &mut fmt::Formatter<W>) -> fmt::Result {
        fmt::Display::fmt(&self.kind, f)
    }
}

impl std::error::Error for JsonErrorKind {}

impl std::error::Error for JsonError {}
