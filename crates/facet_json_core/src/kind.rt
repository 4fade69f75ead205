//! The kinds of errors, and their names for programs.

ghost use Rattle.std.specs.Prelude.{◌≡◌};
ghost use Rattle.facet_format.specs.Views.{complaint_of};
ghost use Rattle.facet_json_serializer.specs.Views.{write_refusal_of};
ghost use Rattle.facet_json_core.specs.ErrorKind.{kind_code, read_code, write};
ghost use Rattle.facet_json_core.specs.ErrorViews.{error_kind_of};

use facet_format::{DeserializeErrorKind, Span};
use facet_json_serializer::JsonSerializeError;
use facet_json_token::ScanErrorKind;

/// What an error is. Displayed, it is a message of one line for a person.
///
/// `Read`, `Write` and `OutOfMemory` are what this library's own refusals become. The others are for readers written by hand, and
/// for tools around the library.
#[derive(Debug, Drop)]
pub enum JsonErrorKind {
    /// No token stands there.
    Scan(ScanErrorKind),
    /// No token stands there, while a value of this type is read.
    ScanWithContext {
        /// What is wrong there.
        error: ScanErrorKind,
        /// The type that is read.
        expected_type: &'static str,
    },
    /// A token with which no document goes on.
    UnexpectedToken {
        /// What stands there.
        got: String,
        /// What is expected.
        expected: &'static str,
    },
    /// The input ends.
    UnexpectedEof {
        /// What is expected.
        expected: &'static str,
    },
    /// A value of another type.
    TypeMismatch {
        /// The type that is asked for.
        expected: &'static str,
        /// What stands there.
        got: &'static str,
    },
    /// A field that the type does not have.
    UnknownField {
        /// Its name.
        field: String,
        /// The fields that the type has.
        expected: Vec<&'static str>,
        /// Which of them may be meant.
        suggestion: Option<&'static str>,
    },
    /// A field that has no value.
    MissingField {
        /// Its name.
        field: &'static str,
        /// Where the object starts.
        object_start: Option<Span>,
        /// Where it ends.
        object_end: Option<Span>,
    },
    /// A value that is not taken.
    InvalidValue {
        /// Why it isn't.
        message: String,
    },
    /// A number that the type cannot hold.
    NumberOutOfRange {
        /// The number.
        value: String,
        /// The type.
        target_type: &'static str,
    },
    /// A key that an object has twice.
    DuplicateKey {
        /// The key.
        key: String,
    },
    /// Text that is not UTF-8.
    InvalidUtf8,
    /// Which of several types is meant is not known.
    Solver(String),
    /// A read or a write failed.
    Io(String),
    /// How this library's reader refused.
    Read(DeserializeErrorKind<'static>),
    /// How this library's writer refused.
    Write(JsonSerializeError),
    /// An allocation failed.
    OutOfMemory,
}

impl JsonErrorKind {
    /// The name of the kind for programs, such as `json::type_mismatch`, which does not change from release to release. A reader's
    /// refusal has the name of the kind that says the same, and every failed allocation `json::out_of_memory`.
    ///
    /// ```text
    /// JsonErrorKind::InvalidUtf8.code()     "json::invalid_utf8"
    /// ```
    pub fn code(&self) -> &'static str
        ensures { result.now ≡ kind_code (error_kind_of self.now) }
    {
        match self {
            JsonErrorKind::Scan(_) | JsonErrorKind::ScanWithContext { .. } => "json::scan",
            JsonErrorKind::UnexpectedToken { .. } => "json::unexpected_token",
            JsonErrorKind::UnexpectedEof { .. } => "json::unexpected_eof",
            JsonErrorKind::TypeMismatch { .. } => "json::type_mismatch",
            JsonErrorKind::UnknownField { .. } => "json::unknown_field",
            JsonErrorKind::MissingField { .. } => "json::missing_field",
            JsonErrorKind::InvalidValue { .. } => "json::invalid_value",
            JsonErrorKind::NumberOutOfRange { .. } => "json::number_out_of_range",
            JsonErrorKind::DuplicateKey { .. } => "json::duplicate_key",
            JsonErrorKind::InvalidUtf8 => "json::invalid_utf8",
            JsonErrorKind::Solver(_) => "json::solver",
            JsonErrorKind::Io(_) => "json::io",
            JsonErrorKind::Read(refused) => code_of_read(refused),
            JsonErrorKind::Write(refused) => code_of_write(refused),
            JsonErrorKind::OutOfMemory => "json::out_of_memory",
        }
    }
}

/// The name of the kind that says what a reader's refusal does.
fn code_of_read(refused: &DeserializeErrorKind<'static>) -> &'static str
    ensures { result.now ≡ read_code (complaint_of refused.now) }
{
    match refused {
        DeserializeErrorKind::UnexpectedChar { .. } => "json::scan",
        DeserializeErrorKind::UnexpectedEof { .. } => "json::unexpected_eof",
        DeserializeErrorKind::UnexpectedToken { .. } => "json::unexpected_token",
        DeserializeErrorKind::InvalidUtf8 => "json::invalid_utf8",
        DeserializeErrorKind::InvalidValue { .. } => "json::invalid_value",
        DeserializeErrorKind::TypeMismatch { .. } => "json::type_mismatch",
        DeserializeErrorKind::NumberOutOfRange { .. } => "json::number_out_of_range",
        DeserializeErrorKind::MissingField { .. } => "json::missing_field",
        DeserializeErrorKind::OutOfMemory => "json::out_of_memory",
        DeserializeErrorKind::SaveLimit => "json::save_limit",
    }
}

/// The name of a writer's refusal.
fn code_of_write(refused: &JsonSerializeError) -> &'static str
    ensures { result.now ≡ kind_code (write (write_refusal_of refused.now)) }
{
    match refused {
        JsonSerializeError::OutOfMemory => "json::out_of_memory",
        JsonSerializeError::KeyOutsideStruct
        | JsonSerializeError::NoStructToEnd
        | JsonSerializeError::NoListToEnd => "json::write",
    }
}
