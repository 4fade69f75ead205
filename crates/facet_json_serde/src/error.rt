//! Why a value was not read or written, and where.

ghost use Rattle.std.specs.Prelude.{◌≡◌, length};
ghost use Rattle.std.specs.Option.{option_map};
ghost use Rattle.facet_format.specs.Views.{span_of};
ghost use Rattle.facet_format.specs.Report.{report_text};
ghost use Rattle.facet_json_serde.specs.Messages.{kind_message, placed_text};
ghost use Rattle.facet_json_serde.specs.Within.{LiesWithin};

use crate::fault::{Detail, ReadFault, ReadFaultKind, Refusal, Sort, WriteFault};
use facet_format::message::write_message;
use facet_format::{DeserializeErrorKind, Excerpt, ParseError, Position, Span, position_at};
use std::fmt;

/// What is wrong. Displayed, it is a message of one line for a person.
#[derive(Debug, Clone, Copy, Drop)]
pub enum ErrorKind<'t> {
    /// The input is no JSON, it ends too soon, a value is of another type or too great, or an allocation failed: what this library's
    /// readers say.
    Read(DeserializeErrorKind<'t>),
    /// More than white space stands after the document.
    TrailingCharacters,
    /// The field of this name has no value.
    MissingField(Detail),
    /// The field of this name comes twice.
    DuplicateField(Detail),
    /// A field that the type does not have: its name as it is spelled in the input, up to a control character.
    UnknownField(Detail),
    /// A variant that the type does not have: its name, likewise.
    UnknownVariant(Detail),
    /// A list of another length.
    InvalidLength,
    /// A value that the type does not have.
    InvalidValue,
    /// A key that is no string.
    KeyMustBeAString,
    /// What a type sent to be written is not one value: a value without a key, a key without a value, two roots, a container that stays
    /// open.
    NotOneValue,
    /// What a reader or a writer of a type says.
    Custom(Detail),
}

/// Why a value was not read or written. Displayed, it is the message of its kind; `report` shows it with its place in the source.
#[derive(Debug, Clone, Copy, Drop)]
pub struct Error<'t> {
    /// What is wrong.
    pub kind: ErrorKind<'t>,
    /// The bytes of the input that it is about: an offset and a length. A writer's error has none, nor has a failed allocation of a value.
    pub span: Option<Span>,
}

impl<'t> From<ParseError<'t>> for Error<'t> {
    fn from(refused: ParseError<'t>) -> Error<'t> {
        Error {
            kind: ErrorKind::Read(refused.kind),
            span: Some(refused.span),
        }
    }
}

impl<'t> From<ReadFault> for Error<'t> {
    fn from(fault: ReadFault) -> Error<'t> {
        Error {
            kind: kind_of(&fault),
            span: fault.span,
        }
    }
}

impl<'t> From<Refusal> for Error<'t> {
    fn from(why: Refusal) -> Error<'t> {
        Error {
            kind: match why {
                Refusal::NotOneValue => ErrorKind::NotOneValue,
                Refusal::KeyMustBeAString => ErrorKind::KeyMustBeAString,
                Refusal::InvalidValue => ErrorKind::InvalidValue,
                Refusal::OutOfMemory => ErrorKind::Read(DeserializeErrorKind::OutOfMemory),
            },
            span: None,
        }
    }
}

impl<'t> From<WriteFault> for Error<'t> {
    fn from(fault: WriteFault) -> Error<'t> {
        match &fault {
            WriteFault::Refused(why) => Error::from(*why),
            WriteFault::Custom(detail) => Error {
                kind: ErrorKind::Custom(**detail),
                span: None,
            },
        }
    }
}

impl<'t> Error<'t> {
    /// The error without a span that does not lie within the input.
    #[cold]
    #[inline(never)]
    pub(crate) fn within(self, input: &[u8]) -> Error<'t>
        ensures { LiesWithin (length input.now) result.span }
    {
        let Some(span) = self.span else {
            return self;
        };
        if span.offset <= input.len() && span.len <= input.len() - span.offset {
            self
        } else {
            Error { span: None, ..self }
        }
    }
}

/// What a fault is called.
fn kind_of<'t>(fault: &ReadFault) -> ErrorKind<'t> {
    match fault.kind {
        ReadFaultKind::Parser | ReadFaultKind::Ended => {
            ErrorKind::Read(DeserializeErrorKind::UnexpectedEof { expected: "value" })
        }
        ReadFaultKind::Mismatch(wanted, found) => mismatch_of(wanted, found),
        ReadFaultKind::OutOfRange(wanted) => ErrorKind::Read(
            DeserializeErrorKind::NumberOutOfRange {
                target_type: wanted.name(),
            },
        ),
        ReadFaultKind::Memory => ErrorKind::Read(DeserializeErrorKind::OutOfMemory),
        ReadFaultKind::Trailing => ErrorKind::TrailingCharacters,
        ReadFaultKind::MissingField => ErrorKind::MissingField(fault.detail()),
        ReadFaultKind::DuplicateField => ErrorKind::DuplicateField(fault.detail()),
        ReadFaultKind::UnknownField => ErrorKind::UnknownField(fault.detail()),
        ReadFaultKind::UnknownVariant => ErrorKind::UnknownVariant(fault.detail()),
        ReadFaultKind::InvalidLength => ErrorKind::InvalidLength,
        ReadFaultKind::InvalidValue => ErrorKind::InvalidValue,
        ReadFaultKind::Custom => ErrorKind::Custom(fault.detail()),
    }
}

/// What a value of another type is called.
fn mismatch_of<'t>(wanted: Sort, found: Sort) -> ErrorKind<'t> {
    ErrorKind::Read(DeserializeErrorKind::TypeMismatch {
        expected: wanted.name(),
        got: found.name(),
    })
}

impl Error<'static> {
    /// The error with its place in the source, which is the input as a text.
    ///
    /// ```text
    /// let error = from_str::<Point>(alloc, text).err()?;
    /// format!(in alloc; "{}", error.report(text))?
    ///
    /// type mismatch: expected i64, got string at line 2, column 8
    ///   "x": "a"}
    ///        ^^^
    /// ```
    pub fn report<'a>(&self, source: &'a str) -> Report<'a>
        ensures error { result.error ≡ self.now }
        ensures source { result.source.now ≡ source.now }
    {
        Report {
            error: *self,
            source,
        }
    }

    /// The error with its line and column in the source, which is the input as a text.
    ///
    /// ```text
    /// format!(in alloc; "{}", error.at(text))?
    ///
    /// type mismatch: expected i64, got string at line 2, column 8
    /// ```
    pub fn at<'a>(&self, source: &'a str) -> Placed<'a>
        ensures error { result.error ≡ self.now }
        ensures source { result.source.now ≡ source.now }
    {
        Placed {
            error: *self,
            source,
        }
    }
}

/// An error with the source that its span is of. Displayed, it is the message, the line and the column: one line, as a log wants it. An
/// error without a span is its message alone.
#[derive(Debug, Clone, Copy, Drop)]
pub struct Placed<'a> {
    /// The error.
    pub error: Error<'static>,
    /// The source.
    pub source: &'a str,
}

/// An error with the source that its span is of. Displayed, it is the message, the line and the column, then the line itself, and carets
/// below what is meant. An error without a span is its message alone.
#[derive(Debug, Clone, Copy, Drop)]
pub struct Report<'a> {
    /// The error.
    pub error: Error<'static>,
    /// The source.
    pub source: &'a str,
}

impl fmt::Display for ErrorKind<'static> {
    ghost output = { kind_message };

    fn fmt<W: fmt::Write>(&self, f: &mut fmt::Formatter<W>) -> fmt::Result {
        match self {
            ErrorKind::Read(refused) => write_message(f, refused),
            ErrorKind::TrailingCharacters => f.write_str("trailing characters"),
            ErrorKind::MissingField(name) => {
                write!(f, "missing required field `{}`", name.as_str())
            }
            ErrorKind::DuplicateField(name) => write!(f, "duplicate field `{}`", name.as_str()),
            ErrorKind::UnknownField(name) => write!(f, "unknown field `{}`", name.as_str()),
            ErrorKind::UnknownVariant(name) => write!(f, "unknown variant `{}`", name.as_str()),
            ErrorKind::InvalidLength => f.write_str("invalid length"),
            ErrorKind::InvalidValue => f.write_str("invalid value"),
            ErrorKind::KeyMustBeAString => f.write_str("key must be a string"),
            ErrorKind::NotOneValue => f.write_str("not one value"),
            ErrorKind::Custom(message) => f.write_str(message.as_str()),
        }
    }
}

impl fmt::Display for Error<'static> {
    ghost output = { λ error. kind_message error.kind };

    fn fmt<W: fmt::Write>(&self, f: &mut fmt::Formatter<W>) -> fmt::Result {
        fmt::Display::fmt(&self.kind, f)
    }
}

impl fmt::Display for Placed<'_> {
    ghost output = { λ placed. placed_text (kind_message placed.error.kind) placed.source.now (option_map span_of placed.error.span) };

    fn fmt<W: fmt::Write>(&self, f: &mut fmt::Formatter<W>) -> fmt::Result {
        match self.error.span {
            None => write!(f, "{}", self.error.kind),
            Some(span) => {
                let Position { line, column } = position_at(self.source.as_bytes(), span.offset);
                write!(f, "{} at line {line}, column {column}", self.error.kind)
            }
        }
    }
}

impl fmt::Display for Report<'_> {
    ghost output = { λ report. report_text (kind_message report.error.kind) report.source.now (option_map span_of report.error.span) };

    fn fmt<W: fmt::Write>(&self, f: &mut fmt::Formatter<W>) -> fmt::Result {
        match self.error.span {
            None => write!(f, "{}", self.error.kind),
            Some(span) => {
                let excerpt = Excerpt {
                    source: self.source,
                    span,
                };
                write!(f, "{} at {excerpt}", self.error.kind)
            }
        }
    }
}

impl std::error::Error for Error<'static> {}
