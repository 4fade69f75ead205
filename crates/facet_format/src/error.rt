//! How reading is refused.

ghost use Rattle.std.specs.Prelude.{◌≡◌};
ghost use Rattle.facet_format.specs.Complaint.{code_of, no_memory};
ghost use Rattle.facet_format.specs.Views.{refusal_of, complaint_of, memory_refused};

use crate::event::Span;
use std::alloc::{AllocError, AllocFailed};

/// Why reading was refused. The texts are constants of the reader, so a refusal does not allocate.
#[derive(Debug, Clone, Copy, PartialEq, Eq)]
pub enum DeserializeErrorKind<'t> {
    /// No token goes on with this character.
    UnexpectedChar {
        /// The character.
        ch: char,
        /// What is expected.
        expected: &'t str,
    },
    /// The input ends.
    UnexpectedEof {
        /// What is expected.
        expected: &'t str,
    },
    /// A token with which no document goes on.
    UnexpectedToken {
        /// The name of the token's kind.
        got: &'t str,
        /// What is expected.
        expected: &'t str,
    },
    /// Text that is not UTF-8.
    InvalidUtf8,
    /// A value that is not taken.
    InvalidValue {
        /// Why it isn't.
        message: &'t str,
    },
    /// A value of another type.
    TypeMismatch {
        /// The type that was asked for.
        expected: &'t str,
        /// What stands there.
        got: &'t str,
    },
    /// A number that the type cannot hold.
    NumberOutOfRange {
        /// The type.
        target_type: &'t str,
    },
    /// A field that has no value.
    MissingField {
        /// Its name.
        field: &'t str,
    },
    /// An allocation failed.
    OutOfMemory,
    /// The counter of save points is at its end.
    SaveLimit,
}

/// Why reading was refused, and where.
#[derive(Debug, Clone, Copy, PartialEq, Eq)]
pub struct DeserializeError<'t> {
    /// Why.
    pub kind: DeserializeErrorKind<'t>,
    /// The bytes of the input that the refusal is about, where they are known.
    pub span: Option<Span>,
}

impl<'t> DeserializeError<'t> {
    /// A failed allocation, which has no place in the input.
    pub fn out_of_memory() -> DeserializeError<'t>
        ensures refusal { refusal_of result ≡ no_memory }
        ensures error { result ≡ memory_refused }
    {
        DeserializeError {
            kind: DeserializeErrorKind::OutOfMemory,
            span: None,
        }
    }
}

impl From<AllocError> for DeserializeError<'_> {
    ghost from_gives = { λ _ e. e ≡ memory_refused };

    fn from(_e: AllocError) -> Self {
        DeserializeError::out_of_memory()
    }
}

impl<T: Drop> From<AllocFailed<T>> for DeserializeError<'_> {
    ghost from_gives = { λ _ e. e ≡ memory_refused };

    fn from(_e: AllocFailed<T>) -> Self {
        DeserializeError::out_of_memory()
    }
}

impl DeserializeErrorKind<'_> {
    /// The number of the kind, from 1 to 10, as the program prints it.
    pub fn code(&self) -> u8
        ensures { result ≡ code_of (complaint_of self.now) }
    {
        match self {
            DeserializeErrorKind::UnexpectedChar { .. } => 1,
            DeserializeErrorKind::UnexpectedEof { .. } => 2,
            DeserializeErrorKind::UnexpectedToken { .. } => 3,
            DeserializeErrorKind::InvalidUtf8 => 4,
            DeserializeErrorKind::InvalidValue { .. } => 5,
            DeserializeErrorKind::TypeMismatch { .. } => 6,
            DeserializeErrorKind::NumberOutOfRange { .. } => 7,
            DeserializeErrorKind::MissingField { .. } => 8,
            DeserializeErrorKind::OutOfMemory => 9,
            DeserializeErrorKind::SaveLimit => 10,
        }
    }
}
