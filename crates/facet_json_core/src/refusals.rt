//! What the refusals of the library become.

ghost use Rattle.std.specs.Prelude.{◌≡◌, Some, None};
ghost use Rattle.facet_json_core.specs.ErrorViews.{error_at, decode_error};
ghost use Rattle.facet_json_core.specs.declared.kind.JsonErrorKind.TheVariants.{Scan, Read, Write, OutOfMemory};

use crate::error::JsonError;
use crate::kind::JsonErrorKind;
use facet_format::{DeserializeError, ParseError};
use facet_json_serializer::JsonSerializeError;
use facet_json_token::{DecodeError, ScanError};
use std::alloc::{AllocError, AllocFailed};

/// How reading was refused, whole.
impl From<DeserializeError<'static>> for JsonError {
    ghost from_gives = { λ refused e. e ≡ error_at (Read refused.kind) refused.span };

    fn from(refused: DeserializeError<'static>) -> JsonError {
        JsonError {
            kind: JsonErrorKind::Read(refused.kind),
            span: refused.span,
            source_code: None,
        }
    }
}

/// How a parser refused, whole.
impl From<ParseError<'static>> for JsonError {
    ghost from_gives = { λ refused e. e ≡ error_at (Read refused.kind) (Some refused.span) };

    fn from(refused: ParseError<'static>) -> JsonError {
        JsonError::new(JsonErrorKind::Read(refused.kind), refused.span)
    }
}

/// What is wrong where no token stands, whole.
impl From<ScanError> for JsonError {
    ghost from_gives = { λ refused e. e ≡ error_at (Scan refused.kind) (Some refused.span) };

    fn from(refused: ScanError) -> JsonError {
        JsonError::new(JsonErrorKind::Scan(refused.kind), refused.span)
    }
}

/// Why a string's content has no text, or that there was no memory for it.
impl From<DecodeError> for JsonError {
    ghost from_gives = { λ refused e. e ≡ decode_error refused };

    fn from(refused: DecodeError) -> JsonError {
        match refused {
            DecodeError::Scan(error) => JsonError::from(error),
            DecodeError::OutOfMemory => JsonError::without_span(JsonErrorKind::OutOfMemory),
        }
    }
}

/// How writing was refused, whole. No bytes of a source are meant.
impl From<JsonSerializeError> for JsonError {
    ghost from_gives = { λ refused e. e ≡ error_at (Write refused) None };

    fn from(refused: JsonSerializeError) -> JsonError {
        JsonError::without_span(JsonErrorKind::Write(refused))
    }
}

/// An allocation failed.
impl From<AllocError> for JsonError {
    ghost from_gives = { λ _ e. e ≡ error_at OutOfMemory None };

    fn from(_refused: AllocError) -> JsonError {
        JsonError::without_span(JsonErrorKind::OutOfMemory)
    }
}

/// An allocation failed, and what was to be stored is let go.
impl<T: Drop> From<AllocFailed<T>> for JsonError {
    ghost from_gives = { λ _ e. e ≡ error_at OutOfMemory None };

    fn from(_refused: AllocFailed<T>) -> JsonError {
        JsonError::from(AllocError)
    }
}
