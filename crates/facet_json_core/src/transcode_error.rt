//! How a value is not passed.

ghost use Rattle.std.specs.Prelude.{◌≡◌};
ghost use Rattle.facet_json_core.specs.TranscodeViews.{error_of};
ghost use Rattle.facet_json_core.specs.declared.transcode_error.TranscodeError.TheVariants.{Read, Write};

use crate::error::JsonError;
use facet_format::DeserializeError;
use facet_json_serializer::JsonSerializeError;

/// Why a value was not passed from a parser to a serializer: which of the two refused.
#[derive(Debug, Drop)]
pub enum TranscodeError<'t> {
    /// The parser.
    Read(DeserializeError<'t>),
    /// The serializer.
    Write(JsonSerializeError),
}

impl<'t> From<DeserializeError<'t>> for TranscodeError<'t> {
    ghost from_gives = { λ refused e. e ≡ Read refused };

    fn from(refused: DeserializeError<'t>) -> TranscodeError<'t> {
        TranscodeError::Read(refused)
    }
}

impl From<JsonSerializeError> for TranscodeError<'_> {
    ghost from_gives = { λ refused e. e ≡ Write refused };

    fn from(refused: JsonSerializeError) -> Self {
        TranscodeError::Write(refused)
    }
}

/// How either refused, whole.
impl From<TranscodeError<'static>> for JsonError {
    ghost from_gives = { λ refused e. e ≡ error_of refused };

    fn from(refused: TranscodeError<'static>) -> JsonError {
        match refused {
            TranscodeError::Read(error) => JsonError::from(error),
            TranscodeError::Write(error) => JsonError::from(error),
        }
    }
}
