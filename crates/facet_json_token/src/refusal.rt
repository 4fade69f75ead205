//! How the refusal of a scan or of a decode is passed on by a reader.

ghost use Rattle.std.specs.Prelude.{◌≡◌};
ghost use Rattle.facet_format.specs.Views.{refusal_of};
ghost use Rattle.facet_json_token.specs.DecodeViews.{decode_refusal};
ghost use Rattle.facet_json_token.specs.Views.{scan_refusal};

use crate::decode::DecodeError;
use crate::token::{ScanError, ScanErrorKind};
use facet_format::{DeserializeError, DeserializeErrorKind};

impl From<ScanError> for DeserializeError<'_> {
    ghost from_gives = { λ scan e. refusal_of e ≡ scan_refusal scan };

    fn from(error: ScanError) -> Self {
        let kind = match error.kind {
            ScanErrorKind::UnexpectedChar(ch) => DeserializeErrorKind::UnexpectedChar {
                ch,
                expected: "valid JSON token",
            },
            ScanErrorKind::UnexpectedEof(expected) => {
                DeserializeErrorKind::UnexpectedEof { expected }
            }
            ScanErrorKind::InvalidUtf8 => DeserializeErrorKind::InvalidUtf8,
        };
        DeserializeError {
            kind,
            span: Some(error.span),
        }
    }
}

impl From<DecodeError> for DeserializeError<'_> {
    ghost from_gives = { λ decode e. refusal_of e ≡ decode_refusal decode };

    fn from(error: DecodeError) -> Self {
        match error {
            DecodeError::Scan(error) => DeserializeError::from(error),
            DecodeError::OutOfMemory => DeserializeError::out_of_memory(),
        }
    }
}
