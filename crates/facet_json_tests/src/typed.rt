//! What was read of an input, how that was refused, and what was written.

use facet_format::{DeserializeError, DeserializeErrorKind, Span};
use facet_json::to_vec;
use facet_json_facet::Facet;
use facet_json_serializer::JsonSerializeError;
use std::alloc::Global;

/// Whether a value was read that is written as this text.
pub fn is_read_as<'de, T: Facet<'de>>(
    alloc: Global,
    answer: Result<T, DeserializeError<'_>>,
    text: &str,
) -> bool {
    match answer {
        Ok(value) => is_written(to_vec(alloc, &value), text) == Some(true),
        Err(_) => false,
    }
}

/// Whether this text was written, if memory sufficed.
pub fn is_written(written: Result<Vec<u8>, JsonSerializeError>, text: &str) -> Option<bool> {
    match written {
        Ok(written) => Some(written.as_slice() == text.as_bytes()),
        Err(JsonSerializeError::OutOfMemory) => None,
        Err(_) => Some(false),
    }
}

/// The refusal for this reason, at these bytes.
pub fn refusal<'t>(kind: DeserializeErrorKind<'t>, span: Span) -> DeserializeError<'t> {
    DeserializeError {
        kind,
        span: Some(span),
    }
}

/// Whether this text was read, or written.
pub fn is_text<E: Drop>(answer: Result<String, E>, text: &str) -> bool {
    match answer {
        Ok(made) => made.as_str() == text,
        Err(_) => false,
    }
}
