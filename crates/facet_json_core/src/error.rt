//! What is wrong, where, and in which source.

ghost use Rattle.std.specs.Prelude.{◌≡◌, Some, None, IfOk, IfErr};
ghost use Rattle.facet_json_core.specs.ErrorViews.{error_at, error_source_of};

use crate::kind::JsonErrorKind;
use facet_format::Span;
use std::alloc::Global;

/// A `Result` with the error that a person reads.
pub type Result<T> = std::result::Result<T, JsonError>;

/// What is wrong, and where. Displayed, it is the message of its kind.
///
/// ```text
/// fn port(alloc: Global, input: &[u8]) -> facet_json::Result<u16> {
///     let tree = from_slice(alloc, input)?;
///     ..
/// }
/// ```
#[derive(Debug, Drop)]
pub struct JsonError {
    /// What is wrong.
    pub kind: JsonErrorKind,
    /// The bytes of the source that it is about, where they are known.
    pub span: Option<Span>,
    /// The source, where it is kept.
    pub source_code: Option<String>,
}

impl JsonError {
    /// The error of this kind about these bytes.
    pub fn new(kind: JsonErrorKind, span: Span) -> JsonError
        ensures { result ≡ error_at kind (Some span) }
    {
        JsonError {
            kind,
            span: Some(span),
            source_code: None,
        }
    }

    /// The error of this kind about no bytes in particular.
    pub fn without_span(kind: JsonErrorKind) -> JsonError
        ensures { result ≡ error_at kind None }
    {
        JsonError {
            kind,
            span: None,
            source_code: None,
        }
    }

    /// Gives the error a copy of the source that its span is of, in place of one that it had. Where there is no memory for the copy
    /// the error comes back as it was.
    pub fn with_source(
        self,
        alloc: Global,
        source: &str,
    ) -> std::result::Result<JsonError, JsonError>
        ensures ok { IfOk result (λ error. (error.kind ≡ self.kind) × (error.span ≡ self.span)
            × (error_source_of error ≡ Some source.now)) }
        ensures err { IfErr result (λ error. error ≡ self) }
    {
        match String::from_str(alloc, source) {
            Ok(copy) => Ok(JsonError {
                kind: self.kind,
                span: self.span,
                source_code: Some(copy),
            }),
            Err(_) => Err(self),
        }
    }
}
