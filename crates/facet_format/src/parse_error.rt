//! How a parser refuses.

ghost use Rattle.std.specs.Prelude.{◌≡◌};
ghost use Rattle.facet_format.specs.Complaint.{refusal_at};
ghost use Rattle.facet_format.specs.Views.{span_of, complaint_of, parse_refusal, passed_on};

use crate::error::{DeserializeError, DeserializeErrorKind};
use crate::event::Span;

/// Why a parser refused, and where: what is wrong always stands at some bytes of the input.
#[derive(Debug, Clone, Copy, PartialEq, Eq)]
pub struct ParseError<'t> {
    /// The bytes of the input that the refusal is about.
    pub span: Span,
    /// Why.
    pub kind: DeserializeErrorKind<'t>,
}

impl<'t> ParseError<'t> {
    /// The refusal of these bytes for this reason.
    pub fn new(span: Span, kind: DeserializeErrorKind<'t>) -> ParseError<'t>
        ensures refusal { parse_refusal result ≡ refusal_at (complaint_of kind.entry) (span_of span) }
        ensures kind { result.kind ≡ kind.entry }
        ensures span { result.span ≡ span }
    {
        ParseError { span, kind }
    }
}

impl<'t> From<ParseError<'t>> for DeserializeError<'t> {
    ghost from_gives = { λ error e. e ≡ passed_on error };

    fn from(error: ParseError<'t>) -> Self {
        DeserializeError {
            kind: error.kind,
            span: Some(error.span),
        }
    }
}
