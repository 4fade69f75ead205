//! An error with its source, shown.

ghost use Rattle.std.specs.Option.{option_map};
ghost use Rattle.facet_format.specs.Views.{span_of};
ghost use Rattle.facet_json_core.specs.ErrorKind.{error_text};
ghost use Rattle.facet_json_core.specs.ErrorViews.{error_kind_of};
ghost use Rattle.facet_format.specs.Report.{report_text};

use crate::error::JsonError;
use facet_format::Excerpt;
use std::fmt;

/// An error with the source that its span is of. Displayed, it is the error's message, and then the place: its line and column,
/// the text of the line, and carets below what is meant. An error without a span is its message alone.
///
/// ```text
/// type mismatch: expected u32, got string at line 2, column 10
///   "age": "x"
///          ^^^
/// ```
#[derive(Debug, Clone, Copy)]
pub struct Report<'a> {
    /// The error.
    pub error: &'a JsonError,
    /// The source.
    pub source: &'a str,
}

impl fmt::Display for Report<'_> {
    ghost output = { λ report. report_text (error_text (error_kind_of report.error.now.kind)) report.source.now
        (option_map span_of report.error.now.span) };

    fn fmt<W: fmt::Write>(&self, f: &mut fmt::Formatter<W>) -> fmt::Result {
        let error = self.error;
        match error.span {
            None => write!(f, "{error}"),
            Some(span) => {
                let excerpt = Excerpt {
                    source: self.source,
                    span,
                };
                write!(f, "{error} at {excerpt}")
            }
        }
    }
}
