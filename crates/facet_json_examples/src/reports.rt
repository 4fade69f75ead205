//! Refusals as a person reads them.

use crate::records::{Person, person_in};
use facet_json::{JsonError, Report};
use std::alloc::{AllocError, Global};

/// The person that a text is, or why it is none.
pub fn person_of(alloc: Global, source: &str) -> Result<Person, JsonError> {
    Ok(person_in(alloc, source.as_bytes())?)
}

/// What is wrong with the text, and where: a message, then the line with carets below what is meant.
pub fn report(alloc: Global, error: &JsonError, source: &str) -> Result<String, AllocError> {
    let report = Report { error, source };
    format!(in alloc; "{report}")
}
