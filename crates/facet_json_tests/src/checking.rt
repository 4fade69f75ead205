//! Inputs of which nothing is kept, or a document: whether they have one, in each language, or what is refused.

use crate::expecting::expect_of;
use facet_format::DeserializeError;
use facet_json::{Document, check, check_jsonc, check_strict};
use std::alloc::Global;

/// Where a refusal stands: an offset and a length.
type At = Option<(usize, usize)>;

/// An input, and what `check` and `Document::parse`, `check_jsonc` and `Document::parse_jsonc`, and `check_strict` and
/// `Document::parse_strict` refuse, where they refuse it.
type Row = (&'static str, At, At, At);

static INPUTS: [Row; 13] = [
    ("[1,2]", None, None, None),
    (" {\"a\": [null, {}]} ", None, None, None),
    ("\"\\u0041\"", None, None, None),
    ("[1,]", None, None, Some((3, 1))),
    ("[1] x", None, None, Some((4, 1))),
    ("007", None, None, Some((0, 3))),
    ("/* a */1", Some((0, 1)), None, Some((0, 1))),
    ("[1 // a\n]", Some((3, 1)), None, Some((3, 1))),
    ("[1, /* one */]", Some((4, 1)), None, Some((4, 1))),
    ("[1 2]", Some((3, 1)), Some((3, 1)), Some((3, 1))),
    ("", Some((0, 0)), Some((0, 0)), Some((0, 0))),
    ("\"a", Some((0, 2)), Some((0, 2)), Some((0, 2))),
    ("[1}", Some((2, 1)), Some((2, 1)), Some((2, 1))),
];

/// What is refused.
fn refused<T: Drop>(answer: Result<T, DeserializeError<'_>>) -> At {
    let span = answer.err()?.span?;
    Some((span.offset, span.len))
}

/// Whether the functions that keep nothing refuse what the row says.
fn are_checked(alloc: Global, row: &Row) -> bool {
    let input = row.0.as_bytes();
    refused(check(alloc, input)) == row.1
        && refused(check_jsonc(alloc, input)) == row.2
        && refused(check_strict(alloc, input)) == row.3
}

/// Whether those that keep a document do.
fn are_parsed(alloc: Global, row: &Row) -> bool {
    let input = row.0.as_bytes();
    refused(Document::parse(alloc, input)) == row.1
        && refused(Document::parse_jsonc(alloc, input)) == row.2
        && refused(Document::parse_strict(alloc, input)) == row.3
}

#[test]
fn what_is_no_document_is_refused(rt: HostRuntime) {
    let alloc = rt.alloc();
    for row in &INPUTS {
        expect_of(
            &rt,
            are_checked(alloc, row) && are_parsed(alloc, row),
            row.0,
        );
    }
}
