//! What the public types derive, copies, equality and how they are shown, and what conversions keep.

use facet_format::numeral::NumberHint;
use facet_format::{DeserializeError, DeserializeErrorKind, ParseError, SavePoint, Span};
use std::alloc::Global;
use std::fmt::Debug;

/// A value, another one, and how the first is shown.
type Row<T> = (T, T, &'static str);

const OTHER: DeserializeErrorKind<'static> = DeserializeErrorKind::UnexpectedEof { expected: "b" };

const HERE: DeserializeError<'static> = DeserializeError {
    kind: DeserializeErrorKind::InvalidUtf8,
    span: Some(Span { offset: 0, len: 3 }),
};

const NOWHERE: DeserializeError<'static> = DeserializeError {
    kind: DeserializeErrorKind::OutOfMemory,
    span: None,
};

const PARSER_HERE: ParseError<'static> = ParseError {
    span: Span { offset: 2, len: 1 },
    kind: DeserializeErrorKind::SaveLimit,
};

const PARSER_THERE: ParseError<'static> = ParseError {
    span: Span { offset: 3, len: 1 },
    kind: DeserializeErrorKind::SaveLimit,
};

/// What a refusal of a parser is passed on as.
const PASSED: DeserializeError<'static> = DeserializeError {
    kind: DeserializeErrorKind::SaveLimit,
    span: Some(Span { offset: 2, len: 1 }),
};

static SPANS: [Row<Span>; 1] = [(
    Span { offset: 3, len: 4 },
    Span { offset: 3, len: 5 },
    "Span { offset: 3, len: 4 }",
)];

static SAVE_POINTS: [Row<SavePoint>; 1] = [(SavePoint(7), SavePoint(8), "SavePoint(7)")];

static HINTS: [Row<NumberHint>; 3] = [
    (NumberHint::Unsigned, NumberHint::Signed, "Unsigned"),
    (NumberHint::Signed, NumberHint::Float, "Signed"),
    (NumberHint::Float, NumberHint::Unsigned, "Float"),
];

#[rattlefmt::skip]
static KINDS: [Row<DeserializeErrorKind<'static>>; 10] = [
    (DeserializeErrorKind::UnexpectedChar { ch: 'x', expected: "a" }, OTHER, "UnexpectedChar { ch: 'x', expected: \"a\" }"),
    (DeserializeErrorKind::UnexpectedEof { expected: "a" }, OTHER, "UnexpectedEof { expected: \"a\" }"),
    (DeserializeErrorKind::UnexpectedToken { got: "a", expected: "b" }, OTHER, "UnexpectedToken { got: \"a\", expected: \"b\" }"),
    (DeserializeErrorKind::InvalidUtf8, OTHER, "InvalidUtf8"),
    (DeserializeErrorKind::InvalidValue { message: "a" }, OTHER, "InvalidValue { message: \"a\" }"),
    (DeserializeErrorKind::OutOfMemory, OTHER, "OutOfMemory"),
    (DeserializeErrorKind::SaveLimit, OTHER, "SaveLimit"),
    (DeserializeErrorKind::TypeMismatch { expected: "a", got: "b" }, DeserializeErrorKind::InvalidUtf8,
        "TypeMismatch { expected: \"a\", got: \"b\" }"),
    (DeserializeErrorKind::NumberOutOfRange { target_type: "u8" }, DeserializeErrorKind::InvalidUtf8, "NumberOutOfRange { target_type: \"u8\" }"),
    (DeserializeErrorKind::MissingField { field: "a" }, DeserializeErrorKind::InvalidUtf8, "MissingField { field: \"a\" }"),
];

#[rattlefmt::skip]
static REFUSALS: [Row<DeserializeError<'static>>; 2] = [
    (HERE, NOWHERE, "DeserializeError { kind: InvalidUtf8, span: Some(Span { offset: 0, len: 3 }) }"),
    (NOWHERE, HERE, "DeserializeError { kind: OutOfMemory, span: None }"),
];

static PARSER_REFUSALS: [Row<ParseError<'static>>; 1] = [(
    PARSER_HERE,
    PARSER_THERE,
    "ParseError { span: Span { offset: 2, len: 1 }, kind: SaveLimit }",
)];

/// Whether the value is shown so, or memory runs out.
pub fn shows<T: Debug>(alloc: Global, value: &T, shown: &str) -> Option<bool> {
    match format!(in alloc; "{value:?}") {
        Ok(text) => Some(text.as_str() == shown),
        Err(_) => None,
    }
}

/// Whether a copy is equal to the value, and another value isn't.
fn is_copied<T: Clone + PartialEq + Drop>(value: &T, other: &T) -> bool {
    match value.clone() {
        Ok(copy) => copy == *value && copy != *other,
        Err(_) => false,
    }
}

/// Whether each value is copied, compared and shown as its row says.
fn hold<T: Clone + PartialEq + Debug + Drop>(alloc: Global, rows: &[Row<T>]) -> bool {
    for (value, other, shown) in rows {
        if !is_copied(value, other) || shows(alloc, value, *shown) != Some(true) {
            return false;
        }
    }
    true
}

#[test]
fn values_are_copied_compared_shown_and_converted(rt: HostRuntime) {
    let alloc = rt.alloc();
    assert!(rt; hold(alloc, &SPANS) && hold(alloc, &SAVE_POINTS) && hold(alloc, &HINTS));
    assert!(rt; hold(alloc, &KINDS), "kinds");
    assert!(rt; hold(alloc, &REFUSALS) && hold(alloc, &PARSER_REFUSALS));
    let here = ParseError::new(Span::new(2, 1), DeserializeErrorKind::SaveLimit);
    assert!(rt; here == PARSER_HERE && DeserializeError::from(here) == PASSED);
    assert!(rt; DeserializeError::out_of_memory() == NOWHERE);
}
