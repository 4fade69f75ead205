//! What a work passed, so that works and libraries can be compared.

use facet_json::scanner::{NumberHint, Token};
use facet_json::{ParseEventKind, ScalarValue};

/// How many tokens, events or values were passed, and a sum of what they hold, which wraps.
#[derive(Clone, Copy)]
pub struct Seen {
    /// How many.
    pub count: u64,
    /// The sum of the whole numbers and of the texts' lengths in bytes; of tokens, that of `weight`.
    pub sum: u64,
}

impl Seen {
    /// Nothing yet.
    pub fn none() -> Seen {
        Seen { count: 0, sum: 0 }
    }

    /// One more, which holds so much.
    pub fn with(self, held: u64) -> Seen {
        Seen {
            count: self.count.wrapping_add(1),
            sum: self.sum.wrapping_add(held),
        }
    }
}

/// What depends on all that a token tells but its place.
pub fn weight(token: &Token, len: usize) -> u64 {
    match token {
        Token::String {
            has_escapes: true,
            ..
        } => wide(len).wrapping_add(1),
        Token::Number {
            hint: NumberHint::Float,
            ..
        } => wide(len).wrapping_add(2),
        Token::Number {
            hint: NumberHint::Signed,
            ..
        } => wide(len).wrapping_add(3),
        _ => wide(len),
    }
}

/// The whole number of an event, or the length of its text in bytes.
pub fn held(kind: &ParseEventKind<'_>) -> u64 {
    match kind {
        ParseEventKind::FieldKey(key) => wide(key.name.len()),
        ParseEventKind::Scalar(value) => held_by_scalar(value),
        _ => 0,
    }
}

/// The whole number, or the length of the text in bytes.
fn held_by_scalar(value: &ScalarValue<'_>) -> u64 {
    match value {
        ScalarValue::Bool(truth) => u64::from(*truth),
        ScalarValue::U64(number) => *number,
        ScalarValue::I64(number) => number.cast_unsigned(),
        ScalarValue::Str(text) => wide(text.len()),
        _ => 0,
    }
}

/// The number with 64 bits.
pub fn wide(n: usize) -> u64 {
    u64::try_from(n).unwrap_or(u64::MAX)
}
