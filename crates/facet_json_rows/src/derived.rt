//! What the public types derive: copies, equality and how they are shown.

use facet_format::numeral::NumberHint;
use facet_format::{DeserializeErrorKind, Span};
use facet_json::scanner::{
    DecodeError, Mode, ParsedNumber, ScanError, ScanErrorKind, SpannedToken, Token,
};
use facet_json::{
    Answer, Call, JsonParser, JsonSerializeError, MaterializedToken, RawJson, TokenKind,
};
use facet_json_row_values::told::Told;
use std::alloc::Global;
use std::fmt::Debug;

const SPAN: Span = Span { offset: 0, len: 1 };

static TOKENS: [Token; 12] = [
    Token::ObjectStart,
    Token::ObjectEnd,
    Token::ArrayStart,
    Token::ArrayEnd,
    Token::Colon,
    Token::Comma,
    Token::Null,
    Token::True,
    Token::False,
    Token::String {
        start: 1,
        end: 2,
        has_escapes: false,
    },
    Token::Number {
        start: 0,
        end: 2,
        hint: NumberHint::Float,
    },
    Token::NeedMore { consumed: 5 },
];

static KINDS: [ScanErrorKind; 3] = [
    ScanErrorKind::UnexpectedChar('x'),
    ScanErrorKind::InvalidUtf8,
    ScanErrorKind::UnexpectedEof("in string"),
];

static CODES: [DeserializeErrorKind<'static>; 10] = [
    DeserializeErrorKind::UnexpectedChar {
        ch: 'x',
        expected: "a",
    },
    DeserializeErrorKind::UnexpectedEof { expected: "a" },
    DeserializeErrorKind::UnexpectedToken {
        got: "a",
        expected: "b",
    },
    DeserializeErrorKind::InvalidUtf8,
    DeserializeErrorKind::InvalidValue { message: "a" },
    DeserializeErrorKind::TypeMismatch {
        expected: "a",
        got: "b",
    },
    DeserializeErrorKind::NumberOutOfRange { target_type: "u8" },
    DeserializeErrorKind::MissingField { field: "a" },
    DeserializeErrorKind::OutOfMemory,
    DeserializeErrorKind::SaveLimit,
];

/// Whether a copy is equal to the value, and another value isn't.
fn is_copied<T: Clone + PartialEq + Drop>(value: &T, other: &T) -> bool {
    match value.clone() {
        Ok(copy) => copy == *value && copy != *other,
        Err(_) => false,
    }
}

/// Tells the value as it is shown, and whether it is unlike its copy or like another value.
fn write_copied<T: Clone + PartialEq + Debug + Drop>(value: &T, other: &T, told: &mut Told) {
    if !is_copied(value, other) {
        told.say("DIFFERS: ");
    }
    told.show_line(value);
}

/// Tells the value as it is shown, and whether it is unlike itself or like another value.
fn write_equal<T: PartialEq + Debug>(value: &T, other: &T, told: &mut Told) {
    if !(value == value && value != other) {
        told.say("DIFFERS: ");
    }
    told.show_line(value);
}

/// Tells values of the types of these words.
pub fn answer_derived(alloc: Global, words: &str, told: &mut Told) {
    match words {
        "tokens" => write_tokens(told),
        "refused scans" => write_refused_scans(told),
        "numbers" => write_numbers(told),
        "calls" => write_calls(told),
        "parser" => write_parser(alloc, told),
        "answer" => told.show_line(&Answer::Restored),
        "kinds of refusals" => write_kinds(told),
        "refused writing" => write_refused_writing(told),
        "raw text" => write_raw(alloc, told),
        _ => told.line("NO TYPES"),
    }
}

fn write_tokens(told: &mut Told) {
    write_copied(&Mode::Plain, &Mode::Jsonc, told);
    for token in &TOKENS {
        write_copied(token, &Token::Eof, told);
    }
    write_copied(&Token::Eof, &Token::Null, told);
    let (span, token) = (SPAN, Token::Comma);
    let comma = SpannedToken { token, span };
    let token = Token::Colon;
    write_copied(&comma, &SpannedToken { token, span }, told);
}

fn write_refused_scans(told: &mut Told) {
    for kind in &KINDS {
        write_copied(kind, &ScanErrorKind::UnexpectedChar('y'), told);
    }
    let (span, kind) = (SPAN, ScanErrorKind::UnexpectedChar('x'));
    let unexpected = ScanError { kind, span };
    let kind = ScanErrorKind::InvalidUtf8;
    let invalid = ScanError { kind, span };
    write_copied(&unexpected, &invalid, told);
    write_equal(&DecodeError::Scan(invalid), &DecodeError::OutOfMemory, told);
    told.show_line(&DecodeError::OutOfMemory);
}

fn write_numbers(told: &mut Told) {
    for number in &[
        ParsedNumber::U64(1),
        ParsedNumber::I64(-1),
        ParsedNumber::U128(2),
        ParsedNumber::I128(-2),
    ] {
        write_equal(number, &ParsedNumber::U64(3), told);
    }
}

fn write_calls(told: &mut Told) {
    let (kind, span) = (TokenKind::U64(7), SPAN);
    told.show_line(&kind);
    told.show_line(&MaterializedToken { kind, span });
    write_equal(&Call::Events(2), &Call::Events(3), told);
}

/// Tells the name under which a parser is shown.
fn write_parser(alloc: Global, told: &mut Told) {
    let mut shown = Told::new(alloc);
    shown.show(&JsonParser::new(alloc, b"[]"));
    let (name, _) = shown.as_str().split_once(" {").unwrap_or(("", ""));
    told.line(name);
}

fn write_kinds(told: &mut Told) {
    for kind in &CODES {
        told.show(&kind.code());
        told.say(" ");
        told.show_line(kind);
    }
}

fn write_refused_writing(told: &mut Told) {
    let error = JsonSerializeError::OutOfMemory;
    told.show(&error.code());
    told.say(" ");
    told.display_line(&error);
}

/// Tells how a raw text is shown, and one that is in memory of its own, after it is asked for that once more.
fn write_raw(alloc: Global, told: &mut Told) {
    told.show_line(&RawJson::new("{\"a\":1}"));
    match RawJson::new("[1, 2]").into_owned(alloc) {
        Ok(owned) => write_raw_again(alloc, owned, told),
        Err(_) => told.lack(),
    }
}

/// Tells a raw text that is asked once more to be in memory of its own, and whether it is unlike the same text or like another.
fn write_raw_again(alloc: Global, owned: RawJson<'_>, told: &mut Told) {
    match owned.into_owned(alloc) {
        Ok(raw) => {
            if !(raw == RawJson::new("[1, 2]") && raw != RawJson::new("[1,2]")) {
                told.say("DIFFERS: ");
            }
            told.display_line(&raw);
        }
        Err(_) => told.lack(),
    }
}
