//! What a person can do about an error.

use facet_json::{DeserializeErrorKind, Language, Span};

/// What to do about a word that is none of JSON.
const WORDS: &str = "a word other than true, false and null stands in double quotes";

/// Where an error stands.
#[derive(Clone, Copy)]
pub struct Surroundings<'a> {
    /// What stands before it.
    before: &'a [u8],
    /// The bytes that are meant.
    meant: &'a [u8],
    /// What begins with them.
    rest: &'a [u8],
    /// How the source is read.
    language: Language,
}

impl<'a> Surroundings<'a> {
    /// The place of these bytes in a source.
    pub fn new(source: &'a [u8], span: Span, language: Language) -> Surroundings<'a> {
        let (before, rest) = source.split_at(span.offset.min(source.len()));
        Surroundings {
            before,
            meant: &rest[..span.len.min(rest.len())],
            rest,
            language,
        }
    }

    /// Whether the last byte before it that is no white space is this one.
    fn is_after(self, byte: u8) -> bool {
        self.before.trim_ascii_end().last() == Some(&byte)
    }

    /// Whether a letter stands right before it.
    fn is_in_word(self) -> bool {
        match self.before.last() {
            Some(byte) => byte.is_ascii_alphabetic(),
            None => false,
        }
    }

    /// The letters and digits that begin there.
    fn word(self) -> &'a str {
        let mut len = 0_usize;
        for byte in self.rest {
            if !byte.is_ascii_alphanumeric() {
                break;
            }
            len = len.saturating_add(1);
        }
        str::from_utf8(&self.rest[..len.min(self.rest.len())]).unwrap_or("")
    }
}

/// What a person can do about an error of this kind.
///
/// ```text
/// advice(&DeserializeErrorKind::UnexpectedToken { got: "String", expected: "',' or '}'" }, place)
///     "a comma is missing before this key"
/// ```
pub fn advice(kind: &DeserializeErrorKind<'_>, place: Surroundings<'_>) -> &'static str {
    match kind {
        DeserializeErrorKind::UnexpectedToken { got, expected } => on_token(got, expected, place),
        DeserializeErrorKind::UnexpectedEof { expected } => found(
            &AT_END,
            expected,
            "a value is missing here",
        ),
        DeserializeErrorKind::UnexpectedChar { ch, .. } => on_character(*ch, place),
        DeserializeErrorKind::InvalidUtf8 => on_bytes(place.meant),
        DeserializeErrorKind::OutOfMemory => "there is not enough memory for this file",
        DeserializeErrorKind::SaveLimit => "read the file in parts",
        DeserializeErrorKind::InvalidValue { .. }
        | DeserializeErrorKind::TypeMismatch { .. }
        | DeserializeErrorKind::NumberOutOfRange { .. } => "write another value",
        DeserializeErrorKind::MissingField { .. } => "write the field before this bracket",
    }
}

/// What to do where a key has no value.
const NO_VALUE: &str = "a colon and a value are missing after the key";

/// What to do where a value has no key.
const NO_KEY: &str = "a key and a colon are missing before this value";

/// Tokens behind a member, and what to do.
static AFTER_MEMBER: [(&str, &str); 2] = [
    ("String", "a comma is missing before this key"),
    ("ArrayEnd", "a } is missing before this bracket"),
];

/// Tokens behind an item.
static AFTER_ITEM: [(&str, &str); 2] = [
    ("ObjectEnd", "a ] is missing before this bracket"),
    ("Colon", "a list has no keys: members stand between { and }"),
];

/// Tokens behind a key's string.
static AFTER_KEY: [(&str, &str); 4] = [
    ("Comma", NO_VALUE),
    ("ObjectEnd", NO_VALUE),
    ("ArrayEnd", NO_VALUE),
    ("Eof", NO_VALUE),
];

/// Tokens where a key may stand.
static AT_KEY: [(&str, &str); 6] = [
    ("ObjectEnd", "remove the comma before this bracket"),
    ("ArrayEnd", "a } is missing before this bracket"),
    ("Comma", "remove this comma, or write a member before it"),
    ("Colon", "a key is missing before this colon"),
    ("ObjectStart", NO_KEY),
    ("ArrayStart", NO_KEY),
];

/// What was expected where the input ends.
static AT_END: [(&str, &str); 10] = [
    (
        "in string",
        "a double quote is missing at the end of this string",
    ),
    ("in literal", "the words of JSON are true, false and null"),
    ("in number", "a digit is missing after the minus"),
    (
        "in block comment",
        "a */ is missing at the end of this comment",
    ),
    (
        "in unicode escape",
        "four hexadecimal digits stand after \\u",
    ),
    ("',' or '}'", "a } is missing here"),
    ("field name or '}'", "a } is missing here"),
    ("field name", "a } is missing here"),
    ("',' or ']'", "a ] is missing here"),
    ("value or ']'", "a ] is missing here"),
];

/// What the rows say of a text, or else this.
fn found(rows: &[(&str, &'static str)], text: &str, or: &'static str) -> &'static str {
    for row in rows {
        if row.0 == text {
            return row.1;
        }
    }
    or
}

/// Where a token stands with which nothing goes on.
fn on_token(got: &str, expected: &str, place: Surroundings<'_>) -> &'static str {
    match expected {
        "',' or '}'" => found(
            &AFTER_MEMBER,
            got,
            "a comma and a key are missing before this",
        ),
        "',' or ']'" => found(&AFTER_ITEM, got, "a comma is missing before this value"),
        "':'" => found(&AFTER_KEY, got, "a colon is missing before this value"),
        "field name or '}'" | "field name" => found(&AT_KEY, got, "a key stands in double quotes"),
        "value or ']'" | "value" => at_value(got, place),
        "end of input" => "a file holds one value: remove what follows it",
        _ => "write what is expected here",
    }
}

/// Where a value may stand.
fn at_value(got: &str, place: Surroundings<'_>) -> &'static str {
    match got {
        "Comma" => "remove this comma, or write a value before it",
        "Colon" => "remove this colon",
        _ if place.is_after(b',') => "remove the comma before this bracket",
        _ if place.is_after(b':') => "a value is missing before this bracket",
        _ if place.is_after(b'[') => "a ] is missing before this bracket",
        _ => "this bracket closes nothing: remove it, or write the one that it closes",
    }
}

/// Where no text stands.
fn on_bytes(meant: &[u8]) -> &'static str {
    if meant.is_ascii() {
        "half a character: write both halves of the surrogate pair, or the character itself"
    } else {
        "these bytes are not UTF-8: write the file in that encoding"
    }
}

/// Where no token begins, or a string or a number is none.
fn on_character(character: char, place: Surroundings<'_>) -> &'static str {
    match place.meant {
        [_, _, ..] if place.before.ends_with(b"\\u") => "four hexadecimal digits stand after \\u",
        [b'-'] => "a digit is missing after the minus",
        [b'-' | b'0'..=b'9', ..] => on_number(place.meant),
        [b'\0'..=b'\x1F', ..] if matches!(place.language, Language::Strict) => {
            "write this control character as an escape, such as \\n or \\u001f"
        }
        _ if place.before.ends_with(b"\\") => {
            "write two backslashes: the escapes are \\\" \\\\ \\/ \\b \\f \\n \\r \\t and \\u with four digits"
        }
        _ if place.is_in_word() => WORDS,
        _ if place.rest.starts_with(b"\xEF\xBB\xBF") => "remove the byte order mark",
        _ => on_stray(character, place),
    }
}

/// Where a number has no value, or is none of RFC 8259.
fn on_number(number: &[u8]) -> &'static str {
    let digits = number.strip_prefix(b"-").unwrap_or(number);
    match digits {
        _ if digits.len() > 38 && are_digits(digits) => {
            "this number takes more than 128 bits: write it as a string"
        }
        [b'0', b'0'..=b'9', ..] => "remove the zeros at the front of this number",
        _ => "digits stand on both sides of a point, and after an e",
    }
}

/// Whether the bytes are digits alone.
fn are_digits(bytes: &[u8]) -> bool {
    for byte in bytes {
        if !byte.is_ascii_digit() {
            return false;
        }
    }
    true
}

/// Where a token can't begin with this character.
fn on_stray(character: char, place: Surroundings<'_>) -> &'static str {
    match character {
        '\0'..='\x1F' => "remove this control character",
        '\'' | '`' => "strings and keys stand in double quotes",
        '\u{E2}' if is_quote(place.rest) => "strings and keys stand in double quotes",
        '/' | '#' => on_comment(place),
        '+' => "a number has no plus at its front",
        '.' => "a digit is missing before the point",
        '=' => "a colon stands between a key and its value",
        ';' => "a comma stands between values",
        '(' | ')' | '<' | '>' => "lists stand between [ and ], members between { and }",
        _ => on_word(place.word()),
    }
}

/// Whether the text begins with a quotation mark of U+2018 to U+201F.
fn is_quote(text: &[u8]) -> bool {
    matches!(text, [0xE2, 0x80, 0x98..=0x9F, ..])
}

/// Where a comment may be meant.
fn on_comment(place: Surroundings<'_>) -> &'static str {
    match place.rest {
        [b'/', b'/' | b'*', ..] => "comments are read with --jsonc",
        _ if matches!(place.language, Language::Jsonc) => "a comment begins with // or /*",
        _ => "a comment begins with // or /*, and is read with --jsonc",
    }
}

/// Where a word stands that is none of JSON.
fn on_word(word: &str) -> &'static str {
    match word {
        "" => "remove this character, or write it in a string",
        "True" | "TRUE" | "False" | "FALSE" | "Null" | "NULL" => {
            "the words of JSON are true, false and null"
        }
        "None" | "nil" | "undefined" => "the word for no value is null",
        "NaN" | "Infinity" | "inf" => "JSON has no such number: write null, or a string",
        _ => WORDS,
    }
}
