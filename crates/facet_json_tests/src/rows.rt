//! Inputs, and what a scan of each gives.

use facet_format::Span;
use facet_format::numeral::NumberHint;
use facet_json_scan::Scanned;
use facet_json_token::{ScanError, ScanErrorKind, SpannedToken, Token};

/// What is refused, a character or the end, and its offset and length.
type Part = (&'static str, usize, usize);

/// An input, whether it may have comments, and its tokens and refusal.
pub struct Row {
    pub input: &'static [u8],
    pub comments: bool,
    tokens: &'static [SpannedToken],
    refusal: Option<Part>,
}

impl Row {
    /// Whether a scan of the input gave this.
    pub fn is(&self, scanned: &Scanned) -> bool {
        self.tokens == scanned.tokens.as_slice()
            && part_of(&scanned.refusal) == self.refusal
            && self.input.starts_with(scanned.buf.as_slice())
            && (scanned.refusal.is_some() || scanned.buf.len() == self.input.len())
    }
}

/// What is refused: a character, the end, or a text.
fn part_of(refusal: &Option<ScanError>) -> Option<Part> {
    let Some(ScanError { kind, span }) = refusal else {
        return None;
    };
    let part = match kind {
        ScanErrorKind::UnexpectedChar(_) => "char",
        ScanErrorKind::UnexpectedEof(_) => "end",
        ScanErrorKind::InvalidUtf8 => "text",
    };
    Some((part, span.offset, span.len))
}

#[rattlefmt::skip]
pub static ROWS: [Row; 14] = [
    Row { input: b"42", comments: false, refusal: None, tokens: &[
        SpannedToken { token: Token::Number { start: 0, end: 2, hint: NumberHint::Unsigned }, span: Span { offset: 0, len: 2 } },
    ] },
    Row { input: b"[-1.5e+2,\"\\ud83d\\ude00\"]", comments: false, refusal: None, tokens: &[
        SpannedToken { token: Token::ArrayStart, span: Span { offset: 0, len: 1 } },
        SpannedToken { token: Token::Number { start: 1, end: 8, hint: NumberHint::Float }, span: Span { offset: 1, len: 7 } },
        SpannedToken { token: Token::Comma, span: Span { offset: 8, len: 1 } },
        SpannedToken { token: Token::String { start: 10, end: 22, has_escapes: true }, span: Span { offset: 9, len: 14 } },
        SpannedToken { token: Token::ArrayEnd, span: Span { offset: 23, len: 1 } },
    ] },
    Row { input: b"1 //a\n/*b*/ /", comments: true, refusal: Some(("char", 12, 1)), tokens: &[
        SpannedToken { token: Token::Number { start: 0, end: 1, hint: NumberHint::Unsigned }, span: Span { offset: 0, len: 1 } },
    ] },
    Row { input: b"/*/", comments: true, refusal: Some(("end", 0, 3)), tokens: &[] },
    Row { input: b"", comments: false, refusal: None, tokens: &[] },
    Row { input: b"   1", comments: false, refusal: None, tokens: &[
        SpannedToken { token: Token::Number { start: 3, end: 4, hint: NumberHint::Unsigned }, span: Span { offset: 3, len: 1 } },
    ] },
    Row { input: b"{\"key\" : null}", comments: false, refusal: None, tokens: &[
        SpannedToken { token: Token::ObjectStart, span: Span { offset: 0, len: 1 } },
        SpannedToken { token: Token::String { start: 2, end: 5, has_escapes: false }, span: Span { offset: 1, len: 5 } },
        SpannedToken { token: Token::Colon, span: Span { offset: 7, len: 1 } },
        SpannedToken { token: Token::Null, span: Span { offset: 9, len: 4 } },
        SpannedToken { token: Token::ObjectEnd, span: Span { offset: 13, len: 1 } },
    ] },
    Row { input: b"[true,false,-7] \n ", comments: false, refusal: None, tokens: &[
        SpannedToken { token: Token::ArrayStart, span: Span { offset: 0, len: 1 } },
        SpannedToken { token: Token::True, span: Span { offset: 1, len: 4 } },
        SpannedToken { token: Token::Comma, span: Span { offset: 5, len: 1 } },
        SpannedToken { token: Token::False, span: Span { offset: 6, len: 5 } },
        SpannedToken { token: Token::Comma, span: Span { offset: 11, len: 1 } },
        SpannedToken { token: Token::Number { start: 12, end: 14, hint: NumberHint::Signed }, span: Span { offset: 12, len: 2 } },
        SpannedToken { token: Token::ArrayEnd, span: Span { offset: 14, len: 1 } },
    ] },
    Row { input: b"1 x2", comments: false, refusal: Some(("char", 2, 1)), tokens: &[
        SpannedToken { token: Token::Number { start: 0, end: 1, hint: NumberHint::Unsigned }, span: Span { offset: 0, len: 1 } },
    ] },
    Row { input: b"\"a\\\"b", comments: false, refusal: Some(("end", 0, 5)), tokens: &[] },
    Row { input: b"tru", comments: false, refusal: Some(("end", 0, 3)), tokens: &[] },
    Row { input: b"[-", comments: false, refusal: Some(("end", 1, 1)), tokens: &[
        SpannedToken { token: Token::ArrayStart, span: Span { offset: 0, len: 1 } },
    ] },
    Row { input: b"//a [1]", comments: true, refusal: None, tokens: &[] },
    Row { input: b"//a\n/**/7//b", comments: true, refusal: None, tokens: &[
        SpannedToken { token: Token::Number { start: 8, end: 9, hint: NumberHint::Unsigned }, span: Span { offset: 8, len: 1 } },
    ] },
];
