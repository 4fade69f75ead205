//! A text passed token by token, event by event, or as one value. Each pass is compiled apart from the others, so that none changes
//! another's code.

use crate::seen::{Seen, held, weight};
use facet_json::scanner::{Mode, Scanner, Token, cut};
use facet_json::{FormatParser, JsonParser};
use std::alloc::Global;

/// Each token, cut by its position.
#[inline(never)]
pub fn tokens(input: &[u8], mode: Mode) -> Option<Seen> {
    let mut position = 0;
    let mut seen = Seen::none();
    for _ in 0..u64::MAX {
        if position > input.len() {
            return None;
        }
        match cut(input, position, mode) {
            Ok(token) => match token.token {
                Token::Eof => return Some(seen),
                _ => {
                    position = token.span.end();
                    seen = seen.with(weight(&token.token, token.span.len));
                }
            },
            Err(_) => return None,
        }
    }
    None
}

/// Each token, cut by a scanner.
#[inline(never)]
pub fn scanned(input: &[u8], mode: Mode) -> Option<Seen> {
    let mut scanner = match mode {
        Mode::Plain => Scanner::new(),
        Mode::Jsonc => Scanner::new_with_comments(),
    };
    let mut seen = Seen::none();
    for _ in 0..u64::MAX {
        if scanner.pos() > input.len() {
            return None;
        }
        match scanner.next_token(input) {
            Ok(token) => match token.token {
                Token::Eof => return Some(seen),
                Token::NeedMore { .. } => return ended(&mut scanner, input, seen),
                _ => seen = seen.with(weight(&token.token, token.span.len)),
            },
            Err(_) => return None,
        }
    }
    None
}

/// What was passed, and the token that the end of the input ends.
fn ended(scanner: &mut Scanner, input: &[u8], seen: Seen) -> Option<Seen> {
    if scanner.pos() > input.len() {
        return None;
    }
    match scanner.finalize_at_eof(input) {
        Ok(token) => match token.token {
            Token::Eof => Some(seen),
            _ => Some(seen.with(weight(&token.token, token.span.len))),
        },
        Err(_) => None,
    }
}

/// A parser that checks its texts.
fn checking(alloc: Global, input: &[u8], mode: Mode) -> JsonParser<'_> {
    match mode {
        Mode::Plain => JsonParser::new(alloc, input),
        Mode::Jsonc => JsonParser::new_jsonc(alloc, input),
    }
}

/// A parser of a text, which is known to be UTF-8.
fn trusting(alloc: Global, input: &str, mode: Mode) -> JsonParser<'_> {
    match mode {
        Mode::Plain => JsonParser::new_trusted(alloc, input.as_bytes()),
        Mode::Jsonc => JsonParser::new_jsonc_trusted(alloc, input.as_bytes()),
    }
}

/// Each event of the document.
fn events_left(parser: &mut JsonParser<'_>) -> Option<Seen> {
    let mut seen = Seen::none();
    for _ in 0..u64::MAX {
        match parser.next_event() {
            Ok(Some(event)) => seen = seen.with(held(&event.kind)),
            Ok(None) => return Some(seen),
            Err(_) => return None,
        }
    }
    None
}

/// Each event, from bytes.
#[inline(never)]
pub fn events(alloc: Global, input: &[u8], mode: Mode) -> Option<Seen> {
    events_left(&mut checking(alloc, input, mode))
}

/// Each event, from a text.
#[inline(never)]
pub fn trusted(alloc: Global, input: &str, mode: Mode) -> Option<Seen> {
    events_left(&mut trusting(alloc, input, mode))
}

/// Each event of a text of RFC 8259 alone, from bytes.
#[inline(never)]
pub fn strict_events(alloc: Global, input: &[u8]) -> Option<Seen> {
    events_left(&mut JsonParser::new_strict(alloc, input))
}

/// Each event of a text of RFC 8259 alone, from a text.
#[inline(never)]
pub fn strict_trusted(alloc: Global, input: &str) -> Option<Seen> {
    events_left(&mut JsonParser::new_strict_trusted(alloc, input.as_bytes()))
}

/// The whole document as one value.
#[inline(never)]
pub fn skip(alloc: Global, input: &[u8], mode: Mode) -> Option<Seen> {
    match checking(alloc, input, mode).skip_value() {
        Ok(()) => Some(Seen::none().with(0)),
        Err(_) => None,
    }
}
