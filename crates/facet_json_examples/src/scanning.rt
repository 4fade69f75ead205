//! Tokens one by one, and what strings and numbers stand for.

use facet_json::scanner::{
    DecodeError, ParsedNumber, ScanError, Scanner, Token, decode_string, parse_number,
};
use std::alloc::Global;
use std::borrow::CowStr;

/// How many brackets, literals, strings and other tokens stand in the input, comments aside.
pub fn tokens_in(input: &[u8]) -> Result<usize, ScanError> {
    let mut scanner = Scanner::new_with_comments();
    for count in 0..input.len() {
        match scanner.next_token(input)?.token {
            Token::Eof => return Ok(count),
            // a number or a comment that the input's end may cut
            Token::NeedMore { .. } => {
                return match scanner.finalize_at_eof(input)?.token {
                    Token::Eof => Ok(count),
                    _ => Ok(count + 1),
                };
            }
            _ => {}
        }
    }
    Ok(input.len())
}

/// The text of the string that the input begins with, borrowed where no escape stands in it.
pub fn first_text<'a>(alloc: Global, input: &'a [u8]) -> Result<Option<CowStr<'a>>, DecodeError> {
    match Scanner::new().next_token(input)?.token {
        Token::String {
            start,
            end,
            has_escapes,
        } => Ok(Some(decode_string(alloc, input, start, end, has_escapes)?)),
        _ => Ok(None),
    }
}

/// The number that the input begins with, where something follows that ends it.
pub fn first_number<'a>(input: &'a [u8]) -> Result<Option<ParsedNumber<'a>>, ScanError> {
    match Scanner::new().next_token(input)?.token {
        Token::Number { start, end, hint } => Ok(Some(parse_number(input, start, end, hint)?)),
        _ => Ok(None),
    }
}
