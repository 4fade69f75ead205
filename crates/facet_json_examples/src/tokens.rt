//! Tokens of an input, or of a buffer that grows.

use facet_json::scanner::{Mode, ScanError, Scanner, Token, cut};

/// The offset after the first token of the input.
fn first_end(input: &[u8]) -> Result<usize, ScanError> {
    let token = cut(input, 0, Mode::Jsonc)?;
    Ok(token.span.end())
}

/// Whether the first token of a buffer that may still grow is whole.
fn is_whole(buffer: &[u8]) -> Result<bool, ScanError> {
    match Scanner::new().next_token(buffer)?.token {
        Token::NeedMore { .. } => Ok(false),
        _ => Ok(true),
    }
}
