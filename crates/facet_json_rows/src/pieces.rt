//! Whatever the pieces in which an input comes, a scanner returns what is cut of the whole.

use crate::tokens::{cut_at, passed};
use facet_json::Span;
use facet_json::scanner::{Mode, ScanResult, Scanner, Token};
use facet_json_row_values::told::Told;

/// What a call came to.
#[derive(Clone, Copy)]
enum Outcome {
    /// It asks for more bytes, or says that none are left while some are to come.
    Waits,
    /// The token that is cut of the whole input, up to this offset.
    Token(usize),
    /// The end or the refusal that is cut of the whole input.
    Ends,
    /// Something else.
    Differs,
}

/// Compares what was scanned with what is cut of the whole input at `start`.
fn compare(scanned: &ScanResult, input: &[u8], start: usize, mode: Mode) -> Outcome {
    match cut_at(input, start, mode) {
        Some(found) if found == *scanned => {}
        _ => return Outcome::Differs,
    }
    match passed(scanned) {
        Some(end) => Outcome::Token(end),
        None => Outcome::Ends,
    }
}

/// The call where all bytes have come and the scanner asks for more.
fn last(scanner: &mut Scanner, input: &[u8], start: usize, mode: Mode) -> Outcome {
    if scanner.pos() > input.len() {
        return Outcome::Differs;
    }
    compare(&scanner.finalize_at_eof(input), input, start, mode)
}

/// Whether more bytes are asked for.
fn asks(scanned: &ScanResult) -> bool {
    match scanned {
        Ok(found) => matches!(&found.token, Token::NeedMore { .. }),
        Err(_) => false,
    }
}

/// Whether nothing is left of a buffer of this length.
fn is_eof(scanned: &ScanResult, len: usize) -> bool {
    match scanned {
        Ok(found) => found.token == Token::Eof && found.span == Span::new(len, 0),
        Err(_) => false,
    }
}

/// The call where the first `len` bytes of the input have come.
fn next(scanner: &mut Scanner, input: &[u8], len: usize, start: usize, mode: Mode) -> Outcome {
    if len > input.len() || scanner.pos() > len {
        return Outcome::Differs;
    }
    let scanned = scanner.next_token(&input[..len]);
    let asks = asks(&scanned);
    if len < input.len() && (asks || is_eof(&scanned, len)) {
        Outcome::Waits
    } else if asks {
        last(scanner, input, start, mode)
    } else {
        compare(&scanned, input, start, mode)
    }
}

/// Whether a scanner returns what is cut of the whole input, of which `first` bytes come and then `step` at a time.
fn agrees(input: &[u8], mode: Mode, first: usize, step: usize) -> bool {
    let mut scanner = match mode {
        Mode::Plain => Scanner::new(),
        Mode::Jsonc => Scanner::new_with_comments(),
    };
    let mut start = 0;
    let mut len = first;
    for _ in 0..=input.len().saturating_mul(2) {
        match next(&mut scanner, input, len, start, mode) {
            Outcome::Waits => len = len.saturating_add(step).min(input.len()),
            Outcome::Token(end) => start = end,
            Outcome::Ends => return true,
            Outcome::Differs => return false,
        }
    }
    false
}

/// Whether scanners of both modes do.
fn both_agree(input: &[u8], first: usize, step: usize) -> bool {
    agrees(input, Mode::Plain, first, step) && agrees(input, Mode::Jsonc, first, step)
}

/// Whether they do byte by byte, and in each two pieces.
pub fn agree(input: &[u8]) -> bool {
    for first in 0..=input.len() {
        if !both_agree(input, first, input.len()) {
            return false;
        }
    }
    both_agree(input, 0, 1)
}

/// Tells the input where scanners find other tokens of its pieces.
pub fn write_other_pieces(input: &[u8], told: &mut Told) {
    if !agree(input) {
        told.say("DIFFERS: in pieces, ");
        told.show_line(&input);
    }
}

/// Tells each text of one to four of the bytes of whose pieces scanners find other tokens, and how many texts there are.
pub fn answer_short_texts(bytes: &[u8], told: &mut Told) {
    let mut count = 0_usize;
    for a in bytes {
        write_other_pieces(&[*a], told);
        for b in bytes {
            write_other_pieces(&[*a, *b], told);
            for c in bytes {
                write_other_pieces(&[*a, *b, *c], told);
                for d in bytes {
                    write_other_pieces(&[*a, *b, *c, *d], told);
                    count = count.saturating_add(1);
                }
            }
        }
    }
    told.show(&count);
    told.line(" texts of four bytes");
}
