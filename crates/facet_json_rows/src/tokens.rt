//! The tokens of an input, and calls of a scanner.

use crate::pieces::write_other_pieces;
use facet_json::scanner::{Mode, ScanError, ScanResult, Scanner, Token, cut};
use facet_json_row_values::told::Told;
use facet_json_row_values::words::first_word;

/// Tells a refusal: the kind, the offset of its bytes and their number.
pub fn write_refusal(error: &ScanError, told: &mut Told) {
    told.show_at(&error.kind, error.span);
    told.say("\n");
}

/// Tells a token, the offset of its bytes and their number, or the refusal.
fn write_scanned(scanned: &ScanResult, told: &mut Told) {
    match scanned {
        Ok(found) => {
            told.show_at(&found.token, found.span);
            told.say("\n");
        }
        Err(error) => write_refusal(error, told),
    }
}

/// Tells the tokens of the input in the mode of this name.
pub fn answer_tokens(word: &str, input: &[u8], told: &mut Told) {
    match word {
        "plain" => write_tokens(Mode::Plain, input, told),
        "jsonc" => write_tokens(Mode::Jsonc, input, told),
        _ => told.line("NO MODE"),
    }
}

/// Tells each token of the input, and then its end or the refusal; and where scanners find others.
fn write_tokens(mode: Mode, input: &[u8], told: &mut Told) {
    let mut position = 0;
    for _ in 0..=input.len() {
        let Some(scanned) = cut_at(input, position, mode) else {
            break;
        };
        write_scanned(&scanned, told);
        match passed(&scanned) {
            Some(end) => position = end,
            None => return write_other_pieces(input, told),
        }
    }
    told.line("DIFFERS: tokens after the input");
}

/// What is cut of the input there; nothing where that is after its end.
pub fn cut_at(input: &[u8], position: usize, mode: Mode) -> Option<ScanResult> {
    if position <= input.len() {
        Some(cut(input, position, mode))
    } else {
        None
    }
}

/// Where the token ends; nothing of the end and of a refusal.
pub fn passed(scanned: &ScanResult) -> Option<usize> {
    match scanned {
        Ok(found) if found.token != Token::Eof => Some(found.span.end()),
        _ => None,
    }
}

/// A scanner that is made so: `new`, `default`, `with_comments` or `at_position N`.
fn made(words: &str) -> Option<Scanner> {
    match words {
        "new" => Some(Scanner::new()),
        "default" => Some(Scanner::default()),
        "with_comments" => Some(Scanner::new_with_comments()),
        _ => Some(Scanner::at_position(words.strip_prefix("at_position ")?.parse().ok()?)),
    }
}

/// Tells what a scanner answers to the calls, which `|` parts, and where it stands after each.
pub fn answer_scanner(words: &str, calls: &str, told: &mut Told) {
    match made(words) {
        Some(mut scanner) => write_calls(&mut scanner, calls, told),
        None => told.line("NO SCANNER"),
    }
}

fn write_calls(scanner: &mut Scanner, calls: &str, told: &mut Told) {
    for call in calls.split('|') {
        let (name, buffer) = first_word(call);
        write_call(scanner, name, buffer, told);
        told.say("at ");
        told.show_line(&scanner.pos());
    }
}

/// Tells what the scanner answers: `next BUFFER` or `last BUFFER`. After `to N` it goes on there, and `show` shows it.
fn write_call(scanner: &mut Scanner, name: &str, buffer: &str, told: &mut Told) {
    match (name, buffer.parse()) {
        ("show", _) => told.show_line(scanner),
        ("to", Ok(position)) => scanner.set_pos(position),
        _ => match called(scanner, name, buffer.as_bytes()) {
            Some(scanned) => write_scanned(&scanned, told),
            None => told.line("NO CALL"),
        },
    }
}

/// What the scanner answers of the buffer, which has all bytes that it has passed.
fn called(scanner: &mut Scanner, name: &str, buffer: &[u8]) -> Option<ScanResult> {
    if scanner.pos() > buffer.len() {
        return None;
    }
    match name {
        "next" => Some(scanner.next_token(buffer)),
        "last" => Some(scanner.finalize_at_eof(buffer)),
        _ => None,
    }
}
