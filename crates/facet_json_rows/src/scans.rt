//! Whatever the pieces in which a source gives an input, its tokens are those that are cut of the whole, and a read that fails is told of.

ghost use Rattle.std.specs.Prelude.{◌<◌};

use crate::faults::{Ended, FaultyReader, Trial};
use crate::pieces::write_other_pieces;
use crate::tokens::cut_at;
use facet_json::scanner::{
    Marked, Mode, ScanError, ScanReadError, Scanned, SpannedToken, Token, scan_reader,
};
use facet_json_row_values::told::Told;
use std::alloc::Global;
use std::io::{ErrorKind, Read};

/// How many bytes are asked for at a time.
static STEPS: [usize; 7] = [1, 2, 3, 15, 16, 17, usize::MAX];

/// The most that a source is asked for at a time, whatever the step.
const LONGEST_PIECE: usize = 65_536;

/// A scan of an input that is asked for so many bytes at a time.
#[derive(Clone, Copy)]
pub struct Scan<'a> {
    input: &'a [u8],
    mode: Mode,
    step: usize,
}

/// Tells where scans of the input in pieces, in either mode, find other tokens than are cut of the whole, or do not tell of a read that
/// fails.
fn write_other_scans(alloc: Global, input: &[u8], told: &mut Told) {
    for step in &STEPS {
        if !(tells(alloc, input, Mode::Plain, *step) && tells(alloc, input, Mode::Jsonc, *step)) {
            told.say("DIFFERS: ");
            told.show(step);
            told.say(" bytes at a time, ");
            told.show_line(&input);
        }
    }
}

/// Whether scans in this mode do.
fn tells(alloc: Global, input: &[u8], mode: Mode, step: usize) -> bool {
    Trial::Scan(Scan { input, mode, step }).tells(alloc)
}

/// Tells that pieces of the input make no difference, or which do.
pub fn answer_pieces(alloc: Global, input: &[u8], told: &mut Told) {
    let before = told.len();
    write_other_pieces(input, told);
    write_other_scans(alloc, input, told);
    if told.len() == before {
        told.line("as the whole");
    }
}

/// The scan where the read of this number fails.
pub fn with_failed_scan(alloc: Global, scan: Scan<'_>, at: usize) -> Ended {
    let Scan { input, mode, step } = scan;
    if step == 0 {
        return Ended::Wrong;
    }
    let mut reader = FaultyReader::new(input, at, ErrorKind::BrokenPipe);
    let scan = scan_of(alloc, &mut reader, step, mode);
    let is_asked_well = reader.longest() <= step.min(LONGEST_PIECE);
    Ended::of(
        reader.has_failed(),
        is_asked_well && matches!(scan, Err(ScanReadError::Io)),
        is_asked_well && is_whole(&scan, input, mode),
    )
}

/// What a scan of all that the reader has finds.
pub fn scan_of<R: Read>(
    alloc: Global,
    reader: &mut R,
    step: usize,
    mode: Mode,
) -> Result<Scanned, ScanReadError>
    requires { 0 < step }
{
    let comments = matches!(mode, Mode::Jsonc);
    scan_reader(alloc, &mut Marked::new(reader), step, comments)
}

/// Whether it found what is cut of the whole input, of which it has read all bytes, or the first ones up to a refusal.
fn is_whole(scan: &Result<Scanned, ScanReadError>, input: &[u8], mode: Mode) -> bool {
    match scan {
        Ok(scanned) => {
            are_cut(scanned.tokens.as_slice(), &scanned.refusal, input, mode)
                && input.starts_with(scanned.buf.as_slice())
                && (scanned.refusal.is_some() || scanned.buf.len() == input.len())
        }
        Err(_) => false,
    }
}

/// Whether these tokens, and then this refusal or the end, are cut of the input one after the other.
fn are_cut(tokens: &[SpannedToken], refusal: &Option<ScanError>, input: &[u8], mode: Mode) -> bool {
    let mut position = 0;
    for token in tokens {
        if !is_token(token, input, position, mode) {
            return false;
        }
        position = token.span.end();
    }
    is_end(refusal, input, position, mode)
}

/// Whether the token is cut there.
fn is_token(token: &SpannedToken, input: &[u8], position: usize, mode: Mode) -> bool {
    match cut_at(input, position, mode) {
        Some(Ok(found)) => found.token != Token::Eof && found == *token,
        _ => false,
    }
}

/// Whether the refusal is cut there, or the end where there is none.
fn is_end(refusal: &Option<ScanError>, input: &[u8], position: usize, mode: Mode) -> bool {
    match (cut_at(input, position, mode), refusal) {
        (Some(Ok(found)), None) => found.token == Token::Eof,
        (Some(Err(found)), Some(error)) => found == *error,
        _ => false,
    }
}
