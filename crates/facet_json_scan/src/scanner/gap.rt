//! The gap before a token, in a buffer that grows.

ghost use Rattle.std.specs.Prelude.{◌≡◌, ◌<◌, ◌≤◌, length, take, drop, Some, slice_get};
ghost use Rattle.facet_format.specs.Bytes.{slash};
ghost use Rattle.facet_format.specs.Bytes as bytes;
ghost use Rattle.facet_json_token.specs.Gap.{jsonc};
ghost use Rattle.facet_json_scan.specs.Scanner.{in_line, in_block, Describes};
ghost use Rattle.facet_json_token.specs.Views.{mode_of};
ghost use Rattle.facet_json_scan.specs.Inner.Found.{PieceHere, PieceWithin};

use crate::scanner::pending::State;
use facet_json_token::Mode;
use facet_json_token::cutting::{block_end, line_end};

/// What of a gap stands at a place.
#[derive(Drop)]
pub enum Piece {
    /// White space or a closed comment, which ends here.
    Closed(usize),
    /// A comment that the end of the buffer cuts.
    Open(State),
    /// Neither.
    Absent,
}

/// The piece of a gap at `at`.
pub fn piece_from(buffer: &[u8], at: usize, mode: Mode) -> Piece
    requires { at ≤ length buffer.now }
    ensures here { PieceHere (mode_of mode) buffer.now at result }
    ensures within { PieceWithin at (length buffer.now) result }
{
    let Some(first) = buffer.get(at) else {
        return Piece::Absent;
    };
    if is_space(*first) {
        return Piece::Closed(at + 1);
    }
    if *first != b'/' {
        return Piece::Absent;
    }
    match mode {
        Mode::Plain => Piece::Absent,
        Mode::Jsonc => comment_from(buffer, at),
    }
}

/// Whether the byte is white space (RFC 8259, section 2).
fn is_space(byte: u8) -> bool
    ensures { result ≡ bytes.is_space byte }
{
    byte == b' ' || byte == b'\t' || byte == b'\n' || byte == b'\r'
}

/// The comment whose slash is at `at`.
fn comment_from(buffer: &[u8], at: usize) -> Piece
    requires { slice_get buffer.now at ≡ Some slash }
    ensures here { PieceHere jsonc buffer.now at result }
    ensures within { PieceWithin at (length buffer.now) result }
{
    let Some(second) = buffer.get(at + 1) else {
        return Piece::Open(State::Slash);
    };
    match *second {
        b'*' => block_from(buffer, at, at + 2, false),
        b'/' => line_from(buffer, at, at + 2),
        _ => Piece::Absent,
    }
}

/// Goes on at `at` with the line comment at `start`.
pub fn line_from(buffer: &[u8], start: usize, at: usize) -> Piece
    requires order { start < at }
    requires room { at ≤ length buffer.now }
    ensures here { Describes jsonc in_line (drop start (take at buffer.now)) → PieceHere jsonc buffer.now start result }
    ensures within { PieceWithin start (length buffer.now) result }
{
    match line_end(buffer, at) {
        Some(end) => Piece::Closed(end),
        None => Piece::Open(State::Line),
    }
}

/// Goes on at `at` with the block comment at `start`.
pub fn block_from(buffer: &[u8], start: usize, at: usize, after_star: bool) -> Piece
    requires order { start < at }
    requires room { at ≤ length buffer.now }
    ensures here { Describes jsonc (in_block after_star) (drop start (take at buffer.now))
        → PieceHere jsonc buffer.now start result }
    ensures within { PieceWithin start (length buffer.now) result }
{
    let Some(first) = buffer.get(at) else {
        return Piece::Open(State::Block { after_star });
    };
    if *first == b'/' && after_star {
        return Piece::Closed(at + 1);
    }
    match block_end(buffer, at) {
        Some(end) => Piece::Closed(end),
        None => Piece::Open(State::Block {
            after_star: buffer[buffer.len() - 1] == b'*',
        }),
    }
}
