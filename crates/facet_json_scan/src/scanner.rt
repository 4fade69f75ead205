//! The scanner over a buffer that grows: a string, number or comment that the buffer's end cuts is gone on with, and not
//! read again.

ghost use Rattle.std.specs.Prelude.{◌≡◌, ℕ, ◌-◌, ◌<◌, ◌≤◌, length, take, drop, Some, IfSome, IfErr};
ghost use Rattle.facet_json_token.specs.Gap.{plain, jsonc};
ghost use Rattle.facet_format.specs.Span.{stop, span_at};
ghost use Rattle.facet_json_token.specs.Cut.{past_gap};
ghost use Rattle.facet_json_token.specs.Cut as spec_cut;
ghost use Rattle.facet_json_scan.specs.Scanner.{answer_for, idle, nothing_pending, scanner_at, first_unread, first_byte_of, stands_at_end};
ghost use Rattle.facet_json_scan.specs.Scanner.{Describes, GoesOnFrom, Gives};
ghost use Rattle.facet_json_scan.specs.Scanner as spec_scanner;
ghost use Rattle.facet_json_token.specs.Views.{mode_of};
ghost use Rattle.facet_json_scan.specs.ScannerViews.{answered, span_answered, IndicesWithin, stands_last};
ghost use Rattle.facet_json_scan.specs.Inner.Found.{state_of, pending_of, position_after, FoundFrom, FoundWithin, RefusedThere, PieceHere};
ghost use Rattle.facet_json_scan.specs.Inner.Found.{PieceWithin};

mod gap;
mod pending;
mod token;
mod whole;

use crate::refusing::cut;
use crate::scanner::gap::{Piece, block_from, line_from};
use crate::scanner::pending::{Pending, State};
use crate::scanner::token::{Found, number_from, scan_from, text_from};
use crate::scanner::whole::scan;
use facet_format::Span;
use facet_json_token::cutting::skip_gap;
use facet_json_token::{Mode, ScanResult, SpannedToken, Token};
use std::marker::Model;

/// Cuts tokens off a buffer that grows.
///
/// A call answers the token at the scanner's position, or that the buffer ends inside of one: then the caller keeps the
/// buffer's bytes, lets more follow them and calls again. What was read of a string, a number or a comment is not read
/// again.
///
/// ```text
/// let mut scanner = Scanner::new();
/// scanner.next_token(b"[12")     Ok: Token::ArrayStart, span 0+1
/// scanner.next_token(b"[12")     Ok: Token::NeedMore { consumed: 1 }, span 1+2
/// scanner.next_token(b"[123]")   Ok: Token::Number { start: 1, end: 4, .. }, span 1+3
/// ```
#[derive(Debug, Drop)]
pub struct Scanner {
    position: usize,
    mode: Mode,
    pending: Option<Pending>,
}

impl Model for Scanner {
    ghost use Rattle.std.specs.Prelude.{◌<◌, IfSome};
    ghost use Rattle.facet_json_token.specs.Views.{mode_of};
    ghost use Rattle.facet_json_scan.specs.Inner.Found.{pending_of};
    ghost use Rattle.facet_json_scan.specs.Scanner as spec;

    ghost Value = { spec.Scanner };

    ghost view = { λ s. record { position = s.position; mode = mode_of s.mode; pending = pending_of s.pending } };

    ghost invariant = { λ s. IfSome s.pending (λ p. p.start < s.position) };
}

impl Scanner {
    /// A scanner of JSON without comments (RFC 8259), at the first byte.
    pub fn new() -> Scanner
        ensures { result ≡ idle 0 plain }
    {
        Scanner::idle_at(0, Mode::Plain)
    }

    /// A scanner of JSON with comments, at the first byte.
    pub fn new_with_comments() -> Scanner
        ensures { result ≡ idle 0 jsonc }
    {
        Scanner::idle_at(0, Mode::Jsonc)
    }

    /// A scanner of JSON without comments, at the byte with this offset.
    pub fn at_position(pos: usize) -> Scanner
        ensures { result ≡ idle pos plain }
    {
        Scanner::idle_at(pos, Mode::Plain)
    }

    /// A scanner at this offset, with nothing pending.
    fn idle_at(pos: usize, mode: Mode) -> Scanner
        ensures { result ≡ idle pos (mode_of mode) }
    {
        Scanner {
            position: pos,
            mode,
            pending: None,
        }
    }

    /// The offset up to which the buffer was read.
    pub fn pos(&self) -> usize
        ensures { result ≡ self.now.position }
    {
        self.position
    }

    /// Goes on at this offset, and forgets a token that the end of the buffer cut.
    pub fn set_pos(&mut self, pos: usize)
        ensures { self.new ≡ idle pos self.old.mode }
    {
        self.position = pos;
        self.pending = None;
    }

    /// Returns the token after the gap at the position (RFC 8259, section 2), and stands after it.
    ///
    /// Where the buffer ends inside of what may be a longer token or comment, the answer is `NeedMore` with the
    /// first byte of it, the span goes from there to the end of the buffer, and the position is that end. The next call
    /// goes on with it, if the buffer's bytes up to the position are still the same. Where nothing is left the answer
    /// is `Eof`, an empty span at the end of the buffer. Offsets are in bytes.
    ///
    /// On every buffer, also one whose bytes are no longer the same, the position, the span and the indices of the
    /// answer lie within it, and what is refused is what stands at the position: the same call again refuses alike.
    ///
    /// # Errors
    ///
    /// No token stands there. The position is then the first byte of what is refused, and nothing is pending.
    pub fn next_token(&mut self, buf: &[u8]) -> ScanResult
        requires { self.old.position ≤ length buf.now }
        ensures token { (p : ℕ) → GoesOnFrom self.old buf.now p
            → Gives buf.now p self.old.mode (answered result) self.new }
        ensures position { self.new.position ≤ length buf.now }
        ensures span { stop (span_answered result) ≤ length buf.now }
        ensures indices { IndicesWithin (length buf.now) result }
        ensures idle { IfErr result (λ _. self.new.pending ≡ nothing_pending) }
        ensures refusal { IfErr result (λ _. Gives buf.now self.new.position self.old.mode (answered result) self.new) }
        ensures mode { self.new.mode ≡ self.old.mode }
    {
        match find(buf, self.position, self.pending, self.mode) {
            Found::Open { start, state } => {
                self.pending = Some(Pending { start, state });
                self.position = buf.len();
                needs_more(buf, start)
            }
            Found::Answer { start, result } => {
                self.pending = None;
                self.position = stands_after(start, buf.len(), &result);
                result
            }
        }
    }

    /// Returns what is pending, where no more bytes follow those up to the position: a number, the end after a line
    /// comment, or a refusal. With nothing pending the answer is the end.
    ///
    /// Nothing is pending afterwards, and the position stays, unless the answer is a refusal.
    ///
    /// # Errors
    ///
    /// The bytes end inside of a token or a block comment, or are no longer the same, and no token stands there. The
    /// position is then the first byte of what is refused, where the gap before it ends.
    pub fn finalize_at_eof(&mut self, buf: &[u8]) -> ScanResult
        requires { self.old.position ≤ length buf.now }
        ensures token { answered result ≡ Some (answer_for self.old.position
            (spec_cut.cut (take self.old.position buf.now) (first_unread self.old) self.old.mode)) }
        ensures scanner { self.new ≡ idle (stands_at_end self.old (take self.old.position buf.now)
            (spec_cut.cut (take self.old.position buf.now) (first_unread self.old) self.old.mode)) self.old.mode }
        ensures span { stop (span_answered result) ≤ self.old.position }
        ensures indices { IndicesWithin self.old.position result }
    {
        let first = first_byte(self.position, self.pending);
        let result = cut_prefix(buf, self.position, first, self.mode);
        self.pending = None;
        self.position = stands_at_end(buf, self.position, first, self.mode, &result);
        result
    }
}

/// What stands at `position`, or goes on there with what is pending.
#[inline(always)]
fn find(buffer: &[u8], position: usize, pending: Option<Pending>, mode: Mode) -> Found
    requires room { position ≤ length buffer.now }
    requires order { IfSome pending (λ p. p.start < position) }
    ensures here { (p : ℕ) → GoesOnFrom (scanner_at position (mode_of mode) (pending_of pending)) buffer.now p
        → FoundFrom (mode_of mode) buffer.now p result }
    ensures within { FoundWithin (length buffer.now) result }
    ensures refusal { RefusedThere (mode_of mode) buffer.now result }
{
    match pending {
        Some(pending) => resume(buffer, position, pending, mode),
        None => scan(buffer, position, mode),
    }
}

/// Goes on at `at` with what is pending.
fn resume(buffer: &[u8], at: usize, pending: Pending, mode: Mode) -> Found
    requires order { pending.start < at }
    requires room { at ≤ length buffer.now }
    ensures here { Describes (mode_of mode) (state_of pending.state) (drop pending.start (take at buffer.now))
        → FoundFrom (mode_of mode) buffer.now pending.start result }
    ensures within { FoundWithin (length buffer.now) result }
    ensures refusal { RefusedThere (mode_of mode) buffer.now result }
{
    let start = pending.start;
    match pending.state {
        State::Text {
            escaped,
            has_escapes,
        } => text_from(buffer, start, at, escaped, has_escapes),
        State::Line => after_comment(buffer, start, line_from(buffer, start, at), mode),
        State::Block { after_star } => {
            after_comment(
                buffer,
                start,
                block_from(buffer, start, at, after_star),
                mode,
            )
        }
        State::Number(part) => number_from(buffer, start, at, part),
        State::Word | State::Slash => scan_from(buffer, start, mode),
    }
}

/// What stands after the comment at `start`, if it is closed.
fn after_comment(buffer: &[u8], start: usize, comment: Piece, mode: Mode) -> Found
    requires room { start ≤ length buffer.now }
    requires within { PieceWithin start (length buffer.now) comment }
    ensures here { PieceHere (mode_of mode) buffer.now start comment → FoundFrom (mode_of mode) buffer.now start result }
    ensures within { FoundWithin (length buffer.now) result }
    ensures refusal { RefusedThere (mode_of mode) buffer.now result }
{
    match comment {
        Piece::Closed(end) => scan_from(buffer, end, mode),
        Piece::Open(state) => Found::Open { start, state },
        Piece::Absent => scan_from(buffer, start, mode),
    }
}

/// The first byte of what is pending, or the position.
fn first_byte(position: usize, pending: Option<Pending>) -> usize
    requires { IfSome pending (λ p. p.start < position) }
    ensures first { result ≡ first_byte_of position (pending_of pending) }
    ensures within { result ≤ position }
{
    match pending {
        Some(pending) => pending.start,
        None => position,
    }
}

/// Cuts what stands at `first`, where the input ends at `end`.
fn cut_prefix(buffer: &[u8], end: usize, first: usize, mode: Mode) -> ScanResult
    requires order { first ≤ end }
    requires room { end ≤ length buffer.now }
    ensures token { answered result
        ≡ Some (answer_for end (spec_cut.cut (take end buffer.now) first (mode_of mode))) }
    ensures span { stop (span_answered result) ≤ end }
    ensures indices { IndicesWithin end result }
{
    cut(&buffer[..end], first, mode)
}

/// Where the scanner stands after the last answer, where the input ends at `end`: there, or after a refusal at the first
/// byte of what is refused.
fn stands_at_end(buffer: &[u8], end: usize, first: usize, mode: Mode, answer: &ScanResult) -> usize
    requires order { first ≤ end }
    requires room { end ≤ length buffer.now }
    ensures { result ≡ stands_last end (past_gap (take end buffer.now) first (mode_of mode)) answer.now }
{
    match answer {
        Ok(_) => end,
        Err(_) => skip_gap(&buffer[..end], first, mode),
    }
}

/// That more bytes are needed from `start` on.
fn needs_more(buffer: &[u8], start: usize) -> ScanResult
    requires { start ≤ length buffer.now }
    ensures token { answered result
        ≡ Some (spec_scanner.needs_more start (span_at start (length buffer.now - start))) }
    ensures indices { IndicesWithin (length buffer.now) result }
{
    Ok(SpannedToken {
        token: Token::NeedMore { consumed: start },
        span: Span::new(start, buffer.len() - start),
    })
}

/// Where the scanner stands after an answer: after the token, or at the first byte of what is refused.
fn stands_after(start: usize, last: usize, answer: &ScanResult) -> usize
    requires { stop (span_answered answer.now) ≤ last }
    ensures { result ≡ position_after start answer.now }
{
    match answer {
        Ok(token) => token.span.offset + token.span.len,
        Err(_) => start,
    }
}

impl Default for Scanner {
    /// A scanner of JSON without comments, at the first byte.
    fn default() -> Scanner
        ensures { result ≡ idle 0 plain }
    {
        Scanner::new()
    }
}
