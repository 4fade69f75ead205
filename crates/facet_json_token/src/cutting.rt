//! What stands at a position of a whole input: a gap, and then a token, the end or a fault.

ghost use Rattle.std.specs.Prelude.{◌≡◌, ℕ, ◌+◌, Bool, false, ◌<◌, ◌≤◌, length, drop, Option, slice_get, IfSome, IfOk};
ghost use Rattle.std.specs.Option.{option_map};
ghost use Rattle.facet_json_token.specs.Gap.{whole};
ghost use Rattle.facet_json_token.specs.GapLen.{through_block_end, through_line_end};
ghost use Rattle.facet_json_token.specs.GapLen as spec_gap;
ghost use Rattle.facet_format.specs.NumberParts.{parts, parts_len, parts_hint, is_bare};
ghost use Rattle.facet_json_token.specs.Token.{Kind};
ghost use Rattle.facet_json_token.specs.Token as spec_token;
ghost use Rattle.facet_json_token.specs.Cut.{past_gap, cut_here, fault_at, content_len};
ghost use Rattle.facet_format.specs.Bytes.{slash, backslash};
ghost use Rattle.facet_format.specs.Span.{span_at};
ghost use Rattle.facet_json_token.specs.Cut as spec_cut;
ghost use Rattle.facet_json_token.specs.Views.{mode_of, kind_of, cut_of, inside_text};
ghost use Rattle.facet_format.specs.Views.{span_of};

use crate::fault::{CutResult, Fault, FaultKind, Inside};
use crate::mode::Mode;
use crate::quick::{number_in_sight, past_space, spanned, structural, token_in_sight};
use crate::runs::{Line, Plain, Starless, run_end};
use crate::token::{SpannedToken, Token};
use facet_format::Span;

/// Cuts what stands at `position`: the gap (RFC 8259, section 2), and then a token, the end or a fault. `buffer` is the
/// whole input. What one look tells (`token_in_sight`) is made in line, all else out of line.
///
/// ```text
/// cut(b" [1]", 0, Mode::Plain)    Ok: Token::ArrayStart, span 1+1
/// cut(b" [1]", 4, Mode::Plain)    Ok: Token::Eof, span 4+0
/// cut(b"trux", 0, Mode::Plain)    Err: FaultKind::UnexpectedChar('x'), span 3+1
/// ```
#[inline(always)]
pub fn cut(buffer: &[u8], position: usize, mode: Mode) -> CutResult
    requires { position ≤ length buffer.now }
    ensures answer { cut_of result ≡ Some (spec_cut.cut buffer.now position (mode_of mode)) }
    ensures end { IfOk result (λ t. t.token ≡ Token.Eof → span_of t.span ≡ span_at (length buffer.now) 0) }
{
    let at = past_space(buffer, position);
    match token_in_sight(buffer, at) {
        Some(token) => Ok(token),
        None => cut_apart(buffer, at, mode),
    }
}

/// Does the same, apart from the code that cuts what is in sight: its answer is a value of its own, so that a token in
/// sight, which never passes through this, needs no memory.
#[inline(always)]
fn cut_apart(buffer: &[u8], position: usize, mode: Mode) -> CutResult
    requires { position ≤ length buffer.now }
    ensures answer { cut_of result ≡ Some (spec_cut.cut buffer.now position (mode_of mode)) }
    ensures end { IfOk result (λ t. t.token ≡ Token.Eof → span_of t.span ≡ span_at (length buffer.now) 0) }
{
    let result = cut_out_of_line(buffer, position, mode);
    result
}

/// Does the same for everything that may stand there.
#[inline(never)]
fn cut_out_of_line(buffer: &[u8], position: usize, mode: Mode) -> CutResult
    requires { position ≤ length buffer.now }
    ensures answer { cut_of result ≡ Some (spec_cut.cut buffer.now position (mode_of mode)) }
    ensures end { IfOk result (λ t. t.token ≡ Token.Eof → span_of t.span ≡ span_at (length buffer.now) 0) }
{
    let at = skip_gap(buffer, position, mode);
    match buffer.get(at) {
        Some(first) => cut_token(buffer, at, *first, mode),
        None => Ok(SpannedToken {
            token: Token::Eof,
            span: Span::new(buffer.len(), 0),
        }),
    }
}

// ---- the gap

/// The offset after the gap at `position`.
pub fn skip_gap(buffer: &[u8], position: usize, mode: Mode) -> usize
    requires { position ≤ length buffer.now }
    ensures end { result ≡ past_gap buffer.now position (mode_of mode) }
    ensures within { result ≤ length buffer.now }
{
    let mut at = position;
    loop {
        let len = piece_len(buffer, at, mode);
        if len == 0 {
            return at;
        }
        at += len;
    }
}

/// The length of the white space character or closed comment at `at`, 0 where there is none.
#[tactic(auto, using(std::proofs::lemmas::Grind::common_steps))]
fn piece_len(buffer: &[u8], at: usize, mode: Mode) -> usize
    requires { at ≤ length buffer.now }
    ensures len { result ≡ spec_gap.piece_len (mode_of mode) whole (drop at buffer.now) }
    ensures within { at + result ≤ length buffer.now }
{
    match buffer.get(at) {
        Some(b' ' | b'\t' | b'\n' | b'\r') => 1,
        Some(b'/') => match mode {
            Mode::Plain => 0,
            Mode::Jsonc => comment_len(buffer, at),
        },
        _ => 0,
    }
}

/// The length of the closed comment at `at`, 0 where there is none. The end of the input closes a line comment too.
#[tactic(auto, using(std::proofs::lemmas::Grind::common_steps))]
fn comment_len(buffer: &[u8], at: usize) -> usize
    requires { slice_get buffer.now at ≡ Some slash }
    ensures len { result ≡ spec_gap.comment_len whole (drop at buffer.now) }
    ensures within { at + result ≤ length buffer.now }
{
    match buffer.get(at + 1) {
        Some(b'*') => match block_end(buffer, at + 2) {
            Some(end) => end - at,
            None => 0,
        },
        Some(b'/') => match line_end(buffer, at + 2) {
            Some(end) => end - at,
            None => buffer.len() - at,
        },
        _ => 0,
    }
}

/// The offset after the first `*/` from `from` on.
pub fn block_end(buffer: &[u8], from: usize) -> Option<usize>
    requires { from ≤ length buffer.now }
    ensures end { result ≡ option_map (λ n. from + n) (through_block_end (drop from buffer.now)) }
    ensures range { IfSome result (λ end. (from ≤ end) × (end ≤ length buffer.now)) }
{
    let mut at = run_end::<Starless>(buffer, from);
    while at < buffer.len() {
        if buffer[at..].starts_with(b"*/") {
            return Some(at + 2);
        }
        at = run_end::<Starless>(buffer, at + 1);
    }
    None
}

/// The offset after the first line feed from `from` on.
pub fn line_end(buffer: &[u8], from: usize) -> Option<usize>
    requires { from ≤ length buffer.now }
    ensures end { result ≡ option_map (λ n. from + n) (through_line_end (drop from buffer.now)) }
    ensures range { IfSome result (λ end. (from ≤ end) × (end ≤ length buffer.now)) }
{
    let end = run_end::<Line>(buffer, from);
    if end < buffer.len() {
        Some(end + 1)
    } else {
        None
    }
}

// ---- the token

/// Cuts the token or the fault whose first byte is `first`, at `at`.
#[inline(always)]
pub fn cut_token(buffer: &[u8], at: usize, first: u8, mode: Mode) -> CutResult
    requires { slice_get buffer.now at ≡ Some first }
    ensures { cut_of result ≡ Some (cut_here (mode_of mode) at (drop at buffer.now)) }
{
    match first {
        b'"' => cut_text(buffer, at),
        b'n' => cut_word(buffer, at, b"null", Token::Null),
        b't' => cut_word(buffer, at, b"true", Token::True),
        b'f' => cut_word(buffer, at, b"false", Token::False),
        b'-' | b'0'..=b'9' => cut_number(buffer, at),
        b'/' => cut_slash(buffer, at, mode),
        _ => match structural(first, at) {
            Some(token) => Ok(token),
            None => unexpected_char(first, at),
        },
    }
}

/// A token of `len` bytes at `at`.
#[inline(always)]
pub fn token_at(token: Token, at: usize, len: usize) -> CutResult
    ensures { (k : Kind) → kind_of token ≡ Some k → cut_of result ≡ Some (spec_cut.token_at k at len) }
{
    Ok(spanned(token, at, len))
}

/// The fault that this byte stands at `at`.
#[cold]
#[inline(never)]
fn unexpected_char(byte: u8, at: usize) -> CutResult
    ensures { cut_of result ≡ Some (fault_at (spec_token.unexpected_char byte) at 1) }
{
    Err(Fault {
        kind: FaultKind::UnexpectedChar(char::from(byte)),
        span: Span::new(at, 1),
    })
}

/// The fault that the input ends inside of this, which starts at `at`.
#[cold]
#[inline(never)]
fn unexpected_eof(buffer: &[u8], at: usize, inside: Inside) -> CutResult
    requires { at ≤ length buffer.now }
    ensures { cut_of result ≡ Some (fault_at (spec_token.unexpected_eof (inside_text inside)) at (length (drop at buffer.now))) }
{
    Err(Fault {
        kind: FaultKind::UnexpectedEof(inside),
        span: Span::new(at, buffer.len() - at),
    })
}

/// Cuts the string whose quote is at `at`.
#[inline(always)]
fn cut_text(buffer: &[u8], at: usize) -> CutResult
    requires { at < length buffer.now }
    ensures { let bytes = drop (at + 1) buffer.now in cut_of result
        ≡ Some (spec_cut.cut_text at bytes (content_len false bytes)) }
{
    let start = at + 1;
    let mut end = run_end::<Plain>(buffer, start);
    let mut has_escapes = false;
    while let Some(byte) = buffer.get(end) {
        if *byte == b'"' {
            let token = Token::String {
                start,
                end,
                has_escapes,
            };
            return token_at(token, at, end + 1 - at);
        }
        has_escapes = true;
        end = run_end::<Plain>(buffer, after_escape(buffer, end));
    }
    unexpected_eof(buffer, at, Inside::String)
}

/// The offset after the backslash at `at` and the byte that it escapes, or the length where none follows.
#[inline(always)]
fn after_escape(buffer: &[u8], at: usize) -> usize
    requires { slice_get buffer.now at ≡ Some backslash }
    ensures same { option_map (λ n. result + n) (content_len false (drop result buffer.now))
        ≡ option_map (λ n. at + n) (content_len false (drop at buffer.now)) }
    ensures range { (at < result) × (result ≤ length buffer.now) }
{
    let after = at + 2;
    if after <= buffer.len() {
        after
    } else {
        buffer.len()
    }
}

/// Cuts the literal of these letters at `at`.
#[inline(always)]
pub fn cut_word(buffer: &[u8], at: usize, word: &[u8], token: Token) -> CutResult
    requires { at ≤ length buffer.now }
    ensures { let bytes = drop at buffer.now in (k : Kind) → kind_of token ≡ Some k
        → cut_of result ≡ Some (spec_cut.cut_word at bytes word.now k (spec_cut.common_len word.now bytes)) }
{
    let len = common_len(buffer, at, word);
    if len == word.len() {
        return token_at(token, at, len);
    }
    match buffer.get(at + len) {
        Some(byte) => unexpected_char(*byte, at + len),
        None => unexpected_eof(buffer, at, Inside::Literal),
    }
}

/// How many bytes at `at` are letters of the word, from its first on.
#[inline(always)]
pub fn common_len(buffer: &[u8], at: usize, word: &[u8]) -> usize
    requires { at ≤ length buffer.now }
    ensures len { result ≡ spec_cut.common_len word.now (drop at buffer.now) }
    ensures within { at + result ≤ length buffer.now }
{
    let mut len = 0;
    while let (Some(letter), Some(byte)) = (word.get(len), buffer.get(at + len)) {
        if letter != byte {
            return len;
        }
        len += 1;
    }
    len
}

/// Cuts the number, or the bare minus, at `at`.
#[inline(always)]
pub fn cut_number(buffer: &[u8], at: usize) -> CutResult
    requires { at < length buffer.now }
    ensures { let p = parts (drop at buffer.now) in cut_of result
        ≡ Some (spec_cut.cut_number at (drop (at + 1) buffer.now) (parts_len p) (parts_hint p) (is_bare p)) }
{
    match number_in_sight(buffer, at) {
        Some(token) => Ok(token),
        None => cut_bare_minus(buffer, at),
    }
}

/// The fault of a minus at `at` with no number after it.
#[cold]
#[inline(never)]
fn cut_bare_minus(buffer: &[u8], at: usize) -> CutResult
    requires { at < length buffer.now }
    ensures { cut_of result ≡ Some (spec_cut.cut_bare_minus at (drop (at + 1) buffer.now)) }
{
    match buffer.get(at + 1) {
        Some(byte) => unexpected_char(*byte, at),
        None => unexpected_eof(buffer, at, Inside::Number),
    }
}

/// The fault of a slash at `at` that opens no closed comment.
#[cold]
#[inline(never)]
fn cut_slash(buffer: &[u8], at: usize, mode: Mode) -> CutResult
    requires { slice_get buffer.now at ≡ Some slash }
    ensures { cut_of result ≡ Some (spec_cut.cut_slash (mode_of mode) at (drop (at + 1) buffer.now)) }
{
    match (mode, buffer.get(at + 1)) {
        (Mode::Jsonc, Some(b'*')) => unexpected_eof(buffer, at, Inside::BlockComment),
        _ => unexpected_char(b'/', at),
    }
}
