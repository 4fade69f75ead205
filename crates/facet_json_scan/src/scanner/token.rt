//! The token after a gap, in a buffer that grows.

ghost use Rattle.std.specs.Prelude.{◌≡◌, ℕ, ◌+◌, ◌<◌, ◌≤◌, length, take, drop, Some, slice_get};
ghost use Rattle.facet_format.specs.Bytes.{quote, slash};
ghost use Rattle.facet_json_token.specs.Gap as spec_gap;
ghost use Rattle.facet_json_token.specs.Token.{Kind};
ghost use Rattle.facet_format.specs.Span.{stop, span_at};
ghost use Rattle.facet_json_token.specs.Cut.{start_of, letter};
ghost use Rattle.facet_json_token.specs.Cut as spec_cut;
ghost use Rattle.facet_json_token.specs.Open.{IsBeginning};
ghost use Rattle.facet_json_scan.specs.Scanner.{in_text, ended, EndsIn, Describes};
ghost use Rattle.facet_format.specs.NumberParts.{parts, parts_len, parts_hint, is_bare};
ghost use Rattle.facet_json_token.specs.Views.{mode_of, kind_of, scanned};
ghost use Rattle.facet_json_scan.specs.ScannerViews.{answered, span_answered, IndicesWithin};
ghost use Rattle.facet_json_scan.specs.Inner.Found.{number_part_of, FoundHere, FoundFrom, FoundWithin, FoundRefused, RefusedThere};

use crate::refusing::told;
use crate::scanner::gap::{Piece, piece_from};
use crate::scanner::pending::{NumberPart, State};
use facet_format::Span;
use facet_json_token::cutting::{common_len, cut_number, cut_token, cut_word, token_at};
use facet_json_token::quick::{gap_end, plain_text_end};
use facet_json_token::{Mode, ScanResult, SpannedToken, Token};

/// What stands at a place.
#[derive(Drop)]
pub enum Found {
    /// A token, the end or a refusal, which starts there.
    Answer {
        /// The first byte.
        start: usize,
        /// The answer.
        result: ScanResult,
    },
    /// A token or comment that the end of the buffer cuts.
    Open {
        /// Its first byte.
        start: usize,
        /// How it goes on.
        state: State,
    },
}

/// What stands at `position`, a gap before it, whether or not the end of the buffer cuts it.
#[inline(never)]
pub fn scan_from(buffer: &[u8], position: usize, mode: Mode) -> Found
    requires { position ≤ length buffer.now }
    ensures here { FoundFrom (mode_of mode) buffer.now position result }
    ensures within { FoundWithin (length buffer.now) result }
    ensures refusal { RefusedThere (mode_of mode) buffer.now result }
{
    let mut at = gap_end(buffer, position, Mode::Plain);
    loop {
        match piece_from(buffer, at, mode) {
            Piece::Closed(end) => at = gap_end(buffer, end, Mode::Plain),
            Piece::Open(state) => return Found::Open { start: at, state },
            Piece::Absent => return token_from(buffer, at, mode),
        }
    }
}

/// The token at `at`, where no piece of a gap stands.
fn token_from(buffer: &[u8], at: usize, mode: Mode) -> Found
    requires { at ≤ length buffer.now }
    ensures here { (slice_get buffer.now at ≡ Some slash → IsBeginning (mode_of mode) (drop at buffer.now) → ⊥)
        → FoundHere (mode_of mode) buffer.now at result }
    ensures within { FoundWithin (length buffer.now) result }
{
    let Some(first) = buffer.get(at) else {
        return Found::Answer {
            start: at,
            result: eof_at(buffer.len()),
        };
    };
    match *first {
        b'"' => string_from(buffer, at),
        b'n' => word_from(buffer, at, b"null", Token::Null),
        b't' => word_from(buffer, at, b"true", Token::True),
        b'f' => word_from(buffer, at, b"false", Token::False),
        b'-' | b'0'..=b'9' => number_from(buffer, at, at + 1, NumberPart::Digits),
        _ => Found::Answer {
            start: at,
            result: told(cut_token(buffer, at, *first, mode)),
        },
    }
}

/// The end, at this offset.
fn eof_at(offset: usize) -> ScanResult
    ensures token { answered result ≡ Some (ended (span_at offset 0)) }
    ensures indices { IndicesWithin offset result }
{
    Ok(SpannedToken {
        token: Token::Eof,
        span: Span::new(offset, 0),
    })
}

/// The string whose quote is at `at`: at once where no escape stands in it and the buffer holds all of it.
fn string_from(buffer: &[u8], at: usize) -> Found
    requires { slice_get buffer.now at ≡ Some quote }
    ensures here { (mode : spec_gap.Mode) → FoundHere mode buffer.now at result }
    ensures within { FoundWithin (length buffer.now) result }
    ensures refusal { (mode : spec_gap.Mode) → RefusedThere mode buffer.now result }
{
    let Some(end) = plain_text_end(buffer, at) else {
        return text_from(buffer, at, at + 1, false, false);
    };
    let token = Token::String {
        start: at + 1,
        end,
        has_escapes: false,
    };
    Found::Answer {
        start: at,
        result: told(token_at(token, at, end + 1 - at)),
    }
}

/// Goes on at `at` with the string whose quote is at `start`.
pub fn text_from(buffer: &[u8], start: usize, at: usize, escaped: bool, has_escapes: bool) -> Found
    requires order { start < at }
    requires room { at ≤ length buffer.now }
    ensures here { (mode : spec_gap.Mode) → Describes mode (in_text escaped has_escapes) (drop start (take at buffer.now))
        → FoundHere mode buffer.now start result }
    ensures within { FoundWithin (length buffer.now) result }
    ensures refusal { (mode : spec_gap.Mode) → RefusedThere mode buffer.now result }
{
    let mut end = at;
    let mut escaped = escaped;
    let mut has_escapes = has_escapes;
    while let Some(byte) = buffer.get(end) {
        if *byte == b'"' && !escaped {
            let token = Token::String {
                start: start + 1,
                end,
                has_escapes,
            };
            return Found::Answer {
                start,
                result: told(token_at(token, start, end + 1 - start)),
            };
        }
        let is_backslash = *byte == b'\\';
        escaped = is_backslash & !escaped;
        has_escapes |= is_backslash;
        end += 1;
    }
    Found::Open {
        start,
        state: State::Text {
            escaped,
            has_escapes,
        },
    }
}

/// The literal of these letters at `at`.
fn word_from(buffer: &[u8], at: usize, word: &[u8], token: Token) -> Found
    requires { at < length buffer.now }
    ensures here { (mode : spec_gap.Mode) (b : ℕ) (kind : Kind) → slice_get buffer.now at ≡ Some b
        → start_of b ≡ letter word.now kind → kind_of token ≡ Some kind → FoundHere mode buffer.now at result }
    ensures within { (b : ℕ) (kind : Kind) → slice_get buffer.now at ≡ Some b → start_of b ≡ letter word.now kind
        → kind_of token ≡ Some kind → FoundWithin (length buffer.now) result }
{
    let len = common_len(buffer, at, word);
    if len < word.len() && len == buffer.len() - at {
        return Found::Open {
            start: at,
            state: State::Word,
        };
    }
    Found::Answer {
        start: at,
        result: told(cut_word(buffer, at, word, token)),
    }
}

/// Goes on at `at` with the number, or the bare minus, at `start`, whose last byte so far stands in this part.
pub fn number_from(buffer: &[u8], start: usize, at: usize, part: NumberPart) -> Found
    requires order { start < at }
    requires room { at ≤ length buffer.now }
    ensures here { EndsIn (number_part_of part) (drop start (take at buffer.now))
        → (mode : spec_gap.Mode) → FoundHere mode buffer.now start result }
    ensures within { FoundWithin (length buffer.now) result }
    ensures refusal { (mode : spec_gap.Mode) → RefusedThere mode buffer.now result }
{
    let mut end = at;
    let mut part = part;
    while let Some(byte) = buffer.get(end) {
        let Some(next) = part.after(*byte) else {
            return Found::Answer {
                start,
                result: number_token(buffer, start, end, part),
            };
        };
        part = next;
        end += 1;
    }
    Found::Open {
        start,
        state: State::Number(part),
    }
}

/// The token of the number from `start` to `end`, whose last byte stands in this part, or what is cut of a minus alone.
fn number_token(buffer: &[u8], start: usize, end: usize, part: NumberPart) -> ScanResult
    requires order { start < end }
    requires room { end < length buffer.now }
    ensures token { let text = drop start (take end buffer.now) in EndsIn (number_part_of part) text
        → parts (drop start buffer.now) ≡ parts text
        → scanned result ≡ Some (spec_cut.cut_number start (drop (start + 1) buffer.now)
        (parts_len (parts text)) (parts_hint (parts text)) (is_bare (parts text))) }
    ensures refusal { (mode : spec_gap.Mode) → FoundRefused mode buffer.now start result }
    ensures span { stop (span_answered result) ≤ length buffer.now }
    ensures indices { IndicesWithin (length buffer.now) result }
{
    let is_negative = buffer[start] == b'-';
    if is_negative && end == start + 1 {
        return told(cut_number(buffer, start));
    }
    let token = Token::Number {
        start,
        end,
        hint: part.hint(is_negative),
    };
    told(token_at(token, start, end - start))
}
