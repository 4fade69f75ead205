//! What stands at an offset of a text: white space, a comment or a token.

ghost use Rattle.std.specs.Prelude.{◌≡◌, ◌+◌, ◌-◌, ◌≤◌, ◌==◌, false, length, drop, take, slice_get, Some};
ghost use Rattle.facet_format.specs.Bytes.{is_space, slash, star};
ghost use Rattle.facet_json_token.specs.Gap.{jsonc};
ghost use Rattle.facet_json_token.specs.Views.{mode_of};
ghost use Rattle.facet_json_document.specs.Pieces.{pieces, trimmed, closes, closing_next};
ghost use Rattle.facet_json_document.specs.Inner.Layout.{IsFound, BeginsPiece, is_comma_sort, sort_by};

use facet_json_token::cutting::{block_end, line_end, skip_gap};
use facet_json_token::{Mode, Token, cut};

/// What a piece of a text is.
#[derive(Clone, Copy)]
pub(crate) enum Sort {
    /// No piece: what stands before the first one.
    Nothing,
    /// `{` or `[`
    Opening,
    /// `}` or `]`
    Closing,
    /// `,`
    Comma,
    /// `:`
    Colon,
    /// A string, a number or a literal.
    Scalar,
    /// A comment from `/*` to `*/`.
    Block,
    /// A comment to its line's end.
    Line,
}

impl Sort {
    /// Whether it is a comma.
    pub(crate) fn is_comma(self) -> bool
        ensures { result ≡ is_comma_sort self }
    {
        matches!(self, Sort::Comma)
    }

    /// Whether it is a comment from `/*` to `*/`.
    pub(crate) fn is_block(self) -> bool {
        matches!(self, Sort::Block)
    }

    /// How many containers its line is indented for, where so many are open before it.
    pub(crate) fn depth_at(self, depth: usize) -> usize {
        match self {
            Sort::Closing => depth.saturating_sub(1),
            _ => depth,
        }
    }

    /// How many containers are open after it.
    pub(crate) fn depth_after(self, depth: usize) -> usize {
        match self {
            Sort::Opening => depth.saturating_add(1),
            Sort::Closing => depth.saturating_sub(1),
            _ => depth,
        }
    }
}

/// What stands at an offset.
#[derive(Clone, Copy)]
pub(crate) enum PieceAt {
    /// A byte of white space.
    Blank(u8),
    /// A piece that ends at this offset.
    Piece(Sort, usize),
    /// The end of the text, or no token.
    End,
}

/// What stands at `at`.
pub(crate) fn find(text: &[u8], at: usize, mode: Mode) -> PieceAt
    requires { at ≤ length text.now }
    ensures { IsFound (mode_of mode) text.now at result }
{
    match text.get(at) {
        Some(first) => found_at(text, at, *first, mode),
        None => PieceAt::End,
    }
}

/// What stands at `at`, where this is its first byte.
fn found_at(text: &[u8], at: usize, first: u8, mode: Mode) -> PieceAt
    requires { slice_get text.now at ≡ Some first }
    ensures { IsFound (mode_of mode) text.now at result }
{
    if is_blank(first) {
        PieceAt::Blank(first)
    } else if first == b'/' {
        comment_at(text, at, mode)
    } else {
        token_at(text, at, first, mode)
    }
}

/// Whether a byte is white space.
fn is_blank(byte: u8) -> bool
    ensures { result ≡ is_space byte }
{
    matches!(byte, b' ' | b'\t' | b'\n' | b'\r')
}

/// The token at `at`, whose first byte is `first`.
fn token_at(text: &[u8], at: usize, first: u8, mode: Mode) -> PieceAt
    requires first { slice_get text.now at ≡ Some first }
    requires no_space { is_space first ≡ false }
    requires no_slash { (first == slash) ≡ false }
    ensures { IsFound (mode_of mode) text.now at result }
{
    match cut(text, at, mode) {
        Ok(token) => match token.token {
            Token::Eof => PieceAt::End,
            _ => PieceAt::Piece(sort_of(first), at + token.span.len),
        },
        Err(_) => PieceAt::End,
    }
}

/// What a token is that begins with this byte.
fn sort_of(first: u8) -> Sort
    ensures { result ≡ sort_by first }
{
    match first {
        b'{' | b'[' => Sort::Opening,
        b'}' | b']' => Sort::Closing,
        b',' => Sort::Comma,
        b':' => Sort::Colon,
        _ => Sort::Scalar,
    }
}

/// The comment at `at`, where a slash stands.
fn comment_at(text: &[u8], at: usize, mode: Mode) -> PieceAt
    requires { slice_get text.now at ≡ Some slash }
    ensures { IsFound (mode_of mode) text.now at result }
{
    match mode {
        Mode::Plain => PieceAt::End,
        Mode::Jsonc => match text.get(at + 1) {
            Some(second) => marked_at(text, at, *second),
            None => PieceAt::End,
        },
    }
}

/// The comment at `at`, where a slash stands before this byte.
fn marked_at(text: &[u8], at: usize, second: u8) -> PieceAt
    requires first { slice_get text.now at ≡ Some slash }
    requires second { slice_get text.now (at + 1) ≡ Some second }
    ensures { IsFound jsonc text.now at result }
{
    if second == b'*' {
        block_at(text, at)
    } else if second == b'/' {
        PieceAt::Piece(Sort::Line, line_comment_end(text, at))
    } else {
        PieceAt::End
    }
}

/// The comment from `/*` to `*/` at `at`.
fn block_at(text: &[u8], at: usize) -> PieceAt
    requires first { slice_get text.now at ≡ Some slash }
    requires second { slice_get text.now (at + 1) ≡ Some star }
    ensures { IsFound jsonc text.now at result }
{
    match block_end(text, at + 2) {
        Some(end) => PieceAt::Piece(Sort::Block, end),
        None => PieceAt::End,
    }
}

/// The offset after the line comment at `at`, without the white space at its end.
fn line_comment_end(text: &[u8], at: usize) -> usize
    requires first { slice_get text.now at ≡ Some slash }
    requires second { slice_get text.now (at + 1) ≡ Some slash }
    ensures ahead { at ≤ result }
    ensures piece { BeginsPiece jsonc (drop at text.now) Sort.Line (result - at) }
{
    let end = match line_end(text, at + 2) {
        Some(end) => end,
        None => text.len(),
    };
    trimmed_end(text, at, end)
}

/// The offset after the last byte before `end` that is no white space, or `at`.
fn trimmed_end(text: &[u8], at: usize, end: usize) -> usize
    requires ordered { at ≤ end }
    requires within { end ≤ length text.now }
    ensures ahead { at ≤ result }
    ensures text { take (result - at) (drop at text.now) ≡ trimmed (take (end - at) (drop at text.now)) }
    ensures within { result ≤ end }
{
    let mut end = end;
    while at < end {
        if !is_blank(text[end - 1]) {
            return end;
        }
        end -= 1;
    }
    end
}

/// Whether the next token from `at` on is a closing bracket.
pub(crate) fn closes_next(text: &[u8], at: usize, mode: Mode) -> bool
    requires { at ≤ length text.now }
    ensures { result ≡ closing_next (pieces (mode_of mode) (drop at text.now)) }
{
    match text.get(skip_gap(text, at, mode)) {
        Some(byte) => is_closing(*byte),
        None => false,
    }
}

/// Whether a byte is a closing bracket.
fn is_closing(byte: u8) -> bool
    ensures { result ≡ closes byte }
{
    matches!(byte, b'}' | b']')
}

/// Whether something else stands on the line from `at` on than white space.
pub(crate) fn goes_on_in_line(text: &[u8], at: usize) -> bool {
    let mut at = at;
    while let Some(byte) = text.get(at) {
        match byte {
            b'\n' => return false,
            b' ' | b'\t' | b'\r' => at += 1,
            _ => return true,
        }
    }
    false
}
