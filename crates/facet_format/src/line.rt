//! Lines and columns.

ghost use Rattle.std.specs.Prelude.{◌≡◌, ◌-◌, ◌<◌, ◌≤◌, not, length, take, drop, count_by, slice_index};
ghost use Rattle.std.specs.List.{position_or_len, suffix_len};
ghost use Rattle.std.specs.Fmt.{is_char_start};
ghost use Rattle.facet_format.specs.Line.{is_feed, line_at, column_at};

/// Where a byte stands in a text, as editors show it: the line and the column, both counted from 1.
#[derive(Debug, Clone, Copy, PartialEq, Eq)]
pub struct Position {
    /// The line. A line ends at its line feed, which is the last byte of the line that it ends; so CR LF ends a line too.
    pub line: usize,
    /// The column: one more than the characters that stand before the place on its line. A character is a Unicode scalar value, so a
    /// letter with an accent is one column, however many bytes it has, and so is a tab.
    pub column: usize,
}

/// The line and the column of this offset in bytes. An offset past the end counts as the end, and one within a character as
/// the character after it.
///
/// ```text
/// position_at(b"[1,\n x]", 5)     line 2, column 2
/// ```
pub fn position_at(source: &[u8], offset: usize) -> Position
    ensures line { result.line ≡ line_at source.now offset }
    ensures column { result.column ≡ column_at source.now offset }
{
    let (before, _) = split(source, offset);
    let start = line_start(before);
    Position {
        line: feeds(before) + 1,
        column: characters(&before[start..]) + 1,
    }
}

/// What stands before the offset, and what from it on.
pub(crate) fn split(source: &[u8], offset: usize) -> (&[u8], &[u8])
    ensures before { result.0.now ≡ take offset source.now }
    ensures after { result.1.now ≡ drop offset source.now }
{
    let within = offset.min(source.len());
    (&source[..within], &source[within..])
}

/// Where the last line of the text starts.
pub(crate) fn line_start(text: &[u8]) -> usize
    ensures within { result ≤ length text.now }
    ensures start { result ≡ length text.now - suffix_len (λ b. not (is_feed b)) text.now }
    ensures feed { 0 < result → slice_index text.now (result - 1) ≡ 10 }
{
    let mut start = text.len();
    while start > 0 && text[start - 1] != b'\n' {
        start -= 1;
    }
    start
}

/// How long the first line of the text is, without its line feed.
pub(crate) fn line_len(text: &[u8]) -> usize
    ensures within { result ≤ length text.now }
    ensures end { result ≡ position_or_len is_feed text.now }
    ensures feed { result < length text.now → slice_index text.now result ≡ 10 }
{
    let mut end = 0;
    while end < text.len() && text[end] != b'\n' {
        end += 1;
    }
    end
}

/// How many line feeds the text has.
fn feeds(text: &[u8]) -> usize
    ensures count { result ≡ count_by is_feed text.now }
    ensures within { result ≤ length text.now }
{
    let mut count = 0;
    for &byte in text {
        if byte == b'\n' {
            count += 1;
        }
    }
    count
}

/// How many characters begin in the text.
pub(crate) fn characters(text: &[u8]) -> usize
    ensures count { result ≡ count_by is_char_start text.now }
    ensures within { result ≤ length text.now }
{
    let mut count = 0;
    for &byte in text {
        if begins_character(byte) {
            count += 1;
        }
    }
    count
}

/// Whether a character of UTF-8 begins with this byte (RFC 3629, section 3).
pub(crate) fn begins_character(byte: u8) -> bool
    ensures { result ≡ is_char_start byte }
{
    byte < 0x80 || 0xC0 <= byte
}
