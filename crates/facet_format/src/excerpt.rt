//! A place in a source, shown.

ghost use Rattle.std.specs.Prelude.{◌≡◌, ◌++◌, Some, flat_map, replicate};
ghost use Rattle.std.specs.Fmt.{WritesOnOk};
ghost use Rattle.facet_format.specs.Views.{span_of};
ghost use Rattle.facet_format.specs.Line.{begun_line, rest_of_line};
ghost use Rattle.facet_format.specs.Report.{blank, marked, excerpt_text};

use crate::event::Span;
use crate::line::{
    Position, begins_character, characters, line_len, line_start, position_at, split,
};
use std::fmt;

/// A place in a source. Displayed, it is its line and column, then the text of the line, and then carets below what is meant, as far
/// as it is on that line: three lines, the last without its line feed. Under a tab stands a tab, so the carets stand
/// right however wide a tab is shown.
///
/// ```text
/// line 2, column 9
///   "age" "x"
///         ^^^
/// ```
#[derive(Debug, Clone, Copy)]
pub struct Excerpt<'a> {
    /// The source.
    pub source: &'a str,
    /// The bytes that are meant.
    pub span: Span,
}

impl fmt::Display for Excerpt<'_> {
    ghost output = { λ excerpt. Some (excerpt_text excerpt.source.now (span_of excerpt.span)) };

    fn fmt<W: fmt::Write>(&self, f: &mut fmt::Formatter<W>) -> fmt::Result {
        let source = self.source.as_bytes();
        let Position { line, column } = position_at(source, self.span.offset);
        let text = line_text(self.source, self.span.offset);
        write!(f, "line {line}, column {column}\n{text}\n")?;
        write_blanks(f, begun(source, self.span.offset))?;
        write_carets(f, marked_characters(source, self.span))
    }
}

/// The text of the line that the offset is on, without its line feed.
fn line_text(source: &str, offset: usize) -> &str
    ensures { result.now ≡ begun_line source.now offset ++ rest_of_line source.now offset }
{
    let (before, after) = split(source.as_bytes(), offset);
    let start = line_start(before);
    let end = before.len() + line_len(after);
    &source[start..end]
}

/// What stands on the line before the offset.
fn begun(source: &[u8], offset: usize) -> &[u8]
    ensures { result.now ≡ begun_line source.now offset }
{
    let (before, _) = split(source, offset);
    &before[line_start(before)..]
}

/// How many characters of the line are meant.
fn marked_characters(source: &[u8], span: Span) -> usize
    ensures { result ≡ marked source.now (span_of span) }
{
    let (_, after) = split(source, span.offset);
    let (meant, _) = split(after, span.len);
    characters(&meant[..line_len(meant)]).max(1)
}

/// Writes what is as wide as the text.
fn write_blanks<W: fmt::Write>(f: &mut fmt::Formatter<W>, text: &[u8]) -> fmt::Result
    ensures { WritesOnOk W.write_str_gives f.old result (flat_map blank text.now) f.new }
{
    for &byte in text {
        write_blank(f, byte)?;
    }
    Ok(())
}

/// Writes what is as wide as the character that begins with this byte.
fn write_blank<W: fmt::Write>(f: &mut fmt::Formatter<W>, byte: u8) -> fmt::Result
    ensures { WritesOnOk W.write_str_gives f.old result (blank byte) f.new }
{
    if !begins_character(byte) {
        return Ok(());
    }
    if byte == b'\t' {
        f.write_str("\t")
    } else {
        f.write_str(" ")
    }
}

/// Writes this many carets.
fn write_carets<W: fmt::Write>(f: &mut fmt::Formatter<W>, count: usize) -> fmt::Result
    ensures { WritesOnOk W.write_str_gives f.old result (replicate count 94) f.new }
{
    for _i in 0..count {
        f.write_str("^")?;
    }
    Ok(())
}
