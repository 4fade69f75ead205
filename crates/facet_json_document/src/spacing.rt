//! The white space that is written between the pieces of a text.

ghost use Rattle.std.specs.Prelude.{◌≡◌, ◌++◌, true, OnOk};
ghost use Rattle.facet_json_document.specs.Inner.Layout.{IsIndented, IsSpaced, keeps_apart};

use crate::pieces::Sort;
use facet_json_serializer::Sink;
use std::alloc::AllocError;

/// How the lines of a text are indented, once for each container around them.
#[derive(Debug, Clone, Copy, PartialEq, Eq)]
pub enum Indent {
    /// By so many spaces.
    Spaces(u8),
    /// By a tab.
    Tab,
}

/// White space before a piece.
#[derive(Clone, Copy)]
pub(crate) enum Space {
    /// None.
    None,
    /// One space.
    Blank,
    /// A new line.
    Line,
    /// An empty line, and a new line.
    EmptyLine,
}

/// How many lines ended between two pieces.
#[derive(Clone, Copy)]
pub(crate) enum Breaks {
    /// None.
    None,
    /// One.
    One,
    /// Two or more.
    More,
}

impl Breaks {
    /// How many line feeds have come after one more byte of white space.
    pub(crate) fn after(self, byte: u8) -> Breaks {
        match (byte, self) {
            (b'\n', Breaks::None) => Breaks::One,
            (b'\n', _) => Breaks::More,
            (_, breaks) => breaks,
        }
    }

    /// The white space that keeps them.
    fn kept(self) -> Space {
        match self {
            Breaks::None => Space::Blank,
            Breaks::One => Space::Line,
            Breaks::More => Space::EmptyLine,
        }
    }
}

/// The white space between two pieces, where so many lines ended between them. `leads` says that the second one is a comment
/// after which its line goes on.
pub(crate) fn space_between(last: Sort, next: Sort, breaks: Breaks, leads: bool) -> Space
    ensures { keeps_apart last next result ≡ true }
{
    parted(last, next, wanted(last, next, breaks, leads))
}

/// The white space that the layout wants between two pieces.
fn wanted(last: Sort, next: Sort, breaks: Breaks, leads: bool) -> Space {
    match (last, next) {
        (Sort::Nothing, _) | (Sort::Opening, Sort::Closing) => Space::None,
        (Sort::Opening | Sort::Comma, Sort::Block | Sort::Line) => after_mark(last, breaks, leads),
        (Sort::Opening, _) | (_, Sort::Closing) => Space::Line,
        (_, Sort::Comma | Sort::Colon) => Space::None,
        (Sort::Colon, Sort::Scalar | Sort::Opening) => Space::Blank,
        (Sort::Comma, _) => match breaks {
            Breaks::More => Space::EmptyLine,
            _ => Space::Line,
        },
        _ => breaks.kept(),
    }
}

/// The white space that the layout wants before a comment after an opening bracket or a comma: on the same line stays what stands at
/// its end.
fn after_mark(last: Sort, breaks: Breaks, leads: bool) -> Space {
    match (last, breaks) {
        (_, Breaks::None) if leads => Space::Line,
        (Sort::Opening, Breaks::More) => Space::Line,
        (_, breaks) => breaks.kept(),
    }
}

/// The white space that is wanted, or the least that keeps the two pieces apart: a line comment ends with its line, and two
/// scalars are not one.
fn parted(last: Sort, next: Sort, space: Space) -> Space
    ensures { keeps_apart last next result ≡ true }
{
    match (last, next, space) {
        (Sort::Line, _, Space::None | Space::Blank) => Space::Line,
        (Sort::Scalar, Sort::Scalar, Space::None) => Space::Blank,
        (_, _, space) => space,
    }
}

/// Appends white space; a new line is indented for so many containers.
pub(crate) fn push_space(
    out: &mut Sink,
    space: Space,
    indent: Indent,
    depth: usize,
) -> Result<(), AllocError>
    ensures { OnOk result (IsSpaced space out.old out.new) }
{
    match space {
        Space::None => Ok(()),
        Space::Blank => out.push(b' '),
        Space::Line => push_line(out, b"\n", indent, depth),
        Space::EmptyLine => push_line(out, b"\n\n", indent, depth),
    }
}

/// Appends line feeds and an indent.
fn push_line(out: &mut Sink, feeds: &[u8], indent: Indent, depth: usize) -> Result<(), AllocError>
    ensures { OnOk result (IsIndented (out.old ++ feeds.now) out.new) }
{
    out.extend_from_slice(feeds)?;
    for _ in 0..depth {
        push_indent(out, indent)?;
    }
    Ok(())
}

/// Appends one indent.
fn push_indent(out: &mut Sink, indent: Indent) -> Result<(), AllocError>
    ensures { OnOk result (IsIndented out.old out.new) }
{
    match indent {
        Indent::Tab => out.push(b'\t'),
        Indent::Spaces(width) => push_spaces(out, width),
    }
}

/// Appends so many spaces.
fn push_spaces(out: &mut Sink, width: u8) -> Result<(), AllocError>
    ensures { OnOk result (IsIndented out.old out.new) }
{
    for _ in 0..width {
        out.push(b' ')?;
    }
    Ok(())
}
