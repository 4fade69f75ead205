//! The part of a source that a report shows: a line, cut around what is meant where it is long.

use crate::shown::{Side, columns, cut_to, shown};
use facet_json::Span;
use std::alloc::{AllocError, Global};

/// The most columns of a line that are shown.
const MOST: usize = 76;

/// The most of them before what is meant, where the line takes more.
const MOST_BEFORE: usize = 48;

/// The most bytes that are looked at on one side, since there is no most of characters that take no column.
const MOST_BYTES: usize = 400;

/// A line of a source, cut around what is meant.
#[derive(Drop)]
pub struct Excerpt {
    /// What stands before it.
    pub before: String,
    /// What begins with it.
    pub rest: String,
    /// How many columns it takes, but for what stands on later lines; at least one.
    pub marks: usize,
}

impl Excerpt {
    /// The line of the source that the span begins on.
    ///
    /// ```text
    /// Excerpt::of(alloc, b"[\n\ttrue x]", Span::new(8, 1))?     before: "    true ", rest: "x]", marks: 1
    /// ```
    pub fn of(alloc: Global, source: &[u8], span: Span) -> Result<Excerpt, AllocError> {
        let (before, after) = source.split_at(span.offset.min(source.len()));
        let begun = last_line(before);
        let rest = first_line(after);
        let marks = columns_of(alloc, meant_of(rest, span.len), Side::Back)?;
        let room = room_before(alloc, begun, rest)?;
        let before = shown_within(alloc, begun, room, Side::Front)?;
        let room = MOST.saturating_sub(columns(before.as_str()));
        let rest = shown_within(alloc, rest, room, Side::Back)?;
        let marks = marks.min(columns(rest.as_str())).max(1);
        Ok(Excerpt {
            before,
            rest,
            marks,
        })
    }
}

/// What stands behind the last line feed.
fn last_line(text: &[u8]) -> &[u8] {
    let mut start = 0;
    let mut passed = 0_usize;
    for byte in text {
        passed = passed.saturating_add(1);
        if *byte == b'\n' {
            start = passed;
        }
    }
    &text[start.min(text.len())..]
}

/// What stands before the first line feed, and a carriage return before that.
fn first_line(text: &[u8]) -> &[u8] {
    let mut len = 0_usize;
    for byte in text {
        if *byte == b'\n' {
            break;
        }
        len = len.saturating_add(1);
    }
    let line = &text[..len.min(text.len())];
    line.strip_suffix(b"\r").unwrap_or(line)
}

/// How many columns may stand before what is meant: all of them on a line that is short.
fn room_before(alloc: Global, begun: &[u8], rest: &[u8]) -> Result<usize, AllocError> {
    let width = columns_of(alloc, begun, Side::Front)?;
    let width = width.saturating_add(columns_of(alloc, rest, Side::Back)?);
    Ok(if width <= MOST { MOST } else { MOST_BEFORE })
}

/// The bytes that are looked at, without what is too far at this side.
fn window(bytes: &[u8], side: Side) -> &[u8] {
    let len = bytes.len().min(MOST_BYTES);
    match side {
        Side::Front => &bytes[bytes.len() - len..],
        Side::Back => &bytes[..len],
    }
}

/// The bytes as they are shown, cut at this side to so many columns, and two dots where something is cut off.
fn shown_within(
    alloc: Global,
    bytes: &[u8],
    most: usize,
    side: Side,
) -> Result<String, AllocError> {
    let part = window(bytes, side);
    let whole = shown(alloc, part)?;
    let kept = cut_to(whole.as_str(), most, side);
    if part.len() == bytes.len() && kept.len() == whole.len() {
        return Ok(whole);
    }
    match side {
        Side::Front => format!(in alloc; "..{kept}"),
        Side::Back => format!(in alloc; "{kept}.."),
    }
}

/// The bytes of the line that are meant, of which there are `len`, and what is left of the last one's character.
fn meant_of(line: &[u8], len: usize) -> &[u8] {
    let mut end = len.min(line.len());
    if end > 0 {
        for byte in &line[end..end.saturating_add(3).min(line.len())] {
            if *byte & 0xC0 != 0x80 {
                break;
            }
            end = end.saturating_add(1);
        }
    }
    &line[..end.min(line.len())]
}

/// How many columns the bytes take, those that are looked at.
fn columns_of(alloc: Global, bytes: &[u8], side: Side) -> Result<usize, AllocError> {
    let text = shown(alloc, window(bytes, side))?;
    Ok(columns(text.as_str()))
}
