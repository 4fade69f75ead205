//! What a string's content is decoded to, by each decoder.

ghost use Rattle.std.specs.Prelude.{◌≤◌, length, slice_range, IsUtf8};

use crate::row::range;
use crate::tokens::write_refusal;
use facet_json::scanner::{
    DecodeError, check_content, decode_string, decode_string_borrowed,
    decode_string_borrowed_unchecked, decode_string_owned, decode_string_owned_unchecked,
    decode_string_unchecked,
};
use facet_json_row_values::marks::mark;
use facet_json_row_values::told::Told;
use std::alloc::Global;
use std::borrow::CowStr;

/// What a content is decoded to, in memory of its own.
type Owned = Result<String, DecodeError>;

/// What a content is decoded to, each way.
#[derive(Clone, Copy)]
struct Made<'a> {
    owned: &'a Owned,
    borrowed: Option<&'a str>,
}

/// Tells what `decode_string` makes of the content at this range of the buffer: as one with escapes, and then as one without.
/// Where another decoder makes something else of it, there is a line for that.
pub fn answer_decode(alloc: Global, words: &str, buffer: &[u8], told: &mut Told) {
    let Some((start, end)) = range(words, buffer.len()) else {
        return told.line("NO RANGE");
    };
    write_decoded(&decode_string(alloc, buffer, start, end, true), told);
    write_decoded(&decode_string(alloc, buffer, start, end, false), told);
    let owned = decode_string_owned(alloc, buffer, start, end);
    if !all_agree(alloc, buffer, start, end, &owned) {
        told.line("DIFFERS: another decoder");
    }
}

/// Tells what each decoder makes of a content: as one with escapes in memory of its own, the same by the decoder that lends others, and as
/// one without; and the same by those for UTF-8. The requests for memory of all these calls stand between two marks.
pub fn answer_decoders(alloc: Global, buffer: &[u8], told: &mut Told) {
    let end = buffer.len();
    match str::from_utf8(&buffer[0..end]) {
        Ok(_) => {
            mark(alloc);
            let made = decode_string_owned(alloc, buffer, 0, end);
            let owned = decode_string(alloc, buffer, 0, end, true);
            let lent = decode_string(alloc, buffer, 0, end, false);
            let made_unchecked = decode_string_owned_unchecked(alloc, buffer, 0, end);
            let owned_unchecked = decode_string_unchecked(alloc, buffer, 0, end, true);
            let lent_unchecked = decode_string_unchecked(alloc, buffer, 0, end, false);
            mark(alloc);
            write_owned(&made, told);
            write_decoded(&owned, told);
            write_decoded(&lent, told);
            write_owned(&made_unchecked, told);
            write_decoded(&owned_unchecked, told);
            write_decoded(&lent_unchecked, told);
        }
        Err(_) => told.line("NO TEXT"),
    }
}

/// Tells a text, or why there is none.
fn write_owned(made: &Owned, told: &mut Told) {
    match made {
        Ok(text) => {
            told.say("owned ");
            told.show_line(text);
        }
        Err(error) => write_refused(error, told),
    }
}

/// Tells why a content is not decoded.
fn write_refused(error: &DecodeError, told: &mut Told) {
    match error {
        DecodeError::Scan(error) => write_refusal(error, told),
        DecodeError::OutOfMemory => told.line("out of memory"),
    }
}

fn write_decoded(decoded: &Result<CowStr<'_>, DecodeError>, told: &mut Told) {
    match decoded {
        Ok(CowStr::Borrowed(text)) => {
            told.say("borrowed ");
            told.show_line(text);
        }
        Ok(CowStr::Owned(text)) => {
            told.say("owned ");
            told.show_line(text);
        }
        Err(error) => write_refused(error, told),
    }
}

/// Whether each decoder makes this of the content, and those for UTF-8 where it is.
fn all_agree(alloc: Global, buffer: &[u8], start: usize, end: usize, owned: &Owned) -> bool
    requires in_order { start ≤ end }
    requires in_range { end ≤ length buffer.now }
{
    let made = Made {
        owned,
        borrowed: decode_string_borrowed(buffer, start, end),
    };
    checked_agree(alloc, buffer, start, end, made)
        && match str::from_utf8(&buffer[start..end]) {
            Ok(_) => unchecked_agree(alloc, buffer, start, end, made),
            Err(_) => true,
        }
}

/// Whether the decoders that check a content make this of it.
fn checked_agree(alloc: Global, buffer: &[u8], start: usize, end: usize, made: Made<'_>) -> bool
    requires in_order { start ≤ end }
    requires in_range { end ≤ length buffer.now }
{
    let Made { owned, borrowed } = made;
    let as_owned = is_owned(&decode_string(alloc, buffer, start, end, true), owned);
    let as_borrowed = is_borrowed(&decode_string(alloc, buffer, start, end, false), borrowed);
    let as_checked = match (check_content(buffer, start, end), owned) {
        (Ok(()), Ok(_)) => true,
        (Err(error), Err(DecodeError::Scan(owned))) => error == *owned,
        _ => false,
    };
    as_owned && as_borrowed && as_checked
}

/// Whether the decoders for UTF-8 make this of the content.
fn unchecked_agree(alloc: Global, buffer: &[u8], start: usize, end: usize, made: Made<'_>) -> bool
    requires in_order { start ≤ end }
    requires in_range { end ≤ length buffer.now }
    requires utf8 { IsUtf8 (slice_range buffer.now start end) }
{
    let all_owned = decode_string_owned_unchecked(alloc, buffer, start, end) == *made.owned;
    let decoded = decode_string_unchecked(alloc, buffer, start, end, true);
    let as_owned = is_owned(&decoded, made.owned);
    let decoded = decode_string_unchecked(alloc, buffer, start, end, false);
    let as_borrowed = is_borrowed(&decoded, made.borrowed);
    let all_borrowed = decode_string_borrowed_unchecked(buffer, start, end) == made.borrowed;
    all_owned && as_owned && as_borrowed && all_borrowed
}

/// Whether a content is decoded to this, in memory of its own.
fn is_owned(decoded: &Result<CowStr<'_>, DecodeError>, owned: &Owned) -> bool {
    match (decoded, owned) {
        (Ok(CowStr::Owned(text)), Ok(owned)) => text == owned,
        (Err(error), Err(owned)) => error == owned,
        _ => false,
    }
}

/// Whether a content is decoded to this, borrowed, or is refused where this is nothing.
fn is_borrowed(decoded: &Result<CowStr<'_>, DecodeError>, borrowed: Option<&str>) -> bool {
    match (decoded, borrowed) {
        (Ok(CowStr::Borrowed(text)), Some(borrowed)) => *text == borrowed,
        (Err(_), None) => true,
        _ => false,
    }
}

/// Tells whether the content before the `|`, repeated so often, is decoded to the text after it, repeated as often.
pub fn answer_repeated(alloc: Global, count: &str, input: &str, told: &mut Told) {
    match (input.split_once('|'), count.parse()) {
        (Some((content, text)), Ok(count)) => {
            told.show_line(&repeats(alloc, content, text, count));
        }
        _ => told.line("NO COUNT"),
    }
}

fn repeats(alloc: Global, content: &str, text: &str, count: usize) -> bool {
    let content = content.repeat(alloc, count);
    match (content, text.repeat(alloc, count)) {
        (Ok(content), Ok(text)) => decodes_to(alloc, content.as_bytes(), text.as_str()),
        _ => false,
    }
}

fn decodes_to(alloc: Global, content: &[u8], want: &str) -> bool {
    match decode_string_owned(alloc, content, 0, content.len()) {
        Ok(text) => text.as_str() == want,
        Err(_) => false,
    }
}
