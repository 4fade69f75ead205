//! What a number's text is read as.

ghost use Rattle.std.specs.Prelude.{◌≤◌, length};

use crate::row::range;
use crate::tokens::write_refusal;
use facet_json::scanner::{
    NumberHint, ParsedNumber, ScanError, parse_number, parse_number_unchecked,
};
use facet_json_row_values::told::Told;
use facet_json_row_values::words::first_word;

/// Tells the number at a range of the buffer, or the refusal: `HINT` or `HINT START..END`. Where the reader of text that is known to be
/// UTF-8 reads another, that is told.
pub fn answer_number(words: &str, buffer: &[u8], told: &mut Told) {
    let (name, at) = first_word(words);
    let (Some(hint), Some((start, end))) = (hint(name), range(at, buffer.len())) else {
        return told.line("NO NUMBER");
    };
    let read = parse_number(buffer, start, end, hint);
    if is_read_again(buffer, start, end, hint, &read) {
        write_read(&read, told);
    } else {
        told.say("DIFFERS: ");
        told.show_line(&read);
    }
}

/// The hint of this name.
fn hint(name: &str) -> Option<NumberHint> {
    match name {
        "unsigned" => Some(NumberHint::Unsigned),
        "signed" => Some(NumberHint::Signed),
        "float" => Some(NumberHint::Float),
        _ => None,
    }
}

/// Tells the number, or the refusal.
fn write_read(read: &Result<ParsedNumber<'_>, ScanError>, told: &mut Told) {
    match read {
        Ok(number) => told.show_line(number),
        Err(error) => write_refusal(error, told),
    }
}

/// Whether text in UTF-8 is read the same by the reader that does not check it.
fn is_read_again(
    buffer: &[u8],
    start: usize,
    end: usize,
    hint: NumberHint,
    read: &Result<ParsedNumber<'_>, ScanError>,
) -> bool
    requires in_order { start ≤ end }
    requires in_range { end ≤ length buffer.now }
{
    match str::from_utf8(&buffer[start..end]) {
        Ok(_) => parse_number_unchecked(buffer, start, end, hint) == *read,
        Err(_) => true,
    }
}
