//! What RFC 8259 asks of strings' contents and of numbers, beyond what makes them tokens.

use crate::row::range;
use crate::tokens::write_refusal;
use facet_json::scanner::{check_number_strict, check_string_strict};
use facet_json_row_values::told::Told;
use facet_json_row_values::words::first_word;

/// Tells whether a range of the buffer passes a check, or the refusal: `string` or `number`, and perhaps `START..END`.
pub fn answer_check(words: &str, buffer: &[u8], told: &mut Told) {
    let (name, at) = first_word(words);
    let Some((start, end)) = range(at, buffer.len()) else {
        return told.line("NO RANGE");
    };
    let checked = match name {
        "string" => check_string_strict(buffer, start, end),
        "number" => check_number_strict(buffer, start, end),
        _ => return told.line("NO CHECK"),
    };
    match checked {
        Ok(()) => told.line("passes"),
        Err(error) => write_refusal(&error, told),
    }
}
