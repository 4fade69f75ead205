//! Values of each length around the widths that are read at once, and what only begins as one of them.

use crate::expecting::expect_of;
use facet_format::DeserializeError;
use facet_json::{from_str, from_str_borrowed};
use std::alloc::Global;

/// The longest text.
const TEXT: &str = "aaaaaaaaaaaaaaaaaaaaaaaaaaaaaaaaaaaaaaaa";

/// Whether this text was read, and it with a line break behind it.
fn are_texts(read: Result<Vec<String>, DeserializeError<'_>>, text: &str) -> bool {
    match read {
        Ok(texts) => {
            texts.len() == 2
                && texts[0].as_str() == text
                && texts[1].strip_suffix('\n') == Some(text)
        }
        Err(_) => false,
    }
}

/// Whether a list of the text, and of it with an escape behind it, is read.
fn is_listed(alloc: Global, text: &str) -> bool {
    match ["[\"", "\", \"", "\\n\"]"].join(alloc, text) {
        Ok(input) => are_texts(from_str(alloc, input.as_str()), text),
        Err(_) => false,
    }
}

/// Whether the text is lent.
fn is_lent(alloc: Global, text: &str) -> bool {
    match ["\"", "\""].join(alloc, text) {
        Ok(input) => from_str_borrowed(alloc, input.as_str()) == Ok(text),
        Err(_) => false,
    }
}

/// The longest number.
const DIGITS: &str = "777777777777777777";

/// The number of so many sevens.
fn number_of(digits: &str) -> u64 {
    let mut number = 0_u64;
    for _ in 0..digits.len() {
        number = number.wrapping_mul(10).wrapping_add(7);
    }
    number
}

/// Whether the number was read twice, with a minus.
fn are_negative(read: Result<Vec<i64>, DeserializeError<'_>>, number: u64) -> bool {
    match read {
        Ok(read) => {
            read.len() == 2 && read[0].unsigned_abs() == number && read[0] < 0 && read[1] == read[0]
        }
        Err(_) => false,
    }
}

/// Whether the number is read with a minus, before other bytes.
fn is_negative(alloc: Global, digits: &str) -> bool {
    match ["[-", ", -", "                 ]"].join(alloc, digits) {
        Ok(input) => are_negative(from_str(alloc, input.as_str()), number_of(digits)),
        Err(_) => false,
    }
}

/// Whether it is read at the end of the input, and with a minus.
fn is_number(alloc: Global, digits: &str) -> bool {
    from_str(alloc, digits) == Ok(number_of(digits)) && is_negative(alloc, digits)
}

#[test]
fn values_of_each_length_are_read(rt: HostRuntime) {
    let alloc = rt.alloc();
    for len in 0..=40 {
        let text = TEXT.get(..len).unwrap_or("");
        expect_of(&rt, is_listed(alloc, text) && is_lent(alloc, text), text);
    }
    for len in 1..=18 {
        let digits = DIGITS.get(..len).unwrap_or("");
        expect_of(&rt, is_number(alloc, digits), digits);
    }
}
