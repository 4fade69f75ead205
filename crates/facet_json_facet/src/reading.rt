//! Values of a type from the bytes or the text that they stand in.

ghost use Rattle.std.specs.Prelude.{◌≡◌, ℕ, List, false, cond, IfOk};
ghost use Rattle.facet_json_token.specs.Gap.{Mode, plain, jsonc};
ghost use Rattle.facet_json_grammar.specs.Now.{fresh};
ghost use Rattle.facet_json_facet.specs.Inputs.{FirstValue};

use crate::facet::{Facet, value_in};
use facet_format::DeserializeError;
use facet_json_parser::JsonParser;
use std::alloc::Global;

/// Reads the value of the document that the bytes begin with (RFC 8259, sections 2 to 7, with lenient readings such as a trailing comma),
/// and borrows nothing of the input. What follows the document is not looked at. A type with derives is read by
/// `facet_json_serde::from_slice`, which may borrow.
///
/// ```text
/// from_slice::<u8>(alloc, b" 7 ")        Ok: 7
/// from_slice::<u8>(alloc, b"300")        Err: NumberOutOfRange { target_type: "u8" }, span 0+3
/// ```
///
/// # Errors
///
/// The input's document is no value of the type: `TypeMismatch`, `NumberOutOfRange`, `InvalidValue` or `MissingField`. Or the input begins
/// with no document, as far as it was looked at: a refusal of the kinds 1 to 4. Or out of memory. A span is an offset and a length in
/// bytes.
pub fn from_slice<'t, 'de, T: Facet<'de>>(
    alloc: Global,
    input: &'de [u8],
) -> Result<T, DeserializeError<'t>>
    ensures value { FirstValue T.shape.reading T.whole T.view input.now plain result }
    ensures owned { IfOk result T.owned }
{
    first_value(alloc, &mut JsonParser::new(alloc, input), false)
}

/// Reads the value of the document that the bytes begin with (RFC 8259, sections 2 to 7, with lenient readings such as a trailing comma),
/// and borrows what it can of the input. What follows the document is not looked at.
///
/// ```text
/// from_slice_borrowed::<String>(alloc, br#""ab""#)        Ok: ab
/// ```
///
/// # Errors
///
/// As `from_slice`.
pub fn from_slice_borrowed<'t, 'de, T: Facet<'de>>(
    alloc: Global,
    input: &'de [u8],
) -> Result<T, DeserializeError<'t>>
    ensures { FirstValue T.shape.reading_borrowed T.whole T.view input.now plain result }
{
    first_value(alloc, &mut JsonParser::new(alloc, input), true)
}

/// Reads a value as `from_slice`, where comments are allowed wherever white space is: `//` up to the line's end, and `/*` up to `*/`.
///
/// ```text
/// from_slice_jsonc::<bool>(alloc, b"/* yes */ true")        Ok: true
/// ```
///
/// # Errors
///
/// As `from_slice`.
pub fn from_slice_jsonc<'t, 'de, T: Facet<'de>>(
    alloc: Global,
    input: &'de [u8],
) -> Result<T, DeserializeError<'t>>
    ensures value { FirstValue T.shape.reading T.whole T.view input.now jsonc result }
    ensures owned { IfOk result T.owned }
{
    first_value(alloc, &mut JsonParser::new_jsonc(alloc, input), false)
}

/// Reads a value as `from_slice_borrowed`, where comments are allowed as in `from_slice_jsonc`.
///
/// ```text
/// from_slice_borrowed_jsonc::<String>(alloc, b"\"ab\" // two letters")        Ok: ab
/// ```
///
/// # Errors
///
/// As `from_slice`.
pub fn from_slice_borrowed_jsonc<'t, 'de, T: Facet<'de>>(
    alloc: Global,
    input: &'de [u8],
) -> Result<T, DeserializeError<'t>>
    ensures { FirstValue T.shape.reading_borrowed T.whole T.view input.now jsonc result }
{
    first_value(alloc, &mut JsonParser::new_jsonc(alloc, input), true)
}

/// Reads a value as `from_slice`, from a text, which is known to be UTF-8.
///
/// ```text
/// from_str::<i8>(alloc, "-128")        Ok: -128
/// ```
///
/// # Errors
///
/// As `from_slice`.
pub fn from_str<'t, 'de, T: Facet<'de>>(
    alloc: Global,
    input: &'de str,
) -> Result<T, DeserializeError<'t>>
    ensures value { FirstValue T.shape.reading T.whole T.view input.now plain result }
    ensures owned { IfOk result T.owned }
{
    first_value(
        alloc,
        &mut JsonParser::new_trusted(alloc, input.as_bytes()),
        false,
    )
}

/// Reads a value as `from_slice_borrowed`, from a text, which is known to be UTF-8.
///
/// ```text
/// from_str_borrowed::<String>(alloc, r#""ab""#)        Ok: ab
/// ```
///
/// # Errors
///
/// As `from_slice`.
pub fn from_str_borrowed<'t, 'de, T: Facet<'de>>(
    alloc: Global,
    input: &'de str,
) -> Result<T, DeserializeError<'t>>
    ensures { FirstValue T.shape.reading_borrowed T.whole T.view input.now plain result }
{
    first_value(
        alloc,
        &mut JsonParser::new_trusted(alloc, input.as_bytes()),
        true,
    )
}

/// Reads a value as `from_slice_jsonc`, from a text, which is known to be UTF-8.
///
/// ```text
/// from_str_jsonc::<i8>(alloc, "-1 // below zero")        Ok: -1
/// ```
///
/// # Errors
///
/// As `from_slice`.
pub fn from_str_jsonc<'t, 'de, T: Facet<'de>>(
    alloc: Global,
    input: &'de str,
) -> Result<T, DeserializeError<'t>>
    ensures value { FirstValue T.shape.reading T.whole T.view input.now jsonc result }
    ensures owned { IfOk result T.owned }
{
    let text = input.as_bytes();
    first_value(
        alloc,
        &mut JsonParser::new_jsonc_trusted(alloc, text),
        false,
    )
}

/// Reads a value as `from_slice_borrowed_jsonc`, from a text, which is known to be UTF-8.
///
/// ```text
/// from_str_borrowed_jsonc::<String>(alloc, "/**/\"ab\"")        Ok: ab
/// ```
///
/// # Errors
///
/// As `from_slice`.
pub fn from_str_borrowed_jsonc<'t, 'de, T: Facet<'de>>(
    alloc: Global,
    input: &'de str,
) -> Result<T, DeserializeError<'t>>
    ensures { FirstValue T.shape.reading_borrowed T.whole T.view input.now jsonc result }
{
    let text = input.as_bytes();
    first_value(alloc, &mut JsonParser::new_jsonc_trusted(alloc, text), true)
}

/// Reads the first value of a new parser, and may borrow of the input where `borrows` says so: for a parser that was made in another
/// way than by the functions above.
///
/// ```text
/// first_value::<u8>(alloc, &mut JsonParser::new(alloc, b"[1] 2"), false)     TypeMismatch: an array begins there
/// first_value::<u8>(alloc, &mut JsonParser::new(alloc, b"1 2"), false)       Ok: 1
/// ```
///
/// # Errors
///
/// As `from_slice`.
#[inline(always)]
pub fn first_value<'t, 'de, T: Facet<'de>>(
    alloc: Global,
    parser: &mut JsonParser<'de>,
    borrows: bool,
) -> Result<T, DeserializeError<'t>>
    ensures value { (input : List ℕ) (mode : Mode) → parser.old ≡ fresh input mode
        → FirstValue (cond borrows T.shape.reading_borrowed T.shape.reading) T.whole T.view input mode result }
    ensures owned { borrows ≡ false → IfOk result T.owned }
{
    value_in(alloc, parser, borrows)
}
