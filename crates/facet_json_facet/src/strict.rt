//! Values of a type from bytes or a text that has to be RFC 8259 alone, from its start to its end.

ghost use Rattle.std.specs.Prelude.{◌≡◌, ℕ, List, false, cond, IfOk};
ghost use Rattle.facet_json_token.specs.Gap.{plain};
ghost use Rattle.facet_json_grammar.specs.Language.{strict};
ghost use Rattle.facet_json_grammar.specs.Now.{fresh_in};
ghost use Rattle.facet_json_facet.specs.Inputs.{StrictValue};

use crate::facet::{Facet, value_in};
use facet_format::DeserializeError;
use facet_json_core::pass_end;
use facet_json_parser::JsonParser;
use std::alloc::Global;

/// Reads the value of the bytes, which are one text of RFC 8259 (sections 2 to 7), with white space alone around it, and borrows nothing of
/// them. Nothing lenient is read, but for what the type passes unread, as a struct does with unknown fields: within that, texts, numbers
/// and commas are not looked at.
///
/// ```text
/// from_slice_strict::<u8>(alloc, b" 7 ")       Ok: 7
/// from_slice_strict::<u8>(alloc, b"1 2")       Err: UnexpectedToken { got: "U64", expected: "end of input" }, span 2+1
/// from_slice_strict::<u8>(alloc, b"007")       Err: UnexpectedChar('?'), span 0+3
/// ```
///
/// # Errors
///
/// The document is no value of the type: `TypeMismatch`, `NumberOutOfRange`, `InvalidValue` or `MissingField`. Or the bytes are no text of
/// RFC 8259, as far as they were looked at, or its strings or whole numbers are none that this library reads: a refusal of the kinds 1 to
/// 4. Or `TypeMismatch`, expected `end of input`, where the type left a part of the document. Or out of memory. A span is an offset and a
/// length in bytes.
pub fn from_slice_strict<'t, 'de, T: Facet<'de>>(
    alloc: Global,
    input: &'de [u8],
) -> Result<T, DeserializeError<'t>>
    ensures value { StrictValue T.shape.reading T.whole T.view input.now result }
    ensures owned { IfOk result T.owned }
{
    whole_value(alloc, &mut JsonParser::new_strict(alloc, input), false)
}

/// Reads a value as `from_slice_strict`, from a text, which is known to be UTF-8.
///
/// ```text
/// from_str_strict::<bool>(alloc, "true")        Ok: true
/// from_str_strict::<bool>(alloc, "true,")       Err: UnexpectedToken { got: "Comma", expected: "end of input" }, span 4+1
/// ```
///
/// # Errors
///
/// As `from_slice_strict`.
pub fn from_str_strict<'t, 'de, T: Facet<'de>>(
    alloc: Global,
    input: &'de str,
) -> Result<T, DeserializeError<'t>>
    ensures value { StrictValue T.shape.reading T.whole T.view input.now result }
    ensures owned { IfOk result T.owned }
{
    let bytes = input.as_bytes();
    whole_value(
        alloc,
        &mut JsonParser::new_strict_trusted(alloc, bytes),
        false,
    )
}

/// Reads the value before which a new strict parser stands, and then the end; the value may borrow of the input where `borrows` says so.
///
/// ```text
/// whole_value::<u8>(alloc, &mut JsonParser::new_strict(alloc, b" 1 "), false)     Ok: 1
/// whole_value::<u8>(alloc, &mut JsonParser::new_strict(alloc, b"1 2"), false)     UnexpectedToken, span 2+1
/// ```
///
/// # Errors
///
/// As `from_slice_strict`.
pub fn whole_value<'t, 'de, T: Facet<'de>>(
    alloc: Global,
    parser: &mut JsonParser<'de>,
    borrows: bool,
) -> Result<T, DeserializeError<'t>>
    ensures value { (input : List ℕ) → parser.old ≡ fresh_in input (strict plain)
        → StrictValue (cond borrows T.shape.reading_borrowed T.shape.reading) T.whole T.view input result }
    ensures owned { borrows ≡ false → IfOk result T.owned }
{
    let value = value_in(alloc, parser, borrows)?;
    pass_end(parser)?;
    Ok(value)
}
