//! Values of a type from the bytes or the text that they stand in.

ghost use Rattle.std.specs.Prelude.{length, IfErr};
ghost use Rattle.facet_json_serde.specs.Within.{LiesWithin};

use crate::error::Error;
use crate::fault::ReadFault;
use crate::json::Json;
use facet_json_parser::JsonParser;
use serde::{Deserialize, Deserializer, Format};
use std::alloc::Global;

/// Reads the value of the document that the bytes begin with (RFC 8259, sections 2 to 7, with lenient readings such as a trailing comma).
/// It may borrow of the input. What follows the document is not looked at. A type with `Facet` is read by `facet_json::from_slice`, which
/// borrows nothing.
///
/// ```text
/// from_slice::<u8>(alloc, b" 7 ")        Ok: 7
/// from_slice::<u8>(alloc, b"300")        Err: InvalidValue, span 0+3
/// ```
///
/// # Errors
///
/// The document is no value of the type; the input begins with none, as far as it was looked at; or an allocation failed. What the type
/// passes unread, as the value of an unknown field, is only held to its brackets and tokens.
pub fn from_slice<'t, 'de, T: Deserialize<'de>>(
    alloc: Global,
    input: &'de [u8],
) -> Result<T, Error<'t>>
    ensures within { IfErr result (λ e. LiesWithin (length input.now) e.span) }
{
    first_value(alloc, input, JsonParser::new(alloc, input))
}

/// Reads a value as `from_slice`, where comments are allowed wherever white space is: `//` up to the line's end, and `/*` up to `*/`.
///
/// ```text
/// from_slice_jsonc::<bool>(alloc, b"/* yes */ true")        Ok: true
/// ```
///
/// # Errors
///
/// As `from_slice`.
pub fn from_slice_jsonc<'t, 'de, T: Deserialize<'de>>(
    alloc: Global,
    input: &'de [u8],
) -> Result<T, Error<'t>>
    ensures within { IfErr result (λ e. LiesWithin (length input.now) e.span) }
{
    first_value(alloc, input, JsonParser::new_jsonc(alloc, input))
}

/// Reads the value of the bytes, which are one text of RFC 8259 alone: nothing lenient is read, and only white space stands around it.
/// Within what the type passes unread, texts, numbers and commas are not looked at.
///
/// ```text
/// from_slice_strict::<u8>(alloc, b" 7 ")       Ok: 7
/// from_slice_strict::<u8>(alloc, b"007")       Err: UnexpectedChar('?'), span 0+3
/// ```
///
/// # Errors
///
/// As `from_slice`, where the bytes are no such text, as far as they were looked at.
pub fn from_slice_strict<'t, 'de, T: Deserialize<'de>>(
    alloc: Global,
    input: &'de [u8],
) -> Result<T, Error<'t>>
    ensures within { IfErr result (λ e. LiesWithin (length input.now) e.span) }
{
    first_value(alloc, input, JsonParser::new_strict(alloc, input))
}

/// Reads a value as `from_slice`, where only white space may follow the document.
///
/// ```text
/// from_slice_whole::<Vec<u8>>(alloc, b"[1,]\n")     Ok: [1]
/// from_slice_whole::<u8>(alloc, b"1 x")             Err: TrailingCharacters, span 2+1
/// ```
///
/// # Errors
///
/// As `from_slice`, and `TrailingCharacters` at what follows.
pub fn from_slice_whole<'t, 'de, T: Deserialize<'de>>(
    alloc: Global,
    input: &'de [u8],
) -> Result<T, Error<'t>>
    ensures within { IfErr result (λ e. LiesWithin (length input.now) e.span) }
{
    let mut json = Json::new(alloc, JsonParser::new(alloc, input));
    match whole(alloc, input, &mut json) {
        Ok(value) => Ok(value),
        Err(fault) => Err(json.told(fault).within(input)),
    }
}

/// Reads a value as `from_slice`, from a text, which is known to be UTF-8.
///
/// ```text
/// from_str::<(i8, char)>(alloc, r#"[-1, "x"]"#)        Ok: (-1, 'x')
/// ```
///
/// # Errors
///
/// As `from_slice`.
pub fn from_str<'t, 'de, T: Deserialize<'de>>(
    alloc: Global,
    input: &'de str,
) -> Result<T, Error<'t>>
    ensures within { IfErr result (λ e. LiesWithin (length input.now) e.span) }
{
    let bytes = input.as_bytes();
    first_value(alloc, bytes, JsonParser::new_trusted(alloc, bytes))
}

/// Reads a value as `from_slice_jsonc`, from a text, which is known to be UTF-8.
///
/// # Errors
///
/// As `from_slice`.
pub fn from_str_jsonc<'t, 'de, T: Deserialize<'de>>(
    alloc: Global,
    input: &'de str,
) -> Result<T, Error<'t>>
    ensures within { IfErr result (λ e. LiesWithin (length input.now) e.span) }
{
    let bytes = input.as_bytes();
    first_value(alloc, bytes, JsonParser::new_jsonc_trusted(alloc, bytes))
}

/// Reads a value as `from_slice_strict`, from a text, which is known to be UTF-8.
///
/// # Errors
///
/// As `from_slice_strict`.
pub fn from_str_strict<'t, 'de, T: Deserialize<'de>>(
    alloc: Global,
    input: &'de str,
) -> Result<T, Error<'t>>
    ensures within { IfErr result (λ e. LiesWithin (length input.now) e.span) }
{
    let bytes = input.as_bytes();
    first_value(alloc, bytes, JsonParser::new_strict_trusted(alloc, bytes))
}

/// Reads the parser's next value, and the end of its document.
fn first_value<'t, 'de, T: Deserialize<'de>>(
    alloc: Global,
    input: &'de [u8],
    parser: JsonParser<'de>,
) -> Result<T, Error<'t>>
    ensures within { IfErr result (λ e. LiesWithin (length input.now) e.span) }
{
    let mut json = Json::new(alloc, parser);
    match first(alloc, input, &mut json) {
        Ok(value) => Ok(value),
        Err(fault) => Err(json.told(fault).within(input)),
    }
}

/// Reads a value, and the end of the document.
fn first<'de, T: Deserialize<'de>>(
    alloc: Global,
    input: &'de [u8],
    json: &mut Json<'_>,
) -> Result<T, ReadFault> {
    let value = json.value(input)?;
    json.finish()?;
    Ok(value)
}

/// Reads a value, the end of the document and that of the input.
fn whole<'de, T: Deserialize<'de>>(
    alloc: Global,
    input: &'de [u8],
    json: &mut Json<'_>,
) -> Result<T, ReadFault> {
    let value = json.value(input)?;
    json.finish_whole()?;
    Ok(value)
}

impl Json<'_> {
    /// Reads the value that comes. The input is the one that the parser reads.
    ///
    /// # Errors
    ///
    /// As `from_slice`; `told` says where.
    pub fn value<'de, T: Deserialize<'de>>(&mut self, input: &'de [u8]) -> Result<T, ReadFault> {
        read_by(self.alloc, input, self)
    }
}

/// Reads the value that comes, by any format.
#[inline(always)]
fn read_by<'de, F: Format, T: Deserialize<'de>>(
    alloc: Global,
    input: &'de [u8],
    format: &mut F,
) -> Result<T, F::Error> {
    T::deserialize(alloc, &mut Deserializer::new(input, format))
}
