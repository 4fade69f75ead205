//! What a list of calls writes, and how each is answered.

use facet_format::{Decimal, FormatSerializer, ScalarValue};
use facet_json_serializer::{
    BytesFormat, HexBytesOptions, JsonSerializeError, JsonSerializer, SerializeOptions,
};
use std::alloc::Global;
use std::borrow::CowStr;

/// How the text is laid out.
pub enum Layout {
    /// Nothing between tokens.
    Compact,
    /// A line for each item and member.
    Pretty,
    /// A line for each item and member, indented by tabs.
    Tabs,
    /// Bytes as lists, which is asked for.
    Lists,
    /// Bytes as hexadecimal digits.
    Hex,
    /// Bytes as hexadecimal digits, above so many only so many of the first and of the last.
    ShortHex(usize, usize, usize),
    /// Bytes in this format.
    Format(BytesFormat),
}

/// The options of a layout.
pub fn options(layout: &Layout) -> SerializeOptions<'static> {
    let options = SerializeOptions::new();
    match layout {
        Layout::Compact => options,
        Layout::Pretty => options.pretty(),
        Layout::Tabs => options.indent("\t"),
        Layout::Lists => options.bytes_as_array(),
        Layout::Hex => options.bytes_as_hex(),
        Layout::ShortHex(above, head, tail) => options.bytes_as_hex_with_options(
            HexBytesOptions::new()
                .truncate(*above)
                .head_tail(*head, *tail),
        ),
        Layout::Format(format) => options.bytes_format(*format),
    }
}

/// How calls are written, the calls, the number of each one's refusal or 0, with none for the last ones that are taken, and the text.
pub type Row = (Layout, &'static [Call], &'static [u8], &'static str);

/// A call.
#[derive(Drop)]
pub enum Call {
    /// `begin_struct`
    BeginStruct,
    /// `field_key`
    Key(&'static str),
    /// `end_struct`
    EndStruct,
    /// `begin_seq`
    BeginSeq,
    /// `end_seq`
    EndSeq,
    /// `scalar` of a number
    Number(u64),
    /// `scalar` of a text
    Text(&'static str),
    /// `scalar` of another value
    Scalar(Scalar),
    /// `raw_scalar`
    Raw(&'static str),
    /// `serialize_byte_sequence`
    Bytes(&'static [u8]),
    /// `serialize_byte_array`
    Array(&'static [u8]),
}

/// A value, by what it holds.
#[derive(Clone, Copy)]
pub enum Scalar {
    Unit,
    Null,
    Char(char),
    Bool(bool),
    U64(u64),
    I64(i64),
    U128(u128),
    I128(i128),
    Text(&'static str),
    Bytes(&'static [u8]),
    /// A number with a fraction or an exponent, by its text
    Decimal(&'static str),
}

/// The value.
pub fn value_of(scalar: Scalar) -> ScalarValue<'static> {
    match scalar {
        Scalar::Null => ScalarValue::Null,
        Scalar::Unit => ScalarValue::Unit,
        Scalar::Bool(truth) => ScalarValue::Bool(truth),
        Scalar::Char(character) => ScalarValue::Char(character),
        Scalar::I64(number) => ScalarValue::I64(number),
        Scalar::U64(number) => ScalarValue::U64(number),
        Scalar::I128(number) => ScalarValue::I128(number),
        Scalar::U128(number) => ScalarValue::U128(number),
        Scalar::Text(text) => ScalarValue::Str(CowStr::Borrowed(text)),
        Scalar::Bytes(bytes) => ScalarValue::Bytes(bytes),
        Scalar::Decimal(text) => match Decimal::new(text) {
            Some(decimal) => ScalarValue::Decimal(decimal),
            None => ScalarValue::Null,
        },
    }
}

/// The number of a refusal, or 0.
fn number_of<T>(answer: &Result<T, JsonSerializeError>) -> u8 {
    match answer {
        Ok(_) => 0,
        Err(refusal) => refusal.code(),
    }
}

/// Makes a call. The number of its refusal, or 0.
fn make(serializer: &mut JsonSerializer<'_>, call: &Call) -> u8 {
    match call {
        Call::BeginStruct => number_of(&serializer.begin_struct()),
        Call::Key(key) => number_of(&serializer.field_key(*key)),
        Call::EndStruct => number_of(&serializer.end_struct()),
        Call::BeginSeq => number_of(&serializer.begin_seq()),
        Call::EndSeq => number_of(&serializer.end_seq()),
        Call::Number(number) => number_of(&serializer.scalar(value_of(Scalar::U64(*number)))),
        Call::Text(text) => number_of(&serializer.scalar(value_of(Scalar::Text(*text)))),
        Call::Scalar(scalar) => number_of(&serializer.scalar(value_of(*scalar))),
        Call::Raw(json) => number_of(&serializer.raw_scalar(*json)),
        Call::Bytes(bytes) => number_of(&serializer.serialize_byte_sequence(*bytes)),
        Call::Array(bytes) => number_of(&serializer.serialize_byte_array(*bytes)),
    }
}

/// The number of the refusal where memory runs out.
const OUT_OF_MEMORY: u8 = 4;

/// Makes the calls of the row, of which each has to be answered as the row says, up to one that runs out of memory, which may have been
/// before: that one and each later one have to tell so, and the answer is none.
fn are_answered(
    serializer: &mut JsonSerializer<'_>,
    row: &Row,
    ran_out_before: bool,
) -> Option<bool> {
    let mut has_run_out = ran_out_before;
    for (at, call) in row.1.iter().enumerate() {
        let number = make(serializer, call);
        if number == OUT_OF_MEMORY {
            has_run_out = true;
        } else if has_run_out || number != *row.2.get(at).unwrap_or(&0) {
            return Some(false);
        }
    }
    if has_run_out { None } else { Some(true) }
}

/// Writes the padding, where there is one, verbatim. Whether memory ran out.
fn is_refused(serializer: &mut JsonSerializer<'_>, padding: Option<&'static str>) -> bool {
    match padding {
        Some(json) => make(serializer, &Call::Raw(json)) == OUT_OF_MEMORY,
        None => false,
    }
}

/// Whether the calls write the row's text after the padding, and those that are refused are refused as the row says. Or memory runs out,
/// and then no text is given.
pub fn writes(alloc: Global, padding: Option<&'static str>, row: &Row) -> Option<bool> {
    let mut serializer = JsonSerializer::with_options(alloc, options(&row.0));
    let ran_out = is_refused(&mut serializer, padding);
    let answered = are_answered(&mut serializer, row, ran_out);
    is_finished(&serializer.finish(), answered, padding.unwrap_or(""), row.3)
}

/// Whether the text was written after the padding, as the calls were answered so; or memory ran out in them.
fn is_finished(
    written: &Result<Vec<u8>, JsonSerializeError>,
    answered: Option<bool>,
    padding: &str,
    text: &str,
) -> Option<bool> {
    match (written, answered) {
        (Ok(bytes), Some(is_right)) => {
            Some(is_right && is_after(bytes.as_slice(), padding.as_bytes(), text))
        }
        (Err(JsonSerializeError::OutOfMemory), None) => None,
        _ => Some(false),
    }
}

/// Whether the bytes are these and then the text.
pub fn is_after(bytes: &[u8], before: &[u8], text: &str) -> bool {
    match bytes.get(before.len()..) {
        Some(rest) => bytes.starts_with(before) && rest == text.as_bytes(),
        None => false,
    }
}

/// Whether this was written, or memory ran out.
pub fn is_text(answer: &Result<Vec<u8>, JsonSerializeError>, text: &str) -> Option<bool> {
    match answer {
        Ok(written) => Some(written.as_slice() == text.as_bytes()),
        Err(JsonSerializeError::OutOfMemory) => None,
        Err(_) => Some(false),
    }
}
