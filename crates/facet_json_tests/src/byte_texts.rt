//! Bytes as lists of numbers and as hexadecimal texts.

use crate::written::{Call, Layout, Row};
use facet_json_serializer::{BytesFormat, HexBytesOptions};

/// 0 to 9.
const DIGITS: &[Call] = &[Call::Bytes(&[0, 1, 2, 3, 4, 5, 6, 7, 8, 9])];

/// Lists of numbers.
const NUMBERS: Layout = Layout::Format(BytesFormat::Array);

/// All bytes as hexadecimal digits.
const WHOLE_HEX: Layout = Layout::Format(BytesFormat::Hex(HexBytesOptions {
    truncate_above: None,
    head: 32,
    tail: 32,
}));

/// Bytes as hexadecimal digits, above six bytes only the first two and the last two.
const SHORT_HEX: Layout = Layout::Format(BytesFormat::Hex(HexBytesOptions {
    truncate_above: Some(6),
    head: 2,
    tail: 2,
}));

#[rattlefmt::skip]
pub static BYTES: [Row; 12] = [
    // Hexadecimal texts: they are shortened where they are longer than the options say, and their digits are in lower case.
    (Layout::ShortHex(6, 2, 2), DIGITS, &[], "\"0x0001..<6 bytes>..0809\""),
    (Layout::ShortHex(6, 32, 32), DIGITS, &[], "\"0x00010203040506070809..<0 bytes>..\""),
    (Layout::ShortHex(10, 2, 2), DIGITS, &[], "\"0x00010203040506070809\""),
    (Layout::Hex, &[Call::Bytes(&[0, 127, 255])], &[], "\"0x007fff\""),
    (Layout::Hex, &[Call::Bytes(&[0xaa, 0xbb, 0xcc, 0xdd])], &[], "\"0xaabbccdd\""),
    // Lists of numbers, which are always compact.
    (Layout::Pretty, &[Call::BeginSeq, Call::BeginSeq, Call::EndSeq, Call::BeginStruct, Call::EndStruct, Call::Bytes(&[0, 127]), Call::EndSeq], &[],
        "[\n  [],\n  {},\n  [0,127]\n]"),
    (Layout::Lists, &[Call::Bytes(&[])], &[], "[]"),
    // Structs whose bytes stand under the key `data`, as the options say: bytes of any number, and four of them.
    (NUMBERS, &[Call::BeginStruct, Call::Key("data"), Call::Bytes(&[0, 127, 255]), Call::EndStruct], &[], "{\"data\":[0,127,255]}"),
    (WHOLE_HEX, &[Call::BeginStruct, Call::Key("data"), Call::Bytes(&[0, 127, 255]), Call::EndStruct], &[], "{\"data\":\"0x007fff\"}"),
    (SHORT_HEX, &[Call::BeginStruct, Call::Key("data"), Call::Bytes(&[0, 1, 2, 3, 4, 5, 6, 7, 8, 9]), Call::EndStruct], &[],
        "{\"data\":\"0x0001..<6 bytes>..0809\"}"),
    (WHOLE_HEX, &[Call::BeginStruct, Call::Key("data"), Call::Array(&[0xaa, 0xbb, 0xcc, 0xdd]), Call::EndStruct], &[], "{\"data\":\"0xaabbccdd\"}"),
    (NUMBERS, &[Call::BeginStruct, Call::Key("data"), Call::Array(&[0xaa, 0xbb, 0xcc, 0xdd]), Call::EndStruct], &[], "{\"data\":[170,187,204,221]}"),
];
