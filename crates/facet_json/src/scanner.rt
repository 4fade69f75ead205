//! Tokens, also of bytes that come in pieces, strings' contents and numbers by themselves: what the crate `facet_json_scan` gives.

pub use facet_format::numeral::NumberHint;
pub use facet_json_scan::{
    ByteSource, Marked, ScanReadError, Scanned, Scanner, check_content, check_number_strict,
    check_string_strict, cut, scan_reader,
};
pub use facet_json_token::{
    DecodeError, Mode, ParsedNumber, ScanError, ScanErrorKind, ScanResult, SpannedToken, Token,
    Trust, decode_string, decode_string_borrowed, decode_string_borrowed_unchecked,
    decode_string_owned, decode_string_owned_unchecked, decode_string_unchecked, parse_number,
    parse_number_unchecked,
};
