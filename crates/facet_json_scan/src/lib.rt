//! JSON text (RFC 8259, with lenient readings, and JSONC comments) to tokens, strings' contents to texts, and numbers'
//! texts to values, proved. `cut` cuts one token at an offset, `Scanner` tokens off a buffer that grows, and `scan_reader` reads and
//! scans all that a source has. `decode_string` and its kin read a string's content, `parse_number` a number's text.
//! `check_string_strict` and `check_number_strict` say whether these are of RFC 8259 alone.
#![tactic(auto)]

mod answer;
pub mod laws;
mod reader;
mod refusing;
mod scanner;
mod source;

pub use answer::{ScanReadError, Scanned};
pub use facet_format::numeral::NumberHint;
pub use facet_json_token::{
    DecodeError, Mode, ParsedNumber, ScanError, ScanErrorKind, ScanResult, SpannedToken, Token,
    decode_string, decode_string_borrowed, decode_string_borrowed_unchecked, decode_string_owned,
    decode_string_owned_unchecked, decode_string_unchecked, parse_number, parse_number_unchecked,
};
pub use reader::scan_reader;
pub use refusing::{check_content, check_number_strict, check_string_strict, cut};
pub use scanner::Scanner;
pub use source::{ByteSource, Marked};
