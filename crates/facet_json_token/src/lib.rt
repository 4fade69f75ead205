//! One token of JSON text (RFC 8259, sections 2, 6 and 7, and JSONC comments), and what it stands for: `cut` finds the token at an offset,
//! `decode_string` and its kin read what a string holds, `parse_number` reads a number, and `check_string_strict` and
//! `check_number_strict` say whether these are of RFC 8259 alone. What is wrong is told by enums, as a `Fault`; users see a `ScanError`,
//! with a text. `facet_json_scan` cuts tokens off buffers that grow.
#![tactic(auto)]

mod ascii;
pub mod cutting;
mod decode;
mod fault;
mod mode;
mod number;
pub mod quick;
mod refusal;
mod rfc_number;
mod rfc_string;
mod runs;
mod token;

pub use cutting::cut;
pub use decode::{
    DecodeError, check_content, decode_string, decode_string_borrowed,
    decode_string_borrowed_unchecked, decode_string_owned, decode_string_owned_unchecked,
    decode_string_unchecked,
};
pub use fault::{CutResult, Fault, FaultKind, Inside};
pub use mode::{Mode, Trust};
pub use number::{
    ParsedNumber, measured_decimal, measured_number, no_number, parse_number,
    parse_number_unchecked,
};
pub use quick::{plain_text, plain_text_unchecked, quoted_text};
pub use rfc_number::{check_number_strict, has_rfc_parts};
pub use rfc_string::check_string_strict;
pub use token::{ScanError, ScanErrorKind, ScanResult, SpannedToken, Token};
