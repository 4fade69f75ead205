//! The parser of JSON documents by events, `JsonParser` (RFC 8259, alone or with lenient readings, and JSONC comments), and `drive`,
//! which makes a list of its calls; the serializer, `JsonSerializer`, which writes call by call, and its options; `transcode`, which passes
//! a value from the one to the other; `RawJson`, JSON text that is kept verbatim; and `JsonError`, the error that a person reads, with
//! its `Report`. `steps` has what readers by hand are made of, and `laws` what shows the definitions of documents, parsers and serializers
//! right.
#![tactic(auto)]

mod error;
mod kind;
mod label;
pub mod laws;
mod raw;
mod refusals;
mod report;
mod script;
pub mod steps;
mod text;
mod transcode_error;
mod value;

pub use error::{JsonError, Result};
pub use facet_format::{Excerpt, FormatParser, FormatSerializer, Position, position_at};
pub use facet_json_parser::JsonParser;
pub use facet_json_reader::{MaterializedToken, TokenKind};
pub use facet_json_serializer::{
    BytesFormat, HexBytesOptions, JsonSerializeError, JsonSerializer, SerializeOptions,
};
pub use kind::JsonErrorKind;
pub use raw::RawJson;
pub use report::Report;
pub use script::{Answer, Call, drive};
pub use transcode_error::TranscodeError;
pub use value::{ended, last_span, mismatch, next_in_line, next_of_value, pass_end, transcode};
