//! JSON text to values of every type that the toolchain's crate `serde` reads, and back: `facet_json`'s parser and serializer as a `Format`
//! and a `Serializer` of `serde`'s. So a type with `#[derive(Serialize, Deserialize)]` is read by `from_slice` and its kin, and written by
//! `to_vec` and its kin, with no proof of the user's. What is written is the text of one tree, whatever the type does (`IsTextOfTree`).
//! Which value is read is promised of no derived type: `facet_json::Facet` is the way with that theorem.
#![tactic(auto)]

mod due;
mod error;
mod fault;
mod format;
mod found;
mod json;
mod one_event;
mod one_value;
mod reading;
mod streams;
mod writer;
mod writing;

pub use error::{Error, ErrorKind, Placed, Report};
pub use facet_format::{DeserializeErrorKind, Span};
pub use facet_json_parser::JsonParser;
pub use facet_json_serializer::{BytesFormat, HexBytesOptions, SerializeOptions};
pub use fault::{Detail, ReadFault, Refusal, WriteFault};
pub use json::Json;
pub use reading::{
    from_slice, from_slice_jsonc, from_slice_strict, from_slice_whole, from_str, from_str_jsonc,
    from_str_strict,
};
pub use streams::{StreamError, from_reader, to_writer, to_writer_with_options};
pub use writer::JsonWriter;
pub use writing::{
    to_string, to_string_pretty, to_string_with_options, to_vec, to_vec_pretty, to_vec_with_options,
};
