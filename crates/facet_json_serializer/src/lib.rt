//! Writing JSON (RFC 8259) call by call: `JsonSerializer`, how text is laid out and bytes are written (`SerializeOptions`), and how writing
//! is refused (`JsonSerializeError`); the bytes that a text is appended to (`Sink`), and texts between quotes (section 7). The texts themselves
//! are defined in `facet_json_grammar`.
#![tactic(auto)]

mod append;
mod bytes_text;
mod error;
pub mod laws;
mod options;
mod quote;
mod scalar_text;
mod serializer;
mod sink;
mod writing;

pub use error::JsonSerializeError;
pub use options::{BytesFormat, HexBytesOptions, SerializeOptions};
pub use serializer::JsonSerializer;
pub use sink::Sink;
