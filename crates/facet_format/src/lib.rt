//! What formats share: `Span`, events (`ParseEvent`), `Decimal`, how reading is refused (`DeserializeError`, `ParseError`) and how a
//! refusal is told to a person (`message`, `Excerpt`), and `FormatParser` and `FormatSerializer`, the traits of parsers and of serializers.
#![tactic(auto)]

mod decimal;
mod error;
mod event;
mod excerpt;
pub mod laws;
mod line;
pub mod message;
pub mod numeral;
mod parse_error;
mod parser;
mod serializer;

pub use decimal::Decimal;
pub use error::{DeserializeError, DeserializeErrorKind};
pub use event::{
    ContainerKind, FieldKey, FieldLocationHint, ParseEvent, ParseEventKind, SavePoint, ScalarValue,
    Span,
};
pub use excerpt::Excerpt;
pub use line::{Position, position_at};
pub use parse_error::ParseError;
pub use parser::FormatParser;
pub use serializer::FormatSerializer;
