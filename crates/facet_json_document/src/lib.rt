//! Whether an input has a document, of which nothing is kept; an input read into a list of nodes; and a text laid out anew with its
//! comments.
#![tactic(auto)]

mod checking;
mod document;
mod formatting;
mod layout;
mod pieces;
mod spacing;

pub use checking::{check, check_jsonc, check_strict, check_whole};
pub use document::{Document, Items, Members, Value, ValueKind};
pub use formatting::{FormatOptions, format_text, format_text_strict};
pub use spacing::Indent;
