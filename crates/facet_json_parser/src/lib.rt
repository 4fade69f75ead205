//! The parser of JSON documents, `JsonParser`: event by event, with a look ahead and points to go back to. Its calls are the methods of
//! `FormatParser`. Values that are skipped or captured are passed by their brackets alone, and nothing of them is decoded.
#![tactic(auto)]

mod block;
mod lookahead;
mod marks;
mod parser;
mod part;
mod passing;
mod points;
mod quiet;
mod run;

pub use parser::{JsonParser, comes_other, front, in_object, next_wanted, pass_in_sight, stand};
pub use run::{pass_container, pass_run};
