//! What values, trees, documents and parsers answer to calls, told as text: for the rows of `facet_json_rows`.
#![tactic(auto)]

pub mod changed;
pub mod contents;
pub mod documents;
mod entries;
pub mod forgotten;
pub mod found;
pub mod marks;
mod own;
pub mod readings;
pub mod shown;
pub mod told;
pub mod trees;
mod typed;
pub mod types;
pub mod words;
