//! Callers of `facet_json`, short and proved: the examples of the README and of `docs/GUIDE.md`, and more.
#![tactic(auto)]

pub mod accounts;
pub mod contacts;
pub mod documents;
pub mod driving;
pub mod events;
pub mod log_filter;
pub mod loops;
pub mod messages;
pub mod pieces;
pub mod probing;
pub mod records;
pub mod reformat;
pub mod reports;
pub mod rewriting;
pub mod scanning;
pub mod strict;
pub mod tokens;
pub mod transcoding;
pub mod trees;
pub mod typed;
pub mod writing;
