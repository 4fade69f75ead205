//! The program: what its arguments ask for (`arguments::command_of`), what it does, over any reader and writer (`run::run`): a JSON
//! document written anew, its events, its tokens, or the answers of a parser's calls; and how a run ends (`run::Outcome`): the line on
//! standard error and the status (`run::write_line`, `run::status`).
#![tactic(auto)]

pub mod arguments;
mod input;
mod lines;
pub mod run;
pub mod script;
mod tokens;
