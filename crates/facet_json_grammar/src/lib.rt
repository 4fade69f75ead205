//! What JSON documents are (RFC 8259, sections 2 to 7), lenient and strict ones: the values that tokens spell and their events; what begins
//! a document, and how an input is refused; what a parser is as a value, and each call's move of it; how text is written, and that it is
//! readable. The definitions stand in `specs/`; `laws` has what shows them right, for any parser whose calls are such moves.
#![tactic(auto)]

pub mod laws;
