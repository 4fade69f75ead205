//! Tests that aren't rows of a program, with ample memory and with allocations that fail. Of what reads: formats, tokens, growing buffers,
//! parsers, what public types derive, copies of events, decimals, generic code over parsers, rows read in pieces of each length, with a
//! read that fails; how a value is refused that is passed without a tree; structs, documents, JSON lines, pointers, the documents'
//! examples. Of what writes: the texts of calls, layouts, refusals, generic code over serializers; what each kind of error is called,
//! displayed and labelled, errors with their source, and reports. What values are read of which texts, the rows of `facet_json_rows` say.
#![tactic(auto)]

#[cfg(test)]
mod allocations;
#[cfg(test)]
mod byte_texts;
#[cfg(test)]
mod calls;
#[cfg(test)]
mod checking;
#[cfg(test)]
mod decimals;
#[cfg(test)]
mod documents;
#[cfg(test)]
mod driving;
#[cfg(test)]
mod entries;
#[cfg(test)]
mod error_allocations;
#[cfg(test)]
mod error_samples;
#[cfg(test)]
mod events;
#[cfg(test)]
mod example_records;
#[cfg(test)]
mod expecting;
#[cfg(test)]
mod field_names;
#[cfg(test)]
mod finding;
#[cfg(test)]
mod floats;
#[cfg(test)]
mod generic;
#[cfg(test)]
mod kinds;
#[cfg(test)]
mod layouts;
#[cfg(test)]
mod lengths;
#[cfg(test)]
mod lent;
#[cfg(test)]
mod lines;
#[cfg(test)]
mod made;
#[cfg(test)]
mod options;
#[cfg(test)]
mod own;
#[cfg(test)]
mod parsers;
#[cfg(test)]
mod past_ascii;
#[cfg(test)]
mod pieces;
#[cfg(test)]
mod pieces_allocations;
#[cfg(test)]
mod prefix;
#[cfg(test)]
mod records;
#[cfg(test)]
mod rewriting;
#[cfg(test)]
mod rows;
#[cfg(test)]
mod runs;
#[cfg(test)]
mod shown;
#[cfg(test)]
mod sources;
#[cfg(test)]
mod texts;
#[cfg(test)]
mod transcoded;
#[cfg(test)]
mod twice;
#[cfg(test)]
mod typed;
#[cfg(test)]
mod value_allocations;
#[cfg(test)]
mod values;
#[cfg(test)]
mod write_allocations;
#[cfg(test)]
mod writers;
#[cfg(test)]
mod written;
