//! Tests of `facet_json_serde`: derived types of each form that serde's documents name, read and written; errors with their place; writers
//! that send no value; readers and writers of bytes; failed allocations; generated values, exchanged with `serde_json`; types by hand over
//! the reader's steps. What is expected is what serde's documents and `serde_json`'s say.
#![tactic(auto)]

#[cfg(test)]
mod allocations;
#[cfg(test)]
mod by_hand;
mod figures;
#[cfg(test)]
mod forms;
#[cfg(test)]
mod ways;
