//! What the definitions of tokens, growing buffers and strings' contents mean, in the subject's own words: each law is the contract of a
//! function without effect.

mod cuts;
mod decoding;
mod growth;
mod refusals;

pub use cuts::{
    end_is_gap, fault_is_cut, fault_is_unique, gap_is_longest, shape_is_cut, shape_is_unique,
    tokens_are_cuts,
};
pub use decoding::{decoded_is_decodes, first_fault_is_found, text_or_fault};
pub use growth::{cut_stays, need_more_goes_on, open_is_tested};
pub use refusals::{pending_again, refusal_at_end, refusal_repeats};
