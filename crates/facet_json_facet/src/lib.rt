//! Types that are read from JSON and written as JSON: the trait `Facet`, and the types of std and of this library that have it.
//! `from_slice`, `from_str` and their kin read a value from a whole input: they borrow or do not, read strictly or comments too, or the
//! first of several values. What it means that a type is read is defined in `facet_json_core`.
#![tactic(auto)]

mod facet;
pub mod laws;
mod leaves;
mod lists;
mod maps;
mod numbers;
mod options;
mod prefix;
mod raw;
mod reading;
mod strict;
mod texts;
mod trees;
mod truth;
mod whole;
mod wide;

pub use facet::{Facet, ReadResult, value_in};
pub use prefix::{from_slice_prefix, from_str_prefix};
pub use reading::{
    first_value, from_slice, from_slice_borrowed, from_slice_borrowed_jsonc, from_slice_jsonc,
    from_str, from_str_borrowed, from_str_borrowed_jsonc, from_str_jsonc,
};
pub use strict::{from_slice_strict, from_str_strict, whole_value};
