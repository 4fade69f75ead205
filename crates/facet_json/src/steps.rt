//! The steps of a reader that is written by hand over a `JsonParser`.

pub use crate::find_error::FindError;
pub use crate::pointer::find_pointer;
pub use facet_json_core::steps::{
    begin_list, begin_object, end_comes, find_key, next_key, next_name, null_comes, pass_null,
    pass_value,
};
pub use facet_json_core::{last_span, mismatch, next_of_value};
