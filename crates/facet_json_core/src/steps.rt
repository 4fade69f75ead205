//! The steps of readers that are written by hand over a `JsonParser`: the next event of a value, whether null comes, the events of a list
//! and of an object one by one, and a value that is passed unread. Each says what it does wherever the parser stands on a document's walk,
//! and what it keeps on every input. The types of std and structs are read by them too.

mod ahead;
mod find;
mod lists;
mod next;
mod objects;
mod values;

pub use find::find_key;
pub use lists::{begin_list, end_comes, take_end};
pub use next::{null_comes, pass_null, take_next, take_null};
pub use objects::{begin_object, next_key, next_name};
pub use values::pass_value;
