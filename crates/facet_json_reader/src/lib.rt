//! The next event of a document, `Reader`: at once where a few bytes decide it (`Wanted`), and else from the tokens (`upcoming`); in
//! which `Language`, inside which open containers (`Contexts`), at which `Place` within the innermost one, and how it is refused
//! (`Refused`).
#![tactic(auto)]

mod in_sight;
mod materialized;
mod number;
mod place;
mod reader;
mod refusal;
mod single;
mod sought;
mod step;
mod takes;
mod text;
mod wanted;

pub use in_sight::Front;
pub use materialized::{MaterializedToken, TokenKind};
pub use number::Whole;
pub use place::{Language, Place, Turn};
pub use reader::{Contexts, Held, Reader, Stage};
pub use refusal::{Expected, Name, NoRaw, Refused, Why};
pub use single::{begins_null, bool_at, null_at, scalar_at, text_at, whole_at};
pub use sought::Sought;
pub use takes::{Piece, Takes};
pub use wanted::{ListEnd, ListStart, Member, Null, ObjectStart, Wanted};
