//! How a value is refused that was to be stored in another.

ghost use Rattle.std.specs.Prelude.{◌≡◌};
ghost use Rattle.facet_json_tree.specs.EditViews.{not_stored_message, value_of};
ghost use Rattle.facet_json_tree.specs.declared.not_stored.NotStored.TheVariants.{Memory};

use crate::tree::Tree;
use std::alloc::AllocFailed;
use std::error::Error;
use std::fmt;

/// Why a value was not stored in another, which is as it was. It holds the value, which is given back.
#[derive(Debug, Drop)]
pub enum NotStored {
    /// An item was to be stored in what is no list, or a member in what is no object.
    WrongKind(Tree),
    /// An allocation failed.
    Memory(Tree),
}

impl NotStored {
    /// The value that was not stored.
    ///
    /// ```text
    /// NotStored::WrongKind(Tree::U64(1)).into_value()         Tree::U64(1)
    /// ```
    pub fn into_value(self) -> Tree
        ensures { result ≡ value_of self }
    {
        match self {
            NotStored::WrongKind(value) => value,
            NotStored::Memory(value) => value,
        }
    }
}

/// The message: a line for a person, without its line feed.
impl fmt::Display for NotStored {
    ghost output = { not_stored_message };

    fn fmt<W: fmt::Write>(&self, f: &mut fmt::Formatter<W>) -> fmt::Result {
        match self {
            NotStored::WrongKind(_) => {
                f.write_str("only a list has items, and only an object has members")
            }
            NotStored::Memory(_) => f.write_str("out of memory"),
        }
    }
}

impl Error for NotStored {}

/// An allocation failed.
impl From<AllocFailed<Tree>> for NotStored {
    ghost from_gives = { λ refused e. e ≡ Memory refused.value };

    fn from(refused: AllocFailed<Tree>) -> NotStored {
        NotStored::Memory(refused.value)
    }
}
