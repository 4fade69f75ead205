//! How writing to a writer is refused.

ghost use Rattle.std.specs.Prelude.{◌≡◌};
ghost use Rattle.facet_json_tree.specs.OutputViews.{write_error_code, message};
ghost use Rattle.facet_json_tree.specs.declared.error.WriteError.TheVariants.{Memory, Io};

use std::alloc::{AllocError, AllocFailed};
use std::error::Error;
use std::{fmt, io};

/// Why a text was not written to a writer.
#[derive(Debug, Drop)]
pub enum WriteError {
    /// An allocation failed. The writer has got nothing.
    Memory,
    /// The writer failed, and this is its error. How much it has got is not known.
    Io(io::Error),
}

impl WriteError {
    /// The number of the kind, which does not change from release to release.
    ///
    /// ```text
    /// WriteError::Memory.code()                                       1
    /// WriteError::Io(io::Error::from(ErrorKind::BrokenPipe)).code()   2
    /// ```
    pub fn code(&self) -> u8
        ensures { result ≡ write_error_code self.now }
    {
        match self {
            WriteError::Memory => 1,
            WriteError::Io(_) => 2,
        }
    }
}

/// The message: a line for a person, without its line feed.
impl fmt::Display for WriteError {
    ghost output = { message };

    fn fmt<W: fmt::Write>(&self, f: &mut fmt::Formatter<W>) -> fmt::Result {
        match self {
            WriteError::Memory => f.write_str("out of memory"),
            WriteError::Io(error) => write!(f, "I/O error: {error}"),
        }
    }
}

impl Error for WriteError {}

/// An allocation failed.
impl From<AllocError> for WriteError {
    ghost from_gives = { λ _ e. e ≡ Memory };

    fn from(_refused: AllocError) -> WriteError {
        Self::Memory
    }
}

/// An allocation failed, and what was to be stored is let go.
impl<T: Drop> From<AllocFailed<T>> for WriteError {
    ghost from_gives = { λ _ e. e ≡ Memory };

    fn from(_refused: AllocFailed<T>) -> WriteError {
        WriteError::from(AllocError)
    }
}

/// The writer failed.
impl From<io::Error> for WriteError {
    ghost from_gives = { λ error e. e ≡ Io error };

    fn from(error: io::Error) -> WriteError {
        Self::Io(error)
    }
}
