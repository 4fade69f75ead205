//! How a text is refused that is no JSON pointer (RFC 6901).

ghost use Rattle.std.specs.Prelude.{◌≡◌};
ghost use Rattle.facet_json_tree.specs.PointerViews.{offset_of, pointer_message};

use std::error::Error;
use std::fmt;

/// Why a text is no JSON pointer.
#[derive(Debug, Clone, Copy, PartialEq, Eq)]
pub enum PointerError {
    /// It is not empty, and does not begin with `/`.
    NoSlash,
    /// A `~` has neither `0` nor `1` behind it. The first such stands at this offset, in bytes.
    LoneTilde(usize),
}

impl PointerError {
    /// The offset in bytes of what is wrong in the text.
    ///
    /// ```text
    /// PointerError::NoSlash.offset()                          0
    /// PointerError::LoneTilde(3).offset()                     3
    /// ```
    pub fn offset(&self) -> usize
        ensures { result ≡ offset_of self.now }
    {
        match self {
            PointerError::NoSlash => 0,
            PointerError::LoneTilde(offset) => *offset,
        }
    }
}

/// The message: a line for a person, without its line feed.
impl fmt::Display for PointerError {
    ghost output = { pointer_message };

    fn fmt<W: fmt::Write>(&self, f: &mut fmt::Formatter<W>) -> fmt::Result {
        match self {
            PointerError::NoSlash => f.write_str("a JSON pointer is empty or begins with `/`"),
            PointerError::LoneTilde(offset) => write!(
                f,
                "`~` at byte {offset} of a JSON pointer is followed by neither `0` nor `1`"
            ),
        }
    }
}

impl Error for PointerError {}
