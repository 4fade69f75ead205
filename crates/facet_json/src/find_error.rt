//! How a search by a pointer is refused.

ghost use Rattle.std.specs.Prelude.{◌≡◌};
ghost use Rattle.facet_json.specs.declared.find_error.FindError.TheVariants.{Pointer, Read};

use facet_format::DeserializeError;
use facet_json_tree::PointerError;

/// Why a search by a pointer was refused.
#[derive(Debug, Drop)]
pub enum FindError<'t> {
    /// The text is no pointer. Nothing was read.
    Pointer(PointerError),
    /// The parser refused what it passed.
    Read(DeserializeError<'t>),
}

impl From<PointerError> for FindError<'_> {
    ghost from_gives = { λ refused e. e ≡ Pointer refused };

    fn from(refused: PointerError) -> Self {
        FindError::Pointer(refused)
    }
}

impl<'t> From<DeserializeError<'t>> for FindError<'t> {
    ghost from_gives = { λ refused e. e ≡ Read refused };

    fn from(refused: DeserializeError<'t>) -> FindError<'t> {
        FindError::Read(refused)
    }
}
