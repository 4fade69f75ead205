//! A document written anew, with a contract in the terms of documents and texts.

ghost use Rattle.std.specs.Prelude.{◌≡◌, IfOk};
ghost use Rattle.facet_json.specs.Document.{IsDocument};
ghost use Rattle.facet_json.specs.Gap.{plain};
ghost use Rattle.facet_json.specs.Node.{Node};
ghost use Rattle.facet_json.specs.Text.{default_options, text};
ghost use Rattle.facet_json.specs.Tree.{Tree};

use facet_json::{DeserializeError, JsonSerializeError, to_vec, tree_from_slice};
use std::alloc::Global;

/// Why an input was not reformatted.
#[derive(Drop)]
pub enum ReformatError<'t> {
    /// It has no document, or memory ran out.
    Reading(DeserializeError<'t>),
    /// Memory ran out.
    Writing(JsonSerializeError),
}

impl<'t> From<DeserializeError<'t>> for ReformatError<'t> {
    fn from(error: DeserializeError<'t>) -> Self {
        ReformatError::Reading(error)
    }
}

impl From<JsonSerializeError> for ReformatError<'_> {
    fn from(error: JsonSerializeError) -> Self {
        ReformatError::Writing(error)
    }
}

/// The compact text of the tree of the document that the input has.
pub fn reformat<'t>(alloc: Global, input: &[u8]) -> Result<Vec<u8>, ReformatError<'t>>
    ensures { IfOk result (λ v. (root : Node) × (value : Tree) × IsDocument input.now plain root value
        × (v.items ≡ text default_options 0 value)) }
{
    let tree = tree_from_slice(alloc, input)?;
    Ok(to_vec(alloc, &tree)?)
}
