//! Looking into documents that one does not know.

ghost use Rattle.std.specs.Prelude.{◌≡◌, IfOk, option_map};
ghost use Rattle.facet_json.specs.Document.{IsDocument};
ghost use Rattle.facet_json.specs.DocumentNodes.{member_nodes, as_nodes, raw_text};
ghost use Rattle.facet_json.specs.Gap.{plain};
ghost use Rattle.facet_json.specs.Node.{Node};
ghost use Rattle.facet_json.specs.Tree.{Tree};

use facet_json::{DeserializeError, Document};
use std::alloc::Global;

/// The text of an object's member, lent by the input as it stands there: to be passed on, undecoded.
pub fn member_text<'i, 't>(
    alloc: Global,
    input: &'i [u8],
    name: &str,
) -> Result<Option<&'i [u8]>, DeserializeError<'t>>
    ensures { (root : Node) (value : Tree) → IsDocument input.now plain root value
        → IfOk result (λ found. option_map (λ t. t.now) found ≡ option_map raw_text (member_nodes name.now (as_nodes input.now root))) }
{
    let document = Document::parse(alloc, input)?;
    match document.root().get(name) {
        Some(value) => Ok(Some(value.raw())),
        None => Ok(None),
    }
}

/// The payload of `{"payload":..}`, as it is in the input.
fn payload<'i>(document: &Document<'i>) -> Option<&'i [u8]> {
    Some(document.root().get("payload")?.raw())
}
