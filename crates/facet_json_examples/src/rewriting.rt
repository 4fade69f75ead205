//! A document is read, written, and stands for the same again, with no premise left to the caller.

ghost use Rattle.facet_json.specs.Document.{IsDocument, IsWholeDocument};
ghost use Rattle.facet_json.specs.ErrorKind.{kind_code};
ghost use Rattle.facet_json.specs.ErrorViews.{error_kind_of};
ghost use Rattle.facet_json.specs.Gap.{plain};
ghost use Rattle.facet_json.specs.Node.{Node};
ghost use Rattle.std.specs.Prelude.{◌≡◌, codes, IfOk, MatchResult};
ghost use Rattle.facet_json.specs.Text.{default_options, text};
ghost use Rattle.facet_json.specs.Tree.{Tree};
ghost use Rattle.facet_json.specs.TypedTrees.{without_plus};
ghost use Rattle.facet_json.specs.Write.{pretty_options};

use facet_json::laws::document_comes_back;
use facet_json::{JsonError, to_vec, to_vec_pretty, tree_from_slice};
use std::alloc::Global;

/// The document that the input has, written anew: of ` [1,] x` it is `[1]`. It is one document again, whose tree is the same, but that `-0`
/// is `0`. Where the input has a document, only memory can lack.
pub fn rewritten(alloc: Global, input: &[u8]) -> Result<Vec<u8>, JsonError>
    ensures written { IfOk result (λ v. (root : Node) × (value : Tree) × IsDocument input.now plain root value
        × (v.items ≡ text default_options 0 value)
        × ((node : Node) × IsWholeDocument v.items node (without_plus value))) }
    ensures only { (root : Node) (value : Tree) → IsDocument input.now plain root value
        → MatchResult result (λ v. v.items ≡ text default_options 0 value)
        (λ e. kind_code (error_kind_of e.kind) ≡ codes "json::out_of_memory") }
{
    document_comes_back();
    let tree = tree_from_slice(alloc, input)?;
    Ok(to_vec(alloc, &tree)?)
}

/// The document that the input has, written anew with each element on a line of its own.
pub fn indented(alloc: Global, input: &[u8]) -> Result<Vec<u8>, JsonError>
    ensures written { IfOk result (λ v. (root : Node) × (value : Tree) × IsDocument input.now plain root value
        × (v.items ≡ text pretty_options 0 value)
        × ((node : Node) × IsWholeDocument v.items node (without_plus value))) }
    ensures only { (root : Node) (value : Tree) → IsDocument input.now plain root value
        → MatchResult result (λ v. v.items ≡ text pretty_options 0 value)
        (λ e. kind_code (error_kind_of e.kind) ≡ codes "json::out_of_memory") }
{
    document_comes_back();
    let tree = tree_from_slice(alloc, input)?;
    Ok(to_vec_pretty(alloc, &tree)?)
}
