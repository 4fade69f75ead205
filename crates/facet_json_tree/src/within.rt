//! Reads the tree of a document that nests no deeper than the caller allows.

ghost use Rattle.std.specs.Prelude.{◌≡◌, ◌≤◌, ◌+◌, ◌⊎◌, length, None, Some, IfOk, IfErr, IfSome, MatchResult};
ghost use Rattle.facet_format.specs.Complaint.{out_of_memory};
ghost use Rattle.facet_format.specs.Span.{Span as SpecSpan};
ghost use Rattle.facet_format.specs.Views.{refusal_of};
ghost use Rattle.facet_json_token.specs.Gap.{plain, jsonc};
ghost use Rattle.facet_json_token.specs.Views.{mode_of};
ghost use Rattle.facet_json_grammar.specs.Node.{Node};
ghost use Rattle.facet_json_grammar.specs.Tree.{Tree as SpecTree};
ghost use Rattle.facet_json_grammar.specs.Document.{IsDocument};
ghost use Rattle.facet_json_grammar.specs.Now.{future_of};
ghost use Rattle.facet_json_tree.specs.Depth.{depth_of, first_beyond, too_deep_at, RefusesWithin};
ghost use Rattle.facet_json_tree.specs.Inner.Beyond.{IsReadWithin, IsValueUnreadWithin};
ghost use Rattle.facet_json_tree.specs.Views.{tree_view};

use crate::reader::{parser_of, read_value};
use crate::tree::Tree;
use facet_format::DeserializeError;
use facet_json_parser::JsonParser;
use facet_json_token::Mode;
use std::alloc::Global;

/// Reads the plain document that the bytes begin with, as `tree_from_slice` does, where it nests no deeper than `depth`: an array or
/// object counts one, and one within it counts one more (RFC 8259, section 9, lets a reader limit their depth). A scalar has depth 0.
///
/// Reading recurses once for each container around another, so `depth` bounds the stack that it takes, at about 520 bytes each, as
/// measured and not as promised.
///
/// ```text
/// tree_from_slice_within(alloc, b"[[1]]", 2)    Ok: a list of a list of Tree::U64(1)
/// tree_from_slice_within(alloc, b"[[1]]", 1)    Err: kind 5, InvalidValue { message: "nested too deeply" }, span 1+1
/// tree_from_slice_within(alloc, b"1", 0)        Ok: Tree::U64(1)
/// ```
///
/// # Errors
///
/// As `tree_from_slice`; and at the first opening bracket with `depth` containers around it already, whatever stands after it:
/// kind 5, its span the bracket's offset and length in bytes.
pub fn tree_from_slice_within<'t>(
    alloc: Global,
    input: &[u8],
    depth: usize,
) -> Result<Tree, DeserializeError<'t>>
    ensures document { IfOk result (λ t. (root : Node) × IsDocument input.now plain root (tree_view t) × (depth_of root ≤ depth)) }
    ensures only { (root : Node) (value : SpecTree) → IsDocument input.now plain root value → depth_of root ≤ depth
        → MatchResult result (λ t. tree_view t ≡ value) (λ e. (refusal_of e).complaint ≡ out_of_memory) }
    ensures deeper { (root : Node) (value : SpecTree) (s : SpecSpan) → IsDocument input.now plain root value → first_beyond depth root
        ≡ Some s
        → MatchResult result (λ t. ⊥) (λ e. ((refusal_of e).complaint ≡ out_of_memory) ⊎ (refusal_of e ≡ too_deep_at s)) }
    ensures refused { IfErr result (λ e. ((refusal_of e).complaint ≡ out_of_memory) ⊎ RefusesWithin input.now plain depth (refusal_of e)) }
    ensures within { IfErr result (λ e. IfSome e.span (λ s. s.offset + s.len ≤ length input.now)) }
{
    document_within(alloc, input, Mode::Plain, depth)
}

/// Reads the document that the bytes begin with, which may have comments, as `tree_from_slice_jsonc` does, where it nests no deeper
/// than `depth`, which counts as in [`tree_from_slice_within`]. A bracket within a comment counts nothing.
///
/// ```text
/// tree_from_slice_within_jsonc(alloc, b"[/* [[ */ 1]", 1)    Ok: Tree::List of Tree::U64(1)
/// ```
///
/// # Errors
///
/// As [`tree_from_slice_within`], and a block comment without its end is an unexpected end, kind 2.
pub fn tree_from_slice_within_jsonc<'t>(
    alloc: Global,
    input: &[u8],
    depth: usize,
) -> Result<Tree, DeserializeError<'t>>
    ensures document { IfOk result (λ t. (root : Node) × IsDocument input.now jsonc root (tree_view t) × (depth_of root ≤ depth)) }
    ensures only { (root : Node) (value : SpecTree) → IsDocument input.now jsonc root value → depth_of root ≤ depth
        → MatchResult result (λ t. tree_view t ≡ value) (λ e. (refusal_of e).complaint ≡ out_of_memory) }
    ensures deeper { (root : Node) (value : SpecTree) (s : SpecSpan) → IsDocument input.now jsonc root value → first_beyond depth root
        ≡ Some s
        → MatchResult result (λ t. ⊥) (λ e. ((refusal_of e).complaint ≡ out_of_memory) ⊎ (refusal_of e ≡ too_deep_at s)) }
    ensures refused { IfErr result (λ e. ((refusal_of e).complaint ≡ out_of_memory) ⊎ RefusesWithin input.now jsonc depth (refusal_of e)) }
    ensures within { IfErr result (λ e. IfSome e.span (λ s. s.offset + s.len ≤ length input.now)) }
{
    document_within(alloc, input, Mode::Jsonc, depth)
}

/// The tree of the document that the bytes begin with, with these gaps between its tokens, which nests no deeper.
fn document_within<'t>(
    alloc: Global,
    input: &[u8],
    mode: Mode,
    depth: usize,
) -> Result<Tree, DeserializeError<'t>>
    ensures document { IfOk result (λ t. (root : Node) × IsDocument input.now (mode_of mode) root (tree_view t) × (depth_of root ≤ depth)) }
    ensures only { (root : Node) (value : SpecTree) → IsDocument input.now (mode_of mode) root value → depth_of root ≤ depth
        → MatchResult result (λ t. tree_view t ≡ value) (λ e. (refusal_of e).complaint ≡ out_of_memory) }
    ensures deeper { (root : Node) (value : SpecTree) (s : SpecSpan) → IsDocument input.now (mode_of mode) root value
        → first_beyond depth root ≡ Some s
        → MatchResult result (λ t. ⊥) (λ e. ((refusal_of e).complaint ≡ out_of_memory) ⊎ (refusal_of e ≡ too_deep_at s)) }
    ensures refused { IfErr result
        (λ e. ((refusal_of e).complaint ≡ out_of_memory) ⊎ RefusesWithin input.now (mode_of mode) depth (refusal_of e)) }
    ensures within { IfErr result (λ e. IfSome e.span (λ s. s.offset + s.len ≤ length input.now)) }
{
    value_within(alloc, parser_of(alloc, input, mode), depth)
}

/// The tree of the parser's next value, which nests no deeper.
fn value_within<'t>(
    alloc: Global,
    mut parser: JsonParser<'_>,
    depth: usize,
) -> Result<Tree, DeserializeError<'t>>
    requires free { parser.cursor.refusal ≡ None }
    ensures read { IfOk result (λ t. IsReadWithin (Some depth) (future_of parser.entry) (tree_view t)) }
    ensures refused { IfErr result (λ e. IsValueUnreadWithin (Some depth) parser.entry.buffer (future_of parser.entry) (refusal_of e)) }
    ensures within { IfErr result (λ e. IfSome e.span (λ s. s.offset + s.len ≤ length parser.entry.buffer)) }
{
    read_value(alloc, &mut parser, Some(depth))
}
