//! Reads the tree of a text that has to be RFC 8259 alone, from its start to its end.

ghost use Rattle.std.specs.Prelude.{◌≡◌, ◌≤◌, ◌+◌, ◌⊎◌, length, None, Some, IfOk, IfErr, IfSome, MatchResult};
ghost use Rattle.facet_format.specs.Complaint.{out_of_memory};
ghost use Rattle.facet_format.specs.Span.{Span as SpecSpan};
ghost use Rattle.facet_format.specs.Views.{refusal_of};
ghost use Rattle.facet_json_grammar.specs.Language.{strict};
ghost use Rattle.facet_json_grammar.specs.Node.{Node};
ghost use Rattle.facet_json_grammar.specs.Tree.{Tree as SpecTree};
ghost use Rattle.facet_json_grammar.specs.StrictDocument.{IsStrictDocument};
ghost use Rattle.facet_json_grammar.specs.Now.{Now, fresh_in, future_of};
ghost use Rattle.facet_json_token.specs.Gap.{plain};
ghost use Rattle.facet_json_core.specs.Refusing.{ComesTo, TellsRefusal};
ghost use Rattle.facet_json_tree.specs.Depth.{depth_of, first_beyond, too_deep_at};
ghost use Rattle.facet_json_tree.specs.Inner.Beyond.{IsAllRead, IsNotAllRead};
ghost use Rattle.facet_json_tree.specs.Views.{tree_view};

use crate::reader::read_value;
use crate::tree::Tree;
use facet_format::DeserializeError;
use facet_json_core::pass_end;
use facet_json_parser::JsonParser;
use std::alloc::Global;

/// Reads the document that the bytes are, which is one text of RFC 8259 (sections 2 to 7), with white space alone around it. Nothing
/// lenient is read: no comma before a closing bracket, no control character in a string, no number such as `007`, and nothing behind
/// the document.
///
/// ```text
/// tree_from_slice_strict(alloc, b" [1] ")    Ok: Tree::List of Tree::U64(1)
/// tree_from_slice_strict(alloc, b"[1,]")     Err: kind 3, UnexpectedToken { got: "ArrayEnd", expected: "value" }, span 3+1
/// tree_from_slice_strict(alloc, b"1 2")      Err: kind 3, UnexpectedToken { got: "U64", expected: "end of input" }, span 2+1
/// ```
///
/// # Depth
///
/// Recurses as [`tree_from_slice`](crate::tree_from_slice): no depth is set, and a program that runs out of the machine's stack ends at
/// once. Where bytes come from strangers, use [`tree_from_slice_within_strict`].
///
/// # Errors
///
/// The bytes are no text of RFC 8259, or its strings or whole numbers are none that this library reads: a refusal of the kinds 1 to 4,
/// its span the offset and length in bytes of what it is about. Or out of memory, kind 9: its span is known where an event lacked it,
/// and not where the tree did.
pub fn tree_from_slice_strict<'t>(alloc: Global, input: &[u8]) -> Result<Tree, DeserializeError<'t>>
    ensures document { IfOk result (λ t. (root : Node) × IsStrictDocument input.now root (tree_view t)) }
    ensures only { (root : Node) (value : SpecTree) → IsStrictDocument input.now root value
        → MatchResult result (λ t. tree_view t ≡ value) (λ e. (refusal_of e).complaint ≡ out_of_memory) }
    ensures within { IfErr result (λ e. IfSome e.span (λ s. s.offset + s.len ≤ length input.now)) }
    ensures tells { let start = fresh_in input.now (strict plain)
        in IfErr result (λ e. (last : Now) × ComesTo start last × TellsRefusal start last (refusal_of e)) }
{
    strict_document(alloc, JsonParser::new_strict(alloc, input), None)
}

/// Reads the document that the bytes are, as `tree_from_slice_strict` does, where it nests no deeper than `depth`, which counts as in
/// [`tree_from_slice_within`](crate::tree_from_slice_within): an array or object counts one, and one within it counts one more (RFC 8259,
/// section 9, lets a reader limit their depth). A scalar has depth 0.
///
/// ```text
/// tree_from_slice_within_strict(alloc, b"[[1]]", 2)     Ok: a list of a list of Tree::U64(1)
/// tree_from_slice_within_strict(alloc, b"[[1]]", 1)     Err: kind 5, InvalidValue { message: "nested too deeply" }, span 1+1
/// tree_from_slice_within_strict(alloc, b"[1] 2", 1)     Err: kind 3, UnexpectedToken { got: "U64", expected: "end of input" }, span 4+1
/// ```
///
/// # Errors
///
/// As `tree_from_slice_strict`; and at the first opening bracket with `depth` containers around it already, whatever stands after it:
/// kind 5, its span the bracket's offset and length in bytes.
pub fn tree_from_slice_within_strict<'t>(
    alloc: Global,
    input: &[u8],
    depth: usize,
) -> Result<Tree, DeserializeError<'t>>
    ensures document { IfOk result (λ t. (root : Node) × IsStrictDocument input.now root (tree_view t) × (depth_of root ≤ depth)) }
    ensures only { (root : Node) (value : SpecTree) → IsStrictDocument input.now root value → depth_of root ≤ depth
        → MatchResult result (λ t. tree_view t ≡ value) (λ e. (refusal_of e).complaint ≡ out_of_memory) }
    ensures deeper { (root : Node) (value : SpecTree) (s : SpecSpan) → IsStrictDocument input.now root value → first_beyond depth root
        ≡ Some s
        → MatchResult result (λ t. ⊥) (λ e. ((refusal_of e).complaint ≡ out_of_memory) ⊎ (refusal_of e ≡ too_deep_at s)) }
    ensures within { IfErr result (λ e. IfSome e.span (λ s. s.offset + s.len ≤ length input.now)) }
    ensures tells { let start = fresh_in input.now (strict plain)
        in IfErr result (λ e. (last : Now) × ComesTo start last × TellsRefusal start last (refusal_of e)) }
{
    strict_document(alloc, JsonParser::new_strict(alloc, input), Some(depth))
}

/// The tree of the parser's next value, which nests no deeper where there is a limit, and behind which is the end.
fn strict_document<'t>(
    alloc: Global,
    mut parser: JsonParser<'_>,
    depth: Option<usize>,
) -> Result<Tree, DeserializeError<'t>>
    requires free { parser.cursor.refusal ≡ None }
    ensures read { IfOk result (λ t. IsAllRead depth (future_of parser.entry) (tree_view t)) }
    ensures refused { IfErr result (λ e. IsNotAllRead depth parser.entry.buffer (future_of parser.entry) (refusal_of e)) }
    ensures within { IfErr result (λ e. IfSome e.span (λ s. s.offset + s.len ≤ length parser.entry.buffer)) }
    ensures tells { IfErr result (λ e. (last : Now) × ComesTo parser.entry last × TellsRefusal parser.entry last (refusal_of e)) }
{
    let tree = read_value(alloc, &mut parser, depth)?;
    pass_end(&mut parser)?;
    Ok(tree)
}
