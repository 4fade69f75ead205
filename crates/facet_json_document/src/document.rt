//! An input read into one list of nodes, made in one pass and without recursion.

ghost use Rattle.facet_format.specs.Span.{Span};
ghost use Rattle.facet_format.specs.Views.{refusal_of};
ghost use Rattle.facet_json_token.specs.Gap.{jsonc, plain};
ghost use Rattle.facet_json_token.specs.Views.{mode_of};
ghost use Rattle.facet_json_grammar.specs.Language.{strict};
ghost use Rattle.facet_json_grammar.specs.Now.{fresh, fresh_in, future_of};
ghost use Rattle.facet_json_document.specs.Inner.Building.{AddsAll};
ghost use Rattle.facet_json_document.specs.Nodes.{document_nodes, document_view, nodes_from, as_nodes, nodes_view, value_view};
ghost use Rattle.facet_json_grammar.specs.Document.{IsDocument};
ghost use Rattle.facet_json_grammar.specs.Node.{Node as Root};
ghost use Rattle.facet_json_grammar.specs.PrefixRefusal.{Refuses};
ghost use Rattle.std.specs.Prelude.{◌≡◌, ◌≤◌, ◌⊎◌, None, Some, IfOk, IfErr, OnOk, MatchResult};
ghost use Rattle.facet_json_grammar.specs.StrictDocument.{IsStrictDocument};
ghost use Rattle.facet_json_grammar.specs.Tree.{Tree};
ghost use Rattle.facet_json_document.specs.Formatted.{GetsStuckWithin, LacksOrGetsStuck};
ghost use Rattle.facet_json_tree.specs.Depth.{depth_of, first_beyond, too_deep_at, RefusesWithin, beyond};
ghost use Rattle.facet_json_grammar.specs.UnreadLaws.{RefusalWithin};
ghost use Rattle.facet_json_core.specs.Reading.{LacksMemory};

mod build;
mod built;
mod held;
mod node;
mod value;

use build::build;
use facet_format::{DeserializeError, ScalarValue};
use facet_json_parser::JsonParser;
use facet_json_token::Mode;
use facet_json_tree::parser_of;
pub use held::{Items, Members};
use node::Node;
pub use node::ValueKind;
use std::alloc::Global;
pub use value::Value;

/// A document in one list of nodes. Texts without escapes lie in the input.
pub struct Document<'i> {
    /// A node for each value, key and container's end, in the order in which they stand. Each has its bytes in the input.
    nodes: Vec<Node<'i>>,
    /// What no node tells by its bytes: texts and names with escapes, and numbers past 64 bits.
    held: Vec<ScalarValue<'i>>,
}

/// By a call, so that a proof about a function that owns a document need not take it apart.
impl Drop for Document<'_> {
    fn drop(self) {
        let Document { nodes: _, held: _ } = self;
    }
}

impl<'i> Document<'i> {
    /// Reads the plain document that the bytes begin with (RFC 8259, sections 2 to 7, with lenient readings such as a trailing comma), as
    /// `tree_from_slice` does, but without recursion. What follows it is not looked at.
    ///
    /// ```text
    /// Document::parse(alloc, b"[1,]")     Ok: its root is a list of 1
    /// Document::parse(alloc, b"[1 2]")    Err: UnexpectedToken { got: "U64", expected: "',' or ']'" }, span 3+1
    /// ```
    ///
    /// # Errors
    ///
    /// The bytes begin with no document, and are refused as by `tree_from_slice`: a span is an offset and a length in bytes. Or out of
    /// memory.
    pub fn parse<'t>(alloc: Global, input: &'i [u8]) -> Result<Document<'i>, DeserializeError<'t>>
        ensures document { IfOk result (λ d. (root : Root) × IsDocument input.now plain root (document_view d)) }
        ensures nodes { (root : Root) (value : Tree) → IsDocument input.now plain root value
            → IfOk result (λ d. document_nodes d ≡ as_nodes input.now root) }
        ensures refused { IfErr result (λ e. LacksMemory (refusal_of e) ⊎ Refuses input.now plain (refusal_of e)) }
        ensures only { (root : Root) (value : Tree) → IsDocument input.now plain root value
            → MatchResult result (λ d. document_view d ≡ value) (λ e. LacksMemory (refusal_of e)) }
        ensures within { IfErr result (λ e. RefusalWithin input.now (refusal_of e)) }
    {
        Document::parse_in(alloc, input, Mode::Plain)
    }

    /// Reads as `parse`, where comments are allowed wherever white space is.
    ///
    /// ```text
    /// Document::parse_jsonc(alloc, b"[1, /* one */]")    Ok: its root is a list of 1
    /// ```
    ///
    /// # Errors
    ///
    /// As `tree_from_slice_jsonc`.
    pub fn parse_jsonc<'t>(
        alloc: Global,
        input: &'i [u8],
    ) -> Result<Document<'i>, DeserializeError<'t>>
        ensures document { IfOk result (λ d. (root : Root) × IsDocument input.now jsonc root (document_view d)) }
        ensures nodes { (root : Root) (value : Tree) → IsDocument input.now jsonc root value
            → IfOk result (λ d. document_nodes d ≡ as_nodes input.now root) }
        ensures refused { IfErr result (λ e. LacksMemory (refusal_of e) ⊎ Refuses input.now jsonc (refusal_of e)) }
        ensures only { (root : Root) (value : Tree) → IsDocument input.now jsonc root value
            → MatchResult result (λ d. document_view d ≡ value) (λ e. LacksMemory (refusal_of e)) }
        ensures within { IfErr result (λ e. RefusalWithin input.now (refusal_of e)) }
    {
        Document::parse_in(alloc, input, Mode::Jsonc)
    }

    /// Reads one text of RFC 8259, with white space alone around it, as `tree_from_slice_strict` does.
    ///
    /// ```text
    /// Document::parse_strict(alloc, b" [1] ")    Ok: its root is a list of 1
    /// Document::parse_strict(alloc, b"[1,]")     Err: UnexpectedToken { got: "ArrayEnd", expected: "value" }, span 3+1
    /// ```
    ///
    /// # Errors
    ///
    /// As `tree_from_slice_strict`.
    pub fn parse_strict<'t>(
        alloc: Global,
        input: &'i [u8],
    ) -> Result<Document<'i>, DeserializeError<'t>>
        ensures document { IfOk result (λ d. (root : Root) × IsStrictDocument input.now root (document_view d)) }
        ensures nodes { (root : Root) (value : Tree) → IsStrictDocument input.now root value
            → IfOk result (λ d. document_nodes d ≡ as_nodes input.now root) }
        ensures refused { IfErr result (λ e. LacksOrGetsStuck input.now (refusal_of e)) }
        ensures only { (root : Root) (value : Tree) → IsStrictDocument input.now root value
            → MatchResult result (λ d. document_view d ≡ value) (λ e. LacksMemory (refusal_of e)) }
        ensures within { IfErr result (λ e. RefusalWithin input.now (refusal_of e)) }
    {
        let (nodes, held) = strict_nodes(alloc, input, None)?;
        Ok(Document { nodes, held })
    }

    /// Reads as `parse`, where the document nests no deeper than `depth`, as `tree_from_slice_within` does: an array or object counts one,
    /// and one within it counts one more (RFC 8259, section 9, lets a reader limit their depth). A scalar has depth 0. Reading does not
    /// recurse; a caller that goes down into the values by recursion, or takes their tree, is bounded so.
    ///
    /// ```text
    /// Document::parse_within(alloc, b"[[1]]", 2)    Ok: its root is a list of a list
    /// Document::parse_within(alloc, b"[[1]]", 1)    Err: InvalidValue { message: "nested too deeply" }, span 1+1
    /// ```
    ///
    /// # Errors
    ///
    /// As `parse`; and at the first opening bracket with `depth` containers around it already, whatever stands after it: `InvalidValue`,
    /// its span the bracket's offset and length in bytes.
    pub fn parse_within<'t>(
        alloc: Global,
        input: &'i [u8],
        depth: usize,
    ) -> Result<Document<'i>, DeserializeError<'t>>
        ensures document { IfOk result (λ d. (root : Root) × IsDocument input.now plain root (document_view d) × (depth_of root ≤ depth)) }
        ensures nodes { (root : Root) (value : Tree) → IsDocument input.now plain root value
            → IfOk result (λ d. document_nodes d ≡ as_nodes input.now root) }
        ensures only { (root : Root) (value : Tree) → IsDocument input.now plain root value → depth_of root ≤ depth
            → MatchResult result (λ d. document_view d ≡ value) (λ e. LacksMemory (refusal_of e)) }
        ensures deeper { (root : Root) (value : Tree) (s : Span) → IsDocument input.now plain root value → first_beyond depth root ≡ Some s
            → MatchResult result (λ _. ⊥) (λ e. LacksMemory (refusal_of e) ⊎ (refusal_of e ≡ too_deep_at s)) }
        ensures refused { IfErr result (λ e. LacksMemory (refusal_of e) ⊎ RefusesWithin input.now plain depth (refusal_of e)) }
        ensures within { IfErr result (λ e. RefusalWithin input.now (refusal_of e)) }
    {
        Document::parse_within_in(alloc, input, Mode::Plain, depth)
    }

    /// Reads as `parse_jsonc`, where the document nests no deeper than `depth`, which counts as in `parse_within`. A bracket within a
    /// comment counts nothing.
    ///
    /// ```text
    /// Document::parse_within_jsonc(alloc, b"[/* [[ */ 1]", 1)    Ok: its root is a list of 1
    /// ```
    ///
    /// # Errors
    ///
    /// As `parse_within`, and as `parse_jsonc`.
    pub fn parse_within_jsonc<'t>(
        alloc: Global,
        input: &'i [u8],
        depth: usize,
    ) -> Result<Document<'i>, DeserializeError<'t>>
        ensures refused { IfErr result (λ e. LacksMemory (refusal_of e) ⊎ RefusesWithin input.now jsonc depth (refusal_of e)) }
        ensures within { IfErr result (λ e. RefusalWithin input.now (refusal_of e)) }
        ensures deeper { (root : Root) (value : Tree) (s : Span) → IsDocument input.now jsonc root value → first_beyond depth root ≡ Some s
            → MatchResult result (λ _. ⊥) (λ e. LacksMemory (refusal_of e) ⊎ (refusal_of e ≡ too_deep_at s)) }
        ensures document { IfOk result (λ d. (root : Root) × IsDocument input.now jsonc root (document_view d) × (depth_of root ≤ depth)) }
        ensures nodes { (root : Root) (value : Tree) → IsDocument input.now jsonc root value
            → IfOk result (λ d. document_nodes d ≡ as_nodes input.now root) }
        ensures only { (root : Root) (value : Tree) → IsDocument input.now jsonc root value → depth_of root ≤ depth
            → MatchResult result (λ d. document_view d ≡ value) (λ e. LacksMemory (refusal_of e)) }
    {
        Document::parse_within_in(alloc, input, Mode::Jsonc, depth)
    }

    /// Reads as `parse_strict`, where the text nests no deeper than `depth`, which counts as in `parse_within`.
    ///
    /// ```text
    /// Document::parse_within_strict(alloc, b"[[1]]", 1)    Err: InvalidValue { message: "nested too deeply" }, span 1+1
    /// ```
    ///
    /// # Errors
    ///
    /// As `parse_strict`; and at the first opening bracket beyond the depth, as `parse_within`.
    pub fn parse_within_strict<'t>(
        alloc: Global,
        input: &'i [u8],
        depth: usize,
    ) -> Result<Document<'i>, DeserializeError<'t>>
        ensures document { IfOk result (λ d. (root : Root) × IsStrictDocument input.now root (document_view d) × (depth_of root ≤ depth)) }
        ensures nodes { (root : Root) (value : Tree) → IsStrictDocument input.now root value
            → IfOk result (λ d. document_nodes d ≡ as_nodes input.now root) }
        ensures only { (root : Root) (value : Tree) → IsStrictDocument input.now root value → depth_of root ≤ depth
            → MatchResult result (λ d. document_view d ≡ value) (λ e. LacksMemory (refusal_of e)) }
        ensures deeper { (root : Root) (value : Tree) (s : Span) → IsStrictDocument input.now root value → first_beyond depth root ≡ Some s
            → MatchResult result (λ _. ⊥) (λ e. LacksMemory (refusal_of e) ⊎ (refusal_of e ≡ too_deep_at s)) }
        ensures refused { IfErr result
            (λ e. LacksMemory (refusal_of e) ⊎ GetsStuckWithin (Some depth) (fresh_in input.now (strict plain)) (refusal_of e)) }
        ensures within { IfErr result (λ e. RefusalWithin input.now (refusal_of e)) }
    {
        let (nodes, held) = strict_nodes(alloc, input, Some(depth))?;
        Ok(Document { nodes, held })
    }

    /// Reads as `parse`, with these gaps between tokens.
    fn parse_in<'t>(
        alloc: Global,
        input: &'i [u8],
        mode: Mode,
    ) -> Result<Document<'i>, DeserializeError<'t>>
        ensures document { IfOk result (λ d. (root : Root) × IsDocument input.now (mode_of mode) root (document_view d)) }
        ensures nodes { (root : Root) (value : Tree) → IsDocument input.now (mode_of mode) root value
            → IfOk result (λ d. document_nodes d ≡ as_nodes input.now root) }
        ensures refused { IfErr result (λ e. LacksMemory (refusal_of e) ⊎ Refuses input.now (mode_of mode) (refusal_of e)) }
        ensures only { (root : Root) (value : Tree) → IsDocument input.now (mode_of mode) root value
            → MatchResult result (λ d. document_view d ≡ value) (λ e. LacksMemory (refusal_of e)) }
        ensures within { IfErr result (λ e. RefusalWithin input.now (refusal_of e)) }
    {
        let (nodes, held) = lenient_nodes(alloc, input, mode, None)?;
        Ok(Document { nodes, held })
    }

    /// Reads as `parse_within`, with these gaps between tokens.
    fn parse_within_in<'t>(
        alloc: Global,
        input: &'i [u8],
        mode: Mode,
        depth: usize,
    ) -> Result<Document<'i>, DeserializeError<'t>>
        ensures document { IfOk result
            (λ d. (root : Root) × IsDocument input.now (mode_of mode) root (document_view d) × (depth_of root ≤ depth)) }
        ensures nodes { (root : Root) (value : Tree) → IsDocument input.now (mode_of mode) root value
            → IfOk result (λ d. document_nodes d ≡ as_nodes input.now root) }
        ensures only { (root : Root) (value : Tree) → IsDocument input.now (mode_of mode) root value → depth_of root ≤ depth
            → MatchResult result (λ d. document_view d ≡ value) (λ e. LacksMemory (refusal_of e)) }
        ensures deeper { (root : Root) (value : Tree) (s : Span) → IsDocument input.now (mode_of mode) root value
            → first_beyond depth root ≡ Some s
            → MatchResult result (λ _. ⊥) (λ e. LacksMemory (refusal_of e) ⊎ (refusal_of e ≡ too_deep_at s)) }
        ensures refused { IfErr result
            (λ e. LacksMemory (refusal_of e) ⊎ RefusesWithin input.now (mode_of mode) depth (refusal_of e)) }
        ensures within { IfErr result (λ e. RefusalWithin input.now (refusal_of e)) }
    {
        let (nodes, held) = lenient_nodes(alloc, input, mode, Some(depth))?;
        Ok(Document { nodes, held })
    }

    /// The document's value.
    ///
    /// ```text
    /// of [1]: root().item(0)    Some: 1
    /// ```
    pub fn root(&self) -> Value<'_, 'i>
        ensures nodes { nodes_from result ≡ document_nodes self.now }
        ensures value { value_view result ≡ document_view self.now }
    {
        Value::at(self, 0)
    }
}

/// The nodes of the lenient document that the bytes begin with, which nests no deeper, where there is a limit.
fn lenient_nodes<'i, 't>(
    alloc: Global,
    input: &'i [u8],
    mode: Mode,
    depth: Option<usize>,
) -> Result<(Vec<Node<'i>>, Vec<ScalarValue<'i>>), DeserializeError<'t>>
    ensures nodes { IfOk result (λ v. AddsAll (fresh input.now (mode_of mode)) (nodes_view v.1.items v.0.items)) }
    ensures shallow { OnOk result (beyond (future_of (fresh input.now (mode_of mode))) depth ≡ None) }
    ensures refused { IfErr result
        (λ e. LacksMemory (refusal_of e) ⊎ GetsStuckWithin depth (fresh input.now (mode_of mode)) (refusal_of e)) }
    ensures within { IfErr result (λ e. RefusalWithin input.now (refusal_of e)) }
{
    build(alloc, input, &mut parser_of(alloc, input, mode), depth)
}

/// The nodes of the text of RFC 8259 that the bytes are, likewise.
fn strict_nodes<'i, 't>(
    alloc: Global,
    input: &'i [u8],
    depth: Option<usize>,
) -> Result<(Vec<Node<'i>>, Vec<ScalarValue<'i>>), DeserializeError<'t>>
    ensures nodes { IfOk result (λ v. AddsAll (fresh_in input.now (strict plain)) (nodes_view v.1.items v.0.items)) }
    ensures shallow { OnOk result (beyond (future_of (fresh_in input.now (strict plain))) depth ≡ None) }
    ensures refused { IfErr result
        (λ e. LacksMemory (refusal_of e) ⊎ GetsStuckWithin depth (fresh_in input.now (strict plain)) (refusal_of e)) }
    ensures within { IfErr result (λ e. RefusalWithin input.now (refusal_of e)) }
{
    build(
        alloc,
        input,
        &mut JsonParser::new_strict(alloc, input),
        depth,
    )
}
