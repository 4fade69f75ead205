//! Nodes of events.

ghost use Rattle.std.specs.Prelude.{◌≡◌, ◌<◌, ◌≤◌, ◌⊎◌, ℕ, List, Err, true, false, Ok, Option, None, Some, IfOk, IfErr, IfSome, OnOk, OnErr};
ghost use Rattle.std.specs.Prelude.{MatchResult, ◌^◌, ◌-◌, length, reverse, set, slice_get};
ghost use Rattle.facet_format.specs.Complaint.{no_memory};
ghost use Rattle.facet_format.specs.Cursor.{event, next};
ghost use Rattle.facet_format.specs.Span.{Span as SpecSpan, span_at, stop};
ghost use Rattle.facet_format.specs.Views.{refusal_of, event_kind_of, scalar_value_of, span_of};
ghost use Rattle.facet_json_document.specs.Inner.Held.{FindsHeld};
ghost use Rattle.std.specs.Option.{unwrap_or};
ghost use Rattle.std.specs.Vec.{vec_len, vec_capacity};
ghost use Rattle.facet_format.specs.Event.{bytes_of};
ghost use Rattle.facet_format.specs.HeldText.{text_of};
ghost use Rattle.facet_format.specs.declared.event.ScalarValue.{ScalarValue as RustScalar};
ghost use Rattle.facet_json_core.specs.Told.{tree_of_scalar};
ghost use Rattle.facet_json_grammar.specs.Tree as trees;
ghost use Rattle.facet_json_document.specs.Inner.Building.{added, also, begun, closed, container, ended, built_view, none_yet, AddsNext, Kept};
ghost use Rattle.facet_json_document.specs.Inner.Building.{AddsAll, LeavesRoom, IsTooDeep, RefusesNext};
ghost use Rattle.facet_json_tree.specs.Depth.{beyond_bracket, outer, too_deep_at, beyond};
ghost use Rattle.facet_json_tree.specs.Inner.Beyond.{SameBeyond};
ghost use Rattle.facet_json_core.specs.Reading.{LacksMemory};
ghost use Rattle.facet_json_grammar.specs.Move.{Moves};
ghost use Rattle.facet_json_grammar.specs.Now.{ahead, future_of};
ghost use Rattle.facet_json_grammar.specs.UnreadLaws.{RefusalWithin};
ghost use Rattle.facet_json_document.specs.Formatted.{GetsStuckWithin};
ghost use Rattle.facet_json_document.specs.Nodes.{leaf, key, nothing, node_view, nodes_view};
ghost use Rattle.facet_json_document.specs.Nodes.{text_at, number_tree};
ghost use Rattle.facet_json_document.specs.OwnNumber.{is_small, own_number};
ghost use Rattle.facet_json_document.specs.QuotedText.{IsQuotedText, quoted};

use crate::document::built::{Built, Opened};
use crate::document::node::{Node, NodeKind};
use facet_format::{
    ContainerKind, DeserializeError, DeserializeErrorKind, FormatParser, ParseEventKind,
    ScalarValue, Span,
};
use facet_json_parser::{JsonParser, pass_in_sight};
use facet_json_reader::{Piece, Takes};
use facet_json_token::decode_string_owned;
use std::alloc::{AllocError, Global};
use std::borrow::CowStr;

/// So many nodes make no long document.
const FEW: usize = 512;

/// The nodes of all events, of whose containers no more than `depth` stand within one another, where there is such a limit.
pub(crate) fn build<'i, 't>(
    alloc: Global,
    input: &'i [u8],
    parser: &mut JsonParser<'i>,
    depth: Option<usize>,
) -> Result<(Vec<Node<'i>>, Vec<ScalarValue<'i>>), DeserializeError<'t>>
    requires { parser.old.buffer ≡ input.now }
    ensures nodes { IfOk result (λ v. AddsAll parser.old (nodes_view v.1.items v.0.items)) }
    ensures shallow { OnOk result (beyond (future_of parser.old) depth ≡ None) }
    ensures refused { parser.old.cursor.refusal ≡ None
        → IfErr result (λ e. LacksMemory (refusal_of e) ⊎ GetsStuckWithin depth parser.old (refusal_of e)) }
    ensures within { IfErr result (λ e. RefusalWithin parser.old.buffer (refusal_of e)) }
{
    let mut built = Built {
        alloc,
        input,
        held: Vec::new(alloc),
        nodes: Vec::new(alloc),
        unclosed: Vec::new(alloc),
        room: depth,
    };
    pass_in_sight(parser, &mut built);
    while built.adds_event(parser)? {
        pass_in_sight(parser, &mut built);
    }
    let Built { nodes, held, .. } = built;
    Ok((nodes, held))
}

/// It adds the node of each event that it takes.
impl<'i> Takes<'i> for Built<'i> {
    ghost use Rattle.facet_json_document.specs.Inner.Building.{TakesNode};

    ghost takes = { TakesNode };

    #[inline(always)]
    fn take(&mut self, input: &'i [u8], piece: Piece, span: Span) -> bool {
        let text = &input[span.offset..span.offset + span.len];
        match piece {
            Piece::Text => self.add_text(text).is_ok(),
            Piece::Key => self.add_name(text).is_ok(),
            Piece::Number => self.add_number(text).is_ok(),
            Piece::Bool(b) => self.add_bool(b, text).is_ok(),
            Piece::Null => self.add_null(text).is_ok(),
            Piece::Start(kind) => self.begin(kind, span, text).is_ok(),
            Piece::End(kind) => self.end(kind, span.offset + span.len).is_ok(),
        }
    }

    #[inline(always)]
    fn take_escaped(&mut self, input: &'i [u8], span: Span) -> bool {
        match decode_string_owned(self.alloc, input, span.offset + 1, span.end() - 1) {
            Ok(text) => {
                let text = ScalarValue::Str(CowStr::Owned(text));
                self.add_leaf(text, span).is_ok()
            }
            Err(_) => false,
        }
    }
}

impl<'i> Built<'i> {
    /// Consumes the next event, adds its node, and says whether there was one.
    #[inline(always)]
    fn adds_event<'t>(&mut self, parser: &mut JsonParser<'i>) -> Result<bool, DeserializeError<'t>>
        requires { parser.old.buffer ≡ self.old.input.now }
        ensures added { IfOk result (λ some. AddsNext some parser.old parser.new (built_view self.old) (built_view self.new)) }
        ensures level { result ≡ Ok true → SameBeyond (future_of parser.old) self.old.room (future_of parser.new) self.new.room }
        ensures refused { IfErr result (λ e. LacksMemory (refusal_of e) ⊎ RefusesNext self.old.room parser.old parser.new (refusal_of e)) }
        ensures shorter { result ≡ Ok true → ahead parser.new < ahead parser.old }
        ensures within { IfErr result (λ e. RefusalWithin parser.new.buffer (refusal_of e)) }
        ensures same { parser.new.buffer ≡ parser.old.buffer }
    {
        match parser.next_event()? {
            Some(event) => {
                self.add(event.kind, event.span)?;
                Ok(true)
            }
            None => Ok(false),
        }
    }

    /// Adds the node of an event.
    ///
    /// # Errors
    ///
    /// A bracket where no more may be opened: `InvalidValue`, its span the bracket's. Or out of memory. The nodes are then as they were.
    #[inline(always)]
    fn add<'t>(&mut self, kind: ParseEventKind<'i>, span: Span) -> Result<(), DeserializeError<'t>>
        requires { stop (span_of span) ≤ length self.old.input.now }
        ensures added { OnOk result (built_view self.new ≡ added (event_kind_of kind.entry) (span_of span) (built_view self.old)) }
        ensures left { OnOk result (LeavesRoom self.old.room (event_kind_of kind.entry) (span_of span) self.new.room) }
        ensures refused { IfErr result
            (λ e. LacksMemory (refusal_of e) ⊎ IsTooDeep self.old.room (event_kind_of kind.entry) (span_of span) (refusal_of e)) }
        ensures span { IfErr result (λ e. IfSome e.span (λ s. s ≡ span)) }
        ensures kept { OnErr result (Kept self.old self.new) }
    {
        match kind {
            ParseEventKind::Scalar(value) => self.add_leaf(value, span)?,
            ParseEventKind::FieldKey(key) => self.add_key(key.name)?,
            ParseEventKind::SequenceStart(_) => self.begin(
                ContainerKind::Array,
                span,
                bytes_of_span(self.input, span),
            )?,
            ParseEventKind::StructStart(_) => self.begin(
                ContainerKind::Object,
                span,
                bytes_of_span(self.input, span),
            )?,
            ParseEventKind::SequenceEnd => self.end(ContainerKind::Array, span.end())?,
            ParseEventKind::StructEnd => self.end(ContainerKind::Object, span.end())?,
        }
        Ok(())
    }

    /// Adds the node of an event's value that holds no others. No event says that its number or text is what its bytes say, so the
    /// document holds these beside its nodes.
    #[inline(always)]
    fn add_leaf(&mut self, value: ScalarValue<'i>, span: Span) -> Result<(), AllocError>
        ensures room { self.new.room ≡ self.old.room }
        ensures node { OnOk result (built_view self.new
            ≡ also (leaf (text_at self.old.input.now (span_of span)) (unwrap_or (tree_of_scalar (scalar_value_of value.entry)) nothing))
            (built_view self.old)) }
        ensures kept { OnErr result (Kept self.old self.new) }
    {
        let text = bytes_of_span(self.input, span);
        match value {
            ScalarValue::Null => self.add_null(text),
            ScalarValue::Bool(b) => self.add_bool(b, text),
            other => self.add_held(other, text),
        }
    }

    /// Adds the node of a `null` with these bytes.
    #[inline(always)]
    fn add_null(&mut self, text: &'i [u8]) -> Result<(), AllocError>
        ensures room { self.new.room ≡ self.old.room }
        ensures node { OnOk result (built_view self.new ≡ also (leaf text.now trees.null) (built_view self.old)) }
        ensures kept { OnErr result (Kept self.old self.new) }
    {
        self.also(Node {
            kind: NodeKind::Null,
            more: 0,
            text,
        })
    }

    /// Adds the node of a truth value with these bytes.
    #[inline(always)]
    fn add_bool(&mut self, value: bool, text: &'i [u8]) -> Result<(), AllocError>
        ensures room { self.new.room ≡ self.old.room }
        ensures node { OnOk result (built_view self.new ≡ also (leaf text.now (trees.bool value)) (built_view self.old)) }
        ensures kept { OnErr result (Kept self.old self.new) }
    {
        if value {
            self.also(Node {
                kind: NodeKind::True,
                more: 0,
                text,
            })
        } else {
            self.also(Node {
                kind: NodeKind::False,
                more: 0,
                text,
            })
        }
    }

    /// Adds the node of the number that these bytes are.
    #[inline(always)]
    fn add_number(&mut self, text: &'i [u8]) -> Result<(), AllocError>
        requires { is_small (own_number text.now) ≡ true }
        ensures room { self.new.room ≡ self.old.room }
        ensures node { OnOk result (built_view self.new ≡ also (leaf text.now (number_tree text.now)) (built_view self.old)) }
        ensures kept { OnErr result (Kept self.old self.new) }
    {
        self.also(Node {
            kind: NodeKind::Number,
            more: 0,
            text,
        })
    }

    /// Adds the node of the text in quotes that these bytes are.
    #[inline(always)]
    fn add_text(&mut self, text: &'i [u8]) -> Result<(), AllocError>
        requires { IsQuotedText text.now }
        ensures room { self.new.room ≡ self.old.room }
        ensures node { OnOk result (built_view self.new ≡ also (leaf text.now (trees.text (quoted text.now))) (built_view self.old)) }
        ensures kept { OnErr result (Kept self.old self.new) }
    {
        self.also(Node {
            kind: NodeKind::Text,
            more: 0,
            text,
        })
    }

    /// Adds the node of the member's name in quotes that these bytes are.
    #[inline(always)]
    fn add_name(&mut self, text: &'i [u8]) -> Result<(), AllocError>
        requires { IsQuotedText text.now }
        ensures room { self.new.room ≡ self.old.room }
        ensures node { OnOk result (built_view self.new ≡ also (key (quoted text.now)) (built_view self.old)) }
        ensures kept { OnErr result (Kept self.old self.new) }
    {
        self.also(Node {
            kind: NodeKind::Key,
            more: 0,
            text,
        })
    }

    /// Adds the node of a value that its bytes, which are these, do not tell.
    #[inline(always)]
    fn add_held(&mut self, value: ScalarValue<'i>, text: &'i [u8]) -> Result<(), AllocError>
        ensures room { self.new.room ≡ self.old.room }
        ensures node { OnOk result (built_view self.new
            ≡ also (leaf text.now (unwrap_or (tree_of_scalar (scalar_value_of value.entry)) nothing)) (built_view self.old)) }
        ensures kept { OnErr result (Kept self.old self.new) }
    {
        let at = self.hold(value)?;
        self.also(Node {
            kind: NodeKind::Held,
            more: at,
            text,
        })
    }

    /// Adds the node of an event's name of a member.
    #[inline(always)]
    fn add_key(&mut self, name: CowStr<'i>) -> Result<(), AllocError>
        ensures room { self.new.room ≡ self.old.room }
        ensures node { OnOk result (built_view self.new ≡ also (key (bytes_of (text_of name.entry))) (built_view self.old)) }
        ensures kept { OnErr result (Kept self.old self.new) }
    {
        let at = self.hold(ScalarValue::Str(name))?;
        self.also(Node {
            kind: NodeKind::HeldKey,
            more: at,
            text: &[],
        })
    }

    /// Holds a value beside the nodes, and returns its index.
    #[inline(always)]
    fn hold(&mut self, value: ScalarValue<'i>) -> Result<u32, AllocError>
        ensures same { built_view self.new ≡ built_view self.old }
        ensures room { self.new.room ≡ self.old.room }
        ensures held { IfOk result (λ at. (at < length self.new.held.items) × (slice_get self.new.held.items at ≡ Some value.entry)) }
    {
        let at = in_32_bits(self.held.len())?;
        self.held.push(value)?;
        Ok(at)
    }

    /// Adds the node of a container that begins with this bracket, whose bytes these are.
    ///
    /// # Errors
    ///
    /// As `add`.
    #[inline(always)]
    fn begin<'t>(
        &mut self,
        kind: ContainerKind,
        first: Span,
        text: &'i [u8],
    ) -> Result<(), DeserializeError<'t>>
        ensures begun { OnOk result (built_view self.new ≡ begun first.offset (container kind text.now 0) (built_view self.old)) }
        ensures left { OnOk result
            ((others : Option ℕ → Option SpecSpan) → beyond_bracket (span_of first) others self.old.room ≡ others self.new.room) }
        ensures refused { IfErr result
            (λ e. LacksMemory (refusal_of e) ⊎ ((self.old.room ≡ Some 0) × (refusal_of e ≡ too_deep_at (span_of first)))) }
        ensures span { IfErr result (λ e. IfSome e.span (λ s. s ≡ first)) }
        ensures kept { OnErr result (Kept self.old self.new) }
    {
        let room = room_within(first, self.room)?;
        self.reserve()?;
        self.reserve_opened()?;
        let index = self.nodes.len();
        let offset = first.offset;
        self.unclosed.push_reserved(Opened { index, offset });
        self.push(container_node(kind, 0, text));
        self.room = room;
        Ok(())
    }

    /// Adds the node of the innermost container's end, behind which this offset is.
    ///
    /// # Errors
    ///
    /// Out of memory: the nodes are then as they were.
    #[inline(always)]
    fn end(&mut self, kind: ContainerKind, end: usize) -> Result<(), AllocError>
        ensures ended { OnOk result (built_view self.new ≡ ended (container kind) end (built_view self.old)) }
        ensures left { OnOk result (self.new.room ≡ outer self.old.room) }
        ensures kept { OnErr result (Kept self.old self.new) }
    {
        let room = room_behind(self.room)?;
        self.reserve()?;
        self.close(kind, end)?;
        self.push(Node {
            kind: NodeKind::End,
            more: 0,
            text: &[],
        });
        self.room = room;
        Ok(())
    }

    /// Takes the innermost container off those that are not closed, and writes into its node which bytes it has, up to this offset, and how
    /// many nodes belong to it.
    #[inline(always)]
    fn close(&mut self, kind: ContainerKind, end: usize) -> Result<(), AllocError>
        ensures closed { OnOk result (built_view self.new ≡ closed (container kind) end (built_view self.old)) }
        ensures kept { OnErr result (built_view self.new ≡ built_view self.old) }
        ensures room { self.new.room ≡ self.old.room }
        ensures spare { vec_len self.old.nodes < vec_capacity self.old.nodes → vec_len self.new.nodes < vec_capacity self.new.nodes }
    {
        let Some(opened) = self.unclosed.pop() else {
            return Ok(());
        };
        let len = self.nodes.len();
        if len <= opened.index {
            return Ok(());
        }
        match in_32_bits(len - opened.index) {
            Ok(inner) => {
                let node = container_node(
                    kind,
                    inner,
                    bytes_between(self.input, opened.offset, end),
                );
                put(&mut self.nodes, opened.index, node);
                Ok(())
            }
            Err(error) => {
                self.unclosed.push_reserved(opened);
                Err(error)
            }
        }
    }

    /// Adds a node.
    #[inline(always)]
    fn also(&mut self, node: Node<'i>) -> Result<(), AllocError>
        requires { FindsHeld self.old.held.items node }
        ensures node { OnOk result (built_view self.new ≡ also (node_view self.old.held.items node.entry) (built_view self.old)) }
        ensures kept { OnErr result (Kept self.old self.new) }
        ensures room { self.new.room ≡ self.old.room }
    {
        self.reserve()?;
        self.push(node);
        Ok(())
    }

    /// Adds a node, for which there is room.
    #[inline(always)]
    fn push(&mut self, node: Node<'i>)
        requires finds { FindsHeld self.old.held.items node }
        requires spare { vec_len self.old.nodes < vec_capacity self.old.nodes }
        ensures node { built_view self.new ≡ also (node_view self.old.held.items node.entry) (built_view self.old) }
        ensures room { self.new.room ≡ self.old.room }
    {
        self.nodes.push_reserved(node);
    }

    /// Sees to it that there is room for another node.
    #[inline(always)]
    fn reserve(&mut self) -> Result<(), AllocError>
        ensures spare { OnOk result (vec_len self.new.nodes < vec_capacity self.new.nodes) }
        ensures same { built_view self.new ≡ built_view self.old }
        ensures held { self.new.held ≡ self.old.held }
        ensures left { self.new.room ≡ self.old.room }
    {
        if self.nodes.len() == self.nodes.capacity() {
            self.make_room()?;
        }
        Ok(())
    }

    /// Sees to it that there is room for another container that is not closed.
    #[inline(always)]
    fn reserve_opened(&mut self) -> Result<(), AllocError>
        ensures spare { OnOk result (vec_len self.new.unclosed < vec_capacity self.new.unclosed) }
        ensures same { built_view self.new ≡ built_view self.old }
        ensures nodes { self.new.nodes ≡ self.old.nodes }
        ensures left { self.new.room ≡ self.old.room }
    {
        if self.unclosed.len() == self.unclosed.capacity() {
            self.make_room_to_open()?;
        }
        Ok(())
    }

    /// Makes room for another node; where many stand there already, for as many as the whole input may have, most likely.
    #[inline(never)]
    fn make_room(&mut self) -> Result<(), AllocError>
        ensures room { OnOk result (vec_len self.new.nodes < vec_capacity self.new.nodes) }
        ensures same { built_view self.new ≡ built_view self.old }
        ensures held { self.new.held ≡ self.old.held }
        ensures left { self.new.room ≡ self.old.room }
    {
        if self.nodes.len() >= FEW && self.nodes.reserve(self.input.len() / 4 + 1).is_ok() {
            return Ok(());
        }
        self.nodes.reserve(1)
    }

    /// Makes room for another container that is not closed.
    #[inline(never)]
    fn make_room_to_open(&mut self) -> Result<(), AllocError>
        ensures room { OnOk result (vec_len self.new.unclosed < vec_capacity self.new.unclosed) }
        ensures same { built_view self.new ≡ built_view self.old }
        ensures nodes { self.new.nodes ≡ self.old.nodes }
        ensures left { self.new.room ≡ self.old.room }
    {
        self.unclosed.reserve(1)
    }
}

/// How many more containers may be opened within one that opens here.
#[inline(always)]
fn room_within<'t>(span: Span, room: Option<usize>) -> Result<Option<usize>, DeserializeError<'t>>
    ensures left { IfOk result (λ left. (others : Option ℕ → Option SpecSpan) → beyond_bracket (span_of span) others room ≡ others left) }
    ensures refused { IfErr result (λ e. (room ≡ Some 0) × (refusal_of e ≡ too_deep_at (span_of span))) }
    ensures span { IfErr result (λ e. IfSome e.span (λ s. s ≡ span)) }
{
    match room {
        None => Ok(None),
        Some(0) => Err(DeserializeError {
            kind: DeserializeErrorKind::InvalidValue {
                message: "nested too deeply",
            },
            span: Some(span),
        }),
        Some(n) => Ok(Some(n - 1)),
    }
}

/// How many more containers may be opened behind one that ends here.
///
/// # Errors
///
/// Out of memory, where no number tells: there is no memory for so many.
#[inline(always)]
fn room_behind(room: Option<usize>) -> Result<Option<usize>, AllocError>
    ensures { IfOk result (λ left. left ≡ outer room) }
{
    match room {
        None => Ok(None),
        Some(n) => match n.checked_add(1) {
            Some(more) => Ok(Some(more)),
            None => Err(AllocError),
        },
    }
}

/// A count or an index, where it fits 32 bits.
///
/// # Errors
///
/// Out of memory: there is none for so many nodes.
#[inline(always)]
fn in_32_bits(n: usize) -> Result<u32, AllocError>
    ensures { IfOk result (λ same. same ≡ n) }
{
    match u32::try_from(n) {
        Ok(same) => Ok(same),
        Err(_) => Err(AllocError),
    }
}

/// Puts a node in the place of another.
#[inline(always)]
fn put<'i>(nodes: &mut Vec<Node<'i>>, at: usize, node: Node<'i>)
    requires { at < length nodes.old.items }
    ensures items { nodes.new.items ≡ set nodes.old.items at node.entry }
    ensures len { vec_len nodes.new ≡ vec_len nodes.old }
    ensures capacity { vec_capacity nodes.new ≡ vec_capacity nodes.old }
{
    nodes[at] = node;
}

/// The node of a container with these bytes, and that so many of the next nodes belong to.
#[inline(always)]
fn container_node<'i>(kind: ContainerKind, inner: u32, text: &'i [u8]) -> Node<'i>
    ensures node { (held : List RustScalar) → node_view held result ≡ container kind text.now inner }
    ensures held { (held : List RustScalar) → FindsHeld held result }
{
    match kind {
        ContainerKind::Array => Node {
            kind: NodeKind::List,
            more: inner,
            text,
        },
        ContainerKind::Object => Node {
            kind: NodeKind::Object,
            more: inner,
            text,
        },
    }
}

/// The bytes of the input from one offset up to another, as far as they lie there, which nearly all do.
#[inline(always)]
fn bytes_between(input: &[u8], from: usize, to: usize) -> &[u8]
    ensures { result.now ≡ text_at input.now (span_at from (to - from)) }
{
    match input.get(from..to) {
        Some(bytes) => bytes,
        None => bytes_cut_off(input, from, to),
    }
}

/// Those that lie there of such bytes, by a call.
#[inline(never)]
fn bytes_cut_off(input: &[u8], from: usize, to: usize) -> &[u8]
    ensures { result.now ≡ text_at input.now (span_at from (to - from)) }
{
    bytes_of_span(input, Span::new(from, to.saturating_sub(from)))
}

/// The bytes of the input in a span, as far as it lies there.
#[inline(always)]
fn bytes_of_span(input: &[u8], span: Span) -> &[u8]
    ensures { result.now ≡ text_at input.now (span_of span) }
{
    let from = input.get(span.offset..).unwrap_or(&[]);
    from.get(..span.len).unwrap_or(from)
}
