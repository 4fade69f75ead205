//! Reads the tree of a value, event by event and by recursion.

ghost use Rattle.std.specs.Prelude.{◌≡◌, ◌≤◌, ◌<◌, ◌+◌, ◌⊎◌, ◌++◌, ◌∷◌, false, [], string_bytes, length, None, Some, IfOk, IfErr, IfSome};
ghost use Rattle.std.specs.Prelude.{OnOk, MatchResult, MatchOption};
ghost use Rattle.facet_format.specs.Complaint.{out_of_memory, type_mismatch, refusal_at};
ghost use Rattle.facet_format.specs.Event.{sequence_end, struct_end, array, object};
ghost use Rattle.facet_format.specs.Views.{event_of, refusal_of, scalar_value_of, span_of};
ghost use Rattle.facet_json_token.specs.Gap.{plain, jsonc};
ghost use Rattle.facet_json_token.specs.Views.{mode_of};
ghost use Rattle.facet_json_grammar.specs.Node.{Node};
ghost use Rattle.facet_json_grammar.specs.Tree.{Tree as SpecTree};
ghost use Rattle.facet_json_grammar.specs.Document.{IsDocument};
ghost use Rattle.facet_json_grammar.specs.Future.{Future};
ghost use Rattle.facet_json_grammar.specs.Meaning.{tree_of};
ghost use Rattle.facet_json_grammar.specs.PrefixRefusal.{Refuses};
ghost use Rattle.facet_json_grammar.specs.Now.{ahead, fresh, future_of};
ghost use Rattle.facet_json_grammar.specs.UnreadLaws.{RefusalWithin};
ghost use Rattle.facet_json_core.specs.Told.{tree_of_scalar, is_member};
ghost use Rattle.facet_json_core.specs.Reading.{LacksMemory, IsValueRead, IsValueUnread};
ghost use Rattle.facet_json_core.specs.Refusing.{LacksOrIsAbout, TellsRefusal};
ghost use Rattle.facet_json_core.specs.Meaning.Nodes.{KeepsOn};
ghost use Rattle.facet_json_core.specs.Meaning.OneValue.{PassesValue, PassesEndOf};
ghost use Rattle.facet_json_core.specs.Meaning.Passing.{MovesOn};
ghost use Rattle.facet_json_core.specs.Meaning.Reading.{IsRead, IsUnread, HasDocument, EndsStrictly};
ghost use Rattle.facet_json_tree.specs.Depth.{outer, too_deep_at};
ghost use Rattle.facet_json_tree.specs.Inner.Beyond.{inner as spec_inner, Admits, SameBeyond, IsValueUnreadWithin};
ghost use Rattle.facet_json_tree.specs.Inner.Reading.{WentOn, LeadsOn, AreItemsRead, AreMembersRead, AreItemsUnreadWithin};
ghost use Rattle.facet_json_tree.specs.Inner.Reading.{AreMembersUnreadWithin, HasBegun, IsRefused, BeganValue, BeganMember, PassedEnd};
ghost use Rattle.facet_json_tree.specs.Inner.Reading.{IsKey, IsFilled, PassesRest, IsLevel, IsUnfilled};
ghost use Rattle.facet_json_tree.specs.Views.{tree_view, trees_view, pairs_view};

use crate::owned_decimal::OwnedDecimal;
use crate::tree::Tree;
use facet_format::{
    DeserializeError, DeserializeErrorKind, FormatParser, ParseEvent, ParseEventKind, ScalarValue,
    Span,
};
use facet_json_core::next_in_line;
use facet_json_parser::JsonParser;
use facet_json_token::Mode;
use std::alloc::{AllocError, Global};

/// Reads the plain document that the bytes begin with (RFC 8259, sections 2 to 7, with lenient readings such as a trailing comma). What
/// follows it is not looked at.
///
/// ```text
/// tree_from_slice(alloc, b"[1,]")     Ok: Tree::List of Tree::U64(1)
/// tree_from_slice(alloc, b"[1 2]")    Err: kind 3, UnexpectedToken { got: "U64", expected: "',' or ']'" }, span 3+1
/// ```
///
/// # Depth
///
/// Reading recurses once for each array or object within another (RFC 8259, section 9, lets a reader limit their depth; this one
/// sets none), and a program that runs out of the machine's stack ends at once. As measured and not as promised, a stack of 8 MiB
/// held 16,000 containers and one of 2 MiB 4,000, at about 520 bytes each, and what the caller has on it comes off that. Where bytes
/// come from strangers, use [`tree_from_slice_within`](crate::tree_from_slice_within), or `transcode`, which does not recurse.
///
/// # Errors
///
/// The bytes begin with no document: a refusal of the kinds 1 to 4, its span the offset and length in bytes of what it is about. Or out of
/// memory, kind 9: its span is known where an event lacked it, and not where the tree did.
pub fn tree_from_slice<'t>(alloc: Global, input: &[u8]) -> Result<Tree, DeserializeError<'t>>
    ensures document { IfOk result (λ t. (root : Node) × IsDocument input.now plain root (tree_view t)) }
    ensures refused { IfErr result (λ e. ((refusal_of e).complaint ≡ out_of_memory) ⊎ Refuses input.now plain (refusal_of e)) }
    ensures only { (root : Node) (value : SpecTree) → IsDocument input.now plain root value
        → MatchResult result (λ t. tree_view t ≡ value) (λ e. (refusal_of e).complaint ≡ out_of_memory) }
    ensures within { IfErr result (λ e. IfSome e.span (λ s. s.offset + s.len ≤ length input.now)) }
{
    document(alloc, input, Mode::Plain)
}

/// Reads the document that the bytes begin with, which may have comments (`//` up to the line's end, `/*` up to `*/`) wherever white
/// space may stand. What follows it is not looked at.
///
/// ```text
/// tree_from_slice_jsonc(alloc, b"[1, /* one */]")    Ok: Tree::List of Tree::U64(1)
/// ```
///
/// Recurses as [`tree_from_slice`].
///
/// # Errors
///
/// As [`from_slice`], and a block comment without its end is an unexpected end, kind 2.
pub fn tree_from_slice_jsonc<'t>(alloc: Global, input: &[u8]) -> Result<Tree, DeserializeError<'t>>
    ensures document { IfOk result (λ t. (root : Node) × IsDocument input.now jsonc root (tree_view t)) }
    ensures refused { IfErr result (λ e. ((refusal_of e).complaint ≡ out_of_memory) ⊎ Refuses input.now jsonc (refusal_of e)) }
    ensures only { (root : Node) (value : SpecTree) → IsDocument input.now jsonc root value
        → MatchResult result (λ t. tree_view t ≡ value) (λ e. (refusal_of e).complaint ≡ out_of_memory) }
    ensures within { IfErr result (λ e. IfSome e.span (λ s. s.offset + s.len ≤ length input.now)) }
{
    document(alloc, input, Mode::Jsonc)
}

/// Reads the parser's next value, and consumes it. A parser that was refused repeats its refusal.
///
/// ```text
/// let mut parser = JsonParser::new(alloc, b"[1, 2]");
/// parser.next_event()               Ok: SequenceStart(Array), span 0+1
/// read_tree(alloc, &mut parser)     Ok: Tree::U64(1), and the parser is before the 2
/// ```
///
/// Recurses as [`tree_from_slice`].
///
/// # Errors
///
/// A key or a closing bracket stands there: `TypeMismatch`, its span the event's. Or no document goes on, as the parser says. Or
/// out of memory. A span is an offset and a length in bytes.
pub fn read_tree<'t>(
    alloc: Global,
    parser: &mut JsonParser<'_>,
) -> Result<Tree, DeserializeError<'t>>
    ensures read { IfOk result (λ t. IsRead tree_of parser.old (tree_view t) parser.new) }
    ensures unread { IfErr result (λ e. IsUnread tree_of parser.old (refusal_of e)) }
    ensures document { OnOk result (HasDocument parser.old) }
    ensures strict { OnOk result (EndsStrictly parser.old parser.new) }
    ensures keeps { KeepsOn parser.old parser.new }
    ensures shorter { OnOk result (ahead parser.new < ahead parser.old) }
    ensures one_value { OnOk result (PassesValue parser.old parser.new) }
    ensures within { IfErr result (λ e. RefusalWithin parser.new.buffer (refusal_of e)) }
    ensures free { OnOk result (parser.new.cursor.refusal ≡ None) }
    ensures tells { IfErr result (λ e. TellsRefusal parser.old parser.new (refusal_of e)) }
    ensures told { IfOk result (λ t. IsValueRead (future_of parser.old) (tree_view t) (future_of parser.new)) }
    ensures refused { parser.old.cursor.refusal ≡ None
        → IfErr result (λ e. IsValueUnread parser.old.buffer (future_of parser.old) (refusal_of e)) }
{
    read_value(alloc, parser, None)
}

/// The tree of the document that the bytes begin with, with these gaps between its tokens.
fn document<'t>(alloc: Global, input: &[u8], mode: Mode) -> Result<Tree, DeserializeError<'t>>
    ensures document { IfOk result (λ t. (root : Node) × IsDocument input.now (mode_of mode) root (tree_view t)) }
    ensures refused { IfErr result (λ e. ((refusal_of e).complaint ≡ out_of_memory) ⊎ Refuses input.now (mode_of mode) (refusal_of e)) }
    ensures only { (root : Node) (value : SpecTree) → IsDocument input.now (mode_of mode) root value
        → MatchResult result (λ t. tree_view t ≡ value) (λ e. (refusal_of e).complaint ≡ out_of_memory) }
    ensures within { IfErr result (λ e. IfSome e.span (λ s. s.offset + s.len ≤ length input.now)) }
{
    read_tree(alloc, &mut parser_of(alloc, input, mode))
}

/// A parser of the bytes, with these gaps between their tokens.
pub fn parser_of<'de>(alloc: Global, input: &'de [u8], mode: Mode) -> JsonParser<'de>
    ensures { result ≡ fresh input.now (mode_of mode) }
{
    match mode {
        Mode::Plain => JsonParser::new(alloc, input),
        Mode::Jsonc => JsonParser::new_jsonc(alloc, input),
    }
}

/// The parser's next value, within which no more containers than `depth` are opened around one another.
pub(crate) fn read_value<'t>(
    alloc: Global,
    parser: &mut JsonParser<'_>,
    depth: Option<usize>,
) -> Result<Tree, DeserializeError<'t>>
    ensures keeps { KeepsOn parser.old parser.new }
    ensures moves { OnOk result (MovesOn parser.old parser.new) }
    ensures shorter { OnOk result (ahead parser.new < ahead parser.old) }
    ensures one_value { OnOk result (PassesValue parser.old parser.new) }
    ensures told { IfOk result (λ t. IsValueRead (future_of parser.old) (tree_view t) (future_of parser.new)) }
    ensures level { OnOk result (SameBeyond (future_of parser.old) depth (future_of parser.new) depth) }
    ensures free { OnOk result (parser.new.cursor.refusal ≡ None) }
    ensures refused { parser.old.cursor.refusal ≡ None
        → IfErr result (λ e. IsValueUnreadWithin depth parser.old.buffer (future_of parser.old) (refusal_of e)) }
    ensures within { IfErr result (λ e. IfSome e.span (λ s. s.offset + s.len ≤ length parser.new.buffer)) }
    ensures tells { IfErr result (λ e. TellsRefusal parser.old parser.new (refusal_of e)) }
{
    let first = begin_value(alloc, parser, depth)?;
    let mut room = 0;
    finish(alloc, parser, first, depth, &mut room)
}

/// The tree of the parser's next value, its items or members still to be read. Passes its first event.
#[inline(always)]
fn begin_value<'t>(
    alloc: Global,
    parser: &mut JsonParser<'_>,
    depth: Option<usize>,
) -> Result<Tree, DeserializeError<'t>>
    ensures keeps { KeepsOn parser.old parser.new }
    ensures moves { OnOk result (MovesOn parser.old parser.new) }
    ensures shorter { OnOk result (ahead parser.new < ahead parser.old) }
    ensures begun { IfOk result (λ t. BeganValue depth parser.old (tree_view t) parser.new) }
    ensures refused { parser.old.cursor.refusal ≡ None
        → IfErr result (λ e. IsValueUnreadWithin depth parser.old.buffer (future_of parser.old) (refusal_of e)) }
    ensures within { IfErr result (λ e. IfSome e.span (λ s. s.offset + s.len ≤ length parser.new.buffer)) }
    ensures tells { IfErr result (λ e. TellsRefusal parser.old parser.new (refusal_of e)) }
{
    begun(alloc, next_in_line(parser)?, depth)
}

/// The next item of a list, its own items or members still to be read. Nothing at the end of the list, which is passed.
#[inline(always)]
fn begin_item<'t>(
    alloc: Global,
    parser: &mut JsonParser<'_>,
    depth: Option<usize>,
) -> Result<Option<Tree>, DeserializeError<'t>>
    requires free { parser.old.cursor.refusal ≡ None }
    ensures keeps { KeepsOn parser.old parser.new }
    ensures moves { OnOk result (MovesOn parser.old parser.new) }
    ensures shorter { OnOk result (ahead parser.new < ahead parser.old) }
    ensures begun { IfOk result
        (λ o. MatchOption o (PassedEnd sequence_end parser.old parser.new) (λ t. BeganValue depth parser.old (tree_view t) parser.new)) }
    ensures refused { IfErr result (λ e. AreItemsUnreadWithin depth parser.old.buffer (future_of parser.old) (refusal_of e)) }
    ensures within { IfErr result (λ e. IfSome e.span (λ s. s.offset + s.len ≤ length parser.new.buffer)) }
    ensures tells { IfErr result (λ e. TellsRefusal parser.old parser.new (refusal_of e)) }
{
    let first = next_in_line(parser)?;
    if let ParseEventKind::SequenceEnd = first.kind {
        return Ok(None);
    }
    Ok(Some(begun(alloc, first, depth)?))
}

/// The next member of an object, its value's items or members still to be read. Nothing at the end of the object, which is passed.
#[inline(always)]
fn begin_member<'t>(
    alloc: Global,
    parser: &mut JsonParser<'_>,
    depth: Option<usize>,
) -> Result<Option<(String, Tree)>, DeserializeError<'t>>
    requires free { parser.old.cursor.refusal ≡ None }
    ensures keeps { KeepsOn parser.old parser.new }
    ensures moves { OnOk result (MovesOn parser.old parser.new) }
    ensures shorter { OnOk result (ahead parser.new < ahead parser.old) }
    ensures begun { IfOk result
        (λ o. MatchOption o (PassedEnd struct_end parser.old parser.new)
        (λ m. BeganMember depth parser.old (string_bytes m.0) (tree_view m.1) parser.new)) }
    ensures refused { IfErr result (λ e. AreMembersUnreadWithin depth parser.old.buffer (future_of parser.old) (refusal_of e)) }
    ensures within { IfErr result (λ e. IfSome e.span (λ s. s.offset + s.len ≤ length parser.new.buffer)) }
    ensures tells { IfErr result (λ e. TellsRefusal parser.old parser.new (refusal_of e)) }
{
    match member_key(alloc, next_in_line(parser)?)? {
        Some(key) => Ok(Some((key, begin_value(alloc, parser, depth)?))),
        None => Ok(None),
    }
}

/// The key that an event is, or nothing where it ends an object.
#[inline(always)]
fn member_key<'t>(
    alloc: Global,
    event: ParseEvent<'_>,
) -> Result<Option<String>, DeserializeError<'t>>
    ensures key { IfOk result
        (λ o. MatchOption o ((event_of event.entry).kind ≡ struct_end) (λ k. IsKey (event_of event.entry).kind (string_bytes k))) }
    ensures refused { IfErr result (λ e. LacksMemory (refusal_of e) ⊎ (is_member (event_of event.entry).kind ≡ false)) }
    ensures span { IfErr result (λ e. IfSome e.span (λ s. s ≡ event.entry.span)) }
    ensures about { IfErr result (λ e. LacksOrIsAbout (event_of event.entry).span (refusal_of e)) }
{
    let ParseEvent { kind, span } = event;
    match kind {
        ParseEventKind::FieldKey(key) => Ok(Some(key.name.into_owned(alloc)?)),
        ParseEventKind::StructEnd => Ok(None),
        _ => Err(mismatch("key", "value", span)),
    }
}

/// The tree of the value that begins with an event, its items or members still to be read.
#[inline(always)]
fn begun<'t>(
    alloc: Global,
    first: ParseEvent<'_>,
    depth: Option<usize>,
) -> Result<Tree, DeserializeError<'t>>
    ensures begun { IfOk result (λ t. HasBegun depth (event_of first.entry).kind (tree_view t)) }
    ensures refused { IfErr result (λ e. IsRefused depth (event_of first.entry) (refusal_of e)) }
    ensures span { IfErr result (λ e. IfSome e.span (λ s. s ≡ first.entry.span)) }
    ensures about { IfErr result (λ e. LacksOrIsAbout (event_of first.entry).span (refusal_of e)) }
{
    let ParseEvent { kind, span } = first;
    match kind {
        ParseEventKind::Scalar(value) => scalar(alloc, value, span),
        ParseEventKind::SequenceStart(_) => {
            admit(depth, span)?;
            Ok(Tree::List(Vec::new(alloc)))
        }
        ParseEventKind::StructStart(_) => {
            admit(depth, span)?;
            Ok(Tree::Pairs(Vec::new(alloc)))
        }
        ParseEventKind::FieldKey(_) => Err(mismatch("value", "key", span)),
        ParseEventKind::SequenceEnd => Err(mismatch("value", "end", span)),
        ParseEventKind::StructEnd => Err(mismatch("value", "end", span)),
    }
}

/// Refuses a bracket where no more containers may be opened.
fn admit<'t>(depth: Option<usize>, span: Span) -> Result<(), DeserializeError<'t>>
    ensures admits { OnOk result (Admits depth) }
    ensures refused { IfErr result (λ e. (depth ≡ Some 0) × (refusal_of e ≡ too_deep_at (span_of span))) }
    ensures span { IfErr result (λ e. IfSome e.span (λ s. s ≡ span)) }
{
    match depth {
        Some(0) => Err(DeserializeError {
            kind: DeserializeErrorKind::InvalidValue {
                message: "nested too deeply",
            },
            span: Some(span),
        }),
        _ => Ok(()),
    }
}

/// How many more containers may be opened within another one.
fn inner(depth: Option<usize>) -> Option<usize>
    ensures { result ≡ spec_inner depth }
{
    match depth {
        Some(n) => Some(n.saturating_sub(1)),
        None => None,
    }
}

/// The whole tree of a value that has begun: reads its items or its members, up to the closing bracket and past it. A container takes
/// room for so many of them as soon as one comes, and leaves how many came.
#[cycle(read)]
#[inline(always)]
fn finish<'t>(
    alloc: Global,
    parser: &mut JsonParser<'_>,
    begun: Tree,
    depth: Option<usize>,
    room: &mut usize,
) -> Result<Tree, DeserializeError<'t>>
    requires free { parser.old.cursor.refusal ≡ None }
    ensures keeps { KeepsOn parser.old parser.new }
    ensures leads { OnOk result (LeadsOn parser.old parser.new) }
    ensures went { OnOk result (WentOn parser.old parser.new) }
    ensures read { IfOk result (λ t. IsFilled depth (tree_view begun) (future_of parser.old) (tree_view t) (future_of parser.new)) }
    ensures passes { OnOk result (PassesRest (tree_view begun) parser.old parser.new) }
    ensures level { OnOk result (IsLevel depth (tree_view begun) (future_of parser.old) (future_of parser.new)) }
    ensures refused { IfErr result (λ e. IsUnfilled depth parser.old.buffer (tree_view begun) (future_of parser.old) (refusal_of e)) }
    ensures within { IfErr result (λ e. IfSome e.span (λ s. s.offset + s.len ≤ length parser.new.buffer)) }
    ensures tells { IfErr result (λ e. TellsRefusal parser.old parser.new (refusal_of e)) }
{
    match begun {
        Tree::List(mut items) => {
            push_items(alloc, parser, &mut items, inner(depth), *room)?;
            *room = items.len();
            Ok(Tree::List(items))
        }
        Tree::Pairs(mut members) => {
            push_members(alloc, parser, &mut members, inner(depth), *room)?;
            *room = members.len();
            Ok(Tree::Pairs(members))
        }
        whole => Ok(whole),
    }
}

/// Appends the items of a list, after its opening bracket, in room for so many. Passes the closing one.
#[cycle(read)]
fn push_items<'t>(
    alloc: Global,
    parser: &mut JsonParser<'_>,
    items: &mut Vec<Tree>,
    depth: Option<usize>,
    room: usize,
) -> Result<(), DeserializeError<'t>>
    requires free { parser.old.cursor.refusal ≡ None }
    ensures keeps { KeepsOn parser.old parser.new }
    ensures leads { OnOk result (LeadsOn parser.old parser.new) }
    ensures went { OnOk result (WentOn parser.old parser.new) }
    ensures read { OnOk result
        (items.old.items ≡ [] → AreItemsRead (future_of parser.old) (trees_view items.new.items) (future_of parser.new)) }
    ensures passes { OnOk result (PassesEndOf array parser.old parser.new) }
    ensures level { OnOk result (SameBeyond (future_of parser.old) depth (future_of parser.new) (outer depth)) }
    ensures refused { IfErr result
        (λ e. items.old.items ≡ [] → AreItemsUnreadWithin depth parser.old.buffer (future_of parser.old) (refusal_of e)) }
    ensures within { IfErr result (λ e. IfSome e.span (λ s. s.offset + s.len ≤ length parser.new.buffer)) }
    ensures tells { IfErr result (λ e. TellsRefusal parser.old parser.new (refusal_of e)) }
{
    let mut last = 0;
    while let Some(item) = begin_item(alloc, parser, depth)? {
        append(items, finish(alloc, parser, item, depth, &mut last)?, room)?;
    }
    Ok(())
}

/// Appends the members of an object, after its opening brace, in room for so many. Passes the closing one.
#[cycle(read)]
fn push_members<'t>(
    alloc: Global,
    parser: &mut JsonParser<'_>,
    members: &mut Vec<(String, Tree)>,
    depth: Option<usize>,
    room: usize,
) -> Result<(), DeserializeError<'t>>
    requires free { parser.old.cursor.refusal ≡ None }
    ensures keeps { KeepsOn parser.old parser.new }
    ensures leads { OnOk result (LeadsOn parser.old parser.new) }
    ensures went { OnOk result (WentOn parser.old parser.new) }
    ensures read { OnOk result
        (members.old.items ≡ [] → AreMembersRead (future_of parser.old) (pairs_view members.new.items) (future_of parser.new)) }
    ensures passes { OnOk result (PassesEndOf object parser.old parser.new) }
    ensures level { OnOk result (SameBeyond (future_of parser.old) depth (future_of parser.new) (outer depth)) }
    ensures refused { IfErr result
        (λ e. members.old.items ≡ [] → AreMembersUnreadWithin depth parser.old.buffer (future_of parser.old) (refusal_of e)) }
    ensures within { IfErr result (λ e. IfSome e.span (λ s. s.offset + s.len ≤ length parser.new.buffer)) }
    ensures tells { IfErr result (λ e. TellsRefusal parser.old parser.new (refusal_of e)) }
{
    while let Some((key, value)) = begin_member(alloc, parser, depth)? {
        let mut alone = 0;
        append(
            members,
            (key, finish(alloc, parser, value, depth, &mut alone)?),
            room,
        )?;
    }
    Ok(())
}

/// Appends an item, in room for so many where it is the first one.
#[inline(always)]
fn append<T: Drop>(items: &mut Vec<T>, item: T, room: usize) -> Result<(), AllocError>
    ensures { OnOk result (items.new.items ≡ items.old.items ++ item ∷ []) }
{
    if items.is_empty() {
        items.reserve(room)?;
    }
    items.push(item)?;
    Ok(())
}

/// The tree of a value that holds no others.
#[inline(always)]
fn scalar<'t>(
    alloc: Global,
    value: ScalarValue<'_>,
    span: Span,
) -> Result<Tree, DeserializeError<'t>>
    ensures read { IfOk result (λ t. tree_of_scalar (scalar_value_of value.entry) ≡ Some (tree_view t)) }
    ensures refused { IfErr result
        (λ e. (u : SpecTree) → tree_of_scalar (scalar_value_of value.entry) ≡ Some u → LacksMemory (refusal_of e)) }
    ensures span { IfErr result (λ e. IfSome e.span (λ s. s ≡ span)) }
    ensures about { IfErr result (λ e. LacksOrIsAbout (span_of span) (refusal_of e)) }
{
    match value {
        ScalarValue::Null => Ok(Tree::Null),
        ScalarValue::Unit => Ok(Tree::Null),
        ScalarValue::Bool(b) => Ok(Tree::Bool(b)),
        ScalarValue::I64(n) => Ok(Tree::I64(n)),
        ScalarValue::U64(n) => Ok(Tree::U64(n)),
        ScalarValue::Decimal(decimal) => Ok(Tree::Decimal(OwnedDecimal::new(alloc, &decimal)?)),
        ScalarValue::Str(text) => Ok(Tree::Text(text.into_owned(alloc)?)),
        _ => Err(mismatch("value", "scalar", span)),
    }
}

/// The refusal of an event that stands there in place of what a value goes on with.
fn mismatch<'t>(expected: &'t str, got: &'t str, span: Span) -> DeserializeError<'t>
    ensures span { result.span ≡ Some span }
    ensures told { refusal_of result ≡ refusal_at (type_mismatch expected.now got.now) (span_of span) }
{
    DeserializeError {
        kind: DeserializeErrorKind::TypeMismatch { expected, got },
        span: Some(span),
    }
}
