//! A value from a parser to a serializer, event by event, and how the next event of a value is read, and the end behind a root.

ghost use Rattle.std.specs.Prelude.{◌≡◌, ◌⊎◌, ◌≤◌, ◌<◌, ◌+◌, true, false, None, Some, length, IfOk, IfErr, IfSome, OnOk};
ghost use Rattle.std.specs.Prelude.{MatchResult, ◌≢◌, Ok, OnErr};
ghost use Rattle.facet_format.specs.Complaint.{no_memory};
ghost use Rattle.facet_format.specs.Event.{Passed};
ghost use Rattle.facet_format.specs.Views.{event_kind_of, event_of, refusal_of, scalar_value_of, span_of};
ghost use Rattle.facet_json_grammar.specs.Node.{Node};
ghost use Rattle.facet_json_grammar.specs.Tree.{Tree as SpecTree};
ghost use Rattle.facet_json_grammar.specs.Document.{IsDocument};
ghost use Rattle.facet_json_grammar.specs.Future.{Future, finished, gives};
ghost use Rattle.facet_json_grammar.specs.StrictDocument.{IsStrictDocument};
ghost use Rattle.facet_json_grammar.specs.Next.{PassesNext, IsOver};
ghost use Rattle.facet_json_grammar.specs.Now.{ahead, future_of, GoesOn, current_span_of as last_read};
ghost use Rattle.facet_json_serializer.specs.Serializer.{Writing as SpecWriting, Appends};
ghost use Rattle.facet_json_serializer.specs.TreeCalls.{with_tree};
ghost use Rattle.facet_json_serializer.specs.Views.{call_answer_of};
ghost use Rattle.facet_json_core.specs.Reading.{GivesNone};
ghost use Rattle.facet_json_core.specs.Refusing.{TellsRefusal, mismatch_of, name_of_event, name_of_scalar, no_value_after};
ghost use Rattle.facet_json_core.specs.Meaning.OneValue.{PassesByKind};
ghost use Rattle.facet_json_core.specs.Meaning.Passing.{LacksAlone, WalksPast};
ghost use Rattle.facet_json_core.specs.Told.{begins};
ghost use Rattle.facet_json_core.specs.Transcode.{serializer_call_of, containers_after as spec_depth_after, IsWritten, BeginsNone};
ghost use Rattle.facet_json_core.specs.TranscodeViews.{IsUnwritten, TranscodeLacksMemory, IsTranscodeRefused, ErrorWithin, IsMisplaced};
ghost use Rattle.facet_json_core.specs.TranscodeViews.{FromNew, FromNewStrict, TellsError, WritesDocument, WritesStrictDocument};
ghost use Rattle.facet_format.specs.Span.{stop};
ghost use Rattle.facet_json_grammar.specs.Move.{MovesBy, StepsBy};
ghost use Rattle.facet_json_grammar.specs.UnreadLaws.{RefusalWithin};

use crate::transcode_error::TranscodeError;
use facet_format::{
    DeserializeError, DeserializeErrorKind, FormatParser, FormatSerializer, ParseEvent,
    ParseEventKind, ScalarValue, Span,
};
use facet_json_parser::JsonParser;
use facet_json_serializer::{JsonSerializeError, JsonSerializer};

/// Passes one value from the parser to the serializer: its events in order, up to its last one. The value is written where the
/// serializer stands, by its options.
///
/// It allocates only for the open containers, one event's text, and what is written. It does not recurse.
///
/// ```text
/// let mut parser = JsonParser::new(alloc, b"[1, {\"a\": null},]");
/// let mut serializer = JsonSerializer::new(alloc);
/// transcode(&mut parser, &mut serializer)     Ok
/// serializer.finish()                         Ok: [1,{"a":null}]
/// ```
///
/// # Errors
///
/// `Read`, where the parser gives no value: what `from_slice` would answer; and where the parser stands before a key or a closing bracket,
/// `TypeMismatch`, expected `value`, with the event's span, and nothing is written. `Write`, where the serializer is out of memory. What
/// was written before stays in the serializer.
pub fn transcode<'t>(
    parser: &mut JsonParser<'_>,
    serializer: &mut JsonSerializer<'_>,
) -> Result<(), TranscodeError<'t>>
    ensures written { (w : SpecWriting) → serializer.old ≡ Some w
        → OnOk result (IsWritten (future_of parser.old) w (future_of parser.new) serializer.new) }
    ensures unwritten { (w : SpecWriting) → serializer.old ≡ Some w → parser.old.cursor.refusal ≡ None
        → IfErr result (λ e. IsUnwritten parser.old.buffer (future_of parser.old) e) }
    ensures document { FromNew parser.old serializer.old (λ input mode w. OnOk result (WritesDocument input mode w serializer.new)) }
    ensures refused { FromNew parser.old serializer.old (λ input mode w. IfErr result (λ e. IsTranscodeRefused input mode e)) }
    ensures only { FromNew parser.old serializer.old (λ input mode w. (root : Node) (value : SpecTree) → IsDocument input mode root value
        → MatchResult result (λ _. serializer.new ≡ Some (with_tree w value)) (λ e. TranscodeLacksMemory e)) }
    ensures over { FromNew parser.old serializer.old (λ input mode w. OnOk result (future_of parser.new ≡ finished)) }
    ensures strict { FromNewStrict parser.old serializer.old (λ input w.
        OnOk result (future_of parser.new ≡ finished → WritesStrictDocument input w serializer.new)) }
    ensures strict_only { FromNewStrict parser.old serializer.old (λ input w. (root : Node) (value : SpecTree)
        → IsStrictDocument input root value
        → MatchResult result (λ _. (serializer.new ≡ Some (with_tree w value)) × (future_of parser.new ≡ finished))
        (λ e. TranscodeLacksMemory e)) }
    ensures within { IfErr result (λ e. ErrorWithin (length parser.old.buffer) e) }
    ensures tells { IfErr result (λ e. TellsError parser.old parser.new e) }
    ensures misplaced { (p : Passed) (rest : Future) → parser.old.cursor.refusal ≡ None → future_of parser.old ≡ gives p rest
        → begins p.event.kind ≡ false
        → MatchResult result (λ _. ⊥) (IsMisplaced p.event) × (serializer.new ≡ serializer.old) }
    ensures same { parser.new.buffer ≡ parser.old.buffer }
    ensures free { OnOk result (parser.new.cursor.refusal ≡ None) }
{
    write_value(parser, serializer)
}

/// Consumes the events of one value: up to the first after which no container is open.
fn write_value<'t>(
    parser: &mut JsonParser<'_>,
    serializer: &mut JsonSerializer<'_>,
) -> Result<(), TranscodeError<'t>>
    ensures written { (w : SpecWriting) → serializer.old ≡ Some w
        → OnOk result (IsWritten (future_of parser.old) w (future_of parser.new) serializer.new) }
    ensures unwritten { (w : SpecWriting) → serializer.old ≡ Some w → parser.old.cursor.refusal ≡ None
        → IfErr result (λ e. IsUnwritten parser.old.buffer (future_of parser.old) e) }
    ensures within { IfErr result (λ e. ErrorWithin (length parser.old.buffer) e) }
    ensures tells { IfErr result (λ e. TellsError parser.old parser.new e) }
    ensures misplaced { (p : Passed) (rest : Future) → parser.old.cursor.refusal ≡ None → future_of parser.old ≡ gives p rest
        → begins p.event.kind ≡ false
        → MatchResult result (λ _. ⊥) (IsMisplaced p.event) × (serializer.new ≡ serializer.old) }
    ensures same { parser.new.buffer ≡ parser.old.buffer }
    ensures free { OnOk result (parser.new.cursor.refusal ≡ None) }
{
    let mut depth = 0;
    loop {
        let event = next_within(parser, depth)?;
        depth = depth_after(&event.kind, depth)?;
        pass(serializer, event.kind)?;
        if depth == 0 {
            return Ok(());
        }
    }
}

/// The next event of a value of which so many containers are open: the first one begins it.
///
/// # Errors
///
/// As `next_of_value`; and `TypeMismatch`, expected `value`, where the first event is a key or a closing bracket.
#[inline(always)]
fn next_within<'t, 'de>(
    parser: &mut JsonParser<'de>,
    depth: usize,
) -> Result<ParseEvent<'de>, DeserializeError<'t>>
    ensures onward { GoesOn parser.old parser.new }
    ensures passed { IfOk result (λ e. PassesNext parser.old (event_of e) parser.new) }
    ensures shorter { OnOk result (ahead parser.new < ahead parser.old) }
    ensures begun { IfOk result (λ e. depth ≡ 0 → begins (event_of e).kind ≡ true) }
    ensures refused { parser.old.cursor.refusal ≡ None
        → IfErr result (λ e. GivesNone parser.old (refusal_of e) ⊎ BeginsNone parser.old depth (refusal_of e)) }
    ensures within { IfErr result (λ e. IfSome e.span (λ s. s.offset + s.len ≤ length parser.new.buffer)) }
    ensures tells { IfErr result (λ e. TellsRefusal parser.old parser.new (refusal_of e)) }
{
    let event = next_in_line(parser)?;
    if depth == 0 && !begins_value(&event.kind) {
        return Err(mismatch("value", event));
    }
    Ok(event)
}

/// Whether a value begins with an event of this kind.
fn begins_value(kind: &ParseEventKind<'_>) -> bool
    ensures { result ≡ begins (event_kind_of kind.now) }
{
    match kind {
        ParseEventKind::StructStart(_)
        | ParseEventKind::SequenceStart(_)
        | ParseEventKind::Scalar(_) => true,
        ParseEventKind::StructEnd | ParseEventKind::SequenceEnd | ParseEventKind::FieldKey(_) =>
            false,
    }
}

/// How many containers are open after an event of this kind.
///
/// # Errors
///
/// Out of memory, where no number tells: there is no memory for so many.
fn depth_after<'t>(kind: &ParseEventKind<'_>, depth: usize) -> Result<usize, DeserializeError<'t>>
    ensures { MatchResult result
        (λ after. after ≡ spec_depth_after (event_kind_of kind.now) depth)
        (λ e. refusal_of e ≡ no_memory) }
{
    match kind {
        ParseEventKind::StructStart(_) | ParseEventKind::SequenceStart(_) => {
            match depth.checked_add(1) {
                Some(more) => Ok(more),
                None => Err(DeserializeError::out_of_memory()),
            }
        }
        ParseEventKind::StructEnd | ParseEventKind::SequenceEnd => Ok(depth.saturating_sub(1)),
        ParseEventKind::FieldKey(_) | ParseEventKind::Scalar(_) => Ok(depth),
    }
}

/// Makes the serializer's call for an event of this kind.
fn pass(
    serializer: &mut JsonSerializer<'_>,
    kind: ParseEventKind<'_>,
) -> Result<(), JsonSerializeError>
    ensures { Appends serializer.old (serializer_call_of (event_kind_of kind.entry)) (call_answer_of result) serializer.new }
{
    match kind {
        ParseEventKind::StructStart(_) => serializer.begin_struct(),
        ParseEventKind::StructEnd => serializer.end_struct(),
        ParseEventKind::SequenceStart(_) => serializer.begin_seq(),
        ParseEventKind::SequenceEnd => serializer.end_seq(),
        ParseEventKind::FieldKey(key) => serializer.field_key(key.name.as_str()),
        ParseEventKind::Scalar(value) => serializer.scalar(value),
    }
}

/// The next event, where a value has not ended.
///
/// ```text
/// let mut parser = JsonParser::new(alloc, b"1");
/// next_of_value(&mut parser)     Ok: U64(1), span 0+1
/// next_of_value(&mut parser)     Err: UnexpectedEof { expected: "value" }, span 1+0
/// ```
///
/// # Errors
///
/// As the parser's `next_event`; and where the parser is at the end of its document, an unexpected end.
pub fn next_of_value<'t, 'de>(
    parser: &mut JsonParser<'de>,
) -> Result<ParseEvent<'de>, DeserializeError<'t>>
    ensures onward { GoesOn parser.old parser.new }
    ensures shorter { OnOk result (ahead parser.new < ahead parser.old) }
    ensures passed { IfOk result (λ e. PassesNext parser.old (event_of e) parser.new) }
    ensures steps { IfOk result (λ e. StepsBy parser.old (event_of e) parser.new) }
    ensures moves { IfOk result (λ e. MovesBy parser.old (event_of e) parser.new) }
    ensures walks { IfOk result (λ e. WalksPast parser.old (event_of e) parser.new) }
    ensures by_kind { IfOk result (λ e. PassesByKind (event_of e).kind parser.old parser.new) }
    ensures event_within { IfOk result (λ e. stop (event_of e).span ≤ length parser.new.buffer) }
    ensures refused { parser.old.cursor.refusal ≡ None → IfErr result (λ e. GivesNone parser.old (refusal_of e)) }
    ensures lacks { IfErr result (λ e. LacksAlone parser.old (refusal_of e)) }
    ensures within { IfErr result (λ e. RefusalWithin parser.new.buffer (refusal_of e)) }
    ensures tells { IfErr result (λ e. TellsRefusal parser.old parser.new (refusal_of e)) }
{
    next_in_line(parser)
}

/// The next event of a value, in the caller's code: for a reader that takes every event of a document.
///
/// # Errors
///
/// As `next_of_value`.
#[inline(always)]
pub fn next_in_line<'t, 'de>(
    parser: &mut JsonParser<'de>,
) -> Result<ParseEvent<'de>, DeserializeError<'t>>
    ensures onward { GoesOn parser.old parser.new }
    ensures shorter { OnOk result (ahead parser.new < ahead parser.old) }
    ensures passed { IfOk result (λ e. PassesNext parser.old (event_of e) parser.new) }
    ensures steps { IfOk result (λ e. StepsBy parser.old (event_of e) parser.new) }
    ensures moves { IfOk result (λ e. MovesBy parser.old (event_of e) parser.new) }
    ensures event_within { IfOk result (λ e. stop (event_of e).span ≤ length parser.new.buffer) }
    ensures refused { parser.old.cursor.refusal ≡ None → IfErr result (λ e. GivesNone parser.old (refusal_of e)) }
    ensures lacks { IfErr result (λ e. LacksAlone parser.old (refusal_of e)) }
    ensures within { IfErr result (λ e. RefusalWithin parser.new.buffer (refusal_of e)) }
    ensures tells { IfErr result (λ e. TellsRefusal parser.old parser.new (refusal_of e)) }
{
    match parser.next_event()? {
        Some(event) => Ok(event),
        None => Err(ended(parser)),
    }
}

/// The span of the last token that the parser passed, bytes of the input: where a refusal of what was read stands.
///
/// ```text
/// next_of_value(&mut parser)?    of [true]: the bracket
/// last_span(&parser)             0+1
/// ```
pub fn last_span(parser: &JsonParser<'_>) -> Span
    ensures within { stop (span_of result) ≤ length parser.now.buffer }
    ensures told { span_of result ≡ last_read parser.now }
{
    parser.current_span().unwrap()
}

/// The refusal of a value where the parser is at the end.
pub fn ended<'t>(parser: &JsonParser<'_>) -> DeserializeError<'t>
    ensures within { IfSome result.span (λ s. s.offset + s.len ≤ length parser.now.buffer) }
    ensures told { refusal_of result ≡ no_value_after (last_read parser.now) }
{
    let end = last_span(parser).end();
    DeserializeError {
        kind: DeserializeErrorKind::UnexpectedEof { expected: "value" },
        span: Some(Span::new(end, 0)),
    }
}

/// Consumes the end of a document, behind its root. A strict parser refuses all but white space there; a lenient one does not look.
///
/// ```text
/// let mut parser = JsonParser::new_strict(alloc, b"1 2");
/// next_of_value(&mut parser)     Ok: U64(1), span 0+1
/// pass_end(&mut parser)          Err: UnexpectedToken { got: "U64", expected: "end of input" }, span 2+1
/// ```
///
/// # Errors
///
/// As the parser's `next_event`; and `TypeMismatch`, expected `end of input`, with the event's span, where an event comes: the value is not
/// over.
pub fn pass_end<'t>(parser: &mut JsonParser<'_>) -> Result<(), DeserializeError<'t>>
    ensures over { OnOk result (IsOver parser.old parser.new) }
    ensures only { parser.old.cursor.refusal ≡ None → OnErr result (future_of parser.old ≢ finished) }
    ensures onward { GoesOn parser.old parser.new }
    ensures within { IfErr result (λ e. RefusalWithin parser.new.buffer (refusal_of e)) }
    ensures tells { IfErr result (λ e. TellsRefusal parser.old parser.new (refusal_of e)) }
{
    let Some(event) = parser.next_event()? else {
        return Ok(());
    };
    Err(mismatch("end of input", event))
}

/// The refusal of an event with which no value of the type begins, whose name is `expected`.
pub fn mismatch<'t>(expected: &'t str, event: ParseEvent<'_>) -> DeserializeError<'t>
    ensures span { result.span ≡ Some event.entry.span }
    ensures told { refusal_of result ≡ mismatch_of expected.now (event_of event.entry) }
{
    let ParseEvent { kind, span } = event;
    DeserializeError {
        kind: DeserializeErrorKind::TypeMismatch {
            expected,
            got: name_of(&kind),
        },
        span: Some(span),
    }
}

/// What an event of this kind is called in a refusal.
fn name_of<'t>(kind: &ParseEventKind<'_>) -> &'t str
    ensures { result.now ≡ name_of_event (event_kind_of kind.now) }
{
    match kind {
        ParseEventKind::StructStart(_) => "object",
        ParseEventKind::SequenceStart(_) => "array",
        ParseEventKind::StructEnd | ParseEventKind::SequenceEnd => "end",
        ParseEventKind::FieldKey(_) => "key",
        ParseEventKind::Scalar(value) => scalar_name(value),
    }
}

/// What a scalar is called in a refusal.
fn scalar_name<'t>(value: &ScalarValue<'_>) -> &'t str
    ensures { result.now ≡ name_of_scalar (scalar_value_of value.now) }
{
    match value {
        ScalarValue::Null | ScalarValue::Unit => "null",
        ScalarValue::Bool(_) => "bool",
        ScalarValue::I64(_) | ScalarValue::U64(_) | ScalarValue::I128(_) | ScalarValue::U128(_) =>
            "integer",
        ScalarValue::Decimal(_) => "decimal",
        ScalarValue::Char(_) | ScalarValue::Str(_) | ScalarValue::Bytes(_) => "string",
    }
}
