//! Calls of a parser as values, made in order: by lists of them a parser is tried and compared.

ghost use Rattle.std.specs.Prelude.{◌≡◌, ◌+◌, ◌≤◌, ℕ, List, length, map, IfOk, IfErr};
ghost use Rattle.std.specs.List.{All};
ghost use Rattle.facet_format.specs.Part.{Source};
ghost use Rattle.facet_format.specs.Cursor.{on_walk, Cursor, Run};
ghost use Rattle.facet_json_grammar.specs.Now.{StandsAt, SameInput};
ghost use Rattle.facet_json_grammar.specs.Move.{Moves, MovesAll};
ghost use Rattle.facet_json_grammar.specs.Within.{AnswerWithin};
ghost use Rattle.facet_json_core.specs.ScriptViews.{call_of, answer_of};

use facet_format::{FormatParser, ParseError, ParseEvent, SavePoint, Span};
use facet_json_parser::JsonParser;
use std::alloc::{AllocError, Global};
use std::collections::VecDeque;

/// A call of a parser, as a value.
#[derive(Debug, Clone, Copy, PartialEq, Eq)]
pub enum Call {
    /// `next_event`
    Next,
    /// `peek_event`
    Peek,
    /// `next_events`, up to so many.
    Events(usize),
    /// `skip_value`
    Skip,
    /// `capture_raw`
    Capture,
    /// `save`
    Save,
    /// `restore`, of the point with this number.
    Restore(u64),
    /// `current_span`
    Span,
}

/// What a call answers: the result of the parser's method.
#[derive(Debug, Drop)]
pub enum Answer<'de> {
    /// Of `next_event` and `peek_event`.
    Event(Result<Option<ParseEvent<'de>>, ParseError<'static>>),
    /// Of `next_events`, with the events that were appended.
    Events(VecDeque<ParseEvent<'de>>, Result<usize, ParseError<'static>>),
    /// Of `skip_value`.
    Skipped(Result<(), ParseError<'static>>),
    /// Of `capture_raw`.
    Raw(Result<Option<&'de str>, ParseError<'static>>),
    /// Of `save`.
    Saved(Result<SavePoint, ParseError<'static>>),
    /// Of `restore`, which answers nothing.
    Restored,
    /// Of `current_span`.
    Span(Option<Span>),
}

impl Call {
    /// Makes the call.
    fn make<'de>(self, alloc: Global, parser: &mut JsonParser<'de>) -> Answer<'de>
        ensures moves { Moves parser.old (call_of self) (answer_of result) parser.new }
        ensures within { AnswerWithin parser.new.buffer (answer_of result) }
    {
        match self {
            Call::Next => Answer::Event(parser.next_event()),
            Call::Peek => Answer::Event(parser.peek_event()),
            Call::Events(limit) => {
                let mut events = VecDeque::new(alloc);
                let result = parser.next_events(&mut events, limit);
                Answer::Events(events, result)
            }
            Call::Skip => Answer::Skipped(parser.skip_value()),
            Call::Capture => Answer::Raw(parser.capture_raw()),
            Call::Save => Answer::Saved(parser.save()),
            Call::Restore(point) => {
                parser.restore(SavePoint(point));
                Answer::Restored
            }
            Call::Span => Answer::Span(parser.current_span()),
        }
    }
}

/// Makes all calls in order, also after a refusal, and returns what each of them answers.
///
/// ```text
/// let mut parser = JsonParser::new(alloc, b"[1]");
/// drive(alloc, &mut parser, &[Call::Next, Call::Save, Call::Events(9)])
///     Ok: Event of SequenceStart, Saved of SavePoint(1), Events of Scalar and SequenceEnd with their number, 2
/// ```
///
/// # Errors
///
/// There is no room for the answers, which is reserved first: then no call is made. A call that is refused, also for lack of
/// memory, has its refusal as its answer.
pub fn drive<'de>(
    alloc: Global,
    parser: &mut JsonParser<'de>,
    calls: &[Call],
) -> Result<Vec<Answer<'de>>, AllocError>
    ensures moves { IfOk result (λ answers. MovesAll parser.old (map call_of calls.now) (map answer_of answers.items) parser.new) }
    ensures run { IfOk result (λ answers. (w : Source) (c : Cursor ℕ) → StandsAt parser.old w c
        → (d : Cursor ℕ) × Run (on_walk w) c (map call_of calls.now) (map answer_of answers.items) d × StandsAt parser.new w d) }
    ensures within { IfOk result (λ answers. All (AnswerWithin parser.new.buffer) (map answer_of answers.items)) }
    ensures input { SameInput parser.old parser.new }
    ensures unmoved { IfErr result (λ _. parser.new ≡ parser.old) }
{
    let mut answers = Vec::with_capacity(alloc, calls.len())?;
    for call in calls {
        answers.push_reserved(call.make(alloc, parser));
    }
    Ok(answers)
}
