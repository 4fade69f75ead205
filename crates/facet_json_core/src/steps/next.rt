//! The next event of a value that is read.

ghost use Rattle.std.specs.Prelude.{◌≡◌, ◌<◌, true, false, None, Some, codes, IfOk, IfErr, OnOk, MatchOption};
ghost use Rattle.facet_format.specs.Views.{event_of, span_of};
ghost use Rattle.facet_json_core.specs.Meaning.Taking.{StaysBefore, TakesNext, TakesSought};
ghost use Rattle.facet_json_grammar.specs.Now.{GoesOn};
ghost use Rattle.facet_json_core.specs.Refusing.{mismatch_of};
ghost use Rattle.facet_json_core.specs.Meaning.Passing.{LacksAlone, PassesNull, LacksNull};
ghost use Rattle.facet_json_reader.specs.declared.sought.Sought.TheVariants as sought;
ghost use Rattle.facet_json_core.specs.Meaning.OneValue.{LooksAhead};
ghost use Rattle.facet_json_core.specs.Meaning.Optional.{is_null_event};
ghost use Rattle.facet_json_core.specs.Meaning.Peeking.{Finds};
ghost use Rattle.facet_json_core.specs.Calls.{refusal_of, ahead, RefusalWithin, TellsRefusal, PassesValue};

use crate::steps::ahead::{comes, take_out_of_line};
use crate::value::{mismatch, next_of_value};
use facet_format::{DeserializeError, ParseEvent, ParseEventKind, ScalarValue, Span};
use facet_json_parser::{JsonParser, comes_other, next_wanted};
use facet_json_reader::{Null, Sought, Wanted};

/// Consumes what is wanted and returns it with its event's span, where a few bytes decide that it comes. Else nothing changes: the next
/// event may still be what is wanted, and `next_of_value` tells. It allocates nothing.
///
/// ```text
/// let taken: Option<(bool, Span)> = take_next(&mut parser)
///     behind the bracket of [true]    Some((true, 1+4))
///     before it                       None: the bracket is still the next event
/// ```
#[inline(always)]
pub fn take_next<'de, W: Wanted<'de>>(parser: &mut JsonParser<'de>) -> Option<(W, Span)>
    ensures { MatchOption result (parser.new ≡ parser.old)
        (λ r. TakesNext parser.old (record { kind = W.kind r.0; span = span_of r.1 }) parser.new) }
{
    next_wanted(parser)
}

/// Whether null comes, where a value is to come. It stays the next event.
///
/// # Errors
///
/// As the parser's `peek_event`.
pub fn null_comes<'t>(parser: &mut JsonParser<'_>) -> Result<bool, DeserializeError<'t>>
    ensures onward { GoesOn parser.old parser.new }
    ensures finds { IfOk result (λ found. Finds is_null_event parser.old found parser.new) }
    ensures looks { IfOk result (λ found. LooksAhead is_null_event parser.old found parser.new) }
    ensures lacks { IfErr result (λ e. LacksAlone parser.old (refusal_of e)) }
    ensures within { IfErr result (λ e. RefusalWithin parser.new.buffer (refusal_of e)) }
    ensures tells { IfErr result (λ e. TellsRefusal parser.old parser.new (refusal_of e)) }
{
    comes(parser, Sought::Null)
}

/// Whether null came, and is passed. Else the parser stands where it stood.
///
/// # Errors
///
/// As the parser's `peek_event` and `next_event`.
#[inline(always)]
pub fn take_null<'t>(parser: &mut JsonParser<'_>) -> Result<bool, DeserializeError<'t>>
    ensures onward { GoesOn parser.old parser.new }
    ensures taken { IfOk result (λ is. is ≡ true → TakesSought sought.Null parser.old parser.new) }
    ensures stays { IfOk result (λ is. is ≡ false → StaysBefore is_null_event parser.old parser.new) }
    ensures lacks { IfErr result (λ e. LacksAlone parser.old (refusal_of e)) }
    ensures within { IfErr result (λ e. RefusalWithin parser.new.buffer (refusal_of e)) }
    ensures tells { IfErr result (λ e. TellsRefusal parser.old parser.new (refusal_of e)) }
{
    if comes_other(parser, Sought::Null) {
        return Ok(false);
    }
    match take_next(parser) {
        Some((Null, _)) => Ok(true),
        None => take_out_of_line(parser, Sought::Null),
    }
}

/// Consumes null.
///
/// # Errors
///
/// As `next_of_value`; and where another event comes, which is passed, a mismatch.
pub fn pass_null<'t>(parser: &mut JsonParser<'_>) -> Result<(), DeserializeError<'t>>
    ensures onward { GoesOn parser.old parser.new }
    ensures shorter { OnOk result (ahead parser.new < ahead parser.old) }
    ensures passes { OnOk result (PassesNull parser.old parser.new) }
    ensures lacks { IfErr result (λ e. LacksNull parser.old (refusal_of e)) }
    ensures one_value { OnOk result (PassesValue parser.old parser.new) }
    ensures within { IfErr result (λ e. RefusalWithin parser.new.buffer (refusal_of e)) }
    ensures free { OnOk result (parser.new.cursor.refusal ≡ None) }
    ensures tells { IfErr result (λ e. TellsRefusal parser.old parser.new (refusal_of e)) }
{
    null_in(next_of_value(parser)?)
}

/// Whether the event is null.
///
/// # Errors
///
/// It is another event: a mismatch, with its span.
fn null_in<'t>(event: ParseEvent<'_>) -> Result<(), DeserializeError<'t>>
    ensures null { OnOk result (is_null_event (event_of event.entry).kind ≡ true) }
    ensures refused { IfErr result (λ e. is_null_event (event_of event.entry).kind ≡ false) }
    ensures span { IfErr result (λ e. e.span ≡ Some event.entry.span) }
    ensures told { IfErr result (λ e. refusal_of e ≡ mismatch_of (codes "null") (event_of event.entry)) }
{
    match event.kind {
        ParseEventKind::Scalar(ScalarValue::Null) => Ok(()),
        _ => Err(mismatch("null", event)),
    }
}
