//! The events of a list that is read one by one.

ghost use Rattle.std.specs.Prelude.{◌≡◌, ◌<◌, true, false, Some, codes, IfOk, IfErr, OnOk};
ghost use Rattle.facet_format.specs.Event.{array};
ghost use Rattle.facet_format.specs.Views.{event_of};
ghost use Rattle.facet_json_grammar.specs.Now.{GoesOn};
ghost use Rattle.facet_json_core.specs.Refusing.{mismatch_of};
ghost use Rattle.facet_json_core.specs.Meaning.ListSteps.{begins_list, ends_list, BeginsList, IsNoList};
ghost use Rattle.facet_json_core.specs.Meaning.Peeking.{Finds};
ghost use Rattle.facet_json_core.specs.Calls.{refusal_of, ahead, RefusalWithin, TellsRefusal};
ghost use Rattle.facet_json_core.specs.Meaning.Taking.{StaysBefore, TakesSought};
ghost use Rattle.facet_json_reader.specs.declared.sought.Sought.TheVariants as sought;
ghost use Rattle.facet_json_core.specs.Meaning.OneValue.{IsInside, LooksAhead};
ghost use Rattle.facet_json_core.specs.Meaning.Passing.{LacksAlone};

use crate::steps::ahead::{comes, take_out_of_line};
use crate::steps::next::take_next;
use crate::value::{mismatch, next_of_value};
use facet_format::{DeserializeError, ParseEvent, ParseEventKind};
use facet_json_parser::{JsonParser, comes_other};
use facet_json_reader::{ListEnd, ListStart, Sought};

/// Consumes the event with which an array begins.
///
/// # Errors
///
/// As `next_of_value`; and where no array begins, a mismatch.
pub fn begin_list<'t>(parser: &mut JsonParser<'_>) -> Result<(), DeserializeError<'t>>
    ensures onward { GoesOn parser.old parser.new }
    ensures shorter { OnOk result (ahead parser.new < ahead parser.old) }
    ensures begins { OnOk result (BeginsList parser.old parser.new) }
    ensures inside { OnOk result (IsInside array parser.old parser.new) }
    ensures refused { IfErr result (λ e. IsNoList parser.old (refusal_of e)) }
    ensures within { IfErr result (λ e. RefusalWithin parser.new.buffer (refusal_of e)) }
    ensures tells { IfErr result (λ e. TellsRefusal parser.old parser.new (refusal_of e)) }
{
    match take_next(parser) {
        Some((ListStart, _)) => Ok(()),
        None => array_in(next_of_value(parser)?),
    }
}

/// Whether an array begins with the event.
///
/// # Errors
///
/// It is another event: a mismatch, with its span.
fn array_in<'t>(event: ParseEvent<'_>) -> Result<(), DeserializeError<'t>>
    ensures begins { OnOk result (begins_list (event_of event.entry).kind ≡ true) }
    ensures refused { IfErr result (λ e. begins_list (event_of event.entry).kind ≡ false) }
    ensures span { IfErr result (λ e. e.span ≡ Some event.entry.span) }
    ensures told { IfErr result (λ e. refusal_of e ≡ mismatch_of (codes "array") (event_of event.entry)) }
{
    match event.kind {
        ParseEventKind::SequenceStart(_) => Ok(()),
        _ => Err(mismatch("array", event)),
    }
}

/// Whether the array's end comes. It stays the next event.
///
/// # Errors
///
/// As the parser's `peek_event`.
pub fn end_comes<'t>(parser: &mut JsonParser<'_>) -> Result<bool, DeserializeError<'t>>
    ensures onward { GoesOn parser.old parser.new }
    ensures finds { IfOk result (λ found. Finds ends_list parser.old found parser.new) }
    ensures looks { IfOk result (λ found. LooksAhead ends_list parser.old found parser.new) }
    ensures lacks { IfErr result (λ e. LacksAlone parser.old (refusal_of e)) }
    ensures within { IfErr result (λ e. RefusalWithin parser.new.buffer (refusal_of e)) }
    ensures tells { IfErr result (λ e. TellsRefusal parser.old parser.new (refusal_of e)) }
{
    comes(parser, Sought::ListEnd)
}

/// Whether the array's end came, and is passed. Else the parser stands where it stood.
///
/// # Errors
///
/// As the parser's `peek_event` and `next_event`.
#[inline(always)]
pub fn take_end<'t>(parser: &mut JsonParser<'_>) -> Result<bool, DeserializeError<'t>>
    ensures onward { GoesOn parser.old parser.new }
    ensures taken { IfOk result (λ ended. ended ≡ true → TakesSought sought.ListEnd parser.old parser.new) }
    ensures stays { IfOk result (λ ended. ended ≡ false → StaysBefore ends_list parser.old parser.new) }
    ensures lacks { IfErr result (λ e. LacksAlone parser.old (refusal_of e)) }
    ensures within { IfErr result (λ e. RefusalWithin parser.new.buffer (refusal_of e)) }
    ensures tells { IfErr result (λ e. TellsRefusal parser.old parser.new (refusal_of e)) }
{
    if comes_other(parser, Sought::ListEnd) {
        return Ok(false);
    }
    match take_next(parser) {
        Some((ListEnd, _)) => Ok(true),
        None => take_out_of_line(parser, Sought::ListEnd),
    }
}
