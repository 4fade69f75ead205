//! A look ahead for what may stand in place of a value: the end of a list, or null.

ghost use Rattle.std.specs.Prelude.{◌≡◌, true, false, IfOk, IfErr};
ghost use Rattle.facet_format.specs.Views.{event_of};
ghost use Rattle.facet_json_grammar.specs.Now.{GoesOn};
ghost use Rattle.facet_json_core.specs.Calls.{refusal_of, RefusalWithin, TellsRefusal};
ghost use Rattle.facet_json_core.specs.Meaning.OneValue.{LooksAhead};
ghost use Rattle.facet_json_core.specs.Meaning.Passing.{LacksAlone};
ghost use Rattle.facet_json_core.specs.Meaning.Peeking.{Finds};
ghost use Rattle.facet_json_core.specs.Meaning.Taking.{is_sought, StaysBefore, TakesSought};

use crate::value::next_of_value;
use facet_format::{DeserializeError, FormatParser, ParseEvent, ParseEventKind, ScalarValue};
use facet_json_parser::JsonParser;
use facet_json_reader::Sought;

/// Whether what is looked for comes. It stays the next event.
///
/// # Errors
///
/// As the parser's `peek_event`.
pub(crate) fn comes<'t>(
    parser: &mut JsonParser<'_>,
    sought: Sought,
) -> Result<bool, DeserializeError<'t>>
    ensures onward { GoesOn parser.old parser.new }
    ensures finds { IfOk result (λ found. Finds (is_sought sought) parser.old found parser.new) }
    ensures looks { IfOk result (λ found. LooksAhead (is_sought sought) parser.old found parser.new) }
    ensures lacks { IfErr result (λ e. LacksAlone parser.old (refusal_of e)) }
    ensures within { IfErr result (λ e. RefusalWithin parser.new.buffer (refusal_of e)) }
    ensures tells { IfErr result (λ e. TellsRefusal parser.old parser.new (refusal_of e)) }
{
    match parser.peek_event()? {
        Some(event) => Ok(is_such(&event, sought)),
        None => Ok(false),
    }
}

/// Whether the event is what is looked for.
fn is_such(event: &ParseEvent<'_>, sought: Sought) -> bool
    ensures { result ≡ is_sought sought (event_of event.now).kind }
{
    match sought {
        Sought::ListEnd => matches!(event.kind, ParseEventKind::SequenceEnd),
        Sought::Null => matches!(event.kind, ParseEventKind::Scalar(ScalarValue::Null)),
    }
}

/// Whether what is looked for came, and is passed, by a peek: where a few bytes do not decide it.
///
/// # Errors
///
/// As the parser's `peek_event` and `next_event`.
#[inline(never)]
pub(crate) fn take_out_of_line<'t>(
    parser: &mut JsonParser<'_>,
    sought: Sought,
) -> Result<bool, DeserializeError<'t>>
    ensures onward { GoesOn parser.old parser.new }
    ensures taken { IfOk result (λ is. is ≡ true → TakesSought sought parser.old parser.new) }
    ensures stays { IfOk result (λ is. is ≡ false → StaysBefore (is_sought sought) parser.old parser.new) }
    ensures lacks { IfErr result (λ e. LacksAlone parser.old (refusal_of e)) }
    ensures within { IfErr result (λ e. RefusalWithin parser.new.buffer (refusal_of e)) }
    ensures tells { IfErr result (λ e. TellsRefusal parser.old parser.new (refusal_of e)) }
{
    if comes(parser, sought)? {
        let _passed = next_of_value(parser)?;
        return Ok(true);
    }
    Ok(false)
}
