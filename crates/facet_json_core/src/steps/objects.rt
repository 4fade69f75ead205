//! The events of an object that is read one by one.

ghost use Rattle.std.specs.Prelude.{◌≡◌, ◌<◌, true, false, None, Some, codes, string_bytes, IfOk, IfErr, OnOk};
ghost use Rattle.std.specs.Option.{option_map};
ghost use Rattle.facet_format.specs.Event.{bytes_of, object};
ghost use Rattle.facet_format.specs.HeldText.{text_of};
ghost use Rattle.facet_format.specs.Views.{event_of};
ghost use Rattle.facet_json_grammar.specs.Now.{GoesOn};
ghost use Rattle.facet_json_core.specs.Refusing.{mismatch_of};
ghost use Rattle.facet_json_core.specs.Meaning.Objects.{begins_object, key_or_end, BeginsObject, IsNoObject, PassesKey, LacksKey};
ghost use Rattle.facet_json_core.specs.Meaning.OneValue.{IsInside, PassesMemberOrEnd};
ghost use Rattle.facet_json_core.specs.Calls.{refusal_of, ahead, RefusalWithin, TellsRefusal};
ghost use Rattle.facet_json_core.specs.Finding.{PassesNextKey};

use crate::steps::next::take_next;
use crate::value::{mismatch, next_of_value};
use facet_format::{DeserializeError, ParseEvent, ParseEventKind};
use facet_json_parser::JsonParser;
use facet_json_reader::{Member, ObjectStart};
use std::alloc::Global;
use std::borrow::CowStr;

/// Consumes the event with which an object begins.
///
/// # Errors
///
/// As `next_of_value`; and `TypeMismatch`, where another value stands there.
#[inline(always)]
pub fn begin_object<'t>(parser: &mut JsonParser<'_>) -> Result<(), DeserializeError<'t>>
    ensures begun { OnOk result (BeginsObject parser.old parser.new) }
    ensures inside { OnOk result (IsInside object parser.old parser.new) }
    ensures unread { IfErr result (λ e. IsNoObject parser.old (refusal_of e)) }
    ensures onward { GoesOn parser.old parser.new }
    ensures shorter { OnOk result (ahead parser.new < ahead parser.old) }
    ensures within { IfErr result (λ e. RefusalWithin parser.new.buffer (refusal_of e)) }
    ensures tells { IfErr result (λ e. TellsRefusal parser.old parser.new (refusal_of e)) }
{
    match take_next(parser) {
        Some((ObjectStart, _)) => Ok(()),
        None => object_in(next_of_value(parser)?),
    }
}

/// An event with which an object begins.
fn object_in<'t>(event: ParseEvent<'_>) -> Result<(), DeserializeError<'t>>
    ensures begins { OnOk result (begins_object (event_of event.entry).kind ≡ true) }
    ensures refused { IfErr result (λ e. begins_object (event_of event.entry).kind ≡ false) }
    ensures span { IfErr result (λ e. e.span ≡ Some event.entry.span) }
    ensures told { IfErr result (λ e. refusal_of e ≡ mismatch_of (codes "object") (event_of event.entry)) }
{
    match event.kind {
        ParseEventKind::StructStart(_) => Ok(()),
        _ => Err(mismatch("object", event)),
    }
}

/// Consumes a key of an object, or the object's end, which is none. The name is a slice of the input where no escape stands in it.
///
/// ```text
/// begin_object(parser)?;       of {"a":1}
/// next_name(parser)?           Some: a, borrowed of the input
/// ```
///
/// # Errors
///
/// As `next_of_value`.
#[inline(always)]
pub fn next_name<'t, 'de>(
    parser: &mut JsonParser<'de>,
) -> Result<Option<CowStr<'de>>, DeserializeError<'t>>
    ensures passed { IfOk result (λ name. PassesKey parser.old (option_map (λ s. bytes_of (text_of s)) name) parser.new) }
    ensures next { IfOk result (λ name. PassesNextKey parser.old (option_map (λ s. bytes_of (text_of s)) name) parser.new) }
    ensures member { IfOk result (λ name. PassesMemberOrEnd parser.old name parser.new) }
    ensures lacks { IfErr result (λ e. LacksKey parser.old (refusal_of e)) }
    ensures onward { GoesOn parser.old parser.new }
    ensures shorter { OnOk result (ahead parser.new < ahead parser.old) }
    ensures within { IfErr result (λ e. RefusalWithin parser.new.buffer (refusal_of e)) }
    ensures free { OnOk result (parser.new.cursor.refusal ≡ None) }
    ensures tells { IfErr result (λ e. TellsRefusal parser.old parser.new (refusal_of e)) }
{
    match take_next(parser) {
        Some((Member::Key(name), _)) => Ok(Some(CowStr::Borrowed(name))),
        Some((Member::End, _)) => Ok(None),
        None => name_in(next_of_value(parser)?),
    }
}

/// The key that an event is, or the end of an object, which is none.
fn name_in<'t, 'de>(event: ParseEvent<'de>) -> Result<Option<CowStr<'de>>, DeserializeError<'t>>
    ensures taken { IfOk result (λ name. key_or_end (event_of event.entry).kind ≡ Some (option_map (λ s. bytes_of (text_of s)) name)) }
    ensures refused { IfErr result (λ e. key_or_end (event_of event.entry).kind ≡ None) }
    ensures span { IfErr result (λ e. e.span ≡ Some event.entry.span) }
    ensures told { IfErr result (λ e. refusal_of e ≡ mismatch_of (codes "object") (event_of event.entry)) }
{
    match event.kind {
        ParseEventKind::FieldKey(key) => Ok(Some(key.name)),
        ParseEventKind::StructEnd => Ok(None),
        _ => Err(mismatch("object", event)),
    }
}

/// Consumes a key of an object, or the object's end, which is none. The name has memory of its own.
///
/// # Errors
///
/// As `next_of_value`; and out of memory.
pub fn next_key<'t>(
    alloc: Global,
    parser: &mut JsonParser<'_>,
) -> Result<Option<String>, DeserializeError<'t>>
    ensures passed { IfOk result (λ key. PassesKey parser.old (option_map string_bytes key) parser.new) }
    ensures next { IfOk result (λ key. PassesNextKey parser.old (option_map string_bytes key) parser.new) }
    ensures member { IfOk result (λ key. PassesMemberOrEnd parser.old key parser.new) }
    ensures lacks { IfErr result (λ e. LacksKey parser.old (refusal_of e)) }
    ensures onward { GoesOn parser.old parser.new }
    ensures shorter { OnOk result (ahead parser.new < ahead parser.old) }
    ensures within { IfErr result (λ e. RefusalWithin parser.new.buffer (refusal_of e)) }
    ensures free { OnOk result (parser.new.cursor.refusal ≡ None) }
    ensures tells { IfErr result (λ e. TellsRefusal parser.old parser.new (refusal_of e)) }
{
    match next_name(parser)? {
        Some(name) => Ok(Some(name.into_owned(alloc)?)),
        None => Ok(None),
    }
}
