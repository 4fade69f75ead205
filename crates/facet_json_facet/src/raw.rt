//! Raw text: `RawJson`, a value that is kept as its text stands.

ghost use Rattle.std.specs.Prelude.{◌≡◌, ◌<◌, true, false, None, IfOk, IfErr, OnOk};
ghost use Rattle.facet_format.specs.Complaint.{no_memory};
ghost use Rattle.facet_format.specs.Event.{bytes_of, owned, is_owned};
ghost use Rattle.facet_json_core.specs.Meaning.Readings.{raw_of};
ghost use Rattle.facet_json_core.specs.Calls.{refusal_of, ahead, RefusalWithin, TellsRefusal, KeepsOn, PassesValue, IsRead, IsUnread};
ghost use Rattle.facet_json_core.specs.Calls.{HasDocument, EndsStrictly};

use crate::facet::Facet;
use facet_format::{DeserializeError, FormatParser, FormatSerializer};
use facet_json_core::RawJson;
use facet_json_parser::JsonParser;
use facet_json_serializer::{JsonSerializeError, JsonSerializer};
use std::alloc::Global;

impl<'de> Facet<'de> for RawJson<'de> {
    ghost use Rattle.std.specs.Prelude.{◌≡◌, ℕ, List, true};
    ghost use Rattle.facet_format.specs.Event.{bytes_of, is_owned};
    ghost use Rattle.facet_json_core.specs.Meaning.Types.{raw};
    ghost use Rattle.facet_json_core.proofs.Meaning.TypeLaws.{raw-laws};

    ghost View = { List ℕ };

    ghost view = { bytes_of };

    ghost shape = { raw };

    ghost owned = { λ raw. is_owned raw ≡ true };

    fn read_owned<'t>(
        alloc: Global,
        parser: &mut JsonParser<'de>,
    ) -> Result<RawJson<'de>, DeserializeError<'t>> {
        copied(alloc, captured(parser)?)
    }

    fn read<'t>(
        _alloc: Global,
        parser: &mut JsonParser<'de>,
    ) -> Result<RawJson<'de>, DeserializeError<'t>>
        ensures read { IfOk result (λ raw. IsRead raw_of parser.old (bytes_of raw) parser.new) }
        ensures unread { IfErr result (λ e. IsUnread raw_of parser.old (refusal_of e)) }
        ensures document { false ≡ true → OnOk result (HasDocument parser.old) }
        ensures strict { false ≡ true → OnOk result (EndsStrictly parser.old parser.new) }
        ensures keeps { KeepsOn parser.old parser.new }
        ensures shorter { OnOk result (ahead parser.new < ahead parser.old) }
        ensures one_value { OnOk result (PassesValue parser.old parser.new) }
        ensures within { IfErr result (λ e. RefusalWithin parser.new.buffer (refusal_of e)) }
        ensures free { OnOk result (parser.new.cursor.refusal ≡ None) }
        ensures tells { IfErr result (λ e. TellsRefusal parser.old parser.new (refusal_of e)) }
        ensures lent { IfOk result (λ raw. is_owned raw ≡ false) }
    {
        Ok(RawJson::new(captured(parser)?))
    }

    fn in_sight(_: Global, _: &'de [u8], _: usize, _: bool) -> Option<(Self, usize)> {
        None
    }

    fn write(&self, serializer: &mut JsonSerializer<'_>) -> Result<(), JsonSerializeError> {
        serializer.raw_scalar(self.as_str())
    }

    ghost laws = { raw-laws };
}

/// The text of the parser's next value, as it is in the input.
///
/// # Errors
///
/// As the parser's `capture_raw`.
fn captured<'t, 'de>(parser: &mut JsonParser<'de>) -> Result<&'de str, DeserializeError<'t>>
    ensures read { IfOk result (λ text. IsRead raw_of parser.old text.now parser.new) }
    ensures unread { IfErr result (λ e. IsUnread raw_of parser.old (refusal_of e)) }
    ensures keeps { KeepsOn parser.old parser.new }
    ensures shorter { OnOk result (ahead parser.new < ahead parser.old) }
    ensures one_value { OnOk result (PassesValue parser.old parser.new) }
    ensures within { IfErr result (λ e. RefusalWithin parser.new.buffer (refusal_of e)) }
    ensures free { OnOk result (parser.new.cursor.refusal ≡ None) }
    ensures tells { IfErr result (λ e. TellsRefusal parser.old parser.new (refusal_of e)) }
{
    let text = parser.capture_raw()?;
    Ok(text.unwrap())
}

/// The text in memory of its own.
fn copied<'t>(alloc: Global, text: &str) -> Result<RawJson<'static>, DeserializeError<'t>>
    ensures copied { IfOk result (λ raw. raw ≡ owned text.now) }
    ensures lacks { IfErr result (λ e. refusal_of e ≡ no_memory) }
{
    Ok(RawJson::from_owned(String::from_str(alloc, text)?))
}
