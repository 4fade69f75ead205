//! Maps from texts: `BTreeMap`.

ghost use Rattle.std.specs.Prelude.{◌≡◌, ◌<◌, false, cond, None, IfOk, IfErr, OnOk};
ghost use Rattle.std.specs.BTreeMap.{insert_entry};
ghost use Rattle.std.specs.List.{All};
ghost use Rattle.std.specs.String.{string_cmp};
ghost use Rattle.facet_format.specs.Complaint.{no_memory};
ghost use Rattle.facet_json_core.specs.Meaning.Maps.{seen_entries, map_of};
ghost use Rattle.facet_json_core.specs.Calls.{refusal_of, ahead, RefusalWithin, TellsRefusal, KeepsOn, PassesValue, IsRead, IsUnread};

use crate::facet::{Facet, value_in};
use facet_format::{DeserializeError, FormatSerializer};
use facet_json_core::steps::{begin_object, next_key};
use facet_json_parser::JsonParser;
use facet_json_serializer::{JsonSerializeError, JsonSerializer};
use std::alloc::Global;
use std::collections::BTreeMap;

impl<'de, T: Facet<'de>> Facet<'de> for BTreeMap<String, T> {
    ghost use Rattle.std.specs.List.{All};
    ghost use Rattle.facet_json_core.specs.Meaning.Maps.{Entries, seen_entries};
    ghost use Rattle.facet_json_core.specs.Meaning.Types.{entries};
    ghost use Rattle.facet_json_core.proofs.Meaning.TypeLaws.{entries-laws};

    ghost View = { Entries T.View };

    ghost view = { λ m. seen_entries T.view m.entries };

    ghost shape = { entries T.shape };

    ghost owned = { λ m. All (λ e. T.owned e.1) m.entries };

    fn read_owned<'t>(
        alloc: Global,
        parser: &mut JsonParser<'de>,
    ) -> Result<BTreeMap<String, T>, DeserializeError<'t>> {
        map_in(alloc, parser, false)
    }

    fn read<'t>(
        alloc: Global,
        parser: &mut JsonParser<'de>,
    ) -> Result<BTreeMap<String, T>, DeserializeError<'t>> {
        map_in(alloc, parser, true)
    }

    fn in_sight(_: Global, _: &'de [u8], _: usize, _: bool) -> Option<(Self, usize)> {
        None
    }

    fn write(&self, serializer: &mut JsonSerializer<'_>) -> Result<(), JsonSerializeError> {
        serializer.begin_struct()?;
        for (key, value) in self {
            serializer.field_key(key.as_str())?;
            value.write(serializer)?;
        }
        serializer.end_struct()
    }

    ghost laws = { entries-laws T.laws };
}

/// Reads the parser's next map. Its values may borrow of the input where `borrows` says so.
///
/// # Errors
///
/// No object begins, a value is refused, or out of memory.
fn map_in<'t, 'de, T: Facet<'de>>(
    alloc: Global,
    parser: &mut JsonParser<'de>,
    borrows: bool,
) -> Result<BTreeMap<String, T>, DeserializeError<'t>>
    ensures read { IfOk result
        (λ m. IsRead (map_of (cond borrows T.shape.reading_borrowed T.shape.reading)) parser.old
        (seen_entries T.view m.entries) parser.new) }
    ensures owned { borrows ≡ false → IfOk result (λ m. All (λ e. T.owned e.1) m.entries) }
    ensures unread { IfErr result
        (λ e. IsUnread (map_of (cond borrows T.shape.reading_borrowed T.shape.reading)) parser.old (refusal_of e)) }
    ensures keeps { KeepsOn parser.old parser.new }
    ensures shorter { OnOk result (ahead parser.new < ahead parser.old) }
    ensures one_value { OnOk result (PassesValue parser.old parser.new) }
    ensures within { IfErr result (λ e. RefusalWithin parser.new.buffer (refusal_of e)) }
    ensures free { OnOk result (parser.new.cursor.refusal ≡ None) }
    ensures tells { IfErr result (λ e. TellsRefusal parser.old parser.new (refusal_of e)) }
{
    begin_object(parser)?;
    let mut map = BTreeMap::new(alloc);
    while let Some(key) = next_key(alloc, parser)? {
        let value = value_in(alloc, parser, borrows)?;
        put(&mut map, key, value)?;
    }
    Ok(map)
}

/// Puts a value in at a key. Where the key is there already, its value is replaced.
///
/// # Errors
///
/// Out of memory.
fn put<'t, T: Drop>(
    map: &mut BTreeMap<String, T>,
    key: String,
    value: T,
) -> Result<(), DeserializeError<'t>>
    ensures put { OnOk result (map.new.entries ≡ insert_entry string_cmp map.old.entries key value) }
    ensures refused { IfErr result (λ e. refusal_of e ≡ no_memory) }
{
    map.insert(key, value)?;
    Ok(())
}
