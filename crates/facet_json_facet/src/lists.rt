//! Lists: `Vec`.

ghost use Rattle.std.specs.Prelude.{◌≡◌, ◌<◌, ◌∷◌, false, cond, map, List, None, IfOk, IfErr, OnOk};
ghost use Rattle.std.specs.List.{All};
ghost use Rattle.facet_format.specs.Event.{ContainerKind, array};
ghost use Rattle.facet_json_core.specs.Meaning.Lists.{list_of};
ghost use Rattle.facet_json_facet.specs.Inner.ItemsInSight.{ReadsItems};
ghost use Rattle.facet_json_core.specs.Calls.{refusal_of, ahead, RefusalWithin, TellsRefusal, KeepsOn, PassesValue, IsRead, IsUnread};

use crate::facet::{Facet, value_in};
use facet_format::{DeserializeError, FormatSerializer};
use facet_json_core::steps::{begin_list, take_end};
use facet_json_parser::{JsonParser, front, stand};
use facet_json_serializer::{JsonSerializeError, JsonSerializer};
use std::alloc::Global;

/// A list (RFC 8259, section 5): an array, each of whose elements is read as a `T`, in order. Only `read` borrows of the input, where
/// `T` does. It is written as the array of its elements.
///
/// ```text
/// <Vec<bool> as Facet>::read_owned(alloc, &mut JsonParser::new(alloc, b"[true, false]"))     Ok: true, false
/// <Vec<bool> as Facet>::read_owned(alloc, &mut JsonParser::new(alloc, b"[true, null]"))      TypeMismatch
/// ```
///
/// # Errors
///
/// `TypeMismatch` where no array begins, with its event's span, and what an element is refused with. Or out of memory, where the list
/// can't grow.
impl<'de, T: Facet<'de>> Facet<'de> for Vec<T> {
    ghost use Rattle.std.specs.Prelude.{List, map};
    ghost use Rattle.std.specs.List.{All};
    ghost use Rattle.facet_json_core.specs.Meaning.Types.{list};
    ghost use Rattle.facet_json_core.proofs.Meaning.TypeLaws.{list-laws};

    ghost View = { List T.View };

    ghost view = { λ v. map T.view v.items };

    ghost shape = { list T.shape };

    ghost owned = { λ v. All T.owned v.items };

    fn read_owned<'t>(
        alloc: Global,
        parser: &mut JsonParser<'de>,
    ) -> Result<Vec<T>, DeserializeError<'t>> {
        list_in(alloc, parser, false)
    }

    fn read<'t>(
        alloc: Global,
        parser: &mut JsonParser<'de>,
    ) -> Result<Vec<T>, DeserializeError<'t>> {
        list_in(alloc, parser, true)
    }

    fn in_sight(_: Global, _: &'de [u8], _: usize, _: bool) -> Option<(Self, usize)> {
        None
    }

    fn write(&self, serializer: &mut JsonSerializer<'_>) -> Result<(), JsonSerializeError> {
        serializer.begin_seq()?;
        for item in self.as_slice() {
            item.write(serializer)?;
        }
        serializer.end_seq()
    }

    ghost laws = { list-laws T.laws };
}

/// Reads the parser's next list. Its elements may borrow of the input where `borrows` says so.
///
/// # Errors
///
/// No array begins, an element is refused, or the list can't grow.
fn list_in<'t, 'de, T: Facet<'de>>(
    alloc: Global,
    parser: &mut JsonParser<'de>,
    borrows: bool,
) -> Result<Vec<T>, DeserializeError<'t>>
    ensures read { IfOk result
        (λ v. IsRead (list_of (cond borrows T.shape.reading_borrowed T.shape.reading)) parser.old (map T.view v.items) parser.new) }
    ensures owned { borrows ≡ false → IfOk result (λ v. All T.owned v.items) }
    ensures unread { IfErr result
        (λ e. IsUnread (list_of (cond borrows T.shape.reading_borrowed T.shape.reading)) parser.old (refusal_of e)) }
    ensures keeps { KeepsOn parser.old parser.new }
    ensures shorter { OnOk result (ahead parser.new < ahead parser.old) }
    ensures one_value { OnOk result (PassesValue parser.old parser.new) }
    ensures within { IfErr result (λ e. RefusalWithin parser.new.buffer (refusal_of e)) }
    ensures free { OnOk result (parser.new.cursor.refusal ≡ None) }
    ensures tells { IfErr result (λ e. TellsRefusal parser.old parser.new (refusal_of e)) }
{
    begin_list(parser)?;
    let mut items = Vec::new(alloc);
    loop {
        items_in_sight(&mut items, alloc, parser, borrows);
        if take_end(parser)? {
            return Ok(items);
        }
        items.push(value_in(alloc, parser, borrows)?)?;
    }
}

/// Reads items that are scalars, as long as a few bytes decide each of them and there is room for it.
#[inline(always)]
fn items_in_sight<'de, T: Facet<'de>>(
    items: &mut Vec<T>,
    alloc: Global,
    parser: &mut JsonParser<'de>,
    borrows: bool,
)
    ensures read { (others : List ContainerKind) → parser.old.cursor.spot.place.stack ≡ array ∷ others
        → ReadsItems (cond borrows T.shape.reading_borrowed T.shape.reading) parser.old (map T.view items.old.items) parser.new
        (map T.view items.new.items) }
    ensures owned { borrows ≡ false → All T.owned items.old.items → All T.owned items.new.items }
{
    let Some((input, from)) = front(parser) else {
        return;
    };
    let mut at = from;
    while at.is_item() {
        let Some((item, len)) = T::in_sight(alloc, input, at.at, borrows) else {
            break;
        };
        let Ok(()) = items.push(item) else {
            break;
        };
        at = at.behind_item(input, len);
    }
    stand(parser, at);
}
