//! Values that may be null: `Option`.

ghost use Rattle.std.specs.Prelude.{◌≡◌, ◌<◌, false, cond, None, IfOk, IfErr, OnOk};
ghost use Rattle.std.specs.Option.{option_map, IfSome};
ghost use Rattle.facet_json_core.specs.Meaning.Optional.{optional};
ghost use Rattle.facet_json_core.specs.Calls.{refusal_of, ahead, RefusalWithin, TellsRefusal, KeepsOn, PassesValue, IsRead, IsUnread};

use crate::facet::{Facet, value_in};
use facet_format::{DeserializeError, FormatSerializer, ScalarValue};
use facet_json_core::steps::take_null;
use facet_json_parser::JsonParser;
use facet_json_reader::{begins_null, null_at};
use facet_json_serializer::{JsonSerializeError, JsonSerializer};
use std::alloc::Global;

/// A value that may be null (RFC 8259, section 3): `null` is `None`, and every other value is read as a `T`.
///
/// ```text
/// <Option<bool> as Facet>::read_owned(alloc, &mut JsonParser::new(alloc, b"null"))     Ok: None
/// <Option<bool> as Facet>::read_owned(alloc, &mut JsonParser::new(alloc, b"true"))     Ok: Some(true)
/// ```
impl<'de, T: Facet<'de>> Facet<'de> for Option<T> {
    ghost use Rattle.std.specs.Prelude.{Option};
    ghost use Rattle.std.specs.Option.{option_map, IfSome};
    ghost use Rattle.facet_json_core.specs.Meaning.Shapes.{nullable};
    ghost use Rattle.facet_json_core.proofs.Meaning.TypeLaws.{nullable-laws};

    ghost View = { Option T.View };

    ghost view = { λ o. option_map T.view o };

    ghost shape = { nullable T.shape };

    ghost owned = { λ o. IfSome o T.owned };

    fn read_owned<'t>(
        alloc: Global,
        parser: &mut JsonParser<'de>,
    ) -> Result<Option<T>, DeserializeError<'t>> {
        optional_in(alloc, parser, false)
    }

    fn read<'t>(
        alloc: Global,
        parser: &mut JsonParser<'de>,
    ) -> Result<Option<T>, DeserializeError<'t>> {
        optional_in(alloc, parser, true)
    }

    #[inline(always)]
    fn in_sight(
        alloc: Global,
        input: &'de [u8],
        at: usize,
        borrows: bool,
    ) -> Option<(Option<T>, usize)> {
        if begins_null(input, at) {
            return Some((None, null_at(input, at)?));
        }
        let (value, len) = T::in_sight(alloc, input, at, borrows)?;
        Some((Some(value), len))
    }

    fn write(&self, serializer: &mut JsonSerializer<'_>) -> Result<(), JsonSerializeError> {
        match self {
            Some(value) => value.write(serializer),
            None => serializer.scalar(ScalarValue::Null),
        }
    }

    ghost laws = { nullable-laws T.laws };
}

/// Reads the parser's next value, or null. It may borrow of the input where `borrows` says so.
///
/// # Errors
///
/// As `T` refuses; and as the parser's `peek_event` and `next_event`.
fn optional_in<'t, 'de, T: Facet<'de>>(
    alloc: Global,
    parser: &mut JsonParser<'de>,
    borrows: bool,
) -> Result<Option<T>, DeserializeError<'t>>
    ensures read { IfOk result
        (λ o. IsRead (optional (cond borrows T.shape.reading_borrowed T.shape.reading)) parser.old (option_map T.view o) parser.new) }
    ensures owned { borrows ≡ false → IfOk result (λ o. IfSome o T.owned) }
    ensures unread { IfErr result
        (λ e. IsUnread (optional (cond borrows T.shape.reading_borrowed T.shape.reading)) parser.old (refusal_of e)) }
    ensures keeps { KeepsOn parser.old parser.new }
    ensures shorter { OnOk result (ahead parser.new < ahead parser.old) }
    ensures one_value { OnOk result (PassesValue parser.old parser.new) }
    ensures within { IfErr result (λ e. RefusalWithin parser.new.buffer (refusal_of e)) }
    ensures free { OnOk result (parser.new.cursor.refusal ≡ None) }
    ensures tells { IfErr result (λ e. TellsRefusal parser.old parser.new (refusal_of e)) }
{
    if take_null(parser)? {
        return Ok(None);
    }
    Ok(Some(value_in(alloc, parser, borrows)?))
}
