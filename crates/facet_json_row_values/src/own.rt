//! Types of a user's own: what they read and write is proved from what the trait says of the types within them.

ghost use Rattle.std.specs.Prelude.{◌≡◌, Some};
ghost use Rattle.facet_format.specs.Views.{refusal_of, span_of};
ghost use Rattle.facet_json_core.specs.Refusing.{IsAbout};

use facet_json::steps::last_span;
use facet_json::{
    DeserializeError, DeserializeErrorKind, Done, Facet, JsonParser, JsonSerializeError,
    JsonSerializer, Need, Span, read_fields, write_fields,
};
use std::alloc::Global;

/// A value with a name of its own, which is read and written as the value is.
#[derive(Drop)]
pub struct Named<T>(T);

impl<'de, T: Facet<'de>> Facet<'de> for Named<T> {
    ghost View = { T.View };

    ghost view = { λ named. T.view named.0 };

    ghost shape = { T.shape };

    ghost owned = { λ named. T.owned named.0 };

    ghost whole = { T.whole };

    fn read_owned<'t>(
        alloc: Global,
        parser: &mut JsonParser<'de>,
    ) -> Result<Named<T>, DeserializeError<'t>> {
        Ok(Named(T::read_owned(alloc, parser)?))
    }

    fn read<'t>(
        alloc: Global,
        parser: &mut JsonParser<'de>,
    ) -> Result<Named<T>, DeserializeError<'t>> {
        Ok(Named(T::read(alloc, parser)?))
    }

    fn in_sight(
        alloc: Global,
        input: &'de [u8],
        at: usize,
        borrows: bool,
    ) -> Option<(Named<T>, usize)> {
        let (value, len) = T::in_sight(alloc, input, at, borrows)?;
        Some((Named(value), len))
    }

    fn write(&self, serializer: &mut JsonSerializer<'_>) -> Result<(), JsonSerializeError> {
        self.0.write(serializer)
    }

    ghost laws = { T.laws };
}

/// A whole number from 0 to 100.
#[derive(Drop)]
pub struct Percent(u8);

impl<'de> Facet<'de> for Percent {
    ghost use Rattle.std.specs.Prelude.{ℕ, true};
    ghost use Rattle.facet_json_row_values.specs.Percents.{percent};
    ghost use Rattle.facet_json_row_values.specs.PercentLaws.{percent-laws};

    ghost View = { ℕ };

    ghost view = { λ share. share.0 };

    ghost shape = { percent };

    ghost whole = { true };

    fn read_owned<'t>(
        alloc: Global,
        parser: &mut JsonParser<'de>,
    ) -> Result<Percent, DeserializeError<'t>> {
        let number = u8::read_owned(alloc, parser)?;
        if number <= 100 {
            Ok(Percent(number))
        } else {
            Err(too_much(last_span(parser)))
        }
    }

    fn read<'t>(
        alloc: Global,
        parser: &mut JsonParser<'de>,
    ) -> Result<Percent, DeserializeError<'t>> {
        Percent::read_owned(alloc, parser)
    }

    fn in_sight(_: Global, _: &'de [u8], _: usize, _: bool) -> Option<(Self, usize)> {
        None
    }

    fn write(&self, serializer: &mut JsonSerializer<'_>) -> Result<(), JsonSerializeError> {
        self.0.write(serializer)
    }

    ghost laws = { percent-laws };
}

/// The refusal of a number above 100, which stands there.
fn too_much<'t>(span: Span) -> DeserializeError<'t>
    ensures span { result.span ≡ Some span }
    ensures about { IsAbout (span_of span) (refusal_of result) }
{
    DeserializeError {
        kind: DeserializeErrorKind::InvalidValue {
            message: "more than 100 percent",
        },
        span: Some(span),
    }
}

/// A person whose name the input lends, as `{"name":"Alice","age":30}`.
#[derive(Drop)]
pub struct LentPerson<'de> {
    name: &'de str,
    age: u32,
}

impl<'de> Facet<'de> for LentPerson<'de> {
    ghost use Rattle.std.specs.Prelude.{ℕ, List};
    ghost use Rattle.facet_json_row_values.specs.Lent.{lent_person};
    ghost use Rattle.facet_json_row_values.specs.LentLaws.{lent_person-laws};

    ghost View = { List ℕ × (ℕ × Unit {0}) };

    ghost view = { λ p. (p.name.now, (p.age, tt)) };

    ghost shape = { lent_person };

    fn read_owned<'t>(
        alloc: Global,
        parser: &mut JsonParser<'de>,
    ) -> Result<LentPerson<'de>, DeserializeError<'t>> {
        let Need(name, Need(age, Done)) = read_fields(alloc, parser, false, &["name", "age"])?;
        Ok(LentPerson { name, age })
    }

    fn read<'t>(
        alloc: Global,
        parser: &mut JsonParser<'de>,
    ) -> Result<LentPerson<'de>, DeserializeError<'t>> {
        let Need(name, Need(age, Done)) = read_fields(alloc, parser, true, &["name", "age"])?;
        Ok(LentPerson { name, age })
    }

    fn in_sight(_: Global, _: &'de [u8], _: usize, _: bool) -> Option<(Self, usize)> {
        None
    }

    fn write(&self, serializer: &mut JsonSerializer<'_>) -> Result<(), JsonSerializeError> {
        let fields = Need(&self.name, Need(&self.age, Done));
        write_fields(serializer, &["name", "age"], &fields)
    }

    ghost laws = { lent_person-laws };
}
