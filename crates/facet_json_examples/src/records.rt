//! Structs of one's own that are read from JSON and written as JSON, field by field.

ghost use Rattle.std.specs.Prelude.{◌≡◌, ℕ, List, IfOk, IfErr, string_bytes};
ghost use Rattle.facet_json.specs.FormatViews.{refusal_of};
ghost use Rattle.facet_json.specs.Gap.{plain};
ghost use Rattle.facet_json_examples.specs.Records.{person};
ghost use Rattle.facet_json_examples.specs.RecordLaws.{person-laws};
ghost use Rattle.facet_json.specs.Inputs.{IsReadFrom, IsUnreadFrom};

use facet_json::{
    DeserializeError, Done, Facet, JsonParser, JsonSerializeError, JsonSerializer, Maybe, Need,
    RawJson, ReadResult, from_slice, from_slice_borrowed, read_fields, write_fields,
};
use std::alloc::Global;

/// A person, as `{"name":"Alice","age":30}`, the age in years.
#[derive(Debug, PartialEq, Drop)]
pub struct Person {
    pub name: String,
    pub age: u32,
}

impl<'de> Facet<'de> for Person {
    ghost View = { List ℕ × (ℕ × Unit {0}) };

    ghost view = { λ p. (string_bytes p.name, (p.age, tt)) };

    ghost shape = { person };

    ghost laws = { person-laws };

    fn read_owned<'t>(alloc: Global, parser: &mut JsonParser<'de>) -> ReadResult<'t, Self> {
        let Need(name, Need(age, Done)) = read_fields(alloc, parser, false, &["name", "age"])?;
        Ok(Person { name, age })
    }

    fn read<'t>(alloc: Global, parser: &mut JsonParser<'de>) -> ReadResult<'t, Self> {
        Person::read_owned(alloc, parser)
    }

    fn in_sight(_: Global, _: &'de [u8], _: usize, _: bool) -> Option<(Self, usize)> {
        None
    }

    fn write(&self, serializer: &mut JsonSerializer<'_>) -> Result<(), JsonSerializeError> {
        let fields = Need(&self.name, Need(&self.age, Done));
        write_fields(serializer, &["name", "age"], &fields)
    }
}

/// The person that a document is: of each of its object's members `name` and `age` the last one counts, and any other is passed.
pub fn person_in<'t>(alloc: Global, input: &[u8]) -> Result<Person, DeserializeError<'t>>
    ensures read { IfOk result (λ p. IsReadFrom person.reading input.now plain (string_bytes p.name, (p.age, tt))) }
    ensures unread { IfErr result (λ e. IsUnreadFrom person.reading input.now plain (refusal_of e)) }
{
    from_slice(alloc, input)
}

/// The names of a response's fields.
const RESPONSE: [&str; 2] = ["status", "data"];

/// A response, as `{"status":200,"data":[1,2]}`.
#[derive(Drop)]
pub struct Response<T> {
    /// What became of the request.
    pub status: u32,
    /// What was asked for; in a document it is called `data`.
    pub payload: T,
}

impl<'de, T: Facet<'de>> Facet<'de> for Response<T> {
    ghost use Rattle.std.specs.Prelude.{ℕ};
    ghost use Rattle.facet_json_examples.specs.Records.{response};
    ghost use Rattle.facet_json_examples.specs.RecordLaws.{response-laws};

    ghost View = { ℕ × (T.View × Unit {0}) };

    ghost view = { λ r. (r.status, (T.view r.payload, tt)) };

    ghost shape = { response T.shape };

    fn read_owned<'t>(alloc: Global, parser: &mut JsonParser<'de>) -> ReadResult<'t, Self> {
        let Need(status, Need(payload, Done)) = read_fields(alloc, parser, false, &RESPONSE)?;
        Ok(Response { status, payload })
    }

    fn read<'t>(alloc: Global, parser: &mut JsonParser<'de>) -> ReadResult<'t, Self> {
        let Need(status, Need(payload, Done)) = read_fields(alloc, parser, true, &RESPONSE)?;
        Ok(Response { status, payload })
    }

    fn in_sight(_: Global, _: &'de [u8], _: usize, _: bool) -> Option<(Self, usize)> {
        None
    }

    fn write(&self, serializer: &mut JsonSerializer<'_>) -> Result<(), JsonSerializeError> {
        let fields = Need(&self.status, Need(&self.payload, Done));
        write_fields(serializer, &RESPONSE, &fields)
    }

    ghost laws = { response-laws T.laws };
}

/// A response whose payload stays text, lent by the input.
pub fn raw_response<'t, 'de>(
    alloc: Global,
    input: &'de [u8],
) -> Result<Response<RawJson<'de>>, DeserializeError<'t>> {
    from_slice_borrowed(alloc, input)
}

/// How often something is tried again.
#[derive(PartialEq, Drop)]
pub struct Retry {
    /// So many times.
    pub times: u32,
    /// So many seconds between them.
    pub wait: Option<u32>,
}

impl<'de> Facet<'de> for Retry {
    ghost use Rattle.std.specs.Prelude.{ℕ, Option};
    ghost use Rattle.std.specs.Option.{option_map};
    ghost use Rattle.facet_json_examples.specs.Records.{retry};
    ghost use Rattle.facet_json_examples.specs.RecordLaws.{retry-laws};

    ghost View = { ℕ × (Option ℕ × Unit {0}) };

    ghost view = { λ r. (r.times, (option_map (λ n. n) r.wait, tt)) };

    ghost shape = { retry };

    fn read_owned<'t>(
        alloc: Global,
        parser: &mut JsonParser<'de>,
    ) -> Result<Self, DeserializeError<'t>> {
        let Need(times, Maybe(wait, Done)) = read_fields(alloc, parser, false, &["times", "wait"])?;
        Ok(Retry { times, wait })
    }

    fn read<'t>(alloc: Global, parser: &mut JsonParser<'de>) -> Result<Self, DeserializeError<'t>> {
        Retry::read_owned(alloc, parser)
    }

    fn in_sight(_: Global, _: &'de [u8], _: usize, _: bool) -> Option<(Self, usize)> {
        None
    }

    fn write(&self, serializer: &mut JsonSerializer<'_>) -> Result<(), JsonSerializeError> {
        let fields = Need(&self.times, Need(&self.wait, Done));
        write_fields(serializer, &["times", "wait"], &fields)
    }

    ghost laws = { retry-laws };
}

/// A configuration, as `{"host":"a.example","tags":["new"],"retry":{"times":3}}`.
#[derive(Drop)]
pub struct Config {
    /// Who is called.
    pub host: String,
    /// Where, if not at the usual port.
    pub port: Option<u16>,
    /// What it is called with.
    pub tags: Vec<String>,
    /// How often it is called again.
    pub retry: Option<Retry>,
}

impl<'de> Facet<'de> for Config {
    ghost use Rattle.std.specs.Prelude.{ℕ, List, Option, map};
    ghost use Rattle.std.specs.Option.{option_map};
    ghost use Rattle.facet_json_examples.specs.Records.{config};
    ghost use Rattle.facet_json_examples.specs.RecordLaws.{config-laws};

    ghost View = { List ℕ × (Option ℕ × (List (List ℕ) × (Option (ℕ × (Option ℕ × Unit {0})) × Unit {0}))) };

    ghost view = { λ c. (
      string_bytes c.host,
      (
        option_map (λ n. n) c.port,
        (
          map string_bytes c.tags.items,
          (option_map (λ r. (r.times, (option_map (λ n. n) r.wait, tt))) c.retry, tt),
        ),
      ),
    ) };

    ghost shape = { config };

    fn read_owned<'t>(
        alloc: Global,
        parser: &mut JsonParser<'de>,
    ) -> Result<Self, DeserializeError<'t>> {
        let Need(host, Maybe(port, Need(tags, Maybe(retry, Done)))) = read_fields(
            alloc,
            parser,
            false,
            &["host", "port", "tags", "retry"],
        )?;
        Ok(Config {
            host,
            port,
            tags,
            retry,
        })
    }

    fn read<'t>(alloc: Global, parser: &mut JsonParser<'de>) -> Result<Self, DeserializeError<'t>> {
        Config::read_owned(alloc, parser)
    }

    fn in_sight(_: Global, _: &'de [u8], _: usize, _: bool) -> Option<(Self, usize)> {
        None
    }

    fn write(&self, serializer: &mut JsonSerializer<'_>) -> Result<(), JsonSerializeError> {
        let fields = Need(
            &self.host,
            Need(&self.port, Need(&self.tags, Need(&self.retry, Done))),
        );
        write_fields(serializer, &["host", "port", "tags", "retry"], &fields)
    }

    ghost laws = { config-laws };
}
