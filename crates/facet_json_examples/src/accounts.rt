//! A struct of ten fields, which is read and written by a table of their names, and has its laws by a list of them: for the tests of types
//! and for the benchmark.
#![tactic(auto)]

use facet_format::DeserializeError;
use facet_json::{Done, Maybe, Need, read_fields, write_fields};
use facet_json_facet::Facet;
use facet_json_parser::JsonParser;
use facet_json_serializer::{JsonSerializeError, JsonSerializer};
use std::alloc::Global;

/// The names of an account's fields.
const NAMES: [&str; 10] = [
    "id", "name", "email", "active", "age", "score", "visits", "city", "tags", "parent",
];

/// An account, as `{"id":7,"name":"Ann","email":"a@b.example","active":true,"age":40,"score":-3,"visits":12,"tags":["new"]}`.
/// The city and the parent may be missing.
#[derive(Drop)]
pub struct Account {
    pub id: u64,
    pub name: String,
    pub email: String,
    pub active: bool,
    pub age: u8,
    pub score: i32,
    pub visits: u32,
    pub city: Option<String>,
    pub tags: Vec<String>,
    pub parent: Option<u64>,
}

impl<'de> Facet<'de> for Account {
    ghost use Rattle.std.specs.Prelude.{ℕ, ℤ, Bool, List, Option, map, string_bytes};
    ghost use Rattle.std.specs.Option.{option_map};
    ghost use Rattle.facet_json_examples.specs.Accounts.{account};
    ghost use Rattle.facet_json_examples.specs.AccountLaws.{account-laws};

    ghost View = { ℕ × (List ℕ × (List ℕ × (Bool × (ℕ × (ℤ × (ℕ × (Option (List ℕ) × (List (List ℕ) × (Option ℕ × Unit {0}))))))))) };

    ghost view = { λ a. (
      a.id,
      (
        string_bytes a.name,
        (
          string_bytes a.email,
          (
            a.active,
            (
              a.age,
              (
                a.score,
                (
                  a.visits,
                  (option_map string_bytes a.city, (map string_bytes a.tags.items, (option_map (λ n. n) a.parent, tt))),
                ),
              ),
            ),
          ),
        ),
      ),
    ) };

    ghost shape = { account };

    fn read_owned<'t>(
        alloc: Global,
        parser: &mut JsonParser<'de>,
    ) -> Result<Self, DeserializeError<'t>> {
        let Need(
            id,
            Need(
                name,
                Need(
                    email,
                    Need(
                        active,
                        Need(
                            age,
                            Need(score, Need(visits, Maybe(city, Need(tags, Maybe(parent, Done))))),
                        ),
                    ),
                ),
            ),
        ) = read_fields(alloc, parser, false, &NAMES)?;
        Ok(Account {
            id,
            name,
            email,
            active,
            age,
            score,
            visits,
            city,
            tags,
            parent,
        })
    }

    fn read<'t>(alloc: Global, parser: &mut JsonParser<'de>) -> Result<Self, DeserializeError<'t>> {
        Account::read_owned(alloc, parser)
    }

    fn in_sight(_: Global, _: &'de [u8], _: usize, _: bool) -> Option<(Self, usize)> {
        None
    }

    fn write(&self, serializer: &mut JsonSerializer<'_>) -> Result<(), JsonSerializeError> {
        let fields = Need(
            &self.id,
            Need(
                &self.name,
                Need(
                    &self.email,
                    Need(
                        &self.active,
                        Need(
                            &self.age,
                            Need(
                                &self.score,
                                Need(
                                    &self.visits,
                                    Need(&self.city, Need(&self.tags, Need(&self.parent, Done))),
                                ),
                            ),
                        ),
                    ),
                ),
            ),
        );
        write_fields(serializer, &NAMES, &fields)
    }

    ghost laws = { account-laws };
}
