//! A struct whose texts stand in the input: nothing is copied.

use facet_json::{
    Done, Facet, JsonParser, JsonSerializeError, JsonSerializer, Need, ReadResult, read_fields,
    write_fields,
};
use std::alloc::Global;

/// The names of a contact's fields.
const NAMES: [&str; 3] = ["id", "name", "email"];

/// Whom to write to, as `{"id":7,"name":"Ann","email":"a@b.example"}`. The input, which lends the texts, lives for `'de`:
/// `from_slice_borrowed` reads it, where neither text holds an escape.
#[derive(Drop)]
pub struct Contact<'de> {
    /// The number of the account.
    pub id: u64,
    /// What the person is called.
    pub name: &'de str,
    /// Where the person is reached.
    pub email: &'de str,
}

impl<'de> Facet<'de> for Contact<'de> {
    ghost use Rattle.std.specs.Prelude.{ℕ, List};
    ghost use Rattle.facet_json_examples.specs.Contacts.{contact};
    ghost use Rattle.facet_json_examples.specs.ContactLaws.{contact-laws};

    ghost View = { ℕ × (List ℕ × (List ℕ × Unit {0})) };

    ghost view = { λ c. (c.id, (c.name.now, (c.email.now, tt))) };

    ghost shape = { contact };

    fn read_owned<'t>(alloc: Global, parser: &mut JsonParser<'de>) -> ReadResult<'t, Self> {
        let Need(id, Need(name, Need(email, Done))) = read_fields(alloc, parser, false, &NAMES)?;
        Ok(Contact { id, name, email })
    }

    fn read<'t>(alloc: Global, parser: &mut JsonParser<'de>) -> ReadResult<'t, Self> {
        let Need(id, Need(name, Need(email, Done))) = read_fields(alloc, parser, true, &NAMES)?;
        Ok(Contact { id, name, email })
    }

    fn in_sight(_: Global, _: &'de [u8], _: usize, _: bool) -> Option<(Self, usize)> {
        None
    }

    fn write(&self, serializer: &mut JsonSerializer<'_>) -> Result<(), JsonSerializeError> {
        let fields = Need(&self.id, Need(&self.name, Need(&self.email, Done)));
        write_fields(serializer, &NAMES, &fields)
    }

    ghost laws = { contact-laws };
}
