//! To which field of a struct a member goes: by its key and the table of names (RFC 8259, section 4).

use crate::expecting::expect_of;
use facet_format::DeserializeError;
use facet_json::{Done, Maybe, Need, read_fields};
use facet_json_parser::JsonParser;
use std::alloc::Global;

/// Three fields, of which the second one's name begins as the first one's, and may be missing.
type Three = Need<u8, Maybe<u8, Need<u8, Done>>>;

fn read_three<'t>(alloc: Global, input: &str) -> Result<Three, DeserializeError<'t>> {
    let mut parser = JsonParser::new(alloc, input.as_bytes());
    let names = &["a", "ab", "seventeen_letters"];
    read_fields(alloc, &mut parser, false, names)
}

/// Objects of these fields: in the order of the names and in others, with members between that no name fits, and of keys that go on, end
/// earlier or end otherwise than a name, or hold an escape.
static THREE: [(&str, (u8, Option<u8>, u8)); 14] = [
    (
        "{\"a\":1,\"ab\":2,\"seventeen_letters\":3}",
        (1, Some(2), 3),
    ),
    ("{\"a\":1,\"a\":4,\"seventeen_letters\":3}", (4, None, 3)),
    (
        "{\"seventeen_letters\":3,\"ab\":2,\"a\":1}",
        (1, Some(2), 3),
    ),
    (
        "{\"ab\":2,\"a\":1,\"seventeen_letters\":3}",
        (1, Some(2), 3),
    ),
    ("{\"a\":1,\"seventeen_letters\":3}", (1, None, 3)),
    (
        "{\"a\":1,\"ab\":null,\"seventeen_letters\":3}",
        (1, None, 3),
    ),
    (
        "{\"a\":1,\"ab\":2,\"seventeen_letters\":3,\"ab\":5,\"a\":4}",
        (4, Some(5), 3),
    ),
    (
        "{\"a\":1,\"x\":{\"a\":9},\"ab\":2,\"\":[9],\"seventeen_letters\":3,\"y\":9}",
        (1, Some(2), 3),
    ),
    (
        "{\"\\u0061\":1,\"a\\u0062\":2,\"seventeen_letter\\u0073\":3}",
        (1, Some(2), 3),
    ),
    (
        "{\"b\":9,\"A\":9,\"a\":1,\"ac\":9,\"bb\":9,\"abc\":9,\"seventeen_letters\":3}",
        (1, None, 3),
    ),
    (
        "{\"a\":1,\"seventeen_letter\":9,\"seventeen_letters\":3,\"seventeen_letters_\":9}",
        (1, None, 3),
    ),
    (
        "{\"a\":1,\"seventeen_letters\":3,\"seventeen_letterz\":9,\"Seventeen_letters\":9}",
        (1, None, 3),
    ),
    (
        "{\"a\":1,\"a\\u0000\":9,\"a \":9,\"seventeen_letters\":3}",
        (1, None, 3),
    ),
    (
        " { \"a\" : 1 , \"ab\" : 2 , \"seventeen_letters\" : 3 , } ",
        (1, Some(2), 3),
    ),
];

/// Objects, and the number of their last member `a`.
static REPEATED: [(&str, u8); 4] = [
    ("{\"a\":1}", 1),
    ("{\"a\":1,\"a\":2}", 2),
    ("{\"a\":1,\"b\":9,\"a\":2,\"\\u0061\":3}", 3),
    ("{\"\\u0061\":1,\"aa\":9,\"a\":4}", 4),
];

/// Whether the object is read as these fields.
fn are_three(alloc: Global, input: &str, wanted: (u8, Option<u8>, u8)) -> bool {
    match read_three(alloc, input) {
        Ok(Need(a, Maybe(ab, Need(long, Done)))) => (a, ab, long) == wanted,
        Err(_) => false,
    }
}

/// Two fields of one name, of which the second may be missing.
type Two = Need<u8, Maybe<u8, Done>>;

fn read_two<'t>(alloc: Global, input: &str) -> Result<Two, DeserializeError<'t>> {
    let mut parser = JsonParser::new(alloc, input.as_bytes());
    read_fields(alloc, &mut parser, false, &["a", "a"])
}

/// Whether the first of them has this number, and the second none.
fn is_first_of_two(alloc: Global, input: &str, number: u8) -> bool {
    match read_two(alloc, input) {
        Ok(Need(first, Maybe(second, Done))) => first == number && second.is_none(),
        Err(_) => false,
    }
}

#[test]
fn a_member_goes_to_the_field_of_its_name(rt: HostRuntime) {
    let alloc = rt.alloc();
    for &(input, wanted) in &THREE {
        expect_of(&rt, are_three(alloc, input, wanted), input);
    }
    for &(input, number) in &REPEATED {
        expect_of(&rt, is_first_of_two(alloc, input, number), input);
    }
}
