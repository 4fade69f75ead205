//! Structs: read, written, and read again.

use crate::expecting::expect_of;
use crate::typed::{is_read_as, refusal};
use facet_format::{DeserializeErrorKind, Span};
use facet_json_examples::records::{person_in, raw_response};

/// A person, as it is written.
const ALICE: &str = "{\"name\":\"Alice\",\"age\":30}";

/// Objects that are persons, and how these are written.
static PERSONS: [(&str, &str); 2] = [
    ("{\"age\":30,\"name\":\"Alice\"}", ALICE),
    (
        "{\"name\":\"A\",\"x\":[{}],\"age\":1,\"age\":2,}",
        "{\"name\":\"A\",\"age\":2}",
    ),
];

#[test]
fn persons_are_read_and_written(rt: HostRuntime) {
    let alloc = rt.alloc();
    for &(input, text) in &PERSONS {
        expect_of(
            &rt,
            is_read_as(alloc, person_in(alloc, input.as_bytes()), text),
            input,
        );
    }
    let no_age = refusal(
        DeserializeErrorKind::MissingField { field: "age" },
        Span::new(11, 1),
    );
    assert!(rt; person_in(alloc, b"{\"name\":\"A\"}").err() == Some(no_age));
}

#[test]
fn optional_fields_may_be_missing(rt: HostRuntime) {
    let alloc = rt.alloc();
    let text = "{\"status\":200,\"data\":[1, 2.50]}";
    let response = raw_response(alloc, text.as_bytes());
    assert!(rt; is_read_as(alloc, response, text));
}
