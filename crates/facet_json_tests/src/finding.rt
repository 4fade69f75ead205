//! A search for a key among an object's members (RFC 8259, section 4).

use crate::expecting::expect_of;
use facet_format::DeserializeError;
use facet_json::pass_end;
use facet_json::steps::{begin_object, find_key};
use facet_json_facet::Facet;
use facet_json_parser::JsonParser;
use std::alloc::Global;

/// The number that is the value of the first key of this text from here on, or none where no key has it.
pub fn number_at<'t>(
    alloc: Global,
    parser: &mut JsonParser<'_>,
    name: &str,
) -> Result<Option<u64>, DeserializeError<'t>> {
    if find_key(parser, name)? {
        Ok(Some(u64::read_owned(alloc, parser)?))
    } else {
        Ok(None)
    }
}

/// Whether this is what is found in the object that comes, where each key is searched behind the last one.
fn finds(alloc: Global, parser: &mut JsonParser<'_>, found: &[(&str, Option<u64>)]) -> bool {
    if begin_object(parser).is_err() {
        return false;
    }
    for &(name, number) in found {
        if number_at(alloc, parser, name) != Ok(number) {
            return false;
        }
    }
    true
}

/// Whether this is what is found in the object that is the input.
fn are_found(alloc: Global, input: &str, found: &[(&str, Option<u64>)]) -> bool {
    finds(alloc, &mut JsonParser::new(alloc, input.as_bytes()), found)
}

/// Inputs, keys, and the numbers that are found, or that none is.
static FOUND: [(&str, &[(&str, Option<u64>)]); 21] = [
    ("{\"a\":1,\"b\":2,\"c\":3}", &[("a", Some(1))]),
    ("{\"a\":1,\"b\":2,\"c\":3}", &[("b", Some(2))]),
    ("{\"a\":1,\"b\":2,\"c\":3}", &[("c", Some(3))]),
    ("{\"\\u0061\":1}", &[("a", Some(1))]),
    (
        "{\"\\u0062\":1,\"\\u0061b\":2,\"ab\":3}",
        &[("ab", Some(2))],
    ),
    (
        "{\"a\":{\"b\":1},\"c\":[{\"b\":2}],\"b\":3}",
        &[("b", Some(3))],
    ),
    ("{\"a\":1,\"a\":2}", &[("a", Some(1))]),
    ("{\"ab\":1,\"\":2,\"a\":3}", &[("a", Some(3))]),
    ("{\"a\":\"b\",\"\":2}", &[("", Some(2))]),
    ("{\"A\":1,\"a\":2}", &[("a", Some(2))]),
    ("{\"a\":1", &[("a", Some(1))]),
    (
        "{\"x\":[],\"a\":1,\"y\":{},\"b\":2,\"z\":null}",
        &[("a", Some(1)), ("b", Some(2)), ("a", None)],
    ),
    // A name that begins a key, and a key that begins the name.
    ("{\"ab\":1,\"a\":2}", &[("a", Some(2))]),
    ("{\"a\":1,\"ab\":2}", &[("ab", Some(2))]),
    // Each kind of value before it, and gaps.
    (
        "{ \"x\" : null , \"y\" : true ,\n\t\"z\" : \"t\" , \"n\" : -12 ,\r\n \"a\" : 7 }",
        &[("a", Some(7))],
    ),
    (
        "{\"d\":1.5,\"e\":1e3,\"f\":false,\"a\":7}",
        &[("a", Some(7))],
    ),
    (
        "{\"t\":\"\\u0041\",\"\\u006b\":1,\"a\":7}",
        &[("a", Some(7))],
    ),
    ("{\"t\":\"é\",\"é\":1,\"a\":7,}", &[("a", Some(7))]),
    (
        "{\"n\":123456789012345678901234567890,\"l\":[],\"o\":{},\"a\":7}",
        &[("a", Some(7))],
    ),
    // Keys of more than two windows, which differ in their last byte.
    (
        "{\"kkkkkkkkkkkkkkkkkkkkkkkkkkkkkkkkka\":1,\"kkkkkkkkkkkkkkkkkkkkkkkkkkkkkkkkkb\":2}",
        &[("kkkkkkkkkkkkkkkkkkkkkkkkkkkkkkkkkb", Some(2))],
    ),
    // One search behind another, up to the end.
    (
        "{\"a\":1,\"x\":\"\",\"b\":2,\"y\":0}",
        &[("a", Some(1)), ("b", Some(2)), ("a", None)],
    ),
];

#[test]
fn the_first_member_of_a_key_is_found(rt: HostRuntime) {
    for &(input, found) in &FOUND {
        expect_of(&rt, are_found(rt.alloc(), input, found), input);
    }
}

/// Inputs, keys that they have not, and whether they are cut.
static LACKING: [(&str, &str, bool); 15] = [
    ("{}", "a", false),
    ("{}", "", false),
    ("{\"a\":1,\"b\":2}", "c", false),
    ("{\"a\":{\"b\":1}}", "b", false),
    ("{\"a\":[{\"b\":1}]}", "b", false),
    ("{\"a\":\"b\"}", "b", false),
    ("{\"ab\":1}", "a", false),
    ("{\"a\":1}", "ab", false),
    ("{\"\\u0061\":1}", "\\u0061", false),
    ("{\"a\":1", "b", true),
    ("{\"a\":1,", "b", true),
    ("{\"a\":[1}", "b", true),
    ("{", "b", true),
    ("{\"b\"", "b", true),
    ("{\"a\" 1,\"b\":2}", "b", true),
];

/// Whether the object that comes has no such key and is passed whole, or, where it is cut, the search is refused.
fn lacks(parser: &mut JsonParser<'_>, name: &str, is_cut: bool) -> bool {
    if begin_object(parser).is_err() {
        return false;
    }
    match find_key(parser, name) {
        Ok(found) => !found && !is_cut && pass_end(parser).is_ok(),
        Err(_) => is_cut,
    }
}

/// Whether this is so of the object that is the input.
fn is_lacking(alloc: Global, input: &str, name: &str, is_cut: bool) -> bool {
    lacks(&mut JsonParser::new(alloc, input.as_bytes()), name, is_cut)
}

#[test]
fn a_key_that_does_not_come_is_not_found(rt: HostRuntime) {
    for &(input, name, is_cut) in &LACKING {
        expect_of(&rt, is_lacking(rt.alloc(), input, name, is_cut), input);
    }
}
