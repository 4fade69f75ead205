//! A parser and a writer that the caller holds.

use crate::by_hand::read_figure;
use crate::figures::Figure;
use crate::forms::again::{are_bytes, expect_text, shown, written};
use facet_json_serde::{Error, Json, JsonParser, JsonWriter, ReadFault, SerializeOptions};
use serde::Serialize;
use std::alloc::Global;
use std::test::Fail;

/// A pair of bytes, and the end of the input.
fn read_pair(input: &[u8], json: &mut Json<'_>) -> Result<(u8, u8), ReadFault> {
    let pair = json.value(input)?;
    json.finish_whole()?;
    Ok(pair)
}

/// The pair that the input is, whose values may have comments between them.
fn pair(alloc: Global, input: &[u8]) -> Result<(u8, u8), Error<'static>> {
    let mut json = Json::new(alloc, JsonParser::new_jsonc(alloc, input));
    match read_pair(input, &mut json) {
        Ok(pair) => Ok(pair),
        Err(fault) => Err(json.told(fault)),
    }
}

#[test]
fn a_parser_is_held(rt: HostRuntime) -> Result<(), Fail> {
    let alloc = rt.alloc();
    assert!(rt; pair(alloc, b"/* two */ [1, 2]\n").ok() == Some((1, 2)));
    let refused = written(alloc, pair(alloc, b"[1, 2] ["));
    expect_text(&rt, shown(alloc, refused), "trailing characters")
}

/// Whether the writer takes the value.
fn takes<T: Serialize>(writer: &mut JsonWriter<'_>, value: &T) -> bool {
    value.serialize(writer).is_ok()
}

/// Whether a writer takes a pair, and gives out its text.
fn is_written(alloc: Global, options: SerializeOptions<'_>) -> bool {
    let mut writer = JsonWriter::new(alloc, options);
    takes(&mut writer, &(1u8, "x")) & are_bytes(writer.finish(&options), br#"[1,"x"]"#)
}

/// Whether a writer takes a pair and no value after it, and then gives out nothing.
fn is_one_value(alloc: Global, options: SerializeOptions<'_>) -> bool {
    let mut writer = JsonWriter::new(alloc, options);
    takes(&mut writer, &(1u8, "x")) & !takes(&mut writer, &7u8) & writer.finish(&options).is_err()
}

#[test]
fn a_writer_is_held(rt: HostRuntime) {
    let options = SerializeOptions::new().bytes_as_hex();
    assert!(rt; is_written(rt.alloc(), options));
    assert!(rt; is_one_value(rt.alloc(), options));
}

/// A part of a hundred, or the two numbers of a range, the lower one first.
type Numbers = (u64, Option<u64>);

/// Inputs, and the numbers that they have, or none where they are refused.
static FIGURES: [(&str, Option<Numbers>); 8] = [
    (" 99 ", Some((99, None))),
    ("101", None),
    ("[2, 5]", Some((2, Some(5)))),
    ("[5,2]", None),
    ("[2]", None),
    ("[2,5,7]", None),
    ("[-2,5]", None),
    ("{}", None),
];

/// The numbers that the input has.
fn numbers(alloc: Global, input: &[u8]) -> Option<Numbers> {
    match read_figure(alloc, input, JsonParser::new(alloc, input)) {
        Ok(Figure::Percent(part)) => Some((part.0, None)),
        Ok(Figure::Range(range)) => Some((range.low, Some(range.high))),
        Err(_) => None,
    }
}

#[test]
fn types_are_read_by_hand(rt: HostRuntime) {
    for (input, expected) in &FIGURES {
        assert!(rt;
            numbers(rt.alloc(), input.as_bytes()) == *expected,
            "{input}"
        );
    }
}
