//! Structs of two fields: they are read from objects by a table of their fields, and written call by call.

use crate::expecting::expect_of;
use crate::typed::is_written;
use facet_format::{DeserializeError, FormatSerializer};
use facet_json::{Done, Need, read_fields};
use facet_json_core::RawJson;
use facet_json_facet::Facet;
use facet_json_parser::JsonParser;
use facet_json_serializer::{JsonSerializeError, JsonSerializer};
use std::alloc::Global;

/// Reads a point, as `{"x":10,"y":20}`.
fn read_point<'t>(
    alloc: Global,
    input: &str,
) -> Result<Need<i32, Need<i32, Done>>, DeserializeError<'t>> {
    let mut parser = JsonParser::new(alloc, input.as_bytes());
    read_fields(alloc, &mut parser, false, &["x", "y"])
}

/// Whether this point is read.
fn is_point(alloc: Global, input: &str, across: i32, down: i32) -> bool {
    match read_point(alloc, input) {
        Ok(Need(x, Need(y, Done))) => x == across && y == down,
        Err(_) => false,
    }
}

#[test]
fn structs_are_read(rt: HostRuntime) {
    let alloc = rt.alloc();
    let point = "{\"x\": 10, \"y\": 20}";
    expect_of(&rt, is_point(alloc, point, 10, 20), point);
}

/// Writes two fields.
fn write_pair<'de, A: Facet<'de>, B: Facet<'de>>(
    serializer: &mut JsonSerializer<'_>,
    names: &[&str; 2],
    first: &A,
    second: &B,
) -> Result<(), JsonSerializeError> {
    serializer.begin_struct()?;
    serializer.field_key(names[0])?;
    first.write(serializer)?;
    serializer.field_key(names[1])?;
    second.write(serializer)?;
    serializer.end_struct()
}

/// Whether two fields are written as this text.
fn is_pair<'de, A: Facet<'de>, B: Facet<'de>>(
    alloc: Global,
    names: &[&str; 2],
    first: &A,
    second: &B,
    text: &str,
) -> bool {
    let mut serializer = JsonSerializer::new(alloc);
    write_pair(&mut serializer, names, first, second).is_ok()
        && is_written(serializer.finish(), text) == Some(true)
}

#[test]
fn structs_are_written(rt: HostRuntime) {
    let alloc = rt.alloc();
    let text = "{\"name\":\"Alice\",\"age\":30}";
    expect_of(
        &rt,
        is_pair(alloc, &["name", "age"], &"Alice", &30_u32, text),
        text,
    );
    let text = "{\"x\":10,\"y\":20}";
    expect_of(
        &rt,
        is_pair(alloc, &["x", "y"], &10_i32, &20_i32, text),
        text,
    );
    let payload = RawJson::new("{\"nested\": [1, 2, 3], \"complex\": true}");
    let text = "{\"status\":200,\"data\":{\"nested\": [1, 2, 3], \"complex\": true}}";
    expect_of(
        &rt,
        is_pair(alloc, &["status", "data"], &200_u32, &payload, text),
        text,
    );
}
