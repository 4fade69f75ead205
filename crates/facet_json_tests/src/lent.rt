//! Structs whose texts the input lends.

use crate::expecting::expect_of;
use crate::typed::is_written;
use facet_format::DeserializeError;
use facet_json::{Done, Need, read_fields, write_fields};
use facet_json_parser::JsonParser;
use facet_json_serializer::{JsonSerializeError, JsonSerializer};
use std::alloc::Global;

/// A point's fields, as `{"label":"origin","x":0,"y":0}`.
static POINT: [&str; 3] = ["label", "x", "y"];

/// Reads a point whose label is lent.
fn read_point<'t, 'de>(
    alloc: Global,
    input: &'de str,
) -> Result<Need<&'de str, Need<i32, Need<i32, Done>>>, DeserializeError<'t>> {
    let mut parser = JsonParser::new(alloc, input.as_bytes());
    read_fields(alloc, &mut parser, true, &POINT)
}

/// Writes a point.
fn written_point(
    alloc: Global,
    label: &str,
    x: i32,
    y: i32,
) -> Result<Vec<u8>, JsonSerializeError> {
    let mut serializer = JsonSerializer::new(alloc);
    write_fields(
        &mut serializer,
        &POINT,
        &Need(&label, Need(&x, Need(&y, Done))),
    )?;
    serializer.finish()
}

/// Whether the input is read as the point of this label at the origin, which is written as the text.
fn is_origin(alloc: Global, input: &str, label: &str, text: &str) -> bool {
    match read_point(alloc, input) {
        Ok(Need(read, Need(x, Need(y, Done)))) => {
            read == label
                && x == 0
                && y == 0
                && is_written(written_point(alloc, read, x, y), text) == Some(true)
        }
        Err(_) => false,
    }
}

#[test]
fn texts_of_structs_are_lent(rt: HostRuntime) {
    let alloc = rt.alloc();
    let text = "{\"label\": \"origin\", \"x\": 0, \"y\": 0}";
    let written = "{\"label\":\"origin\",\"x\":0,\"y\":0}";
    expect_of(&rt, is_origin(alloc, text, "origin", written), text);
}
