//! The four forms of enum, and a broken text within each: it is told as the parser does, also after a rewind.

use crate::forms::again::{Case, expect};
use serde::{Deserialize, Serialize};
use std::test::Fail;

#[derive(Drop, Serialize, Deserialize)]
enum Shape {
    Unknown,
    Sphere(f32),
    Box { wide: i16, high: i16 },
    Pair(u8, char),
}

#[derive(Drop, Serialize, Deserialize)]
#[serde(tag = "kind", rename_all = "snake_case")]
pub(crate) enum Command {
    MoveTo { x: i32, y: i32 },
    Stop,
}

#[derive(Drop, Serialize, Deserialize)]
#[serde(tag = "t", content = "c", rename_all = "lowercase")]
pub(crate) enum Adjacent {
    One(u8),
    Two(u8, u8),
    Nothing,
}

#[derive(Drop, Serialize, Deserialize)]
#[serde(untagged)]
enum Any {
    Number(f64),
    Text(String),
    List(Vec<u8>),
    Map { a: u8 },
}

/// By the variant's name: a text without data, else a map of one member.
static SHAPES: [Case<'static>; 4] = [
    (
        r#"["Unknown",{"Sphere":1.5},{"Box":{"wide":1,"high":-2}},{"Pair":[7,"c"]}]"#,
        r#"["Unknown",{"Sphere":1.5},{"Box":{"wide":1,"high":-2}},{"Pair":[7,"c"]}]"#,
    ),
    (
        r#"["Other"]"#,
        "unknown variant `Other` at line 1, column 2\n[\"Other\"]\n ^^^^^^^",
    ),
    (
        r#"[{"Sphere":1e39}]"#,
        "number out of range for f32 at line 1, column 12\n[{\"Sphere\":1e39}]\n           ^^^^",
    ),
    (
        r#"[{"Sphere":x}]"#,
        "unexpected character 'x', expected valid JSON token at line 1, column 12\n[{\"Sphere\":x}]\n           ^",
    ),
];

/// By a member of its own, which may stand anywhere.
static COMMANDS: [Case<'static>; 6] = [
    (
        r#"[{"kind":"move_to","x":1,"y":-2},{"kind":"stop"}]"#,
        r#"[{"kind":"move_to","x":1,"y":-2},{"kind":"stop"}]"#,
    ),
    (
        r#"[{"x":1,"skipped":[{"a":1}],"kind":"move_to","y":-2}]"#,
        r#"[{"kind":"move_to","x":1,"y":-2}]"#,
    ),
    (
        r#"[{"kind":"jump","x":1}]"#,
        "unknown variant `jump` at line 1, column 10\n[{\"kind\":\"jump\",\"x\":1}]\n         ^^^^^^",
    ),
    (
        r#"[{"x":1,"kind":"jump"}]"#,
        "unknown variant `jump` at line 1, column 16\n[{\"x\":1,\"kind\":\"jump\"}]\n               ^^^^^^",
    ),
    (
        r#"[{"x":1,"y":2}]"#,
        "missing required field `kind` at line 1, column 14\n[{\"x\":1,\"y\":2}]\n             ^",
    ),
    (
        r#"[{"x":1,"kind" "stop"}]"#,
        "unexpected token: got String, expected ':' at line 1, column 16\n[{\"x\":1,\"kind\" \"stop\"}]\n               ^^^^^^",
    ),
];

/// By a member, beside one of the data.
static ADJACENT: [Case<'static>; 4] = [
    (
        r#"[{"t":"one","c":1},{"t":"two","c":[1,2]},{"t":"nothing"}]"#,
        r#"[{"t":"one","c":1},{"t":"two","c":[1,2]},{"t":"nothing"}]"#,
    ),
    (r#"[{"c":[1,2],"t":"two"}]"#, r#"[{"t":"two","c":[1,2]}]"#),
    (
        r#"[{"t":"three"}]"#,
        "unknown variant `three` at line 1, column 7\n[{\"t\":\"three\"}]\n      ^^^^^^^",
    ),
    (
        "[{\"c\":[1,\n2}]",
        "unexpected token: got '}', expected ']' at line 2, column 2\n2}]\n ^",
    ),
];

/// By the first variant that fits.
static UNTAGGED: [Case<'static>; 3] = [
    (
        r#"[1.5,"a",[1,2],{"a":1},"\u00e9",7]"#,
        "[1.5,\"a\",[1,2],{\"a\":1},\"\u{e9}\",7.0]",
    ),
    (
        r#"[[1,2,"x"]]"#,
        "invalid value at line 1, column 2\n[[1,2,\"x\"]]\n ^",
    ),
    (
        "[[1,\n tru]]",
        "unexpected character ']', expected valid JSON token at line 2, column 5\n tru]]\n    ^",
    ),
];

#[test]
fn enums_are_read_and_written(rt: HostRuntime) -> Result<(), Fail> {
    let alloc = rt.alloc();
    expect::<Vec<Shape>>(&rt, alloc, &SHAPES)?;
    expect::<Vec<Command>>(&rt, alloc, &COMMANDS)?;
    expect::<Vec<Adjacent>>(&rt, alloc, &ADJACENT)?;
    expect::<Vec<Any>>(&rt, alloc, &UNTAGGED)
}
