//! Structs: renamed fields, borrowed texts, what is left out, flattened and recursive ones.

use crate::forms::again::{Case, expect};
use serde::{Deserialize, Serialize};
use std::alloc::{AllocError, Global};
use std::borrow::CowStr;
use std::test::Fail;

#[derive(Drop, Serialize, Deserialize)]
#[serde(rename_all = "camelCase")]
struct Moon<'a> {
    name: &'a str,
    #[serde(borrow)]
    long_note: CowStr<'a>,
    #[serde(default)]
    orbit_days: f64,
}

#[derive(Drop, Serialize, Deserialize)]
#[serde(deny_unknown_fields)]
pub(crate) struct Account {
    #[serde(rename = "ID", alias = "id")]
    id: i64,
    #[serde(default, skip_serializing_if = "Option::is_none")]
    note: Option<String>,
    #[serde(skip)]
    cache: u8,
}

#[derive(Drop, Serialize, Deserialize)]
#[serde(rename_all = "snake_case")]
struct Outer {
    id: u32,
    #[serde(flatten)]
    inner: Inner,
    after: bool,
}

#[derive(Drop, Serialize, Deserialize)]
#[serde(rename_all = "lowercase")]
struct Inner {
    a: Option<char>,
    b: u128,
}

#[derive(Drop, Serialize, Deserialize)]
#[serde(recursive)]
#[cycle(folder)]
struct Folder<'a> {
    name: &'a str,
    #[serde(recursive)]
    folders: Vec<Folder<'a>>,
}

/// Renamed fields, a default, members in any order, unknown ones passed, and texts that are lent where they have no escape. A missing field
/// is told by the name that it has in Rust, as serde's derive here does.
static MOONS: [Case<'static>; 6] = [
    (
        r#"{"name":"Io","longNote":"a","orbitDays":1.769}"#,
        r#"{"name":"Io","longNote":"a","orbitDays":1.769}"#,
    ),
    (
        r#" {"unknown": [1,{"b":[]}], "longNote": "a\nb", "name": "Io",} rest"#,
        r#"{"name":"Io","longNote":"a\nb","orbitDays":0.0}"#,
    ),
    (
        r#"["Io","a",2]"#,
        r#"{"name":"Io","longNote":"a","orbitDays":2.0}"#,
    ),
    (
        r#"{"name":"I\u006f","longNote":"a"}"#,
        "invalid value at line 1, column 9\n{\"name\":\"I\\u006f\",\"longNote\":\"a\"}\n        ^^^^^^^^^",
    ),
    (
        "{\"name\":\"Io\",\n \"longNote\":7}",
        "type mismatch: expected string, got integer at line 2, column 13\n \"longNote\":7}\n            ^",
    ),
    (
        r#"{"name":"Io"}"#,
        "missing required field `long_note` at line 1, column 13\n{\"name\":\"Io\"}\n            ^",
    ),
];

/// An alias, a field that is left out, one that is skipped both ways, and no unknown fields, of which one is told as it is spelled, up to a
/// control character, and cut at 32 bytes. A duplicate is told by the name in Rust.
static ACCOUNTS: [Case<'static>; 13] = [
    (r#"{"ID":-7,"note":"x"}"#, r#"{"ID":-7,"note":"x"}"#),
    (r#"{"id":7,"note":null}"#, r#"{"ID":7}"#),
    (
        r#"{"id":7,"cache":1}"#,
        "unknown field `cache` at line 1, column 9\n{\"id\":7,\"cache\":1}\n        ^^^^^^^",
    ),
    (
        r#"{"id":7,"n\u006fte2":1}"#,
        "unknown field `n\\u006fte2` at line 1, column 9\n{\"id\":7,\"n\\u006fte2\":1}\n        ^^^^^^^^^^^^",
    ),
    (
        "{\"a\tb\":1}",
        "unknown field `a` at line 1, column 2\n{\"a\tb\":1}\n ^^^^^",
    ),
    (
        r#"{"a_name_of_thirty_three_characters":1}"#,
        "unknown field `a_name_of_thirty_three_charac...` at line 1, column 2\n{\"a_name_of_thirty_three_characters\":1}\n ^^^^^^^^^^^^^^^^^^^^^^^^^^^^^^^^^^^",
    ),
    (
        "{\n  \"id\": \"a\"}",
        "type mismatch: expected i64, got string at line 2, column 9\n  \"id\": \"a\"}\n        ^^^",
    ),
    (
        "{}",
        "missing required field `ID` at line 1, column 2\n{}\n ^",
    ),
    (
        r#"{"id":1,"ID":2}"#,
        "duplicate field `id` at line 1, column 9\n{\"id\":1,\"ID\":2}\n        ^^^^",
    ),
    (
        r#"{"id":9223372036854775808}"#,
        "number out of range for i64 at line 1, column 7\n{\"id\":9223372036854775808}\n      ^^^^^^^^^^^^^^^^^^^",
    ),
    (
        r#"{"id":18446744073709551616}"#,
        "number out of range for i64 at line 1, column 7\n{\"id\":18446744073709551616}\n      ^^^^^^^^^^^^^^^^^^^^",
    ),
    (
        "{\"id\":1",
        "unexpected end of input, expected ',' or '}' at line 1, column 8\n{\"id\":1\n       ^",
    ),
    (
        "",
        "unexpected end of input, expected value at line 1, column 1\n\n^",
    ),
];

/// A flattened struct, and a number of 128 bits.
static OUTERS: [Case<'static>; 3] = [
    (
        r#"{"id":1,"a":"x","b":340282366920938463463374607431768211455,"after":true}"#,
        r#"{"id":1,"a":"x","b":340282366920938463463374607431768211455,"after":true}"#,
    ),
    (
        r#"{"b":7,"after":false,"a":null,"more":{},"id":1}"#,
        r#"{"id":1,"a":null,"b":7,"after":false}"#,
    ),
    (
        r#"{"b":-7,"after":false,"id":1}"#,
        "number out of range for u128 at line 1, column 6\n{\"b\":-7,\"after\":false,\"id\":1}\n     ^^",
    ),
];

/// A type that holds itself.
static FOLDERS: [Case<'static>; 2] = [
    (
        r#"{"name":"a","folders":[{"name":"b","folders":[]},{"name":"c","folders":[{"name":"d","folders":[]}]}]}"#,
        r#"{"name":"a","folders":[{"name":"b","folders":[]},{"name":"c","folders":[{"name":"d","folders":[]}]}]}"#,
    ),
    (
        r#"{"name":"a","folders":[{"name":1}]}"#,
        "type mismatch: expected string, got integer at line 1, column 32\n{\"name\":\"a\",\"folders\":[{\"name\":1}]}\n                               ^",
    ),
];

/// A moon with an unknown member that is nested so many times.
fn nested(alloc: Global, depth: usize) -> Result<String, AllocError> {
    let (opening, closing) = ("[".repeat(alloc, depth)?, "]".repeat(alloc, depth)?);
    format!(in alloc; r#"{{"name":"Io","deep":{opening}{closing},"longNote":"a"}}"#)
}

#[test]
fn structs_are_read_and_written(rt: HostRuntime) -> Result<(), Fail> {
    let alloc = rt.alloc();
    expect::<Moon<'_>>(&rt, alloc, &MOONS)?;
    expect::<Account>(&rt, alloc, &ACCOUNTS)?;
    expect::<Outer>(&rt, alloc, &OUTERS)?;
    expect::<Folder<'_>>(&rt, alloc, &FOLDERS)?;
    let input = nested(alloc, 100_000)?;
    let written = r#"{"name":"Io","longNote":"a","orbitDays":0.0}"#;
    expect::<Moon<'_>>(&rt, alloc, &[(input.as_str(), written)])
}
