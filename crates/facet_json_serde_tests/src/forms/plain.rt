//! Numbers, texts, tuples, maps, and the structs that are no maps.

use crate::forms::again::{Case, expect};
use serde::{Deserialize, Serialize};
use std::collections::BTreeMap;
use std::test::Fail;

#[derive(Drop, Serialize, Deserialize)]
struct Unit;

#[derive(Drop, Serialize, Deserialize)]
struct Metres(f64);

#[derive(Drop, Serialize, Deserialize)]
struct Row(i128, Option<Unit>, String);

/// Floats: the nearest to the text, whatever its form; `-0` keeps its sign; what is not finite is refused.
static FLOATS: [Case<'static>; 8] = [
    ("-0", "-0.0"),
    ("0.1", "0.1"),
    ("1e300", "1e300"),
    ("5e-324", "5e-324"),
    ("18446744073709551616", "1.8446744073709552e19"),
    ("9007199254740993", "9007199254740992.0"),
    (
        "1e309",
        "number out of range for f64 at line 1, column 1\n1e309\n^^^^^",
    ),
    (
        "null",
        "type mismatch: expected f64, got null at line 1, column 1\nnull\n^^^^",
    ),
];

/// A struct with one part is that part, one without is null, and one with several is a list.
static ROWS: [Case<'static>; 4] = [
    (
        r#"[-170141183460469231731687303715884105728,null,"x"]"#,
        r#"[-170141183460469231731687303715884105728,null,"x"]"#,
    ),
    (
        "[170141183460469231731687303715884105728]",
        "number out of range for i128 at line 1, column 2\n[170141183460469231731687303715884105728]\n ^^^^^^^^^^^^^^^^^^^^^^^^^^^^^^^^^^^^^^^",
    ),
    (
        r#"[1,null]"#,
        "invalid length at line 1, column 8\n[1,null]\n       ^",
    ),
    (
        r#"[1,null,18446744073709551616]"#,
        "type mismatch: expected string, got integer at line 1, column 9\n[1,null,18446744073709551616]\n        ^^^^^^^^^^^^^^^^^^^^",
    ),
];

/// Maps: keys that are whole numbers stand between quotes, as numbers of RFC 8259.
static COUNTS: [Case<'static>; 5] = [
    (r#"{"2":true,"-1":false,}"#, r#"{"-1":false,"2":true}"#),
    (
        r#"{"+1":true}"#,
        "invalid value at line 1, column 2\n{\"+1\":true}\n ^^^^",
    ),
    (
        r#"{"01":true}"#,
        "invalid value at line 1, column 2\n{\"01\":true}\n ^^^^",
    ),
    (
        r#"{"1":18446744073709551616}"#,
        "type mismatch: expected bool, got integer at line 1, column 6\n{\"1\":18446744073709551616}\n     ^^^^^^^^^^^^^^^^^^^^",
    ),
    (
        r#"{"x":true}"#,
        "invalid value at line 1, column 2\n{\"x\":true}\n ^^^",
    ),
];

/// Options in a list, and tuples in one.
static OPTIONS: [Case<'static>; 2] = [
    (r#"[null,[true,"\u00e9"],]"#, "[null,[true,\"\u{e9}\"]]"),
    (
        r#"[[true,"ab"]]"#,
        "invalid value at line 1, column 8\n[[true,\"ab\"]]\n       ^^^^",
    ),
];

/// Texts and maps of them, with escapes.
static WORDS: [Case<'static>; 2] = [
    (r#"{"a\n":"x\ty","b":"c"}"#, r#"{"a\n":"x\ty","b":"c"}"#),
    (
        r#"{"a":["b"]}"#,
        "type mismatch: expected string, got array at line 1, column 6\n{\"a\":[\"b\"]}\n     ^",
    ),
];

#[test]
fn plain_types_are_read_and_written(rt: HostRuntime) -> Result<(), Fail> {
    let alloc = rt.alloc();
    expect::<Metres>(&rt, alloc, &FLOATS)?;
    expect::<Row>(&rt, alloc, &ROWS)?;
    expect::<BTreeMap<i64, bool>>(&rt, alloc, &COUNTS)?;
    expect::<Vec<Option<(bool, char)>>>(&rt, alloc, &OPTIONS)?;
    expect::<BTreeMap<String, String>>(&rt, alloc, &WORDS)
}
