//! The entry functions: with comments, strict, of a whole input, from bytes, from a reader and to a writer.

use crate::forms::again::{are_bytes, expect_text, shown, told, written};
use facet_json_serde::{
    from_reader, from_slice, from_slice_strict, from_slice_whole, from_str_jsonc, from_str_strict,
    to_vec, to_writer,
};
use std::alloc::Global;
use std::test::Fail;

#[test]
fn languages_are_told_apart(rt: HostRuntime) -> Result<(), Fail> {
    let alloc = rt.alloc();
    assert!(rt; from_slice(alloc, b"7 x").ok() == Some(7u8));
    assert!(rt; from_str_jsonc(alloc, "/* c */ 7 // x").ok() == Some(7u8));
    assert!(rt; from_slice_strict(alloc, b" 7\n").ok() == Some(7u8));
    assert!(rt; from_slice_whole(alloc, b"[1,2,] \n").ok() == Some((1u8, 2u8)));
    let read = written::<u8>(alloc, from_str_strict(alloc, "7 x"));
    let refused =
        "unexpected character 'x', expected valid JSON token at line 1, column 3\n7 x\n  ^";
    expect_text(&rt, told(alloc, read, "7 x"), refused)?;
    let read = written::<u8>(alloc, from_slice_whole(alloc, b"7 x y"));
    let refused = "trailing characters at line 1, column 3\n7 x y\n  ^^^";
    expect_text(&rt, told(alloc, read, "7 x y"), refused)
}

#[test]
fn errors_have_lines_and_columns(rt: HostRuntime) -> Result<(), Fail> {
    let alloc = rt.alloc();
    let read = written::<bool>(alloc, from_slice(alloc, b"\n 7"));
    let refused = "type mismatch: expected bool, got integer at line 2, column 2";
    expect_text(
        &rt,
        shown(alloc, read.map_err(|error| error.at("\n 7"))),
        refused,
    )
}

/// Whether the numbers are written so to a writer.
fn are_streamed(alloc: Global, numbers: &Vec<u16>, text: &[u8]) -> bool {
    let mut output = Vec::new(alloc);
    let answer = to_writer(alloc, &mut output, numbers);
    answer.is_ok() & (output.as_slice() == text)
}

#[test]
fn streams_are_read_and_written(rt: HostRuntime) -> Result<(), Fail> {
    let (alloc, mut input) = (rt.alloc(), b"[1, 2, 3]".as_slice());
    let numbers: Vec<u16> = from_reader(alloc, &mut input)?;
    let text = b"[1,2,3]";
    assert!(rt; are_streamed(alloc, &numbers, text) & are_bytes(to_vec(alloc, &numbers), text));
    Ok(())
}
