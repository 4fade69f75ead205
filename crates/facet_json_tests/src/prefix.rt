//! Values with where their documents end, and documents one after another.

use crate::expecting::expect_of;
use facet_format::Span;
use facet_json::{Documents, from_slice_prefix, from_str_prefix};
use std::alloc::Global;

/// Inputs that begin with a number, the number, and the offset at which it ends.
static NUMBERS: [(&str, u8, usize); 7] = [
    ("7", 7, 1),
    (" 7 8", 7, 2),
    ("7,8", 7, 1),
    ("7 x", 7, 1),
    ("7\n\n8", 7, 1),
    ("\t255]", 255, 4),
    ("0\"", 0, 1),
];

/// Whether the number and its end are read from bytes and from a text.
fn is_read(alloc: Global, input: &str, number: u8, end: usize) -> bool {
    from_slice_prefix(alloc, input.as_bytes()) == Ok((number, end))
        && from_str_prefix(alloc, input) == Ok((number, end))
}

/// Lists, and the offset after their bracket.
static LISTS: [(&str, usize); 5] = [
    ("[]", 2),
    ("[1,2,] [3]", 6),
    (" [ 1 ] ", 6),
    ("[1]]", 3),
    ("[1][", 3),
];

/// The end of the list of numbers that the input begins with.
fn list_end(alloc: Global, input: &str) -> Option<usize> {
    match from_str_prefix::<Vec<u8>>(alloc, input) {
        Ok((_, end)) => Some(end),
        Err(_) => None,
    }
}

/// The end of the text that the input begins with, where it is this one.
fn text_end(alloc: Global, input: &[u8], wanted: &str) -> Option<usize> {
    match from_slice_prefix::<String>(alloc, input) {
        Ok((text, end)) if text.as_str() == wanted => Some(end),
        _ => None,
    }
}

/// What is left of the input behind these texts, where they stand one after another.
fn behind<'i>(alloc: Global, input: &'i [u8], texts: &[&str]) -> Option<&'i [u8]> {
    let mut left = input;
    for text in texts {
        left = left.get(text_end(alloc, left, text)?..)?;
    }
    Some(left)
}

#[test]
fn values_end_where_they_do(rt: HostRuntime) {
    let alloc = rt.alloc();
    for &(input, number, end) in &NUMBERS {
        expect_of(&rt, is_read(alloc, input, number, end), input);
    }
    for &(input, end) in &LISTS {
        expect_of(&rt, list_end(alloc, input) == Some(end), input);
    }
}

/// Inputs of numbers one after another: their sum, how many there are before a refusal or the end, the offset up to which the input was
/// read then, and where the refusal stands, if one comes.
static STREAMS: [(&str, u64, usize, usize, Option<Span>); 9] = [
    ("", 0, 0, 0, None),
    (" \n", 0, 0, 2, None),
    ("1 2\n3", 6, 3, 5, None),
    ("\n1\n2\n", 3, 2, 5, None),
    ("1,2", 1, 1, 3, Some(Span { offset: 1, len: 1 })),
    ("1 2 [", 3, 2, 5, Some(Span { offset: 4, len: 1 })),
    ("1 // 2", 1, 1, 6, Some(Span { offset: 2, len: 1 })),
    ("7 300 8", 7, 1, 7, Some(Span { offset: 2, len: 3 })),
    ("7 \"", 7, 1, 3, Some(Span { offset: 2, len: 1 })),
];

/// The sum of the numbers before a refusal or the end, how many they are, and where the refusal stands.
fn summed(documents: &mut Documents<'_, u8>) -> (u64, usize, Option<Span>) {
    let mut sum: u64 = 0;
    let mut count: usize = 0;
    while let Some(number) = documents.next() {
        match number {
            Ok(number) => sum = sum.wrapping_add(u64::from(number)),
            Err(error) => return (sum, count, error.span),
        }
        count = count.wrapping_add(1);
    }
    (sum, count, None)
}

/// Whether the numbers of a row are read so, and none comes after them.
fn is_summed(alloc: Global, row: &(&str, u64, usize, usize, Option<Span>)) -> bool {
    let mut documents = Documents::new(alloc, row.0.as_bytes());
    summed(&mut documents) == (row.1, row.2, row.4)
        && documents.offset() == row.3
        && documents.next().is_none()
}

#[test]
fn documents_stand_one_after_another(rt: HostRuntime) {
    let alloc = rt.alloc();
    for row in &STREAMS {
        expect_of(&rt, is_summed(alloc, row), row.0);
    }
    let texts = "\"a\"\"\" \"b\\u0063\"\n\"d\"".as_bytes();
    assert!(rt; behind(alloc, texts, &["a", "", "bc", "d"]) == Some(b""));
}
