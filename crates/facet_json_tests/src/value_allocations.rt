//! Failed allocations. With ample memory these tests pass as any other does. `checks/allocations` runs them once more for each
//! of their requests for memory, which is refused, and they have to pass in every such run. Each is tried twice, its set-up too: as one
//! request is refused in a run, memory runs out in one of the two at most, and the other gives the whole answer. What types read where
//! memory runs out, the rows `marked read` of `facet_json_rows` say.

use crate::documents::{is_of, is_written as writes_document, tree_at};
use crate::expecting::expect_of;
use crate::finding::number_at;
use crate::twice::but_once;
use crate::typed::is_written;
use facet_format::{DeserializeError, DeserializeErrorKind, FormatParser, ParseError};
use facet_json::scanner::Mode;
use facet_json::steps::{FindError, begin_object, find_pointer};
use facet_json::{Document, FormatOptions, Line, LineError, Lines, format_text, to_vec, tree};
use facet_json_facet::Facet;
use facet_json_parser::JsonParser;
use facet_json_tree::Tree;
use std::alloc::{AllocError, Global};
use std::process::Abort;

/// An object or a list, the number that is found in it, as it is written, and the last token before each event for which the parser may
/// want memory.
type Search<'s> = (&'s str, &'s str, &'s [(usize, usize)]);

/// Objects in which the number at the key `ab` is searched.
#[rattlefmt::skip]
static SEARCHES: [Search<'static>; 3] = [
    ("{\"\\u0062\":1,\"\\u0061b\":2}", "2", &[(0, 0), (0, 1), (10, 1)]),
    ("{\"a\":[[[[[[[[[[[[[[[[[[[[[[[[[[[[[[[[[[[[[[[[[[[[[[[[[[[[[[[[[[[[[[[[[]]]]]]]]]]]]]]]]]]]]]]]]]]]]]]]]]]]]]]]]]]]]]]]]]]]]]]]]]]]]]]]]],\"ab\":2}",
        "2", &[(0, 0), (4, 1)]),
    ("{\"\\n\":1}", "null", &[(0, 0), (0, 1)]),
];

/// The number at the key `ab` of an object.
fn number_at_ab<'t>(
    alloc: Global,
    parser: &mut JsonParser<'_>,
) -> Result<Option<u64>, DeserializeError<'t>> {
    begin_object(parser)?;
    number_at(alloc, parser, "ab")
}

/// Objects in which the number that `/a~1b/0/ab` names is searched.
#[rattlefmt::skip]
static POINTED: [Search<'static>; 2] = [
    ("{\"a/b\":[{\"\\u0062\":1,\"\\u0061b\":2}]}", "2", &[(0, 0), (6, 1), (7, 1), (8, 1), (18, 1)]),
    ("{\"\\u0061/b\":[[]]}", "null", &[(0, 0), (0, 1), (11, 1), (12, 1)]),
];

/// The number that the pointer names.
fn number_pointed<'t>(
    alloc: Global,
    parser: &mut JsonParser<'_>,
) -> Result<Option<u64>, DeserializeError<'t>> {
    match find_pointer(parser, "/a~1b/0/ab") {
        Ok(true) => Ok(Some(u64::read_owned(alloc, parser)?)),
        Ok(false) | Err(FindError::Pointer(_)) => Ok(None),
        Err(FindError::Read(error)) => Err(error),
    }
}

/// Whether a refusal tells that memory ran out at one of the search's tokens, and the parser stands where it stood and repeats that.
fn is_want(error: &DeserializeError<'_>, search: &Search<'_>, parser: &mut JsonParser<'_>) -> bool {
    let Some(span) = error.span else {
        return false;
    };
    let lacks = DeserializeErrorKind::OutOfMemory;
    error.kind == lacks
        && search.2.contains(&(span.offset, span.len))
        && parser.current_span() == Some(span)
        && parser.next_event().err() == Some(ParseError::new(span, lacks))
}

/// Whether the search, by the pointer or by the key, finds its number; none where memory ran out.
fn finds(alloc: Global, search: &Search<'_>, by_pointer: bool) -> Option<bool> {
    let mut parser = JsonParser::new(alloc, search.0.as_bytes());
    let answer = if by_pointer {
        number_pointed(alloc, &mut parser)
    } else {
        number_at_ab(alloc, &mut parser)
    };
    match answer {
        Ok(number) => is_written(to_vec(alloc, &number), search.1),
        Err(error) if is_want(&error, search, &mut parser) => None,
        Err(_) => Some(false),
    }
}

/// Fails where it does not, tried twice.
fn expect_found(rt: &impl Abort, alloc: Global, searches: &[Search<'_>], by_pointer: bool) {
    for search in searches {
        let holds = but_once(
            finds(alloc, search, by_pointer),
            finds(alloc, search, by_pointer),
        );
        expect_of(rt, holds, search.0);
    }
}

#[test]
fn a_growth_is_refused_in_a_search(rt: HostRuntime) {
    expect_found(&rt, rt.alloc(), &SEARCHES, false);
    expect_found(&rt, rt.alloc(), &POINTED, true);
}

/// The sum of the numbers that are lines, where a call that is refused memory is made again.
fn sum_of_lines(alloc: Global) -> Option<u64> {
    let mut lines = Lines::new(alloc, "1\n20 \n[]\n\n123456789\n300".as_bytes(), 8);
    let mut sum: u64 = 0;
    for _ in 0..9 {
        match number_of(alloc, lines.next_line()) {
            Next::Number(number) => sum = sum.saturating_add(number),
            Next::End => return Some(sum),
            Next::Failure => return None,
        }
    }
    None
}

/// What a call for the next line gives.
enum Next {
    /// The line's number; 0 where it has none, where it is refused, and where memory is.
    Number(u64),
    /// There is no line any more.
    End,
    /// The read failed.
    Failure,
}

/// What its answer is.
fn number_of(alloc: Global, answer: Result<Option<Line<'_>>, LineError>) -> Next {
    match answer {
        Ok(Some(line)) => Next::Number(line.value(alloc).unwrap_or(0)),
        Ok(None) => Next::End,
        Err(LineError::TooLong { .. } | LineError::Memory) => Next::Number(0),
        Err(LineError::Io(_)) => Next::Failure,
    }
}

#[test]
fn a_growth_is_refused_in_a_line(rt: HostRuntime) {
    assert!(rt; sum_of_lines(rt.alloc()) == Some(321));
}

/// A list with this tree, a text and a list in it.
fn made_list(alloc: Global, lent: &Tree) -> Result<Tree, AllocError> {
    tree!(in alloc; ["b", [null], lent])
}

/// An object with an object in it.
fn made_object(alloc: Global) -> Result<Tree, AllocError> {
    tree!(in alloc; {"c": 1u8, "d": {}})
}

/// An object of a list that is lent this tree, an object of this name, and the tree itself.
fn made_with(alloc: Global, name: &str, lent: Tree) -> Result<Tree, AllocError> {
    let list = made_list(alloc, &lent)?;
    tree!(in alloc; {"list": list, (name): made_object(alloc)?, "tree": lent})
}

/// A tree in which each part that takes memory stands in a list and in an object.
fn made_tree(alloc: Global, name: &str) -> Result<Tree, AllocError> {
    let lent = tree!(in alloc; [name])?;
    made_with(alloc, name, lent)
}

/// The text of it.
const MADE_TREE: &str =
    "{\"list\":[\"b\",[null],[\"a\"]],\"a\":{\"c\":1,\"d\":{}},\"tree\":[\"a\"]}";

/// Whether the tree is made whole.
fn is_made(alloc: Global) -> Option<bool> {
    match made_tree(alloc, "a") {
        Ok(tree) => is_written(to_vec(alloc, &tree), MADE_TREE),
        Err(_) => None,
    }
}

/// A text that is laid out, and how.
const TO_LAY_OUT: (&str, &str) = (
    "{\"\\u0061\":[1,],// a\n}",
    "{\n  \"\\u0061\": [\n    1\n  ] // a\n}\n",
);

/// Whether it is laid out so, or memory ran out.
fn lays_out(alloc: Global) -> Option<bool> {
    let (text, wanted) = TO_LAY_OUT;
    match format_text(alloc, text.as_bytes(), Mode::Jsonc, FormatOptions::new()) {
        Ok(found) => Some(found.as_slice() == wanted.as_bytes()),
        Err(error) if error.kind == DeserializeErrorKind::OutOfMemory => None,
        Err(_) => Some(false),
    }
}

/// Whether a text with an escape, a container within another and a number past 64 bits is read into nodes, if memory suffices.
fn is_in_nodes(alloc: Global) -> Option<bool> {
    let text = "[{\"\\u0061\":18446744073709551616},\"\\n\"]";
    match Document::parse(alloc, text.as_bytes()) {
        Ok(document) => Some(document.root().len() == Some(2)),
        Err(error) if error.kind == DeserializeErrorKind::OutOfMemory => None,
        Err(_) => Some(false),
    }
}

/// Whether the tree of a document's value is taken of its nodes, if memory suffices: texts, a number, and containers within others.
fn is_taken(alloc: Global) -> Option<bool> {
    let text = r#"[{"\u0061":18446744073709551616,"b":[1.5,[]]},"c"]"#;
    let taken = tree_at(alloc, text, "")?;
    is_of(alloc, &taken, text)
}

/// Whether a document's value is written, if memory suffices.
fn is_written_again(alloc: Global) -> Option<bool> {
    let text = "[{\"\\u0061\":18446744073709551616,\"b\":[1.5,[]]},\"c\"]";
    let wanted =
        "[[{\"a\":\"18446744073709551616\",\"b\":[1.5,[]]},\"c\"],[{\"a\":\"18446744073709551616\",\"b\":[1.5,[]]},\"c\"]]";
    writes_document(alloc, text, wanted)
}

#[test]
fn a_growth_is_refused_in_a_document(rt: HostRuntime) {
    let alloc = rt.alloc();
    let made = but_once(is_made(alloc), is_made(alloc));
    expect_of(&rt, made, "a tree that is written down");
    let laid_out = but_once(lays_out(alloc), lays_out(alloc));
    expect_of(&rt, laid_out, "a layout");
    let in_nodes = but_once(is_in_nodes(alloc), is_in_nodes(alloc));
    expect_of(&rt, in_nodes, "a document");
    let taken = but_once(is_taken(alloc), is_taken(alloc));
    expect_of(&rt, taken, "a tree that is taken of a document");
    let written = but_once(is_written_again(alloc), is_written_again(alloc));
    expect_of(&rt, written, "a value that is written");
}
