//! How `transcode` refuses where a parser has read some events before.

use crate::written::is_text;
use facet_format::{DeserializeErrorKind as Kind, FormatParser, Span};
use facet_json_core::{TranscodeError, transcode};
use facet_json_parser::JsonParser;
use facet_json_serializer::JsonSerializer;
use std::alloc::Global;

/// An input, how many of its events are read before, and how what comes is refused: the kind, and the span's offset and length.
type Row = (&'static [u8], usize, Kind<'static>, usize, usize);

/// Where no value begins, and where no event comes.
#[rattlefmt::skip]
static ROWS: [Row; 8] = [
    (b"{\"a\":1}", 1, Kind::TypeMismatch { expected: "value", got: "key" }, 1, 3),
    (b"{\"a\":1,\"b\":2}", 3, Kind::TypeMismatch { expected: "value", got: "key" }, 7, 3),
    (b"{}", 1, Kind::TypeMismatch { expected: "value", got: "end" }, 1, 1),
    (b"[]", 1, Kind::TypeMismatch { expected: "value", got: "end" }, 1, 1),
    (b"[1]", 2, Kind::TypeMismatch { expected: "value", got: "end" }, 2, 1),
    (b"{\"a\":1}", 3, Kind::TypeMismatch { expected: "value", got: "end" }, 6, 1),
    (b"1", 1, Kind::UnexpectedEof { expected: "value" }, 1, 0),
    (b"[1,", 2, Kind::UnexpectedEof { expected: "value or ']'" }, 3, 0),
];

/// Whether so many events come.
fn passes(parser: &mut JsonParser<'_>, events: usize) -> bool {
    for _ in 0..events {
        if parser.next_event().is_err() {
            return false;
        }
    }
    true
}

/// Whether the refusal is the parser's, and the row's.
fn is_refusal(answer: &Result<(), TranscodeError<'_>>, row: &Row) -> bool {
    match answer {
        Err(TranscodeError::Read(error)) => {
            error.kind == row.2 && error.span == Some(Span::new(row.3, row.4))
        }
        _ => false,
    }
}

/// Whether `transcode` refuses what comes as the row says, and nothing was written before.
fn is_refused(alloc: Global, parser: &mut JsonParser<'_>, row: &Row) -> bool {
    let mut serializer = JsonSerializer::new(alloc);
    let passed = transcode(parser, &mut serializer);
    is_refusal(&passed, row) && is_text(&serializer.finish(), "") == Some(true)
}

#[test]
fn no_value_begins_or_no_event_comes(rt: HostRuntime) {
    let alloc = rt.alloc();
    for row in &ROWS {
        let mut parser = JsonParser::new(alloc, row.0);
        assert!(rt; passes(&mut parser, row.1) && is_refused(alloc, &mut parser, row));
    }
}
