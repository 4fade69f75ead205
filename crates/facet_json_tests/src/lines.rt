//! JSON lines: which bytes are the lines, which are refused, and that reading goes on after that, however the bytes come.

use crate::error_samples::is_displayed;
use crate::expecting::expect_of;
use crate::typed::is_text;
use facet_format::Span;
use facet_json::{Line, LineError, Lines, from_slice_borrowed};
use facet_json_examples::log_filter::errors_in;
use std::alloc::Global;
use std::io;
use std::io::{BufReader, ErrorKind, Read};

/// Gives its bytes a few at a time, and fails at one read, counted from 0.
#[derive(Drop)]
struct Pieces<'a> {
    left: &'a [u8],
    longest: usize,
    reads: usize,
    fails_at: usize,
    kind: ErrorKind,
}

impl Read for Pieces<'_> {
    fn read(&mut self, buf: &mut [u8]) -> io::Result<usize> {
        let at = self.reads;
        self.reads = at.saturating_add(1);
        if at == self.fails_at {
            return Err(io::Error::from(self.kind));
        }
        let n = self.left.len().min(buf.len()).min(self.longest);
        buf[..n].copy_from_slice(&self.left[..n]);
        self.left = &self.left[n..];
        Ok(n)
    }
}

/// A line that comes: its number with its text, or with none where the line is too long.
type Wanted<'s> = (usize, Option<&'s str>);

/// An input, a limit, and the lines that come.
type Row = (&'static str, usize, &'static [Wanted<'static>]);

static ROWS: [Row; 16] = [
    ("", 9, &[]),
    ("\n", 9, &[]),
    (" \n\r\n\t", 9, &[]),
    ("1", 9, &[(1, Some("1"))]),
    ("1\n", 9, &[(1, Some("1"))]),
    ("1\n2", 9, &[(1, Some("1")), (2, Some("2"))]),
    ("1\r\n2\r\n", 9, &[(1, Some("1\r")), (2, Some("2\r"))]),
    (
        "\n\n[1]\n  \n[2]\n\n",
        9,
        &[(3, Some("[1]")), (5, Some("[2]"))],
    ),
    (
        "[1]\n]x\n[2]\n",
        9,
        &[(1, Some("[1]")), (2, Some("]x")), (3, Some("[2]"))],
    ),
    ("123\n4\n", 3, &[(1, Some("123")), (2, Some("4"))]),
    ("1234\n5\n", 3, &[(1, None), (2, Some("5"))]),
    ("1\n2345", 3, &[(1, Some("1")), (2, None)]),
    ("1\n2345\n", 3, &[(1, Some("1")), (2, None)]),
    (
        "12345678\n\n87654321\n1",
        3,
        &[(1, None), (3, None), (4, Some("1"))],
    ),
    ("    \n1", 3, &[(1, None), (2, Some("1"))]),
    ("\n1\n\n", 0, &[(2, None)]),
];

/// Whether a line that came, or the end, is the wanted one.
fn is_line(line: Option<Line<'_>>, wanted: Option<&Wanted<'_>>) -> bool {
    match (line, wanted) {
        (Some(line), Some((number, Some(text)))) => {
            line.number == *number && line.text == text.as_bytes()
        }
        (None, None) => true,
        _ => false,
    }
}

/// Whether this line, or the end, was told; none where a failure was.
fn is_told(came: Result<Option<Line<'_>>, LineError>, wanted: Option<&Wanted<'_>>) -> Option<bool> {
    match came {
        Ok(line) => Some(is_line(line, wanted)),
        Err(LineError::TooLong { number }) => Some(
            matches!(wanted, Some((at, None)) if *at == number),
        ),
        Err(LineError::Memory | LineError::Io(_)) => None,
    }
}

/// How the bytes come: the reader's buffer, the longest read, and which one fails.
struct Way {
    buffer: usize,
    longest: usize,
    fails_at: usize,
    kind: ErrorKind,
}

/// How often a failure was told where these lines came, and then the end; none where others came.
fn failures_told<R: Read>(
    lines: &mut Lines<BufReader<R>>,
    expected: &[Wanted<'_>],
) -> Option<usize> {
    let mut failed: usize = 0;
    for at in 0..=expected.len() {
        let mut is_right = is_told(lines.next_line(), expected.get(at));
        if is_right.is_none() {
            failed = failed.saturating_add(1);
            is_right = is_told(lines.next_line(), expected.get(at));
        }
        if is_right != Some(true) {
            return None;
        }
    }
    Some(failed)
}

/// How many lines of the row fail, whose bytes come this way.
fn failures(alloc: Global, row: &Row, way: Way) -> Option<usize> {
    let Way {
        buffer,
        longest,
        fails_at,
        kind,
    } = way;
    let reader = Pieces {
        left: row.0.as_bytes(),
        longest,
        reads: 0,
        fails_at,
        kind,
    };
    let reader = BufReader::with_capacity(alloc, buffer, reader).ok()?;
    failures_told(&mut Lines::new(alloc, reader, row.1), row.2)
}

/// Sizes of a buffer, and how many bytes a read gives at most.
#[rattlefmt::skip]
static SIZES: [(usize, usize); 12] = [
    (1, 1), (1, 3), (1, 64), (2, 1), (2, 3), (2, 64), (5, 1), (5, 3), (5, 64), (64, 1), (64, 3), (64, 64),
];

/// Whether the row's lines come by each of these sizes.
fn come(alloc: Global, row: &Row) -> bool {
    for &(buffer, longest) in &SIZES {
        let way = Way {
            buffer,
            longest,
            fails_at: usize::MAX,
            kind: ErrorKind::Other,
        };
        if failures(alloc, row, way) != Some(0) {
            return false;
        }
    }
    true
}

/// Whether so many failures of the row are told, where each read that gives a byte fails in turn.
fn fail(alloc: Global, row: &Row, kind: ErrorKind, told: usize) -> bool {
    for fails_at in 0..row.0.len() {
        let way = Way {
            buffer: 4,
            longest: 1,
            fails_at,
            kind,
        };
        if failures(alloc, row, way) != Some(told) {
            return false;
        }
    }
    true
}

#[test]
fn lines_come_however_the_bytes_do(rt: HostRuntime) {
    let alloc = rt.alloc();
    for row in &ROWS {
        let holds = come(alloc, row)
            && fail(alloc, row, ErrorKind::BrokenPipe, 1)
            && fail(alloc, row, ErrorKind::Interrupted, 0);
        expect_of(&rt, holds, row.0);
    }
}

/// Where a line is refused: its number, and the span on it.
type Refused = Option<(usize, Option<Span>)>;

/// The sum of the numbers that are lines, and the line of the first that is none, with where on it the refusal stands.
fn summed(alloc: Global, input: &[u8]) -> Result<(u64, Refused), LineError> {
    let mut lines = Lines::new(alloc, input, 99);
    let mut sum: u64 = 0;
    let mut refused = None;
    while let Some(line) = lines.next_line()? {
        match line.value_strict::<u64>(alloc) {
            Ok(number) => sum = sum.saturating_add(number),
            Err(error) => refused = refused.or(Some((line.number, error.span))),
        }
    }
    Ok((sum, refused))
}

/// Inputs, the sum of the numbers in them, and the first line that is refused.
static SUMS: [(&str, u64, Refused); 5] = [
    ("", 0, None),
    ("1\n2\r\n39", 42, None),
    (
        "1\n2 3\n4\n",
        5,
        Some((2, Some(Span { offset: 2, len: 1 }))),
    ),
    (
        "1\n\n\n[\n4\n{\n",
        5,
        Some((4, Some(Span { offset: 0, len: 1 }))),
    ),
    ("7\n1e\n", 7, Some((2, Some(Span { offset: 0, len: 2 })))),
];

/// Whether the next line is this text, lent and owned.
fn is_next(alloc: Global, lines: &mut Lines<&[u8]>, text: &str) -> bool {
    match lines.next_line() {
        Ok(Some(line)) => {
            from_slice_borrowed::<&str>(alloc, line.text) == Ok(text)
                && is_text(line.value::<String>(alloc), text)
        }
        _ => false,
    }
}

/// Whether the lines of the input are these two texts.
fn are_texts(alloc: Global, input: &str, first: &str, second: &str) -> bool {
    let mut lines = Lines::new(alloc, input.as_bytes(), 9);
    is_next(alloc, &mut lines, first) && is_next(alloc, &mut lines, second)
}

/// A log of which two records are of errors. The second line is no record, and the fourth is cut.
const LOG: &str =
    "{\"level\":\"error\"}\nstarted\n{\"level\":\"warning\"}\n{\"level\":\n{\"at\":[1],\"level\":\"error\",\"code\":7}";

#[test]
fn values_are_read_of_lines(rt: HostRuntime) {
    let alloc = rt.alloc();
    for &(input, sum, refused) in &SUMS {
        let read = summed(alloc, input.as_bytes()).ok();
        expect_of(&rt, read == Some((sum, refused)), input);
    }
    let texts = "\"a\"\n\"b\" x";
    expect_of(&rt, are_texts(alloc, texts, "a", "b"), texts);
    expect_of(&rt, errors_in(alloc, LOG.as_bytes()).ok() == Some(2), LOG);
}

#[test]
fn refusals_have_a_message(rt: HostRuntime) {
    let alloc = rt.alloc();
    let long = LineError::TooLong { number: 12 };
    let failed = LineError::Io(io::Error::from(ErrorKind::BrokenPipe));
    let holds = is_displayed(alloc, &long, "line 12 is too long") == Some(true)
        && is_displayed(alloc, &LineError::Memory, "out of memory") == Some(true)
        && is_displayed(alloc, &failed, "I/O error: broken pipe") == Some(true);
    assert!(rt; holds);
}
