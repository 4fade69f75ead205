//! Texts laid out anew: worked rows, what is refused, and that a text laid out stays as it is.

use crate::expecting::expect_of;
use crate::typed::refusal;
use facet_format::{DeserializeError, DeserializeErrorKind, Span};
use facet_json::scanner::Mode;
use facet_json::{FormatOptions, Indent, format_text, format_text_strict};
use std::alloc::{AllocError, Global};
use std::process::Abort;

/// Whether the text is laid out so.
fn is_formatted(alloc: Global, text: &[u8], wanted: &[u8]) -> bool {
    match format_text(alloc, text, Mode::Jsonc, FormatOptions::new()) {
        Ok(found) => found.as_slice() == wanted,
        Err(_) => false,
    }
}

/// A text, and how it is laid out.
type Row = (&'static str, &'static str);

/// Without comments.
static PLAIN: [Row; 10] = [
    ("1", "1\n"),
    ("\n\n [ ] \n\n", "[]\n"),
    ("{\n}", "{}\n"),
    ("[1,2]", "[\n  1,\n  2\n]\n"),
    ("[1,2,]", "[\n  1,\n  2\n]\n"),
    (
        r#"{"a":1,"b":{"c":[]}}"#,
        "{\n  \"a\": 1,\n  \"b\": {\n    \"c\": []\n  }\n}\n",
    ),
    ("[\n\n1,\n\n\n2,\n3\n\n]", "[\n  1,\n\n  2,\n  3\n]\n"),
    ("[1,\r\n\r\n2]", "[\n  1,\n\n  2\n]\n"),
    (
        r#"["\u0041 b", 1.50, 007]"#,
        "[\n  \"\\u0041 b\",\n  1.50,\n  007\n]\n",
    ),
    ("{\"a\"\n:\n\n1}", "{\n  \"a\": 1\n}\n"),
];

/// With comments: in a line of their own.
static IN_OWN_LINES: [Row; 7] = [
    ("// a\n1", "// a\n1\n"),
    ("// a\n\n\n\n1\n// b", "// a\n\n1\n// b\n"),
    (
        "[\n// a\n1,\n/* b */\n2]",
        "[\n  // a\n  1,\n  /* b */\n  2\n]\n",
    ),
    ("[1,\n\n// a\n2]", "[\n  1,\n\n  // a\n  2\n]\n"),
    ("{\n\n\n// a\n}", "{\n  // a\n}\n"),
    ("[1, /* a */ 2]", "[\n  1,\n  /* a */ 2\n]\n"),
    ("[/* a\n   b */ 1]", "[\n  /* a\n   b */ 1\n]\n"),
];

/// With comments: at the end of a line.
static AT_LINE_ENDS: [Row; 9] = [
    ("1 // a", "1 // a\n"),
    ("[1, // a\n2]", "[\n  1, // a\n  2\n]\n"),
    ("[1 // a\n]", "[\n  1 // a\n]\n"),
    ("[1, // a\n]", "[\n  1 // a\n]\n"),
    ("[1 // a\n, 2]", "[\n  1 // a\n  ,\n  2\n]\n"),
    ("[ // a  \r\n1]", "[ // a\n  1\n]\n"),
    ("[1, /* a */\n2]", "[\n  1, /* a */\n  2\n]\n"),
    ("[1 /* a */, 2]", "[\n  1 /* a */,\n  2\n]\n"),
    ("{\"a\": /* b */ 1}", "{\n  \"a\": /* b */ 1\n}\n"),
];

/// Fails where a text is not laid out so, or where that does not stay as it is.
fn expect_laid_out(rt: &impl Abort, alloc: Global, rows: &[Row]) {
    for &(text, wanted) in rows {
        let wanted = wanted.as_bytes();
        let holds = is_formatted(alloc, text.as_bytes(), wanted);
        expect_of(rt, holds && is_formatted(alloc, wanted, wanted), text);
    }
}

/// How a list in a list is indented.
static INDENTED: [(Indent, &str); 3] = [
    (Indent::Tab, "[\n\t[\n\t\t1\n\t]\n]\n"),
    (Indent::Spaces(0), "[\n[\n1\n]\n]\n"),
    (Indent::Spaces(3), "[\n   [\n      1\n   ]\n]\n"),
];

/// Whether it is indented so.
fn is_indented(alloc: Global, indent: Indent, wanted: &str) -> bool {
    match format_text(alloc, b"[[1]]", Mode::Plain, FormatOptions { indent }) {
        Ok(found) => found.as_slice() == wanted.as_bytes(),
        Err(_) => false,
    }
}

#[test]
fn texts_are_laid_out(rt: HostRuntime) {
    let alloc = rt.alloc();
    expect_laid_out(&rt, alloc, &PLAIN);
    expect_laid_out(&rt, alloc, &IN_OWN_LINES);
    expect_laid_out(&rt, alloc, &AT_LINE_ENDS);
    for &(indent, wanted) in &INDENTED {
        expect_of(&rt, is_indented(alloc, indent, wanted), wanted);
    }
}

/// What stands where no document goes on.
enum Wrong {
    /// A token of this name, behind the document.
    Token(&'static str),
    /// A byte with which no token goes on.
    Byte(char),
}

/// A text, what is wrong with it, and where that stands: an offset and a length.
type Refused = (&'static str, Wrong, usize, usize);

/// What is refused where comments may not stand.
static REFUSED: [Refused; 4] = [
    ("[1] 2", Wrong::Token("U64"), 4, 1),
    ("[1],", Wrong::Token("Comma"), 3, 1),
    ("[1] // a", Wrong::Byte('/'), 4, 1),
    ("[1 x", Wrong::Byte('x'), 3, 1),
];

/// What is refused where RFC 8259 alone is read.
static REFUSED_STRICTLY: [Refused; 2] = [
    ("1 2", Wrong::Token("U64"), 2, 1),
    ("007", Wrong::Byte('?'), 0, 3),
];

/// How the row's text is refused.
fn refusal_of(row: &Refused) -> DeserializeError<'static> {
    let kind = match row.1 {
        Wrong::Token(got) => DeserializeErrorKind::UnexpectedToken {
            got,
            expected: "end of input",
        },
        Wrong::Byte(ch) => DeserializeErrorKind::UnexpectedChar {
            ch,
            expected: "valid JSON token",
        },
    };
    refusal(kind, Span::new(row.2, row.3))
}

/// Whether the text is refused so, where RFC 8259 alone is read or not.
fn is_refused(alloc: Global, row: &Refused, is_strict: bool) -> bool {
    let text = row.0.as_bytes();
    let options = FormatOptions::new();
    let answer = if is_strict {
        format_text_strict(alloc, text, options)
    } else {
        format_text(alloc, text, Mode::Plain, options)
    };
    answer.err() == Some(refusal_of(row))
}

#[test]
fn what_is_no_document_alone_is_refused(rt: HostRuntime) {
    for row in &REFUSED {
        expect_of(&rt, is_refused(rt.alloc(), row, false), row.0);
    }
    for row in &REFUSED_STRICTLY {
        expect_of(&rt, is_refused(rt.alloc(), row, true), row.0);
    }
}

// ---- texts that are laid out again

/// The tokens of a document.
static TOKENS: [&[u8]; 8] = [b"[", b"1", b",", b"{", b"\"a\"", b":", b"null", b"},]"];

/// What may stand behind them.
static GAPS: [&[u8]; 7] = [
    b" ",
    b"\n\n\n",
    b"// a \r\n",
    b"/* b */",
    b"\n/* b\n */\n",
    b" /* b */ // a\n\n\n",
    b"\n\n// a\n/**/",
];

/// A gap, and the place of the token behind which it stands.
type Gap = (usize, &'static [u8]);

/// How many of them there are.
const COUNT: usize = 56;

/// The gap of this number, where those behind one token come one after another.
fn gap_of(number: usize) -> Gap {
    (number / 7, GAPS[number % 7])
}

/// What the gap adds behind the token at this place.
fn added(gap: Gap, place: usize) -> &'static [u8] {
    if gap.0 == place { gap.1 } else { b"" }
}

/// Appends the document's text with these gaps.
fn push_tokens(text: &mut Vec<u8>, first: Gap, second: Gap) -> Result<(), AllocError> {
    for (place, token) in TOKENS.iter().enumerate() {
        text.extend_from_slice(token)?;
        text.extend_from_slice(added(first, place))?;
        text.extend_from_slice(added(second, place))?;
    }
    Ok(())
}

/// Whether a text, laid out, stays as it is.
fn stays(alloc: Global, text: &[u8]) -> bool {
    match format_text(alloc, text, Mode::Jsonc, FormatOptions::new()) {
        Ok(once) => is_formatted(alloc, once.as_slice(), once.as_slice()),
        Err(_) => false,
    }
}

/// Whether the document with these gaps, laid out, stays as it is.
fn stays_with(alloc: Global, first: Gap, second: Gap) -> bool {
    let mut text = Vec::new(alloc);
    push_tokens(&mut text, first, second).is_ok() && stays(alloc, text.as_slice())
}

/// Whether it does with this gap and each other one.
fn stays_with_each(alloc: Global, first: Gap) -> bool {
    for number in 0..COUNT {
        if !stays_with(alloc, first, gap_of(number)) {
            return false;
        }
    }
    true
}

#[test]
fn what_is_laid_out_stays(rt: HostRuntime) {
    for number in 0..COUNT {
        let holds = stays_with_each(rt.alloc(), gap_of(number));
        assert!(rt; holds, "with the gap {number}");
    }
}
