//! A report about a place of a source, as compilers write it.

use crate::excerpt::Excerpt;
use crate::shown::columns;
use facet_json::{JsonErrorKind, Position, Span, position_at};
use std::alloc::Global;
use std::io::Write;
use std::{fmt, io};

/// A report about a place of a source: where and what, the line with carets below what is meant, what to do, and another place that helps.
///
/// ```text
/// settings.json:3:3: unexpected token: got String, expected ',' or '}'
///   "listen": {
///   ^^^^^^^^ a comma is missing before this key
/// opened here: 1:1
/// ```
#[derive(Clone, Copy)]
pub struct Report<'a> {
    /// What the source is called.
    pub name: &'a str,
    /// The source.
    pub source: &'a [u8],
    /// The bytes that are meant.
    pub span: Span,
    /// What is wrong.
    pub kind: &'a JsonErrorKind,
    /// What a person can do.
    pub advice: &'a str,
    /// Another place.
    pub aside: Option<Aside>,
}

/// Another place that a report names.
#[derive(Clone, Copy)]
pub struct Aside {
    /// What it is.
    pub what: &'static str,
    /// Where it is, in bytes.
    pub offset: usize,
}

/// What begins and ends the parts of a report that stand out on a terminal (ECMA-48, section 8.3.117).
#[derive(Clone, Copy)]
pub struct Colours {
    place: &'static str,
    marks: &'static str,
    end: &'static str,
}

impl Colours {
    /// Those of a terminal, or none.
    pub fn new(are_shown: bool) -> Colours {
        if are_shown {
            Colours {
                place: "\x1B[1m",
                marks: "\x1B[1;31m",
                end: "\x1B[0m",
            }
        } else {
            Colours {
                place: "",
                marks: "",
                end: "",
            }
        }
    }
}

/// A character so many times.
#[derive(Clone, Copy)]
struct Row {
    character: char,
    count: usize,
}

impl fmt::Display for Row {
    fn fmt<W: fmt::Write>(&self, f: &mut fmt::Formatter<W>) -> fmt::Result {
        for _i in 0..self.count {
            f.write_char(self.character)?;
        }
        Ok(())
    }
}

/// Writes the report, three or four lines.
pub fn write_report<W: Write>(
    alloc: Global,
    report: &Report<'_>,
    colours: Colours,
    output: &mut W,
) -> io::Result<()> {
    let excerpt = Excerpt::of(alloc, report.source, report.span)?;
    write_message(report, colours, output)?;
    write_excerpt(&excerpt, report.advice, colours, output)?;
    match report.aside {
        Some(aside) => write_aside(report.source, aside, output),
        None => Ok(()),
    }
}

/// Writes where and what is wrong.
fn write_message<W: Write>(
    report: &Report<'_>,
    colours: Colours,
    output: &mut W,
) -> io::Result<()> {
    let Position { line, column } = position_at(report.source, report.span.offset);
    let Report { name, kind, .. } = report;
    let Colours { place, end, .. } = colours;
    writeln!(output, "{place}{name}:{line}:{column}:{end} {kind}")
}

/// Writes the line, and below it what to do about what is marked.
fn write_excerpt<W: Write>(
    excerpt: &Excerpt,
    advice: &str,
    colours: Colours,
    output: &mut W,
) -> io::Result<()> {
    let Excerpt {
        before,
        rest,
        marks: count,
    } = excerpt;
    let blanks = Row {
        character: ' ',
        count: columns(before.as_str()),
    };
    let carets = Row {
        character: '^',
        count: *count,
    };
    let Colours { marks, end, .. } = colours;
    writeln!(output, "{before}{rest}")?;
    writeln!(output, "{blanks}{marks}{carets} {advice}{end}")
}

/// Writes where another place is.
fn write_aside<W: Write>(source: &[u8], aside: Aside, output: &mut W) -> io::Result<()> {
    let Position { line, column } = position_at(source, aside.offset);
    let what = aside.what;
    writeln!(output, "{what}: {line}:{column}")
}
