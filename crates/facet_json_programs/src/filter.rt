//! Which lines of a log are wanted.

use crate::members::member;
use facet_json::{DeserializeError, JsonError, Line, LineError, Lines, from_str};
use std::alloc::Global;
use std::io;
use std::io::{BufRead, ErrorKind, Write};

/// The most bytes of a line.
pub const LONGEST_LINE: usize = 1_048_576;

/// What is wanted of a record: that the first member of this name is this text, or a value that is written so.
#[derive(Clone, Copy)]
pub struct Criterion<'a> {
    pub name: &'a str,
    pub value: &'a str,
}

/// Whether the value is this text, or written so.
fn is_value<'t>(alloc: Global, json: &str, value: &str) -> Result<bool, DeserializeError<'t>> {
    if json.starts_with('"') {
        let text: String = from_str(alloc, json)?;
        Ok(text.as_str() == value)
    } else {
        Ok(json == value)
    }
}

/// Whether a record is wanted. What stands before the member is skipped undecoded, and what stands behind it is not read.
pub fn is_wanted<'t>(
    alloc: Global,
    record: &[u8],
    wanted: Criterion<'_>,
) -> Result<bool, DeserializeError<'t>> {
    match member(alloc, record, wanted.name)? {
        Some(json) => is_value(alloc, json, wanted.value),
        None => Ok(false),
    }
}

/// Copies a line.
fn copy<W: Write>(line: &[u8], output: &mut W) -> io::Result<()> {
    output.write_all(line)?;
    output.write_all(b"\n")
}

/// Tells why the line of this number is no record.
fn tell<E: Write>(
    name: &str,
    number: usize,
    refused: DeserializeError<'static>,
    errors: &mut E,
) -> io::Result<()> {
    writeln!(errors, "{name}:{number}: {}", JsonError::from(refused))
}

/// Tells that the line of this number is too long.
fn tell_long<E: Write>(name: &str, number: usize, errors: &mut E) -> io::Result<()> {
    writeln!(errors, "{name}: {}", LineError::TooLong { number })
}

/// Copies a line that is wanted, and tells why one is no record. It returns whether it is one.
fn pass<W: Write, E: Write>(
    alloc: Global,
    name: &str,
    line: Line<'_>,
    wanted: Criterion<'_>,
    output: &mut W,
    errors: &mut E,
) -> io::Result<bool> {
    match is_wanted(alloc, line.text, wanted) {
        Ok(true) => copy(line.text, output)?,
        Ok(false) => {}
        Err(refused) => {
            tell(name, line.number, refused, errors)?;
            return Ok(false);
        }
    }
    Ok(true)
}

/// Copies the lines of a log that are wanted, and tells what is wrong with others. It returns whether nothing was.
pub fn filter<R: BufRead + Drop, W: Write, E: Write>(
    alloc: Global,
    name: &str,
    log: R,
    wanted: Criterion<'_>,
    output: &mut W,
    errors: &mut E,
) -> io::Result<bool> {
    let mut lines = Lines::new(alloc, log, LONGEST_LINE);
    let mut is_fine = true;
    'lines: loop {
        match lines.next_line() {
            Ok(Some(line)) => {
                let is_record = pass(alloc, name, line, wanted, output, errors)?;
                is_fine = is_fine && is_record;
            }
            Ok(None) => return Ok(is_fine),
            Err(LineError::TooLong { number }) => {
                is_fine = false;
                tell_long(name, number, errors)?;
            }
            Err(LineError::Memory) => return Err(io::Error::from(ErrorKind::OutOfMemory)),
            Err(LineError::Io(error)) => return Err(error),
        }
    }
}
