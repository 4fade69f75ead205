//! Copies the records of logs that have a member of a value, a record a line: `log_filter --where NAME=VALUE [FILE..]`. Without a file it
//! reads the standard input.

use crate::filter::{Criterion, filter};
use std::io::{BufReader, BufWriter, Write};
use std::{fs, io};

/// Filters the standard input. It returns whether each line is a record as far as it was read.
fn filter_input<W: Write>(
    rt: &HostRuntime,
    wanted: Criterion<'_>,
    output: &mut W,
) -> io::Result<bool> {
    let input = BufReader::new(rt.alloc(), rt.stdin())?;
    filter(
        rt.alloc(),
        "<stdin>",
        input,
        wanted,
        output,
        &mut rt.stderr(),
    )
}

/// Filters the file of this name. It returns whether each line is a record, or `None` where the file can't be opened, which is
/// told.
fn filter_file<W: Write>(
    rt: &HostRuntime,
    file: &str,
    wanted: Criterion<'_>,
    output: &mut W,
) -> io::Result<Option<bool>> {
    let log = match fs::open(rt, file) {
        Ok(log) => log,
        Err(error) => {
            output.flush()?;
            eprintln!(rt; "{file}: {error}")?;
            return Ok(None);
        }
    };
    let input = BufReader::new(rt.alloc(), log)?;
    Ok(Some(filter(rt.alloc(), file, input, wanted, output, &mut rt.stderr())?))
}

/// Filters the files of these names, up to one that can't be opened. It returns the same as for one of them.
fn filter_files<W: Write>(
    rt: &HostRuntime,
    files: &[String],
    wanted: Criterion<'_>,
    output: &mut W,
) -> io::Result<Option<bool>> {
    let mut is_fine = true;
    for file in files {
        match filter_file(rt, file.as_str(), wanted, output)? {
            Some(is_next_fine) => is_fine = is_fine && is_next_fine,
            None => return Ok(None),
        }
    }
    Ok(Some(is_fine))
}

/// Filters the standard input, or the files of these names. It returns the status: 0 where each line is a record as far as it was
/// read, 1 where one isn't, which is told, and 2 where a file can't be opened.
pub fn run(rt: &HostRuntime, wanted: Criterion<'_>, files: &[String]) -> io::Result<u8> {
    let mut output = BufWriter::new(rt.alloc(), rt.stdout())?;
    let is_fine = if files.is_empty() {
        Some(filter_input(rt, wanted, &mut output)?)
    } else {
        filter_files(rt, files, wanted, &mut output)?
    };
    output.flush()?;
    match is_fine {
        Some(true) => Ok(0),
        Some(false) => Ok(1),
        None => Ok(2),
    }
}
