//! A filter of log records: it looks for one field, and decodes nothing of the others.

use facet_json::steps::{begin_object, find_key};
use facet_json::{DeserializeError, Facet, JsonParser, LineError, Lines};
use std::alloc::Global;
use std::io::BufRead;

/// Whether a record is one of an error, as `{"time":1764,"level":"error","details":{"code":7}}`. What stands before the
/// level is skipped undecoded, and what stands behind it is not read.
pub fn is_error<'t>(alloc: Global, record: &[u8]) -> Result<bool, DeserializeError<'t>> {
    let mut parser = JsonParser::new(alloc, record);
    begin_object(&mut parser)?;
    if find_key(&mut parser, "level")? {
        let level = String::read_owned(alloc, &mut parser)?;
        Ok(level.as_str() == "error")
    } else {
        Ok(false)
    }
}

/// How many records of a log are of errors, a record a line. A line that is none, or is longer than 64 KiB, is passed.
pub fn errors_in<R: BufRead + Drop>(alloc: Global, log: R) -> Result<usize, LineError> {
    let mut lines = Lines::new(alloc, log, 65_536);
    let mut errors: usize = 0;
    'lines: loop {
        match lines.next_line() {
            Ok(Some(line)) => {
                if matches!(is_error(alloc, line.text), Ok(true)) {
                    errors = errors.saturating_add(1);
                }
            }
            Ok(None) => return Ok(errors),
            Err(LineError::TooLong { .. }) => {}
            Err(error) => return Err(error),
        }
    }
}
