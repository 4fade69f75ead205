//! One member of each line of a log.

use crate::seen::Seen;
use facet_json::steps::{begin_object, find_key};
use facet_json::{DeserializeError, Facet, JsonParser};
use memchr::memchr;
use std::alloc::Global;

/// The member `status` of the object on each line, a whole number, is found and added up. The rest of the line is not looked at.
#[inline(never)]
pub fn log(alloc: Global, input: &[u8]) -> Option<Seen> {
    let mut seen = Seen::none();
    let mut rest = input;
    for _ in 0..u64::MAX {
        let Some(end) = memchr(b'\n', rest) else {
            return Some(seen);
        };
        let (line, others) = rest.split_at_checked(end)?;
        seen = seen.with(status(alloc, line).ok()??);
        rest = others.get(1..)?;
    }
    None
}

/// The status of a line, where it has one.
fn status<'t>(alloc: Global, line: &[u8]) -> Result<Option<u64>, DeserializeError<'t>> {
    let mut parser = JsonParser::new(alloc, line);
    begin_object(&mut parser)?;
    if find_key(&mut parser, "status")? {
        Ok(Some(u64::read_owned(alloc, &mut parser)?))
    } else {
        Ok(None)
    }
}
