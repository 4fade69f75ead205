//! Members of an object, of which the others are skipped undecoded.

use facet_json::steps::{begin_object, find_key};
use facet_json::{DeserializeError, FormatParser, JsonParser};
use std::alloc::Global;

/// The value of the first member of this name, as its text stands in the object, or `None` where there is none. What stands before it is
/// passed undecoded, and what stands behind it is not read.
pub fn member<'t, 'de>(
    alloc: Global,
    object: &'de [u8],
    name: &str,
) -> Result<Option<&'de str>, DeserializeError<'t>> {
    let mut parser = JsonParser::new(alloc, object);
    begin_object(&mut parser)?;
    if find_key(&mut parser, name)? {
        Ok(parser.capture_raw()?)
    } else {
        Ok(None)
    }
}
