//! A document written anew, without a tree.

use facet_json::{JsonParser, JsonSerializer, SerializeOptions, TranscodeError, transcode};
use std::alloc::Global;

/// The document of the input, which may have comments, indented by two spaces.
pub fn indent<'t>(alloc: Global, input: &[u8]) -> Result<Vec<u8>, TranscodeError<'t>> {
    let mut serializer = JsonSerializer::with_options(alloc, SerializeOptions::new().pretty());
    transcode(&mut JsonParser::new_jsonc(alloc, input), &mut serializer)?;
    Ok(serializer.finish()?)
}
