//! Bytes that come in pieces.

use facet_json::scanner::{Marked, ScanReadError, Scanned, scan_reader};
use std::alloc::Global;
use std::io::Read;

/// All tokens of what the reader has left, read 4,096 bytes at a time.
pub fn tokens_of<R: Read>(alloc: Global, reader: &mut R) -> Result<Scanned, ScanReadError> {
    scan_reader(alloc, &mut Marked::new(reader), 4_096, false)
}
