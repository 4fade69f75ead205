//! What each read gives makes no difference, and a read that fails is told of.

use crate::rows::{ROWS, Row};
use crate::sources::Halves;
use facet_json_scan::{Marked, ScanReadError, Scanned, scan_reader};
use std::alloc::Global;
use std::io::Read;

/// How many bytes are read at a time.
static STEPS: [usize; 7] = [1, 2, 3, 15, 16, 17, usize::MAX];

/// More reads than any row takes.
pub const MANY_READS: usize = 100;

/// Whether pieces of this length give the row, but where the read of this number comes, which fails: then that is told. None where memory
/// runs out.
pub fn is_read(alloc: Global, row: &Row, step: usize, read: usize) -> Option<bool> {
    if step == 0 {
        return Some(false);
    }
    let mut source = Halves::new(row.input, step.min(65_536), read);
    let scan = scan_reader(alloc, &mut source, step, row.comments);
    is_right(&scan, row, &source, read < MANY_READS)
}

/// Whether this is the row's scan, of a source that was asked well; or its failure, where it may fail. None where memory ran out.
fn is_right(
    scan: &Result<Scanned, ScanReadError>,
    row: &Row,
    source: &Halves<'_>,
    may_fail: bool,
) -> Option<bool> {
    match scan {
        Ok(scanned) => Some(row.is(scanned) && !source.asked_for_more && !source.failed),
        Err(ScanReadError::Io) => Some(may_fail && source.failed),
        Err(ScanReadError::Memory) => None,
    }
}

/// Whether a reader of the row's input gives the row.
fn is_read_from<R: Read>(alloc: Global, row: &Row, reader: &mut R) -> bool {
    let mut source = Marked::new(reader);
    match scan_reader(alloc, &mut source, 2, row.comments) {
        Ok(scanned) => row.is(&scanned),
        Err(_) => false,
    }
}

/// How many bytes are read of the input, one at a time.
fn bytes_read(alloc: Global, input: &[u8]) -> usize {
    match scan_reader(alloc, &mut Halves::new(input, 1, MANY_READS), 1, false) {
        Ok(scanned) => scanned.buf.len(),
        Err(_) => 0,
    }
}

#[test]
fn pieces_make_no_difference(rt: HostRuntime) {
    let alloc = rt.alloc();
    for row in &ROWS {
        for step in &STEPS {
            assert!(rt; is_read(alloc, row, *step, MANY_READS) == Some(true));
        }
        let mut reader = row.input;
        assert!(rt; is_read_from(alloc, row, &mut reader));
        for step in 1..4 {
            for read in 0..MANY_READS {
                assert!(rt; is_read(alloc, row, step, read) == Some(true));
            }
        }
    }
    assert!(rt; bytes_read(alloc, b"[1 x2,3]") == 4 && bytes_read(alloc, b"[1, 2,3]") == 8);
}
