//! What a test expects of a row.

use std::process::Abort;

/// Fails where something does not hold of the row of this name.
pub fn expect_of(rt: &impl Abort, holds: bool, row: &str) {
    assert!(rt; holds, "{row}");
}
