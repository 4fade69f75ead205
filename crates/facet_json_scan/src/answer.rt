//! What a scan of a source gives.

use facet_json_token::{ScanError, SpannedToken};

/// What was read, and its tokens.
#[derive(Debug, Drop)]
pub struct Scanned {
    /// The bytes that were read: all that the source had, where nothing is refused, and else a prefix.
    pub buf: Vec<u8>,
    /// The tokens in order. None of them is `Eof` or `NeedMore`. Their offsets are in bytes of `buf`.
    pub tokens: Vec<SpannedToken>,
    /// What is wrong after the last token, if no token stands there.
    pub refusal: Option<ScanError>,
}

/// Why a source could not be scanned.
#[derive(Debug, Clone, Copy, PartialEq, Eq)]
pub enum ScanReadError {
    /// A read failed.
    Io = 1,
    /// An allocation failed.
    Memory = 2,
}
