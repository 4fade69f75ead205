//! What a scanner over a buffer that grows answers after a refusal.

ghost use Rattle.facet_json_scan.specs.ScannerLaws.{ScanRefusalRepeats, RefusalAtEnd, PendingAgain};

/// After a refusal of `next_token` the same call on the same buffer refuses alike, and leaves the scanner as it is.
pub fn refusal_repeats()
    ensures { ScanRefusalRepeats }
{}

/// After a refusal of `finalize_at_eof` at the buffer's end, `next_token` on the same buffer answers `NeedMore` from the
/// first byte of what was refused if the buffer is open there, and else it refuses alike.
pub fn refusal_at_end()
    ensures { RefusalAtEnd }
{}

/// It answers `NeedMore` again, from the same byte on, where what was pending fits the buffer: the buffer is open there.
pub fn pending_again()
    ensures { PendingAgain }
{}
