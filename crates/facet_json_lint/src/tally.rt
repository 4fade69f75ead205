//! What became of the files.

use std::fmt;

/// What became of a file.
#[derive(Clone, Copy)]
pub enum Verdict {
    /// Nothing is to be said.
    Fine,
    /// Something is reported.
    Reported,
    /// It is laid out anew.
    Changed,
    /// It would be.
    Unlike,
    /// It can't be read or written.
    Failed,
}

/// How many files became what.
#[derive(Clone, Copy)]
pub struct Tally {
    fine: usize,
    reported: usize,
    changed: usize,
    unlike: usize,
    failed: usize,
}

impl Tally {
    /// That of no files.
    pub fn new() -> Tally {
        Tally {
            fine: 0,
            reported: 0,
            changed: 0,
            unlike: 0,
            failed: 0,
        }
    }

    /// Counts one more file.
    pub fn add(&mut self, verdict: Verdict) {
        let count = match verdict {
            Verdict::Fine => &mut self.fine,
            Verdict::Reported => &mut self.reported,
            Verdict::Changed => &mut self.changed,
            Verdict::Unlike => &mut self.unlike,
            Verdict::Failed => &mut self.failed,
        };
        *count = count.saturating_add(1);
    }

    /// The status that tells of the files: 2 where one failed, 1 where something is said of one, and else 0.
    pub fn status(self) -> u8 {
        if self.failed > 0 {
            2
        } else if self.reported > 0 || self.unlike > 0 {
            1
        } else {
            0
        }
    }

    /// How many files there are.
    fn files(self) -> usize {
        self.fine
            .saturating_add(self.reported)
            .saturating_add(self.changed)
            .saturating_add(self.unlike)
            .saturating_add(self.failed)
    }
}

/// A line that sums up, such as `3 files: 1 fine, 1 reported, 1 failed`.
impl fmt::Display for Tally {
    fn fmt<W: fmt::Write>(&self, f: &mut fmt::Formatter<W>) -> fmt::Result {
        write!(f, "{} files: {} fine", self.files(), self.fine)?;
        for (count, what) in &[
            (self.reported, "reported"),
            (self.changed, "changed"),
            (self.unlike, "would change"),
            (self.failed, "failed"),
        ] {
            if *count > 0 {
                write!(f, ", {count} {what}")?;
            }
        }
        Ok(())
    }
}
