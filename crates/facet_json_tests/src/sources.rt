//! A source of the tests: it gives half of what it could, minds what it is asked for, and fails at one of its reads.

ghost use Rattle.std.specs.Prelude.{None};

use facet_json_scan::ByteSource;
use std::io;
use std::io::ErrorKind;

/// Gives half of what it has and is asked for, at least a byte.
#[derive(Drop)]
pub struct Halves<'a> {
    left: &'a [u8],
    most: usize,
    reads: usize,
    fails_at: usize,
    /// Whether it was asked for more bytes than it may be.
    pub asked_for_more: bool,
    /// Whether its read failed.
    pub failed: bool,
    ended: bool,
}

impl<'a> Halves<'a> {
    /// A source of the input that may be asked for so many bytes at most, and whose read of this number fails, the first one being 0.
    pub fn new(input: &'a [u8], most: usize, fails_at: usize) -> Halves<'a> {
        Halves {
            left: input,
            most,
            reads: 0,
            fails_at,
            asked_for_more: false,
            failed: false,
            ended: false,
        }
    }
}

impl ByteSource for Halves<'_> {
    ghost left = { λ s. None };

    ghost failed = { λ s. s.failed };

    ghost ended = { λ s. s.ended };

    fn read_some(&mut self, piece: &mut [u8]) -> io::Result<usize> {
        if piece.len() > self.most {
            self.asked_for_more = true;
        }
        let read = self.reads;
        self.reads = read.saturating_add(1);
        if read == self.fails_at {
            self.failed = true;
            return Err(io::Error::from(ErrorKind::BrokenPipe));
        }
        let room = self.left.len().min(piece.len());
        let count = room - room / 2;
        piece[..count].copy_from_slice(&self.left[..count]);
        self.left = &self.left[count..];
        if count == 0 && !piece.is_empty() {
            self.ended = true;
        }
        Ok(count)
    }
}
