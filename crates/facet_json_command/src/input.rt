//! The input of `tokens`, which is read in pieces.

ghost use Rattle.std.specs.Prelude.{◌≡◌, false};

use facet_json_scan::{ByteSource, Marked};
use std::io;
use std::io::{ErrorKind, Read};

/// The bytes of a reader, and how a read of them failed.
#[derive(Drop)]
pub struct Input<'r, R> {
    /// The bytes, and whether a read of them has failed.
    pub source: Marked<'r, R>,
    /// The kind of the last error of a read that failed.
    pub kind: ErrorKind,
}

impl<'r, R: Read> Input<'r, R> {
    /// The bytes that the reader has left. No read has failed.
    pub fn new(reader: &'r mut R) -> Input<'r, R>
        ensures left { R.remaining result.source.reader.now ≡ R.remaining reader.old }
        ensures unread { result.source.failed ≡ false }
    {
        Input {
            source: Marked::new(reader),
            kind: ErrorKind::Other,
        }
    }
}

impl<R: Read> ByteSource for Input<'_, R> {
    ghost left = { λ i. R.remaining i.source.reader.now };

    ghost failed = { λ i. i.source.failed };

    ghost ended = { λ i. i.source.ended };

    fn read_some(&mut self, piece: &mut [u8]) -> io::Result<usize> {
        let answer = self.source.read_some(piece);
        if let Err(error) = &answer {
            self.kind = error.kind();
        }
        answer
    }
}
