//! Where bytes come from: sources, which bear in mind that a read failed and that their end was seen.

ghost use Rattle.std.specs.Prelude.{◌≡◌, ◌||◌, ℕ, Bool, false, List, Option, is_err};
ghost use Rattle.std.specs.Io.{ReadsAtMost};
ghost use Rattle.std.specs.Io.KnownBytes.{ReadConsumes};
ghost use Rattle.facet_json_scan.specs.Source.{gives_nothing};

use std::io;
use std::io::Read;

/// What gives bytes in pieces.
///
/// Its contracts tell three things of it: which bytes are left, where that is known, and two marks. `failed` is set exactly by a
/// read that fails, `ended` exactly by one that gives no byte though there was room; a mark that is set stays.
pub trait ByteSource {
    // The bytes that reads will give from here on, where they are known.
    ghost left: { Self → Option (List ℕ) };

    // Whether a read has failed.
    ghost failed: { Self → Bool };

    // Whether a read has given nothing, though there was room.
    ghost ended: { Self → Bool };

    /// Puts the next bytes at the start of the piece, and gives how many: fewer than there is room for, where the source likes,
    /// but none only at its end.
    ///
    /// # Errors
    ///
    /// No byte could be read, and none is lost.
    fn read_some(&mut self, piece: &mut [u8]) -> io::Result<usize>
        ensures bound { ReadsAtMost result piece.new }
        ensures bytes { ReadConsumes (left self.old) (left self.new) result piece.new }
        ensures failure { failed self.new ≡ (is_err result || failed self.old) }
        ensures end { ended self.new ≡ (gives_nothing result piece.new || ended self.old) };
}

/// A source of any reader's bytes. Each read of it is one of the reader, as much as that gives.
///
/// ```text
/// let mut source = Marked::new(&mut reader);
/// scan_reader(alloc, &mut source, 4096, false)
/// ```
#[derive(Drop)]
pub struct Marked<'r, R> {
    /// The reader whose bytes these are.
    pub reader: &'r mut R,
    /// Whether a read has failed.
    pub failed: bool,
    /// Whether a read has given nothing, though there was room.
    pub ended: bool,
}

impl<'r, R: Read> Marked<'r, R> {
    /// A source of the bytes that the reader has left, with both marks off.
    pub fn new(reader: &'r mut R) -> Marked<'r, R>
        ensures same_reader { result.reader.ghost_name ≡ reader.entry.ghost_name }
        ensures left { R.remaining result.reader.now ≡ R.remaining reader.old }
        ensures marks { (result.failed ≡ false) × (result.ended ≡ false) }
    {
        Marked {
            reader,
            failed: false,
            ended: false,
        }
    }
}

impl<R: Read> ByteSource for Marked<'_, R> {
    ghost left = { λ m. R.remaining m.reader.now };

    ghost failed = { λ m. m.failed };

    ghost ended = { λ m. m.ended };

    fn read_some(&mut self, piece: &mut [u8]) -> io::Result<usize> {
        match self.reader.read(piece) {
            Ok(count) => {
                if count == 0 && !piece.is_empty() {
                    self.ended = true;
                }
                Ok(count)
            }
            Err(error) => {
                self.failed = true;
                Err(error)
            }
        }
    }
}
