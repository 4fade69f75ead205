//! A line's bytes from a reader, piece by piece, as its buffer has them.

ghost use Rattle.std.specs.Prelude.{◌≡◌, ◌≢◌, ◌+◌, ◌<◌, ◌≤◌, ℕ, List, [], ◌∷◌, All, length, take, slice_index, IfOk, IfSome, IfNone, OnOk};
ghost use Rattle.std.specs.Prelude.{OnErr, None, true, false, vec_len};
ghost use Rattle.std.specs.Io.KnownBytes.{Keeps};
ghost use Rattle.facet_json.specs.Inner.LinePieces.{LineGrows, LineStops, KeepsNext, LeavesNext};

use std::io;
use std::io::{BufRead, ErrorKind};

/// Where the text of a line stopped.
#[derive(Clone, Copy)]
pub(crate) enum Stop {
    /// At its line feed, which is passed.
    LineFeed,
    /// At the end of all bytes.
    End,
    /// At the limit, before which no line feed stands.
    TooLong,
}

/// Appends what stands before the line feed, and passes that too.
pub(crate) fn read_text<R: BufRead>(
    reader: &mut R,
    text: &mut Vec<u8>,
    limit: usize,
) -> io::Result<Stop>
    requires { vec_len text.old ≤ limit }
    ensures within { vec_len text.new ≤ limit }
    ensures stop { IfOk result (LineStops limit (R.remaining reader.old) (R.remaining reader.new) text.old.items text.new.items) }
    ensures err { OnErr result (LineGrows [] (R.remaining reader.old) (R.remaining reader.new) text.old.items text.new.items) }
{
    for _ in 0..u64::MAX {
        match read_piece(reader, text, limit) {
            Ok(None) => {}
            Ok(Some(stop)) => return Ok(stop),
            Err(error) => return Err(error),
        }
    }
    Err(io::Error::from(ErrorKind::TimedOut))
}

/// Appends what the reader's buffer has of a line, and says where the line stopped, if it did.
fn read_piece<R: BufRead>(
    reader: &mut R,
    text: &mut Vec<u8>,
    limit: usize,
) -> io::Result<Option<Stop>>
    requires { vec_len text.old ≤ limit }
    ensures within { vec_len text.new ≤ limit }
    ensures stop { IfOk result
        (λ o. IfSome o (LineStops limit (R.remaining reader.old) (R.remaining reader.new) text.old.items text.new.items)) }
    ensures inside { IfOk result
        (λ o. IfNone o (LineGrows [] (R.remaining reader.old) (R.remaining reader.new) text.old.items text.new.items)) }
    ensures err { OnErr result (LineGrows [] (R.remaining reader.old) (R.remaining reader.new) text.old.items text.new.items) }
{
    let shown = match reader.fill_buf() {
        Ok(shown) => shown,
        Err(error) => return retried(error),
    };
    let len = line_len(shown);
    if len > limit - text.len() {
        return Ok(Some(Stop::TooLong));
    }
    text.extend_from_slice(&shown[..len])?;
    let is_empty = shown.is_empty();
    let has_feed = len < shown.len();
    if has_feed {
        reader.consume(len + 1);
        return Ok(Some(Stop::LineFeed));
    }
    reader.consume(len);
    if is_empty {
        return Ok(Some(Stop::End));
    }
    Ok(None)
}

/// Consumes the bytes up to the line feed, and that too.
pub(crate) fn skip_text<R: BufRead>(reader: &mut R) -> io::Result<()>
    ensures done { OnOk result (LeavesNext (R.remaining reader.old) (R.remaining reader.new)) }
    ensures err { OnErr result (KeepsNext (R.remaining reader.old) (R.remaining reader.new)) }
{
    for _ in 0..u64::MAX {
        if skip_piece(reader)? {
            return Ok(());
        }
    }
    Err(io::Error::from(ErrorKind::TimedOut))
}

/// Consumes what the reader's buffer has of a line, and says whether the line ended.
fn skip_piece<R: BufRead>(reader: &mut R) -> io::Result<bool>
    ensures done { result ≡ Ok true → LeavesNext (R.remaining reader.old) (R.remaining reader.new) }
    ensures inside { result ≡ Ok false → KeepsNext (R.remaining reader.old) (R.remaining reader.new) }
    ensures err { OnErr result (KeepsNext (R.remaining reader.old) (R.remaining reader.new)) }
{
    let shown = match reader.fill_buf() {
        Ok(shown) => shown,
        Err(error) => {
            return match retried::<Stop>(error) {
                Ok(_) => Ok(false),
                Err(error) => Err(error),
            };
        }
    };
    let len = line_len(shown);
    let is_empty = shown.is_empty();
    let has_feed = len < shown.len();
    if has_feed {
        reader.consume(len + 1);
        return Ok(true);
    }
    reader.consume(len);
    Ok(is_empty)
}

/// A read that was interrupted is tried again.
fn retried<T>(error: io::Error) -> io::Result<Option<T>>
    ensures { IfOk result (λ o. o ≡ None) }
{
    if error.kind() == ErrorKind::Interrupted {
        Ok(None)
    } else {
        Err(error)
    }
}

/// How many bytes stand before the first line feed, or all are.
fn line_len(bytes: &[u8]) -> usize
    ensures within { result ≤ length bytes.now }
    ensures text { All (λ x. x ≢ 10) (take result bytes.now) }
    ensures feed { result < length bytes.now → slice_index bytes.now result ≡ 10 }
{
    for (i, byte) in bytes.iter().enumerate() {
        if *byte == b'\n' {
            return i;
        }
    }
    bytes.len()
}
