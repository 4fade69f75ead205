//! JSON lines: a reader's bytes line by line, a value a line.

ghost use Rattle.std.specs.Option.{option_map};
ghost use Rattle.std.specs.Prelude.{◌≡◌, ◌≢◌, ◌↔◌, ◌^◌, ◌<◌, ◌≤◌, ℕ, [], ◌∷◌, All, length, true, false, None, IsTrue, OnOk, OnErr, IfErr};
ghost use Rattle.std.specs.Prelude.{IfOk, IfSome};
ghost use Rattle.facet_json_token.specs.Gap.{plain};
ghost use Rattle.facet_json_facet.specs.Inputs.{FirstValue, StrictValue};
ghost use Rattle.facet_json.specs.Lines.{lines, IsBlank, ComeFirst, PassesLines, GivesLine, HasNoLine};
ghost use Rattle.facet_json.specs.LineViews.{line_message, IsNext, TellsLine, IsReadFailure};
ghost use Rattle.facet_json.specs.Inner.LinePlaces.{left_at, IsAt};
ghost use Rattle.facet_json.specs.declared.lines.LinePlace.TheVariants.{Within};

use crate::line_pieces::{Stop, read_text, skip_text};
use facet_format::DeserializeError;
use facet_json_facet::{Facet, from_slice, from_slice_strict};
use facet_json_token::Mode;
use facet_json_token::cutting::skip_gap;
use std::alloc::Global;
use std::error::Error;
use std::io::{BufRead, ErrorKind, Read};
use std::marker::Model;
use std::{fmt, io};

/// A line that is not blank.
#[derive(Debug, Clone, Copy, PartialEq, Eq)]
pub struct Line<'a> {
    /// Its number. The first line has 1, and blank lines count.
    pub number: usize,
    /// Its bytes, without the line feed. A carriage return before that is the last of them: white space to JSON.
    pub text: &'a [u8],
}

impl<'a> Line<'a> {
    /// Reads the value that the line begins with, as `from_slice`. What follows it on the line is not looked at.
    /// A type with derives is read from `text` by `facet_json_serde::from_slice`.
    ///
    /// # Errors
    ///
    /// As `from_slice`. A span counts from the start of the line.
    pub fn value<'t, T: Facet<'a>>(&self, alloc: Global) -> Result<T, DeserializeError<'t>>
        ensures value { FirstValue T.shape.reading T.whole T.view self.now.text.now plain result }
        ensures owned { IfOk result T.owned }
    {
        from_slice(alloc, self.text)
    }

    /// Reads the value of the line, which is one text of RFC 8259, as `from_slice_strict`: nothing follows it on the line.
    /// A type with derives is read from `text` by `facet_json_serde::from_slice_strict`.
    ///
    /// # Errors
    ///
    /// As `from_slice_strict`. A span counts from the start of the line.
    pub fn value_strict<'t, T: Facet<'a>>(&self, alloc: Global) -> Result<T, DeserializeError<'t>>
        ensures value { StrictValue T.shape.reading T.whole T.view self.now.text.now result }
        ensures owned { IfOk result T.owned }
    {
        from_slice_strict(alloc, self.text)
    }
}

/// Why no line was given. None of these ends the reading: the next call goes on.
#[derive(Debug, Drop)]
pub enum LineError {
    /// A line is longer than the limit. It is passed: the next call goes on with the line behind it.
    TooLong {
        /// Its number.
        number: usize,
    },
    /// An allocation failed. No byte is lost: the next call goes on with the same line.
    Memory,
    /// The reader failed, and this is its error. No byte is lost: the next call goes on with the same line. An interrupted read is tried
    /// again. Of the kind `TimedOut` it is also where 2^64 lines, or 2^64 reads of one, have been too few.
    Io(io::Error),
}

/// The message: a line for a person, without its line feed.
impl fmt::Display for LineError {
    ghost output = { line_message };

    fn fmt<W: fmt::Write>(&self, f: &mut fmt::Formatter<W>) -> fmt::Result {
        match self {
            LineError::TooLong { number } => write!(f, "line {number} is too long"),
            LineError::Memory => f.write_str("out of memory"),
            LineError::Io(error) => write!(f, "I/O error: {error}"),
        }
    }
}

impl Error for LineError {}

/// Where reading stands.
#[derive(Clone, Copy)]
pub(crate) enum LinePlace {
    /// Before a line.
    Between,
    /// Within a line, which begins with the text.
    Within,
    /// Within a line that was too long.
    Past,
}

/// The lines of a reader, for JSON lines: a value a line. Of all that is read only one line is kept, so memory is needed for the longest,
/// or for one of the limit. A line ends at its line feed, and the last one needs none. A blank line, of white space alone or nothing, is
/// passed over.
///
/// ```text
/// let input = BufReader::new(alloc, reader)?;            of the bytes `{"a":1}`, a blank line, `[2]`
/// let mut lines = Lines::new(alloc, input, 65_536);
/// lines.next_line()      Ok(Some(line)), line.number 1, line.text `{"a":1}`
/// lines.next_line()      Ok(Some(line)), line.number 3, line.text `[2]`
/// lines.next_line()      Ok(None)
/// ```
#[derive(Drop)]
pub struct Lines<R: Read> {
    reader: R,
    text: Vec<u8>,
    limit: usize,
    number: usize,
    place: LinePlace,
}

impl<R: Read> Model for Lines<R> {
    ghost use Rattle.facet_json.specs.Lines.{Lines};
    ghost use Rattle.facet_json.specs.Inner.LinePlaces.{left_at, IsAt};

    ghost Value = { Lines };

    ghost view = { λ l. record {
      left = left_at l.place l.text.items (R.remaining l.reader);
      line = l.text.items;
      number = l.number;
      limit = l.limit;
    } };

    ghost invariant = { λ l. IsAt l.place l.text.items l.limit };
}

impl<R: BufRead> Lines<R> {
    ghost use Rattle.std.specs.Borrow.{sem};
    ghost use Rattle.std.specs.Io.BufRead.{Rests};
    ghost use Rattle.facet_json.specs.contracts.lines.Lines.{the_row as lines-row};

    /// The lines of what a reader has left, of at most `limit` bytes each, without the line feed.
    pub fn new(alloc: Global, reader: R, limit: usize) -> Lines<R>
        ensures left { result.left ≡ option_map lines (R.remaining reader) }
        ensures number { result.number ≡ 0 }
        ensures limit { result.limit ≡ limit }
    {
        Lines {
            reader,
            text: Vec::new(alloc),
            limit,
            number: 0,
            place: LinePlace::Between,
        }
    }

    /// The next line that is not blank, or `None` where none is left.
    ///
    /// # Errors
    ///
    /// The next line is too long, whether blank or not, or an allocation or a read failed. The next call goes on.
    pub fn next_line(&mut self) -> Result<Option<Line<'_>>, LineError>
        ensures* next { sem 𝓛 (Rests (lines-row R.row R.Read) self.entry (λ new. IsNext self.old new result)) }
    {
        if self.advance()? {
            Ok(Some(Line {
                number: self.number,
                text: self.text.as_slice(),
            }))
        } else {
            Ok(None)
        }
    }

    /// Consumes lines up to the next one that is not blank, and says whether there was one.
    fn advance(&mut self) -> Result<bool, LineError>
        ensures line { result ≡ Ok true → GivesLine self.old self.new self.new.line }
        ensures over { result ≡ Ok false → HasNoLine self.old self.new }
        ensures err { IfErr result (TellsLine self.old self.new) }
    {
        'blank: loop {
            match self.pass_line() {
                Ok(true) => {
                    if !is_blank(self.text.as_slice()) {
                        return Ok(true);
                    }
                }
                Ok(false) => return Ok(false),
                Err(error) => return Err(error),
            }
        }
    }

    /// Consumes the next line, blank or not, and says whether there was one.
    fn pass_line(&mut self) -> Result<bool, LineError>
        ensures line { result ≡ Ok true → PassesLines self.old self.new (self.new.line ∷ []) }
        ensures one { result ≡ Ok true → All (λ x. x ≢ 10) self.new.line }
        ensures within { result ≡ Ok true → length self.new.line ≤ self.new.limit }
        ensures fits { self.new.number < 2 ^ 64 }
        ensures over { result ≡ Ok false → PassesLines self.old self.new [] × IfSome self.old.left (λ ls. ls ≡ []) }
        ensures err { IfErr result (TellsLine self.old self.new) }
    {
        let Some(number) = self.number.checked_add(1) else {
            return Err(LineError::Io(io::Error::from(ErrorKind::TimedOut)));
        };
        if let Err(error) = resume(&mut self.reader, &mut self.text, self.place) {
            return Err(failed(error));
        }
        self.place = LinePlace::Within;
        match read_text(&mut self.reader, &mut self.text, self.limit) {
            Ok(Stop::LineFeed) => {
                self.place = LinePlace::Between;
                self.number = number;
                Ok(true)
            }
            Ok(Stop::End) => {
                if self.text.is_empty() {
                    Ok(false)
                } else {
                    self.place = LinePlace::Between;
                    self.number = number;
                    Ok(true)
                }
            }
            Ok(Stop::TooLong) => {
                self.place = LinePlace::Past;
                self.number = number;
                Err(LineError::TooLong { number })
            }
            Err(error) => Err(failed(error)),
        }
    }
}

/// Goes to where a line is to be read or gone on with.
fn resume<R: BufRead>(reader: &mut R, text: &mut Vec<u8>, place: LinePlace) -> io::Result<()>
    ensures begun { OnOk result
        (ComeFirst (left_at place text.old.items (R.remaining reader.old)) (left_at Within text.new.items (R.remaining reader.new)) []) }
    ensures one { (limit : ℕ) → IsAt place text.old.items limit → OnOk result (IsAt Within text.new.items limit) }
    ensures err { OnErr result
        (ComeFirst (left_at place text.old.items (R.remaining reader.old)) (left_at place text.new.items (R.remaining reader.new)) []) }
    ensures kept { OnErr result (text.new.items ≡ text.old.items) }
{
    match place {
        LinePlace::Between => {
            text.clear();
            Ok(())
        }
        LinePlace::Within => Ok(()),
        LinePlace::Past => match skip_text(reader) {
            Ok(()) => {
                text.clear();
                Ok(())
            }
            Err(error) => Err(error),
        },
    }
}

/// A failed allocation, or the reader's own failure.
fn failed(error: io::Error) -> LineError
    ensures { IsReadFailure result }
{
    if error.kind() == ErrorKind::OutOfMemory {
        LineError::Memory
    } else {
        LineError::Io(error)
    }
}

/// Whether it is white space alone, or nothing.
fn is_blank(text: &[u8]) -> bool
    ensures { IsTrue result ↔ IsBlank text.now }
{
    skip_gap(text, 0, Mode::Plain) == text.len()
}
