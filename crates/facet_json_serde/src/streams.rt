//! Values from a reader of bytes, and their text to a writer.

ghost use Rattle.std.specs.Prelude.{◌≡◌, length, IfErr, IfSome, OnOk};
ghost use Rattle.facet_json_grammar.specs.Text.{default_options};
ghost use Rattle.facet_json_serializer.specs.OptionsViews.{options_of};
ghost use Rattle.facet_json_serde.specs.declared.streams.StreamError.TheVariants as stream;
ghost use Rattle.facet_json_serde.specs.Messages.{stream_message};
ghost use Rattle.facet_json_serde.specs.OneValue.{WritesTree};
ghost use Rattle.facet_json_serde.specs.Within.{IsNoFailure, TellsWithin};

use crate::error::Error;
use crate::reading::from_slice;
use crate::writing::to_vec_with_options;
use facet_json_serializer::SerializeOptions;
use serde::{Deserialize, DeserializeOwned, Deserializer, Format, Serialize};
use std::alloc::Global;
use std::io::{Read, Write};
use std::{fmt, io};

/// Why a value was not read from a reader, or not written to a writer.
#[derive(Debug, Drop)]
pub enum StreamError<'t> {
    /// The value was refused. A writer has got nothing.
    Json(Error<'t>),
    /// The reader or the writer failed, and this is its error. How much a writer has got is not known.
    Io(io::Error),
}

impl<'t> From<Error<'t>> for StreamError<'t> {
    ghost from_gives = { λ refused e. e ≡ stream.Json refused };

    fn from(refused: Error<'t>) -> StreamError<'t> {
        StreamError::Json(refused)
    }
}

impl From<io::Error> for StreamError<'_> {
    ghost from_gives = { λ failed e. e ≡ stream.Io failed };

    fn from(failed: io::Error) -> Self {
        Self::Io(failed)
    }
}

/// The message: a line for a person, without its line feed.
impl fmt::Display for StreamError<'static> {
    ghost output = { stream_message };

    fn fmt<W: fmt::Write>(&self, f: &mut fmt::Formatter<W>) -> fmt::Result {
        match self {
            StreamError::Json(refused) => write!(f, "{refused}"),
            StreamError::Io(failed) => write!(f, "I/O error: {failed}"),
        }
    }
}

impl std::error::Error for StreamError<'static> {}

/// Reads all that the reader has, and then the value of the document that it begins with, as `from_slice`. The value borrows nothing.
///
/// # Errors
///
/// `Io` where the reader fails, or `Json` as `from_slice`.
pub fn from_reader<'t, R: Read, T: DeserializeOwned>(
    alloc: Global,
    reader: &mut R,
) -> Result<T, StreamError<'t>>
    ensures within { IfSome (R.remaining reader.old) (λ input. IfErr result (TellsWithin (length input))) }
{
    let mut input = Vec::new(alloc);
    reader.read_to_end(&mut input)?;
    let Owned(value) = from_slice(alloc, input.as_slice())?;
    Ok(value)
}

/// A value that borrows nothing, as one that may borrow.
#[derive(Drop)]
struct Owned<T: Drop>(T);

impl<'de, T: DeserializeOwned> Deserialize<'de> for Owned<T> {
    fn deserialize<F: Format>(
        alloc: Global,
        from: &mut Deserializer<'de, '_, F>,
    ) -> Result<Owned<T>, F::Error> {
        Ok(Owned(T::deserialize_owned(alloc, from)?))
    }
}

/// Writes the compact text of a value to the writer, which is not flushed: what `to_vec` gives.
///
/// # Errors
///
/// `Json` as `to_vec`: then nothing was written. `Io` where the writer fails.
pub fn to_writer<'t, W: Write, T: Serialize>(
    alloc: Global,
    writer: &mut W,
    value: &T,
) -> Result<(), StreamError<'t>>
    ensures written { OnOk result (WritesTree default_options (W.contents writer.old) (W.contents writer.new)) }
    ensures refused { IfErr result (λ e. IsNoFailure e → writer.new ≡ writer.old) }
{
    to_writer_with_options(alloc, writer, value, &SerializeOptions::new())
}

/// Writes the text of a value in the layout of these options to the writer, which is not flushed: what `to_vec_with_options` gives.
///
/// # Errors
///
/// As `to_writer`.
pub fn to_writer_with_options<'t, W: Write, T: Serialize>(
    alloc: Global,
    writer: &mut W,
    value: &T,
    options: &SerializeOptions<'_>,
) -> Result<(), StreamError<'t>>
    ensures written { OnOk result (WritesTree (options_of options.now) (W.contents writer.old) (W.contents writer.new)) }
    ensures refused { IfErr result (λ e. IsNoFailure e → writer.new ≡ writer.old) }
{
    let text = to_vec_with_options(alloc, value, options)?;
    writer.write_all(text.as_slice())?;
    Ok(())
}
