//! A text to a writer.

ghost use Rattle.std.specs.Prelude.{IfErr, OnOk};
ghost use Rattle.std.specs.Io.KnownBytes.{Appends};
ghost use Rattle.facet_json_tree.specs.OutputViews.{IsIo};

use crate::error::WriteError;
use std::io::Write;

/// Writes all of the text to the writer, which is not flushed.
///
/// ```text
/// write_text(&mut out, b"[1]")   out: b"[1]"
/// ```
///
/// # Errors
///
/// `Io` with the writer's error, where it fails. How much it has got is not known then.
pub fn write_text<W: Write>(writer: &mut W, text: &[u8]) -> Result<(), WriteError>
    ensures written { OnOk result (Appends (W.contents writer.old) (W.contents writer.new) text.now) }
    ensures failed { IfErr result IsIo }
{
    match writer.write_all(text) {
        Ok(()) => Ok(()),
        Err(error) => Err(WriteError::Io(error)),
    }
}
