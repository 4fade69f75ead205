//! The JSON text of a value, to a writer.

ghost use Rattle.std.specs.Prelude.{◌≡◌, IsErrOf, OnOk};
ghost use Rattle.std.specs.Io.KnownBytes.{Appends};
ghost use Rattle.facet_json_grammar.specs.Text.{default_options, text};
ghost use Rattle.facet_json_serializer.specs.OptionsViews.{options_of};
ghost use Rattle.facet_json_tree.specs.Write.{pretty_options, IsReadable};

use crate::writing::to_vec_with_options;
use facet_json_facet::Facet;
use facet_json_serializer::SerializeOptions;
use facet_json_tree::{WriteError, write_text};
use std::alloc::Global;
use std::io::Write;

/// Writes the compact text of a value (RFC 8259, sections 2 to 7) to the writer, which is not flushed: what `to_vec` gives.
///
/// ```text
/// let mut out = Vec::new(alloc);
/// to_writer_std(alloc, &mut out, &true)?          out: b"true"
/// ```
///
/// # Errors
///
/// `Memory` where an allocation fails: then nothing was written. `Io` where the writer fails.
pub fn to_writer_std<'de, W: Write, T: Facet<'de>>(
    alloc: Global,
    writer: &mut W,
    value: &T,
) -> Result<(), WriteError>
    ensures written { OnOk result
        (Appends (W.contents writer.old) (W.contents writer.new) (text default_options 0 (T.shape.tree_of (T.view value.now)))) }
    ensures memory { IsErrOf result WriteError.Memory → writer.new ≡ writer.old }
    ensures read_back { OnOk result
        (IsReadable default_options (T.shape.tree_of (T.view value.now)) (text default_options 0 (T.shape.tree_of (T.view value.now)))) }
{
    to_writer_std_with_options(alloc, writer, value, &SerializeOptions::new())
}

/// Writes the text of a value to the writer, each element and each key on a line of its own: what `to_vec_pretty` gives.
///
/// ```text
/// let mut out = Vec::new(alloc);
/// to_writer_std_pretty(alloc, &mut out, &7_u8)?   out: b"7"
/// ```
///
/// # Errors
///
/// `Memory` where an allocation fails: then nothing was written. `Io` where the writer fails.
pub fn to_writer_std_pretty<'de, W: Write, T: Facet<'de>>(
    alloc: Global,
    writer: &mut W,
    value: &T,
) -> Result<(), WriteError>
    ensures written { OnOk result
        (Appends (W.contents writer.old) (W.contents writer.new) (text pretty_options 0 (T.shape.tree_of (T.view value.now)))) }
    ensures memory { IsErrOf result WriteError.Memory → writer.new ≡ writer.old }
    ensures read_back { OnOk result
        (IsReadable pretty_options (T.shape.tree_of (T.view value.now)) (text pretty_options 0 (T.shape.tree_of (T.view value.now)))) }
{
    to_writer_std_with_options(alloc, writer, value, &SerializeOptions::new().pretty())
}

/// Writes the text of a value in the layout of these options to the writer: what `to_vec_with_options` gives.
///
/// ```text
/// let options = SerializeOptions::new().indent("\t");
/// let mut out = Vec::new(alloc);
/// to_writer_std_with_options(alloc, &mut out, &7_u8, &options)?   out: b"7"
/// ```
///
/// # Errors
///
/// `Memory` where an allocation fails: then nothing was written. `Io` where the writer fails.
pub fn to_writer_std_with_options<'de, W: Write, T: Facet<'de>>(
    alloc: Global,
    writer: &mut W,
    value: &T,
    options: &SerializeOptions<'_>,
) -> Result<(), WriteError>
    ensures written { OnOk result
        (Appends (W.contents writer.old) (W.contents writer.new) (text (options_of options.now) 0 (T.shape.tree_of (T.view value.now)))) }
    ensures memory { IsErrOf result WriteError.Memory → writer.new ≡ writer.old }
    ensures read_back { OnOk result
        (IsReadable (options_of options.now) (T.shape.tree_of (T.view value.now))
        (text (options_of options.now) 0 (T.shape.tree_of (T.view value.now)))) }
{
    match to_vec_with_options(alloc, value, options) {
        Ok(text) => write_text(writer, text.as_slice()),
        Err(_) => Err(WriteError::Memory),
    }
}
