//! How text is written: compact or indented, and bytes in which format; and the line breaks and indents that are appended.

ghost use Rattle.std.specs.Prelude.{◌≡◌, true, Option, Some, None, ◌∷◌, ◌++◌, OnOk};
ghost use Rattle.facet_json_grammar.specs.Text.{as_array, as_hex, default_options, indents, new_line, separator, line_at_end, colon_text};
ghost use Rattle.facet_json_serializer.specs.OptionsViews.{bytes_format_of, options_of};
ghost use Rattle.facet_format.specs.Bytes.{line_feed};
ghost use Rattle.facet_json_grammar.specs.Quoted.{quoted};

use crate::append::push_bytes;
use crate::quote::{push_framed_here, push_quoted};
use crate::sink::Sink;
use std::alloc::AllocError;

/// Hexadecimal text of bytes, of which only some at either end stand where there are more than a limit.
///
/// ```text
/// HexBytesOptions::new()                              "0x00010203040506070809"
/// HexBytesOptions::new().truncate(6).head_tail(2, 2)  "0x0001..<6 bytes>..0809"
/// ```
#[derive(Debug, Clone, Copy, PartialEq, Eq)]
pub struct HexBytesOptions {
    /// The greatest length that is written whole, or `None` where every length is.
    pub truncate_above: Option<usize>,
    /// How many of the first bytes stand in a text that is not whole.
    pub head: usize,
    /// How many of the last bytes stand in a text that is not whole.
    pub tail: usize,
}

impl HexBytesOptions {
    /// All bytes are written; where a limit is set, 32 at either end are.
    pub fn new() -> HexBytesOptions
        ensures truncate_above { result.truncate_above ≡ None }
        ensures head { result.head ≡ 32 }
        ensures tail { result.tail ≡ 32 }
    {
        HexBytesOptions {
            truncate_above: None,
            head: 32,
            tail: 32,
        }
    }

    /// Only bytes at either end are written where there are more than `above`.
    pub fn truncate(self, above: usize) -> HexBytesOptions
        ensures { result ≡ record self { truncate_above = Some above } }
    {
        HexBytesOptions {
            truncate_above: Some(above),
            ..self
        }
    }

    /// So many of the first bytes and of the last are written where not all are.
    pub fn head_tail(self, head: usize, tail: usize) -> HexBytesOptions
        ensures { result ≡ record self { head = head; tail = tail } }
    {
        HexBytesOptions { head, tail, ..self }
    }
}

impl Default for HexBytesOptions {
    /// All bytes are written; where a limit is set, 32 at either end are.
    fn default() -> HexBytesOptions
        ensures truncate_above { result.truncate_above ≡ None }
        ensures head { result.head ≡ 32 }
        ensures tail { result.tail ≡ 32 }
    {
        HexBytesOptions::new()
    }
}

/// How bytes are written.
#[derive(Debug, Clone, Copy, PartialEq, Eq, Default)]
pub enum BytesFormat {
    /// As a list of numbers, always compact.
    #[default]
    Array,
    /// As a text of hexadecimal digits, after `0x`.
    Hex(HexBytesOptions),
}

/// How a serializer writes: compact or indented, and bytes in which format. The indent is lent for `'i`.
#[derive(Debug, Clone, Copy)]
pub struct SerializeOptions<'i> {
    /// Whether each element and each key stands on a line of its own.
    pub pretty: bool,
    /// What a line begins with, once for each open container.
    pub indent: &'i str,
    /// How bytes are written.
    pub bytes_format: BytesFormat,
}

impl<'i> SerializeOptions<'i> {
    /// Compact text, two spaces as the indent, and bytes as lists of numbers.
    pub fn new() -> SerializeOptions<'i>
        ensures { options_of result ≡ default_options }
    {
        SerializeOptions {
            pretty: false,
            indent: "  ",
            bytes_format: BytesFormat::Array,
        }
    }

    /// Each element and each key on a line of its own.
    pub fn pretty(self) -> SerializeOptions<'i>
        ensures { options_of result ≡ record (options_of self.entry) { pretty = true } }
    {
        SerializeOptions {
            pretty: true,
            ..self
        }
    }

    /// Each element and each key on a line of its own, after this indent once for each open container.
    pub fn indent(self, indent: &'i str) -> SerializeOptions<'i>
        ensures { options_of result ≡ record (options_of self.entry) { pretty = true; indent = indent.now } }
    {
        SerializeOptions {
            indent,
            ..self.pretty()
        }
    }

    /// Bytes in this format.
    pub fn bytes_format(self, format: BytesFormat) -> SerializeOptions<'i>
        ensures { options_of result ≡ record (options_of self.entry) { bytes_format = bytes_format_of format } }
    {
        SerializeOptions {
            bytes_format: format,
            ..self
        }
    }

    /// Bytes as lists of numbers.
    pub fn bytes_as_array(self) -> SerializeOptions<'i>
        ensures { options_of result ≡ record (options_of self.entry) { bytes_format = as_array } }
    {
        self.bytes_format(BytesFormat::Array)
    }

    /// Bytes as hexadecimal texts, whole.
    pub fn bytes_as_hex(self) -> SerializeOptions<'i>
        ensures { options_of result ≡ record (options_of self.entry) { bytes_format = as_hex None 32 32 } }
    {
        self.bytes_format(BytesFormat::Hex(HexBytesOptions::new()))
    }

    /// Bytes as hexadecimal texts of these options.
    pub fn bytes_as_hex_with_options(self, options: HexBytesOptions) -> SerializeOptions<'i>
        ensures { options_of result ≡ record (options_of self.entry)
            { bytes_format = as_hex options.truncate_above options.head options.tail } }
    {
        self.bytes_format(BytesFormat::Hex(options))
    }
}

impl<'i> Default for SerializeOptions<'i> {
    /// Compact text, two spaces as the indent, and bytes as lists of numbers.
    fn default() -> SerializeOptions<'i>
        ensures { options_of result ≡ default_options }
    {
        SerializeOptions::new()
    }
}

/// A new line, and the indent once for each open container, where the text is indented.
#[inline(always)]
pub(crate) fn push_line(
    out: &mut Sink,
    options: &SerializeOptions<'_>,
    depth: usize,
) -> Result<(), AllocError>
    ensures { OnOk result (out.new ≡ out.old ++ new_line (options_of options.now) depth) }
{
    if !options.pretty {
        return Ok(());
    }
    push_indented_line(out, options.indent, depth)
}

/// A new line, and the indent once for each open container.
fn push_indented_line(out: &mut Sink, indent: &str, depth: usize) -> Result<(), AllocError>
    ensures { OnOk result (out.new ≡ out.old ++ line_feed ∷ indents depth indent.now) }
{
    let indent = indent.as_bytes();
    out.push(b'\n')?;
    for _ in 0..depth {
        push_bytes(out, indent)?;
    }
    Ok(())
}

/// Nothing before the first, a comma before each other.
#[inline(always)]
pub(crate) fn push_separator(out: &mut Sink, first: bool) -> Result<(), AllocError>
    ensures { OnOk result (out.new ≡ out.old ++ separator first) }
{
    if first {
        return Ok(());
    }
    out.push(b',')?;
    Ok(())
}

/// What stands before a closing bracket: a new line where the container is not empty.
pub(crate) fn push_line_at_end(
    out: &mut Sink,
    options: &SerializeOptions<'_>,
    depth: usize,
    first: bool,
) -> Result<(), AllocError>
    ensures { OnOk result (out.new ≡ out.old ++ line_at_end (options_of options.now) depth first) }
{
    if first {
        return Ok(());
    }
    push_line(out, options, depth)
}

/// A key, with what stands before it and after it.
#[inline(always)]
pub(crate) fn push_key(
    out: &mut Sink,
    options: &SerializeOptions<'_>,
    depth: usize,
    first: bool,
    key: &str,
) -> Result<(), AllocError>
    ensures { OnOk result (out.new ≡ out.old
        ++ (separator first ++ new_line (options_of options.now) depth ++ quoted key.now ++ colon_text (options_of options.now))) }
{
    if options.pretty {
        return push_indented_key(out, options, depth, first, key);
    }
    push_framed_here(out, !first, key, true)
}

/// Appends a key with what stands before it in any layout, piece by piece.
#[inline(never)]
fn push_indented_key(
    out: &mut Sink,
    options: &SerializeOptions<'_>,
    depth: usize,
    first: bool,
    key: &str,
) -> Result<(), AllocError>
    ensures { OnOk result (out.new ≡ out.old
        ++ (separator first ++ new_line (options_of options.now) depth ++ quoted key.now ++ colon_text (options_of options.now))) }
{
    push_separator(out, first)?;
    push_line(out, options, depth)?;
    push_quoted(out, key)?;
    push_colon(out, options)
}

/// What stands between a key and its value.
fn push_colon(out: &mut Sink, options: &SerializeOptions<'_>) -> Result<(), AllocError>
    ensures { OnOk result (out.new ≡ out.old ++ colon_text (options_of options.now)) }
{
    if options.pretty {
        push_bytes(out, b": ")
    } else {
        push_bytes(out, b":")
    }
}
