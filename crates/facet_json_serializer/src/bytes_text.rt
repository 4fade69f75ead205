//! Appending bytes as a list of numbers, or as hexadecimal text.

ghost use Rattle.std.specs.Prelude.{◌≡◌, ◌≤◌, ◌++◌, ◌∷◌, length, OnOk};
ghost use Rattle.std.specs.List.{flat_map};
ghost use Rattle.facet_json_grammar.specs.Quoted.{hex_byte};
ghost use Rattle.facet_json_grammar.specs.Text.{bytes_text, numbers, shortened, hex};
ghost use Rattle.facet_json_serializer.specs.OptionsViews.{bytes_format_of};

use crate::append::{push_bytes, push_number};
use crate::options::{BytesFormat, HexBytesOptions, push_separator};
use crate::quote::hex_digit;
use crate::sink::Sink;
use std::alloc::AllocError;

/// Appends bytes in this format.
pub(crate) fn push_bytes_text(
    out: &mut Sink,
    format: BytesFormat,
    bytes: &[u8],
) -> Result<(), AllocError>
    ensures { OnOk result (out.new ≡ out.old ++ bytes_text (bytes_format_of format) bytes.now) }
{
    match format {
        BytesFormat::Array => {
            push_bytes(out, b"[")?;
            push_numbers(out, bytes)?;
            push_bytes(out, b"]")
        }
        BytesFormat::Hex(options) => {
            push_bytes(out, b"\"0x")?;
            push_hex(out, options, bytes)?;
            push_bytes(out, b"\"")
        }
    }
}

/// Appends the bytes as numbers, a comma between them.
fn push_numbers(out: &mut Sink, bytes: &[u8]) -> Result<(), AllocError>
    ensures { OnOk result (out.new ≡ out.old ++ numbers bytes.now) }
{
    let mut first = true;
    for byte in bytes {
        push_separator(out, first)?;
        push_number(out, *byte)?;
        first = false;
    }
    Ok(())
}

/// Appends the hexadecimal text of the bytes.
fn push_hex(out: &mut Sink, options: HexBytesOptions, bytes: &[u8]) -> Result<(), AllocError>
    ensures { OnOk result (out.new
        ≡ out.old ++ hex bytes.now options.truncate_above options.head options.tail) }
{
    match options.truncate_above {
        Some(limit) if bytes.len() > limit => {
            push_shortened(out, bytes, options.head, options.tail)
        }
        _ => push_digits(out, bytes),
    }
}

/// Appends the digits of the first bytes, how many are left out, and the digits of the last.
fn push_shortened(out: &mut Sink, bytes: &[u8], head: usize, tail: usize) -> Result<(), AllocError>
    ensures { OnOk result (out.new ≡ out.old ++ shortened bytes.now head tail) }
{
    let front = head.min(bytes.len());
    let back = tail.min(bytes.len() - front);
    let left_out = bytes.len() - front - back;
    push_digits(out, &bytes[..front])?;
    push_bytes(out, b"..<")?;
    push_number(out, left_out)?;
    push_bytes(out, b" bytes>..")?;
    push_digits(out, &bytes[front + left_out..])
}

/// Appends two hexadecimal digits a byte.
fn push_digits(out: &mut Sink, bytes: &[u8]) -> Result<(), AllocError>
    ensures { OnOk result (out.new ≡ out.old ++ flat_map hex_byte bytes.now) }
{
    for byte in bytes {
        push_bytes(out, &[hex_digit(*byte / 16), hex_digit(*byte % 16)])?;
    }
    Ok(())
}
