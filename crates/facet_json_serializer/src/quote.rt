//! A text between quotes: runs of bytes that stand for themselves, and the escapes between them.

ghost use Rattle.std.specs.Prelude.{◌≡◌, ◌+◌, ◌<◌, ◌≤◌, [], ◌∷◌, ◌++◌, cond, OnOk, codes, length, drop, map};
ghost use Rattle.std.specs.Bool.{OnTrue};
ghost use Rattle.std.specs.List.{flat_map, prefix_len};
ghost use Rattle.std.specs.Simd.Lanes.{mask_l};
ghost use Rattle.facet_format.specs.Bytes.{comma, colon, quote};
ghost use Rattle.facet_json_grammar.specs.Quoted.{escaped, quoted, hex_byte};
ghost use Rattle.facet_json_grammar.specs.Quoted as spelled;
ghost use Rattle.facet_json_serializer.specs.Inner.Window as window;

use crate::sink::Sink;
use std::alloc::AllocError;
use std::simd::prelude::*;

/// Appends a text between quotes (RFC 8259, section 7): an escape for each quote, backslash, DEL and character below U+0020, and each
/// other character as its UTF-8.
///
/// ```text
/// push_quoted(&mut out, "C:\\中")?     appends `"C:\\\\中"`
/// push_quoted(&mut out, "a\n\0")?      appends `"a\n\u0000"`
/// ```
///
/// # Errors
///
/// `AllocError` alone, where an allocation for `out` fails: `out` may then end in a part of the text.
pub(crate) fn push_quoted(out: &mut Sink, text: &str) -> Result<(), AllocError>
    ensures { OnOk result (out.new ≡ out.old ++ quoted text.now) }
{
    push_framed(out, false, text, false)
}

/// Appends a text between quotes, after a comma and before a colon where these are wanted: all in one piece where the text is short
/// and needs no escape.
///
/// ```text
/// push_framed(&mut out, true, "id", true)?      appends `,"id":`
/// push_framed(&mut out, false, "a\n", false)?   appends `"a\n"`
/// ```
///
/// # Errors
///
/// `AllocError` alone, where an allocation for `out` fails: `out` may then end in a part of this.
#[inline(never)]
pub(crate) fn push_framed(
    out: &mut Sink,
    after_comma: bool,
    text: &str,
    before_colon: bool,
) -> Result<(), AllocError>
    ensures { OnOk result (out.new ≡ out.old
        ++ (cond after_comma (comma ∷ []) [] ++ (quoted text.now ++ cond before_colon (colon ∷ []) []))) }
{
    push_framed_here(out, after_comma, text, before_colon)
}

/// `push_framed`, compiled in line: of a text that is known when the program is compiled some stores are left.
///
/// # Errors
///
/// As `push_framed`.
#[inline(always)]
pub(crate) fn push_framed_here(
    out: &mut Sink,
    after_comma: bool,
    text: &str,
    before_colon: bool,
) -> Result<(), AllocError>
    ensures { OnOk result (out.new ≡ out.old
        ++ (cond after_comma (comma ∷ []) [] ++ (quoted text.now ++ cond before_colon (colon ∷ []) []))) }
{
    let bytes = text.as_bytes();
    if bytes.len() <= 32 && plain_short(bytes) {
        return out.push_short(after_comma, bytes, before_colon);
    }
    push_long(out, after_comma, bytes, before_colon)
}

/// Appends a text of any length between quotes, after a comma and before a colon where these are wanted, piece by piece.
#[inline(never)]
fn push_long(
    out: &mut Sink,
    after_comma: bool,
    text: &[u8],
    before_colon: bool,
) -> Result<(), AllocError>
    ensures { OnOk result (out.new ≡ out.old
        ++ (cond after_comma (comma ∷ []) [] ++ (quoted text.now ++ cond before_colon (colon ∷ []) []))) }
{
    push_opening(out, after_comma)?;
    push_content(out, text)?;
    push_closing(out, before_colon)
}

/// Appends the quote before a text, after a comma if one is due.
#[inline(always)]
fn push_opening(out: &mut Sink, after_comma: bool) -> Result<(), AllocError>
    ensures { OnOk result (out.new ≡ out.old ++ (cond after_comma (comma ∷ []) [] ++ quote ∷ [])) }
{
    if after_comma {
        out.push(b',')?;
    }
    out.push(b'"')
}

/// Appends the quote behind a text, and a colon behind a key's.
#[inline(always)]
fn push_closing(out: &mut Sink, before_colon: bool) -> Result<(), AllocError>
    ensures { OnOk result (out.new ≡ out.old ++ (quote ∷ cond before_colon (colon ∷ []) [])) }
{
    out.push(b'"')?;
    if before_colon {
        out.push(b':')?;
    }
    Ok(())
}

/// Appends what stands between the quotes: a run of bytes that need no escape at once, then the escape after it. A run is sought by
/// windows while the text has one more, and the last bytes, fewer than a window, go one by one.
///
/// Windows needn't begin at a character: each byte of a character above U+007F stands for itself.
fn push_content(out: &mut Sink, bytes: &[u8]) -> Result<(), AllocError>
    ensures { OnOk result (out.new ≡ out.old ++ flat_map escaped bytes.now) }
{
    let mut at = 0;
    while bytes.len() - at >= 16 {
        let stop = verbatim_end(bytes, at);
        if stop == bytes.len() {
            return push_run(out, &bytes[at..stop]);
        }
        push_run_and_escaped(out, &bytes[at..stop], bytes[stop])?;
        at = stop + 1;
    }
    push_content_bytewise(out, &bytes[at..])
}

/// Appends what stands between the quotes, byte by byte: of the last bytes of a text, which are fewer than a window.
#[inline(always)]
fn push_content_bytewise(out: &mut Sink, bytes: &[u8]) -> Result<(), AllocError>
    ensures { OnOk result (out.new ≡ out.old ++ flat_map escaped bytes.now) }
{
    let mut start = 0;
    for (i, byte) in bytes.iter().enumerate() {
        if needs_escape(*byte) {
            push_run_and_escaped(out, &bytes[start..i], *byte)?;
            start = i + 1;
        }
    }
    push_run(out, &bytes[start..])
}

/// Appends bytes verbatim. Where escapes follow one another there are none between them, and no call is spent on that.
#[inline(always)]
fn push_run(out: &mut Sink, run: &[u8]) -> Result<(), AllocError>
    ensures { OnOk result (out.new ≡ out.old ++ run.now) }
{
    if run.is_empty() {
        return Ok(());
    }
    out.extend_from_slice(run)
}

/// Appends bytes verbatim, and what stands for the byte behind them.
#[inline(always)]
fn push_run_and_escaped(out: &mut Sink, run: &[u8], byte: u8) -> Result<(), AllocError>
    ensures { OnOk result (out.new ≡ (out.old ++ run.now) ++ escaped byte) }
{
    push_run(out, run)?;
    push_escaped(out, byte)
}

/// Whether a byte cannot stand for itself between the quotes.
#[inline(always)]
fn needs_escape(byte: u8) -> bool
    ensures { result ≡ window.needs_escape byte }
{
    byte < b' ' || byte == b'"' || byte == b'\\' || byte == 0x7f
}

/// Appends what stands between the quotes for one byte of a text in UTF-8 (RFC 8259, section 7): an escape of an ASCII character, or
/// the byte.
#[tactic(auto, using(crate::proofs::Escapes::long_escape), unfolding(facet_json_grammar::specs::Quoted::escaped))]
fn push_escaped(out: &mut Sink, byte: u8) -> Result<(), AllocError>
    ensures { OnOk result (out.new ≡ out.old ++ escaped byte) }
{
    match byte {
        b'"' => out.extend_from_slice(b"\\\""),
        b'\\' => out.extend_from_slice(b"\\\\"),
        b'\n' => out.extend_from_slice(b"\\n"),
        b'\r' => out.extend_from_slice(b"\\r"),
        b'\t' => out.extend_from_slice(b"\\t"),
        0x08 => out.extend_from_slice(b"\\b"),
        0x0c => out.extend_from_slice(b"\\f"),
        _ if byte < b' ' || byte == 0x7f => out.extend_from_slice(&hex_escape(byte)),
        _ => out.extend_from_slice(&[byte]),
    }
}

/// The escape of six characters of a byte.
fn hex_escape(byte: u8) -> [u8; 6]
    ensures { result ≡ codes "\\u00" ++ hex_byte byte }
{
    [
        b'\\',
        b'u',
        b'0',
        b'0',
        hex_digit(byte / 16),
        hex_digit(byte % 16),
    ]
}

/// A lower-case hexadecimal digit.
///
/// ```text
/// hex_digit(7)      b'7'
/// hex_digit(15)     b'f'
/// ```
pub(crate) fn hex_digit(n: u8) -> u8
    requires { n < 16 }
    ensures { result ≡ spelled.hex_digit n }
{
    if n < 10 { n + b'0' } else { n - 10 + b'a' }
}

/// A bit for each of sixteen bytes that cannot stand for itself between the quotes: none where the whole window may be copied.
#[inline(always)]
fn escapes(bytes: u8x16) -> u64
    ensures { result ≡ mask_l (map window.needs_escape bytes) }
{
    (bytes.simd_lt(u8x16::splat(b' '))
        | bytes.simd_eq(u8x16::splat(b'"'))
        | bytes.simd_eq(u8x16::splat(b'\\'))
        | bytes.simd_eq(u8x16::splat(0x7f))).to_bitmask()
}

/// How many of sixteen bytes may be copied verbatim, up to the first that needs an escape: sixteen where all may.
#[inline(always)]
fn plain_lanes(bytes: u8x16) -> usize
    ensures value { result ≡ prefix_len window.needs_no_escape bytes }
    ensures within { result ≤ 16 }
{
    let found = escapes(bytes);
    if found == 0 {
        16
    } else {
        found.trailing_zeros() as usize
    }
}

/// The first byte from `from` on that needs an escape, or the length. The last window is the text's last sixteen bytes, some of
/// which the one before may have passed.
#[inline(always)]
fn verbatim_end(bytes: &[u8], from: usize) -> usize
    requires { from + 16 ≤ length bytes.now }
    ensures value { result ≡ from + prefix_len window.needs_no_escape (drop from bytes.now) }
    ensures within { result ≤ length bytes.now }
{
    let mut at = from;
    while bytes.len() - at > 16 {
        let plain = plain_lanes(u8x16::from_slice(&bytes[at..]));
        if plain < 16 {
            return at + plain;
        }
        at += 16;
    }
    let last = bytes.len() - 16;
    last + plain_lanes(u8x16::from_slice(&bytes[last..]))
}

/// Whether none of four bytes needs an escape.
#[inline(always)]
fn plain_4(text: &[u8], at: usize) -> bool
    requires { at + 4 ≤ length text.now }
    ensures { OnTrue result (window.PlainBetween text.now at (at + 4)) }
{
    let window = u8x4::from_slice(&text[at..]);
    (window.simd_lt(u8x4::splat(b' '))
        | window.simd_eq(u8x4::splat(b'"'))
        | window.simd_eq(u8x4::splat(b'\\'))
        | window.simd_eq(u8x4::splat(0x7f))).to_bitmask()
        == 0
}

/// Whether none of eight bytes needs an escape.
#[inline(always)]
fn plain_8(text: &[u8], at: usize) -> bool
    requires { at + 8 ≤ length text.now }
    ensures { OnTrue result (window.PlainBetween text.now at (at + 8)) }
{
    let window = u8x8::from_slice(&text[at..]);
    (window.simd_lt(u8x8::splat(b' '))
        | window.simd_eq(u8x8::splat(b'"'))
        | window.simd_eq(u8x8::splat(b'\\'))
        | window.simd_eq(u8x8::splat(0x7f))).to_bitmask()
        == 0
}

/// Whether none of sixteen bytes needs an escape.
#[inline(always)]
fn plain_16(text: &[u8], at: usize) -> bool
    requires { at + 16 ≤ length text.now }
    ensures { OnTrue result (window.PlainBetween text.now at (at + 16)) }
{
    let window = u8x16::from_slice(&text[at..]);
    (window.simd_lt(u8x16::splat(b' '))
        | window.simd_eq(u8x16::splat(b'"'))
        | window.simd_eq(u8x16::splat(b'\\'))
        | window.simd_eq(u8x16::splat(0x7f))).to_bitmask()
        == 0
}

/// Whether none of a few bytes needs an escape.
#[inline(always)]
fn plain_few(text: &[u8]) -> bool
    ensures { OnTrue result (window.PlainBetween text.now 0 (length text.now)) }
{
    for &byte in text {
        if needs_escape(byte) {
            return false;
        }
    }
    true
}

/// Whether no byte of a text of up to 32 needs an escape.
#[inline(always)]
fn plain_short(text: &[u8]) -> bool
    requires { length text.now ≤ 32 }
    ensures { OnTrue result (window.PlainBetween text.now 0 (length text.now)) }
{
    let len = text.len();
    if len >= 16 {
        plain_16(text, 0) && plain_16(text, len - 16)
    } else if len >= 8 {
        plain_8(text, 0) && plain_8(text, len - 8)
    } else if len >= 4 {
        plain_4(text, 0) && plain_4(text, len - 4)
    } else {
        plain_few(text)
    }
}
