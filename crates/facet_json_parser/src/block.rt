//! Blocks of 64 bytes: which of them must be looked at where a container is passed. The other bytes need no look, since they stand in a
//! text and do not end it, or in a gap, or are digits, commas, colons and quotes.

ghost use Rattle.std.specs.Prelude.{◌≡◌, ◌<◌, ◌+◌, ◌==◌, ℕ, suc, get_or};
ghost use Rattle.facet_json_parser.specs.Inner.Marks.{test, parity, inside, is_calm, is_marked};

use std::simd::prelude::*;

/// A bit for each byte that is this one.
#[inline(always)]
fn equal_to(v: u8x64, byte: u8) -> u64
    ensures { (i : ℕ) → i < 64 → test result i ≡ (get_or v i 0 == byte) }
{
    v.simd_eq(u8x64::splat(byte)).to_bitmask()
}

/// A bit for each byte that needs no look where no text goes on behind it.
#[inline(always)]
fn calm(v: u8x64) -> u64
    ensures { (i : ℕ) → i < 64 → test result i ≡ is_calm (get_or v i 0) }
{
    // A tab and a carriage return differ in this bit alone; the colon stands right behind the digits.
    let paired = v | u8x64::splat(4);
    (v.simd_eq(u8x64::splat(b' '))
        | v.simd_eq(u8x64::splat(b'\n'))
        | paired.simd_eq(u8x64::splat(b'\r'))
        | v.simd_eq(u8x64::splat(b'"'))
        | v.simd_eq(u8x64::splat(b','))
        | (v.simd_ge(u8x64::splat(b'0')) & v.simd_le(u8x64::splat(b':')))).to_bitmask()
}

/// Each bit's parity with all below it.
#[inline(always)]
fn parities(x: u64) -> u64
    ensures { (i : ℕ) → i < 64 → test result i ≡ parity x (i + 1) }
{
    // Each bit is the parity of the two up to it, then of four, and last of all 64, since each step joins twice as many.
    let a = x ^ (x << 1);
    let b = a ^ (a << 2);
    let c = b ^ (b << 4);
    let d = c ^ (c << 8);
    let e = d ^ (d << 16);
    e ^ (e << 32)
}

/// The marks of a block, and the bytes behind which a text goes on, where one does before the block or not.
#[inline(always)]
pub(crate) fn block(v: u8x64, within: bool) -> (u64, u64)
    ensures marks { (i : ℕ) → i < 64 → test result.0 i ≡ is_marked within v i }
    ensures texts { (i : ℕ) → i < 64 → test result.1 i ≡ inside within v (suc i) }
{
    let quotes = equal_to(v, b'"');
    let slashes = equal_to(v, b'\\');
    if within && quotes | slashes == 0 {
        return (0, u64::MAX);
    }
    // Where a text goes on into the block, each bit is turned: zero minus one has all bits.
    let texts = parities(quotes) ^ 0u64.wrapping_sub(within as u64);
    // A backslash needs a look where a quote or another backslash is behind it, which it may escape, or the block ends.
    let hard = slashes & (((quotes | slashes) >> 1) | (1 << 63));
    (!(calm(v) | texts) | hard, texts)
}
