//! Where runs of bytes end, sixteen bytes at a time.

ghost use Rattle.std.specs.Prelude.{◌≡◌, ℕ, ◌+◌, ◌≤◌, ◌<◌, Bool, not, length, drop, map, MatchOption};
ghost use Rattle.std.specs.List.{prefix_len};
ghost use Rattle.std.specs.Simd.Lanes.{mask_l};
ghost use Rattle.facet_json_token.specs.Inner.Ascii.{is_high};
ghost use Rattle.facet_json_token.specs.Inner.RfcWindow.{is_rfc_stop};
ghost use Rattle.facet_json_token.specs.Inner.Run.{is_backslash};
ghost use Rattle.facet_json_token.specs.Inner.Window.{is_stop, is_no_space, is_line_feed, is_star};

use std::simd::prelude::*;

/// Which bytes a run goes on through.
pub(crate) trait Run {
    ghost is_end: { ℕ → Bool };

    /// A bit for each of sixteen bytes that ends the run.
    fn stops(window: u8x16) -> u64
        ensures { result ≡ mask_l (map is_end window) };

    /// Whether the byte ends the run.
    fn ends(byte: u8) -> bool
        ensures { result ≡ is_end byte };
}

/// All but quotes and backslashes.
pub(crate) struct Plain;

impl Run for Plain {
    ghost is_end = { is_stop };

    #[inline(always)]
    fn stops(window: u8x16) -> u64 {
        (window.simd_eq(u8x16::splat(b'"')) | window.simd_eq(u8x16::splat(b'\\'))).to_bitmask()
    }

    #[inline(always)]
    fn ends(byte: u8) -> bool {
        byte == b'"' || byte == b'\\'
    }
}

/// White space.
pub(crate) struct Blank;

impl Run for Blank {
    ghost is_end = { is_no_space };

    #[inline(always)]
    fn stops(window: u8x16) -> u64 {
        let blank = window.simd_eq(u8x16::splat(b' '))
            | window.simd_eq(u8x16::splat(b'\n'))
            | window.simd_eq(u8x16::splat(b'\r'))
            | window.simd_eq(u8x16::splat(b'\t'));
        (!blank).to_bitmask()
    }

    #[inline(always)]
    fn ends(byte: u8) -> bool {
        !matches!(byte, b' ' | b'\t' | b'\n' | b'\r')
    }
}

/// All but backslashes.
pub(crate) struct Unescaped;

impl Run for Unescaped {
    ghost is_end = { is_backslash };

    #[inline(always)]
    fn stops(window: u8x16) -> u64 {
        window.simd_eq(u8x16::splat(b'\\')).to_bitmask()
    }

    #[inline(always)]
    fn ends(byte: u8) -> bool {
        byte == b'\\'
    }
}

/// All but line feeds.
pub(crate) struct Line;

impl Run for Line {
    ghost is_end = { is_line_feed };

    #[inline(always)]
    fn stops(window: u8x16) -> u64 {
        window.simd_eq(u8x16::splat(b'\n')).to_bitmask()
    }

    #[inline(always)]
    fn ends(byte: u8) -> bool {
        byte == b'\n'
    }
}

/// All but stars.
pub(crate) struct Starless;

impl Run for Starless {
    ghost is_end = { is_star };

    #[inline(always)]
    fn stops(window: u8x16) -> u64 {
        window.simd_eq(u8x16::splat(b'*')).to_bitmask()
    }

    #[inline(always)]
    fn ends(byte: u8) -> bool {
        byte == b'*'
    }
}

/// What may stand in a string of RFC 8259 and escapes nothing: neither below 0x20 nor a backslash.
pub(crate) struct RfcPlain;

impl Run for RfcPlain {
    ghost is_end = { is_rfc_stop };

    #[inline(always)]
    fn stops(window: u8x16) -> u64 {
        (window.simd_lt(u8x16::splat(b' ')) | window.simd_eq(u8x16::splat(b'\\'))).to_bitmask()
    }

    #[inline(always)]
    fn ends(byte: u8) -> bool {
        byte < b' ' || byte == b'\\'
    }
}

/// ASCII: below 0x80.
pub(crate) struct Ascii;

impl Run for Ascii {
    ghost is_end = { is_high };

    #[inline(always)]
    fn stops(window: u8x16) -> u64 {
        window.simd_ge(u8x16::splat(0x80)).to_bitmask()
    }

    #[inline(always)]
    fn ends(byte: u8) -> bool {
        byte >= 0x80
    }
}

/// The offset where the run from `from` on ends, or the length.
#[inline(always)]
pub(crate) fn run_end<R: Run>(buffer: &[u8], from: usize) -> usize
    requires { from ≤ length buffer.now }
    ensures value { result ≡ from + prefix_len (λ b. not (R.is_end b)) (drop from buffer.now) }
    ensures ahead { from ≤ result }
    ensures within { result ≤ length buffer.now }
{
    let mut at = from;
    while buffer.len() - at >= 16 {
        if let Some(end) = window_end::<R>(buffer, at) {
            return end;
        }
        at += 16;
    }
    run_end_bytewise::<R>(buffer, at, buffer.len())
}

/// The offset where the run from `at` on ends, or `end` where none stands before it. The last window may reach past `end`, but not
/// past the buffer.
#[inline(always)]
pub(crate) fn run_end_within<R: Run>(buffer: &[u8], at: usize, end: usize) -> usize
    requires in_order { at ≤ end }
    requires in_range { end ≤ length buffer.now }
    ensures ahead { at ≤ result }
    ensures within { result ≤ end }
    ensures run { result ≤ at + prefix_len (λ b. not (R.is_end b)) (drop at buffer.now) }
    ensures stops { result < end → result ≡ at + prefix_len (λ b. not (R.is_end b)) (drop at buffer.now) }
{
    let mut stop = at;
    while stop < end {
        if buffer.len() - stop < 16 {
            return run_end_bytewise::<R>(buffer, stop, end);
        }
        if let Some(found) = window_end::<R>(buffer, stop) {
            return nearer(found, end);
        }
        stop += 16;
    }
    end
}

/// The offset where the run from `at` on ends, if it ends within the sixteen bytes there.
#[inline(always)]
fn window_end<R: Run>(buffer: &[u8], at: usize) -> Option<usize>
    requires { at + 16 ≤ length buffer.now }
    ensures { let run = prefix_len (λ b. not (R.is_end b)) (drop at buffer.now) in MatchOption result
        (run ≡ 16 + prefix_len (λ b. not (R.is_end b)) (drop (at + 16) buffer.now))
        (λ end. (end ≡ at + run) × (run < 16)) }
{
    let found = R::stops(u8x16::from_slice(&buffer[at..]));
    if found == 0 {
        return None;
    }
    Some(at + found.trailing_zeros() as usize)
}

/// The end of the run, byte by byte: of a buffer's last bytes, which are fewer than a window.
#[inline(never)]
fn run_end_bytewise<R: Run>(buffer: &[u8], at: usize, end: usize) -> usize
    requires in_order { at ≤ end }
    requires in_range { end ≤ length buffer.now }
    ensures ahead { at ≤ result }
    ensures within { result ≤ end }
    ensures run { result ≤ at + prefix_len (λ b. not (R.is_end b)) (drop at buffer.now) }
    ensures stops { result < end → result ≡ at + prefix_len (λ b. not (R.is_end b)) (drop at buffer.now) }
{
    let mut stop = at;
    while stop < end && !R::ends(buffer[stop]) {
        stop += 1;
    }
    stop
}

/// The lesser of two offsets.
#[inline(always)]
fn nearer(a: usize, b: usize) -> usize
    ensures first { result ≤ a }
    ensures second { result ≤ b }
    ensures one { result < b → result ≡ a }
{
    if a < b { a } else { b }
}
