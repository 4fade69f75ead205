//! Bytes that are appended piece by piece, with room made ready ahead: a short piece is stored after one test, and without a call. The room
//! holds zeros, and grows by bounded steps, so that few bytes are written twice; a long text takes none.

ghost use Rattle.std.specs.Prelude.{◌≡◌, ◌+◌, ◌<◌, ◌≤◌, [], ◌∷◌, ◌++◌, length, take, cond, vec_len, OnOk, unsigned_abs};
ghost use Rattle.std.specs.Fmt.{decimal, signed_decimal};
ghost use Rattle.facet_format.specs.Bytes.{comma, colon, quote, minus};
ghost use Rattle.facet_json_serializer.specs.Inner.Places.{Placed};

use itoa::write_digits;
use std::alloc::{AllocError, Global};
use std::marker::Model;
use std::simd::Simd;

/// The least room that is made ready at once: any short piece fits.
const LEAST_AHEAD: usize = 128;

/// The most room that is made ready at once.
const MOST_AHEAD: usize = 1024;

/// What stands in the room.
static ZEROS: [u8; MOST_AHEAD] = [0; MOST_AHEAD];

/// Bytes that are appended. It serves the crates of this library alone.
///
/// ```text
/// let mut out = Sink::new(alloc);
/// out.push(b'[')?;
/// out.push_unsigned(false, 7)?;
/// out.push_unsigned(true, 12)?;
/// out.extend_from_slice(b"]")?;
/// out.into_vec()                    [7,12]
/// ```
///
/// # Errors
///
/// Each call that appends is refused with `AllocError` alone, where an allocation fails.
#[derive(Drop)]
pub struct Sink {
    /// What was appended, and the room after it.
    bytes: Vec<u8>,
    /// How many of the bytes were appended.
    len: usize,
}

impl Model for Sink {
    ghost use Rattle.std.specs.Prelude.{◌≤◌, ℕ, List, length, take};

    ghost Value = { List ℕ };

    ghost view = { λ s. take s.len s.bytes.items };

    ghost invariant = { λ s. s.len ≤ length s.bytes.items };
}

impl Sink {
    /// Nothing yet. It does not allocate.
    pub fn new(alloc: Global) -> Sink
        ensures { result ≡ [] }
    {
        Sink {
            bytes: Vec::new(alloc),
            len: 0,
        }
    }

    /// The bytes that were appended, without the room. It does not allocate.
    pub fn into_vec(self) -> Vec<u8>
        ensures { result.items ≡ self }
    {
        let Sink { mut bytes, len } = self;
        bytes.truncate(len);
        bytes
    }

    /// Appends a byte.
    #[inline(always)]
    pub fn push(&mut self, byte: u8) -> Result<(), AllocError>
        ensures { OnOk result (self.new ≡ self.old ++ byte ∷ []) }
    {
        if self.len < self.bytes.len() {
            self.len = place_byte(self.bytes.as_mut_slice(), self.len, byte, true);
            return Ok(());
        }
        self.bytes.push(byte)?;
        self.len = self.bytes.len();
        Ok(())
    }

    /// Appends bytes.
    #[inline]
    pub fn extend_from_slice(&mut self, run: &[u8]) -> Result<(), AllocError>
        ensures { OnOk result (self.new ≡ self.old ++ run.now) }
    {
        if run.len() > 32 {
            return self.extend_long(run);
        }
        make_room(&mut self.bytes, self.len, run.len())?;
        self.len = place_short(self.bytes.as_mut_slice(), self.len, run);
        Ok(())
    }

    /// Appends bytes: into the room where it takes them all, and else in place of it.
    #[inline(never)]
    fn extend_long(&mut self, run: &[u8]) -> Result<(), AllocError>
        ensures { OnOk result (self.new ≡ self.old ++ run.now) }
    {
        if run.len() <= self.bytes.len() - self.len {
            self.len = place_run(self.bytes.as_mut_slice(), self.len, run);
            return Ok(());
        }
        self.bytes.truncate(self.len);
        self.bytes.extend_from_slice(run)?;
        self.len = self.bytes.len();
        Ok(())
    }

    /// Appends a text of up to 32 bytes verbatim, between quotes, after a comma and before a colon where these are wanted.
    #[inline(always)]
    pub(crate) fn push_short(
        &mut self,
        after_comma: bool,
        text: &[u8],
        before_colon: bool,
    ) -> Result<(), AllocError>
        requires { length text.now ≤ 32 }
        ensures { OnOk result (self.new ≡ self.old
            ++ (cond after_comma (comma ∷ []) [] ++ (quote ∷ text.now ++ quote ∷ [] ++ cond before_colon (colon ∷ []) []))) }
    {
        make_room(&mut self.bytes, self.len, 36)?;
        self.len = place_framed(
            self.bytes.as_mut_slice(),
            self.len,
            after_comma,
            text,
            before_colon,
        );
        Ok(())
    }

    /// Appends a number's decimal digits, after a comma where it is wanted.
    #[inline(always)]
    pub fn push_unsigned(&mut self, after_comma: bool, n: u64) -> Result<(), AllocError>
        ensures { OnOk result (self.new ≡ self.old ++ (cond after_comma (comma ∷ []) [] ++ decimal n)) }
    {
        self.push_number(after_comma, false, n)
    }

    /// Appends a number's decimal digits, after a minus where it is negative, and a comma where it is wanted.
    #[inline(always)]
    pub fn push_signed(&mut self, after_comma: bool, n: i64) -> Result<(), AllocError>
        ensures { OnOk result (self.new ≡ self.old ++ (cond after_comma (comma ∷ []) [] ++ signed_decimal n)) }
    {
        self.push_number(after_comma, is_negative(n), n.unsigned_abs())
    }

    /// Appends a number's decimal digits, after a comma and a minus where these are wanted.
    #[inline(always)]
    fn push_number(
        &mut self,
        after_comma: bool,
        after_minus: bool,
        n: u64,
    ) -> Result<(), AllocError>
        ensures { OnOk result (self.new ≡ self.old
            ++ (cond after_comma (comma ∷ []) [] ++ (cond after_minus (minus ∷ []) [] ++ decimal n))) }
    {
        make_room(&mut self.bytes, self.len, 24)?;
        self.len = place_number(
            self.bytes.as_mut_slice(),
            self.len,
            after_comma,
            after_minus,
            n,
        );
        Ok(())
    }
}

/// Makes room for so many bytes after the first `len`, which stay.
#[inline(always)]
fn make_room(bytes: &mut Vec<u8>, len: usize, more: usize) -> Result<(), AllocError>
    requires within { len ≤ vec_len bytes.old }
    requires short { more ≤ 128 }
    ensures kept { take len bytes.new.items ≡ take len bytes.old.items }
    ensures within { len ≤ vec_len bytes.new }
    ensures room { OnOk result (len + more ≤ vec_len bytes.new) }
{
    if more <= bytes.len() - len {
        return Ok(());
    }
    grow(bytes)
}

/// Appends room: as much as there are bytes, within bounds.
#[cold]
#[inline(never)]
fn grow(bytes: &mut Vec<u8>) -> Result<(), AllocError>
    ensures kept { take (vec_len bytes.old) bytes.new.items ≡ bytes.old.items }
    ensures room { OnOk result (vec_len bytes.old + 128 ≤ vec_len bytes.new) }
{
    let ahead = bytes.len().clamp(LEAST_AHEAD, MOST_AHEAD);
    bytes.extend_from_slice(&ZEROS[..ahead])
}

/// Writes a byte, which is always stored, and counts only where it is wanted.
#[inline(always)]
fn place_byte(buffer: &mut [u8], at: usize, byte: u8, wanted: bool) -> usize
    requires { at < length buffer.old }
    ensures { Placed buffer.old buffer.new at (cond wanted (byte ∷ []) []) result }
{
    buffer[at] = byte;
    if wanted { at + 1 } else { at }
}

/// Writes the first bytes of a text by one load and one store.
#[inline(always)]
fn place_first<const N: usize>(buffer: &mut [u8], at: usize, text: &[u8]) -> usize
    requires { (N ≤ length text.now) × (at + N ≤ length buffer.old) }
    ensures { Placed buffer.old buffer.new at (take N text.now) result }
{
    Simd::<u8, N>::from_slice(text).copy_to_slice(&mut buffer[at..]);
    at + N
}

/// Writes a text by its first bytes and its last, which may overlap.
#[inline(always)]
fn place_ends<const N: usize>(buffer: &mut [u8], at: usize, text: &[u8]) -> usize
    requires fits { at + length text.now ≤ length buffer.old }
    requires covers { (N ≤ length text.now) × (length text.now ≤ N + N) }
    ensures { Placed buffer.old buffer.new at text.now result }
{
    let last = text.len() - N;
    place_first::<N>(buffer, at, text);
    place_first::<N>(buffer, at + last, &text[last..])
}

/// Writes a text of up to 32 bytes.
#[inline(always)]
fn place_short(buffer: &mut [u8], at: usize, text: &[u8]) -> usize
    requires fits { at + length text.now ≤ length buffer.old }
    requires short { length text.now ≤ 32 }
    ensures { Placed buffer.old buffer.new at text.now result }
{
    let len = text.len();
    if len >= 16 {
        place_ends::<16>(buffer, at, text)
    } else if len >= 8 {
        place_ends::<8>(buffer, at, text)
    } else if len >= 4 {
        place_ends::<4>(buffer, at, text)
    } else if len >= 2 {
        place_ends::<2>(buffer, at, text)
    } else if len == 1 {
        place_first::<1>(buffer, at, text)
    } else {
        at
    }
}

/// Writes bytes of any number.
#[inline(always)]
fn place_run(buffer: &mut [u8], at: usize, run: &[u8]) -> usize
    requires { at + length run.now ≤ length buffer.old }
    ensures { Placed buffer.old buffer.new at run.now result }
{
    let end = at + run.len();
    buffer[at..end].copy_from_slice(run);
    end
}

/// Writes a text of up to 32 bytes verbatim, between quotes, at a place of a buffer.
#[inline(always)]
fn place_framed(
    buffer: &mut [u8],
    at: usize,
    after_comma: bool,
    text: &[u8],
    before_colon: bool,
) -> usize
    requires short { length text.now ≤ 32 }
    requires fits { at + 36 ≤ length buffer.old }
    ensures { Placed buffer.old buffer.new at
        (cond after_comma (comma ∷ []) [] ++ (quote ∷ text.now ++ quote ∷ [] ++ cond before_colon (colon ∷ []) [])) result }
{
    let at = place_byte(buffer, at, b',', after_comma);
    let at = place_byte(buffer, at, b'"', true);
    let at = place_short(buffer, at, text);
    let at = place_byte(buffer, at, b'"', true);
    place_byte(buffer, at, b':', before_colon)
}

/// Whether a number has a minus before its digits.
#[inline(always)]
fn is_negative(n: i64) -> bool
    ensures { cond result (minus ∷ []) [] ++ decimal (unsigned_abs n) ≡ signed_decimal n }
{
    n < 0
}

/// Writes a number's decimal digits, after a comma and a minus where these are wanted.
#[inline(always)]
fn place_number(buffer: &mut [u8], at: usize, after_comma: bool, after_minus: bool, n: u64) -> usize
    requires { at + 24 ≤ length buffer.old }
    ensures { Placed buffer.old buffer.new at
        (cond after_comma (comma ∷ []) [] ++ (cond after_minus (minus ∷ []) [] ++ decimal n)) result }
{
    let at = place_byte(buffer, at, b',', after_comma);
    let at = place_byte(buffer, at, b'-', after_minus);
    place_digits(buffer, at, n)
}

/// Writes a number's decimal digits, which are twenty at most.
#[inline(always)]
fn place_digits(buffer: &mut [u8], at: usize, n: u64) -> usize
    requires { at + 20 ≤ length buffer.old }
    ensures { Placed buffer.old buffer.new at (decimal n) result }
{
    let end = at + digit_count(n);
    write_digits(n, buffer, end);
    end
}

/// How many decimal digits a number has.
#[inline(always)]
fn digit_count(n: u64) -> usize
    ensures count { result ≡ length (decimal n) }
    ensures small { result ≤ 20 }
{
    if n < 10 {
        return 1;
    }
    n.ilog10() as usize + 1
}
