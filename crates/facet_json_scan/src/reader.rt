//! A source is read piece by piece into one buffer, and scanned whenever that has grown.

ghost use Rattle.std.specs.Prelude.{◌≡◌, ◌||◌, ℕ, ◌+◌, ◌<◌, ◌==◌, List, [], ◌∷◌, ◌++◌, length, true, false, None, IfOk, IfSome, IfNone};
ghost use Rattle.std.specs.Prelude.{OnOk, vec_len};
ghost use Rattle.std.specs.Io.KnownBytes.{Consumes, IsAtEnd};
ghost use Rattle.facet_json_scan.specs.Scanner.{idle};
ghost use Rattle.facet_json_scan.specs.ScannerViews.{answered};
ghost use Rattle.std.specs.List.{All};
ghost use Rattle.facet_json_scan.specs.Listed.{mode_with, tokens_of_list, rest_after, AreAllOf, AreTokensOf, StandsWithin, StandWithin};
ghost use Rattle.facet_json_scan.specs.Listed.{ScanRefusalWithin, is_io};
ghost use Rattle.facet_json_scan.specs.Inner.Stands.{is_cut, Stands, IsScanned, IsFinished};

use crate::answer::{ScanReadError, Scanned};
use crate::scanner::Scanner;
use crate::source::ByteSource;
use facet_json_token::{ScanError, SpannedToken, Token};
use std::alloc::Global;

/// The most bytes that one read is asked for.
const LONGEST_PIECE: usize = 65_536;

/// All tokens of what the source has (RFC 8259, section 2), with comments if these are asked for, and the bytes themselves.
///
/// It reads at most `step` bytes at a time, and at most 65,536, up to the end of the source or the first refusal, and scans them
/// as they come. What each read gives makes no difference: the tokens and the refusal are those of all bytes together, and what
/// a piece cuts is gone on with and not read again. After a refusal nothing more is read.
///
/// ```text
/// scan_reader(alloc, &mut source, 1, false)    of the bytes `[12]`: buf `[12]`, tokens `[`, `12`, `]`, no refusal
/// scan_reader(alloc, &mut source, 1, false)    of the bytes `1 x2`: buf `1 x`, token `1`, refusal of `x` at 2+1
/// ```
///
/// # Errors
///
/// A read failed, which is not tried again, or an allocation failed. What was read until then is dropped.
pub fn scan_reader<R: ByteSource>(
    alloc: Global,
    source: &mut R,
    step: usize,
    comments: bool,
) -> Result<Scanned, ScanReadError>
    requires { 0 < step }
    ensures tokens { IfOk result (λ s. IfSome (R.left source.old) (λ input. AreTokensOf input (mode_with comments) s)) }
    ensures so_far { IfOk result (λ s. AreTokensOf s.buf.items (mode_with comments) s) }
    ensures within { IfOk result StandWithin }
    ensures buffer { IfOk result (λ s. Consumes (R.left source.old) (R.left source.new) s.buf.items) }
    ensures read { IfOk result (λ s. IfNone s.refusal
        ((R.ended source.new ≡ true) × IfSome (R.left source.old) (λ input. s.buf.items ≡ input))) }
    ensures only { R.failed source.new ≡ (is_io result || R.failed source.old) }
{
    let Ok(mut piece) = vec![in alloc; 0u8; step.min(LONGEST_PIECE)] else {
        return Err(ScanReadError::Memory);
    };
    let mut buf = Vec::new(alloc);
    let mut tokens = Vec::new(alloc);
    let mut scanner = scanner_of(comments);
    let refusal = scan_pieces(
        source,
        piece.as_mut_slice(),
        &mut scanner,
        &mut buf,
        &mut tokens,
    )?;
    Ok(Scanned {
        buf,
        tokens,
        refusal,
    })
}

/// Reads and scans piece by piece, up to the first refusal, which it gives, or to the end.
fn scan_pieces<R: ByteSource>(
    source: &mut R,
    piece: &mut [u8],
    scanner: &mut Scanner,
    buf: &mut Vec<u8>,
    tokens: &mut Vec<SpannedToken>,
) -> Result<Option<ScanError>, ScanReadError>
    requires room { 0 < length piece.old }
    requires stands { Stands buf.old.items tokens.old.items scanner.old }
    requires first { buf.old.items ≡ [] }
    ensures tokens { IfOk result (λ refusal. IfSome (R.left source.old) (λ input.
        AreAllOf input scanner.old.mode (tokens_of_list tokens.new.items (rest_after refusal)))) }
    ensures so_far { IfOk result (λ refusal.
        AreAllOf buf.new.items scanner.old.mode (tokens_of_list tokens.new.items (rest_after refusal))) }
    ensures within { IfOk result (λ refusal.
        All (StandsWithin (length buf.new.items)) tokens.new.items × ScanRefusalWithin (length buf.new.items) refusal) }
    ensures buffer { IfOk result (λ refusal. Consumes (R.left source.old) (R.left source.new) buf.new.items) }
    ensures read { IfOk result (λ refusal. IfNone refusal
        ((R.ended source.new ≡ true) × IfSome (R.left source.old) (λ input. buf.new.items ≡ input))) }
    ensures only { R.failed source.new ≡ (is_io result || R.failed source.old) }
{
    loop {
        let refusal = scan_ahead(buf.as_slice(), scanner, tokens)?;
        if refusal.is_some() {
            return Ok(refusal);
        }
        let count = read_piece(source, piece, buf)?;
        if count == 0 {
            return finish(buf.as_slice(), scanner, tokens);
        }
    }
}

/// A scanner at the first byte.
fn scanner_of(comments: bool) -> Scanner
    ensures { result ≡ idle 0 (mode_with comments) }
{
    if comments {
        Scanner::new_with_comments()
    } else {
        Scanner::new()
    }
}

/// Scans what the buffer has, keeps the tokens, and gives the refusal where one comes.
fn scan_ahead(
    buf: &[u8],
    scanner: &mut Scanner,
    tokens: &mut Vec<SpannedToken>,
) -> Result<Option<ScanError>, ScanReadError>
    requires { Stands buf.now tokens.old.items scanner.old }
    ensures scanned { IfOk result (IsScanned buf.now scanner.old.mode tokens.new.items scanner.new) }
    ensures memory { is_io result ≡ false }
{
    loop {
        match scanner.next_token(buf) {
            Ok(token) => {
                if !is_token(&token) {
                    return Ok(None);
                }
                keep(tokens, token)?;
            }
            Err(refusal) => return Ok(Some(refusal)),
        }
    }
}

/// Scans what is pending, where no more bytes come, keeps its token, and gives its refusal where one comes.
fn finish(
    buf: &[u8],
    scanner: &mut Scanner,
    tokens: &mut Vec<SpannedToken>,
) -> Result<Option<ScanError>, ScanReadError>
    requires stands { Stands buf.now tokens.old.items scanner.old }
    requires at_end { scanner.old.position ≡ length buf.now }
    ensures finished { IfOk result (IsFinished buf.now scanner.old.mode tokens.new.items) }
    ensures memory { is_io result ≡ false }
{
    match scanner.finalize_at_eof(buf) {
        Ok(token) => {
            if is_token(&token) {
                keep(tokens, token)?;
            }
            Ok(None)
        }
        Err(refusal) => Ok(Some(refusal)),
    }
}

/// Whether it is a token, and neither the end nor a call for more bytes.
fn is_token(token: &SpannedToken) -> bool
    ensures { result ≡ is_cut (answered (Ok token.now)) }
{
    match token.token {
        Token::Eof | Token::NeedMore { .. } => false,
        _ => true,
    }
}

/// Appends the token.
fn keep(tokens: &mut Vec<SpannedToken>, token: SpannedToken) -> Result<(), ScanReadError>
    ensures kept { OnOk result (tokens.new.items ≡ tokens.old.items ++ token ∷ []) }
    ensures memory { is_io result ≡ false }
{
    match tokens.push(token) {
        Ok(()) => Ok(()),
        Err(_) => Err(ScanReadError::Memory),
    }
}

/// Reads once, appends what came, and gives how many bytes that are: none only at the end.
fn read_piece<R: ByteSource>(
    source: &mut R,
    piece: &mut [u8],
    buf: &mut Vec<u8>,
) -> Result<usize, ScanReadError>
    requires { 0 < length piece.old }
    ensures bytes { IfOk result (λ n. (read : List ℕ) × (buf.new.items ≡ buf.old.items ++ read)
        × Consumes (R.left source.old) (R.left source.new) read) }
    ensures len { IfOk result (λ n. vec_len buf.new ≡ vec_len buf.old + n) }
    ensures end { IfOk result (λ n. n ≡ 0 → IsAtEnd (R.left source.new)) }
    ensures ended { IfOk result (λ n. R.ended source.new ≡ ((n == 0) || R.ended source.old)) }
    ensures failed { R.failed source.new ≡ (is_io result || R.failed source.old) }
{
    match source.read_some(piece) {
        Ok(count) => match buf.extend_from_slice(&piece[..count]) {
            Ok(()) => Ok(count),
            Err(_) => Err(ScanReadError::Memory),
        },
        Err(_) => Err(ScanReadError::Io),
    }
}
