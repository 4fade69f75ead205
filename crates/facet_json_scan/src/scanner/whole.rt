//! Tokens that end before the buffer does, which no further bytes change: they are cut as those of a whole input.

ghost use Rattle.std.specs.Prelude.{◌≤◌, length, IfSome};
ghost use Rattle.facet_json_token.specs.Views.{mode_of};
ghost use Rattle.facet_json_scan.specs.Inner.Found.{FoundFrom, FoundWithin, RefusedThere, IsWholeToken};

use crate::scanner::token::{Found, scan_from};
use facet_json_token::quick::gap_end;
use facet_json_token::{Mode, SpannedToken, cut};

/// What stands at `position`, a gap before it: at once where it is a token that ends before the buffer does.
#[inline(always)]
pub fn scan(buffer: &[u8], position: usize, mode: Mode) -> Found
    requires { position ≤ length buffer.now }
    ensures here { FoundFrom (mode_of mode) buffer.now position result }
    ensures within { FoundWithin (length buffer.now) result }
    ensures refusal { RefusedThere (mode_of mode) buffer.now result }
{
    let at = gap_end(buffer, position, Mode::Plain);
    match whole_token(buffer, at, mode) {
        Some(token) => Found::Answer {
            start: at,
            result: Ok(token),
        },
        None => scan_apart(buffer, position, mode),
    }
}

/// As `scan_from`, whose answer is a value of its own: so a token that is told at once needs no memory.
#[inline(always)]
fn scan_apart(buffer: &[u8], position: usize, mode: Mode) -> Found
    requires { position ≤ length buffer.now }
    ensures here { FoundFrom (mode_of mode) buffer.now position result }
    ensures within { FoundWithin (length buffer.now) result }
    ensures refusal { RefusedThere (mode_of mode) buffer.now result }
{
    let found = scan_from(buffer, position, mode);
    found
}

/// The token at `at`, where neither white space nor a comment stands, if it ends before the buffer does.
#[inline(always)]
fn whole_token(buffer: &[u8], at: usize, mode: Mode) -> Option<SpannedToken>
    requires { at ≤ length buffer.now }
    ensures { IfSome result (λ t. IsWholeToken (mode_of mode) buffer.now at t) }
{
    let first = *buffer.get(at)?;
    if first <= b' ' || first == b'/' {
        return None;
    }
    match cut(buffer, at, mode) {
        Ok(token) => {
            if token.span.end() < buffer.len() {
                Some(token)
            } else {
                None
            }
        }
        Err(_) => None,
    }
}
