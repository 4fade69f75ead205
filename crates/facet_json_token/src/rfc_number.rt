//! Whether a text is a number of RFC 8259.

ghost use Rattle.std.specs.Prelude.{◌≡◌, ◌≤◌, length, slice_range, MatchResult};
ghost use Rattle.facet_format.specs.NumberParts.{parts_len};
ghost use Rattle.facet_json_token.specs.RfcNumber.{IsRfcNumber};
ghost use Rattle.facet_json_token.specs.RfcNumberTest.{is_rfc_number as spec_is_rfc_number, are_rfc_parts, is_whole_of, is_exponent_of};
ghost use Rattle.facet_json_token.specs.NumberViews.{number_fault};

use crate::fault::Fault;
use crate::number::no_number;
use facet_format::numeral::{Parts, parts_at};

/// Whether `buf[start..end]` is a number of RFC 8259 (section 6): perhaps a minus, 0 or digits of which the first is another, and
/// perhaps a fraction and an exponent, each with digits. Else it is refused as a question mark over the slice.
///
/// ```text
/// check_number_strict(b"[-0.5e+1]", 1, 8)    Ok
/// check_number_strict(b"[007]", 1, 4)        Err: UnexpectedChar('?'), span 1+3
/// ```
pub fn check_number_strict(buf: &[u8], start: usize, end: usize) -> Result<(), Fault>
    requires in_order { start ≤ end }
    requires within { end ≤ length buf.now }
    ensures { let text = slice_range buf.now start end in MatchResult result
        (λ _. IsRfcNumber text)
        (λ e. (IsRfcNumber text → ⊥) × (e ≡ number_fault start end)) }
{
    if is_rfc_number(&buf[start..end]) {
        Ok(())
    } else {
        Err(no_number(start, end))
    }
}

/// Whether the text is a number of RFC 8259, by the lengths of its parts.
#[tactic(auto, unfolding(crate::specs::RfcNumberTest::is_rfc_number))]
fn is_rfc_number(text: &[u8]) -> bool
    ensures { result ≡ spec_is_rfc_number text.now }
{
    let parts = parts_at(text, 0);
    parts.len() == text.len() && has_rfc_parts(parts, text)
}

/// Whether the parts of the number with which the text begins are those of a number of RFC 8259.
#[inline(always)]
pub fn has_rfc_parts(parts: Parts, text: &[u8]) -> bool
    requires { parts_len parts ≤ length text.now }
    ensures { result ≡ are_rfc_parts parts text.now }
{
    let digits = parts.digits_start();
    let fraction = parts.fraction_start();
    let exponent = parts.exponent_start();
    is_whole(fraction - digits, &text[digits..])
        && exponent - fraction != 1
        && has_exponent_digits(parts.len() - exponent, &text[exponent..])
}

/// Whether so many digits at the start are a whole number: 0, or digits of which the first is another.
fn is_whole(digits: usize, bytes: &[u8]) -> bool
    ensures { result ≡ is_whole_of digits bytes.now }
{
    match digits {
        0 => false,
        1 => true,
        _ => match bytes.first() {
            Some(byte) => *byte != b'0',
            None => false,
        },
    }
}

/// Whether an exponent of this length at the start, if there is one, has digits.
fn has_exponent_digits(len: usize, bytes: &[u8]) -> bool
    ensures { result ≡ is_exponent_of len bytes.now }
{
    if len == 0 {
        return true;
    }
    match bytes.get(1) {
        Some(b'+' | b'-') => len > 2,
        Some(_) => len > 1,
        None => !bytes.is_empty() && len > 1,
    }
}
