//! What the end of a buffer cuts, and how it goes on.

ghost use Rattle.std.specs.Prelude.{◌≡◌, MatchOption};
ghost use Rattle.facet_format.specs.Bytes as bytes;
ghost use Rattle.facet_json_scan.specs.Scanner.{part_hint, ExtendsWith, EndsBefore};
ghost use Rattle.facet_json_scan.specs.Inner.Found.{number_part_of};
ghost use Rattle.facet_format.specs.Views.{hint_of};

use facet_format::numeral::NumberHint;

/// The part of a number (RFC 8259, section 6) in which its last byte stands.
#[derive(Debug, Clone, Copy)]
pub enum NumberPart {
    /// The minus and the digits.
    Digits,
    /// The dot and its digits.
    Fraction,
    /// The exponent mark.
    Mark,
    /// The exponent's sign and its digits.
    Exponent,
}

/// How an open token or comment goes on.
#[derive(Debug, Clone, Copy)]
pub enum State {
    /// In a string.
    Text {
        /// Whether a backslash escapes the next byte.
        escaped: bool,
        /// Whether a backslash was seen.
        has_escapes: bool,
    },
    /// In a literal, of which at most five letters are compared again.
    Word,
    /// In this part of a number.
    Number(NumberPart),
    /// After a slash.
    Slash,
    /// In a line comment.
    Line,
    /// In a block comment.
    Block {
        /// Whether the last byte is a star.
        after_star: bool,
    },
}

/// A token or comment that the end of the buffer cuts.
#[derive(Debug, Clone, Copy)]
pub struct Pending {
    /// Its first byte.
    pub start: usize,
    /// How it goes on.
    pub state: State,
}

impl NumberPart {
    /// The part in which this byte stands, if it goes on with the number.
    pub fn after(self, byte: u8) -> Option<NumberPart>
        ensures { MatchOption result (EndsBefore (number_part_of self) byte)
            (λ next. ExtendsWith (number_part_of self) byte (number_part_of next)) }
    {
        let is_digit = is_digit(byte);
        match self {
            NumberPart::Digits => {
                if is_digit {
                    Some(NumberPart::Digits)
                } else if byte == b'.' {
                    Some(NumberPart::Fraction)
                } else if is_exponent_mark(byte) {
                    Some(NumberPart::Mark)
                } else {
                    None
                }
            }
            NumberPart::Fraction => {
                if is_digit {
                    Some(NumberPart::Fraction)
                } else if is_exponent_mark(byte) {
                    Some(NumberPart::Mark)
                } else {
                    None
                }
            }
            NumberPart::Mark => {
                if is_digit || is_sign(byte) {
                    Some(NumberPart::Exponent)
                } else {
                    None
                }
            }
            NumberPart::Exponent => {
                if is_digit {
                    Some(NumberPart::Exponent)
                } else {
                    None
                }
            }
        }
    }

    /// What stands in a number whose last byte stands in this part.
    pub fn hint(self, is_negative: bool) -> NumberHint
        ensures { hint_of result ≡ part_hint (number_part_of self) is_negative }
    {
        match self {
            NumberPart::Digits => {
                if is_negative {
                    NumberHint::Signed
                } else {
                    NumberHint::Unsigned
                }
            }
            _ => NumberHint::Float,
        }
    }
}

/// Whether the byte is a digit.
fn is_digit(byte: u8) -> bool
    ensures { result ≡ bytes.is_digit byte }
{
    matches!(byte, b'0'..=b'9')
}

/// Whether the byte is the mark of an exponent.
fn is_exponent_mark(byte: u8) -> bool
    ensures { result ≡ bytes.is_exponent_mark byte }
{
    byte == b'e' || byte == b'E'
}

/// Whether the byte is the sign of an exponent.
fn is_sign(byte: u8) -> bool
    ensures { result ≡ bytes.is_sign byte }
{
    byte == b'-' || byte == b'+'
}
