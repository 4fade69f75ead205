//! A number with a fraction or an exponent, its text in memory of its own: what a `Tree` holds of one.

ghost use Rattle.std.specs.Prelude.{◌≡◌, true, false, None, Some, IfOk, MatchResult, nat_eq};
ghost use Rattle.std.specs.String.{string_bytes};
ghost use Rattle.std.specs.Cmp.{partial_equiv_from_equiv, on_per, on_equiv};
ghost use Rattle.std.specs.Cmp.Lexicographic.{pointwise, nat_list_eq_equiv};
ghost use Rattle.facet_format.specs.Event.{borrowed, bytes_of};
ghost use Rattle.facet_format.specs.Number.{float};
ghost use Rattle.facet_format.specs.NumberValue.{number, decimal};

use facet_format::Decimal;
use std::alloc::{AllocError, Global};
use std::marker::Model;

/// The text of a number with a fraction or an exponent (RFC 8259, section 6, leniently), owned: a `Decimal` in the room of a
/// `String`. Two are equal where their texts are.
///
/// ```text
/// OwnedDecimal::new(alloc, &decimal)?         a copy of the text of a `Decimal`
/// OwnedDecimal::from_string(text)             Ok: it holds this text, if that is such a number
/// ```
#[derive(Debug, Drop)]
pub struct OwnedDecimal(String);

impl Model for OwnedDecimal {
    ghost use Rattle.std.specs.Prelude.{◌≡◌, ℕ, List, Some};
    ghost use Rattle.std.specs.String.{string_bytes};
    ghost use Rattle.facet_format.specs.Number.{float};
    ghost use Rattle.facet_format.specs.NumberValue.{number, decimal};

    ghost Value = { List ℕ };

    ghost view = { λ d. string_bytes d.0 };

    ghost invariant = { λ d. number (string_bytes d.0) float ≡ Some (decimal (string_bytes d.0)) };
}

/// Equal where the texts are, byte for byte.
impl PartialEq for OwnedDecimal {
    ghost eq = { pointwise nat_eq };

    ghost laws = { partial_equiv_from_equiv nat_list_eq_equiv };

    fn eq(&self, other: &Self) -> bool {
        self.as_str() == other.as_str()
    }
}

impl Eq for OwnedDecimal {
    ghost laws = { nat_list_eq_equiv };
}

impl OwnedDecimal {
    /// A copy of the number's text.
    ///
    /// # Errors
    ///
    /// `AllocError` alone, where there is no memory for the text.
    pub fn new(alloc: Global, number: &Decimal<'_>) -> Result<OwnedDecimal, AllocError>
        ensures { IfOk result (λ d. d ≡ bytes_of number.now) }
    {
        Ok(OwnedDecimal(String::from_str(alloc, number.as_str())?))
    }

    /// This text, if it is such a number from its first byte to its last. Nothing is allocated.
    ///
    /// ```text
    /// OwnedDecimal::from_string(copy of "1.50")   Ok
    /// OwnedDecimal::from_string(copy of "15")     Err: the text back, which has neither a fraction nor an exponent
    /// ```
    ///
    /// # Errors
    ///
    /// The text, where it is no such number.
    pub fn from_string(text: String) -> Result<OwnedDecimal, String>
        ensures { MatchResult result
            (λ d. (d ≡ string_bytes text) × (number (string_bytes text) float ≡ Some (decimal (string_bytes text))))
            (λ back. (back ≡ text) × (number (string_bytes text) float ≡ None)) }
    {
        if is_decimal(text.as_str()) {
            Ok(OwnedDecimal(text))
        } else {
            Err(text)
        }
    }

    /// The text.
    pub fn as_str(&self) -> &str
        ensures text { result.now ≡ self.now }
        ensures number { number self.now float ≡ Some (decimal self.now) }
    {
        self.0.as_str()
    }

    /// The number, its text borrowed.
    pub fn as_decimal(&self) -> Decimal<'_>
        ensures { result ≡ borrowed self.now }
    {
        match Decimal::of_number(self.as_str()) {
            Some(decimal) => decimal,
            None => unreachable!(),
        }
    }

    /// The text, which is no longer known to be a number.
    pub fn into_string(self) -> String
        ensures { string_bytes result ≡ self }
    {
        self.0
    }

    /// Copies the number into memory of its own.
    ///
    /// # Errors
    ///
    /// `AllocError` alone, where there is no memory for the text.
    pub fn clone(&self, alloc: Global) -> Result<OwnedDecimal, AllocError>
        ensures { IfOk result (λ copy. copy ≡ self.now) }
    {
        Ok(OwnedDecimal(String::from_str(alloc, self.as_str())?))
    }
}

/// Whether the text is a number with a fraction or an exponent.
fn is_decimal(text: &str) -> bool
    ensures yes { result ≡ true → number text.now float ≡ Some (decimal text.now) }
    ensures no { result ≡ false → number text.now float ≡ None }
{
    Decimal::new(text).is_some()
}
