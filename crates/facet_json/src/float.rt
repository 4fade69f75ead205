//! Numbers with a fraction or an exponent as floats of 64 bits, and back (IEEE 754).

ghost use Rattle.std.specs.Prelude.{◌≡◌, Some, IfOk, IfSome, IsTrue};
ghost use Rattle.std.specs.Float.{binary64, float_is_finite};
ghost use Rattle.std.specs.Float.Parse.{parse_float};
ghost use Rattle.facet_format.specs.Event.{bytes_of};

use facet_format::Decimal;
use std::alloc::{AllocError, Global};

/// The float that is nearest to a number: of two, the even one. It is infinite where the number lies past the greatest float.
///
/// ```text
/// to_f64(&Decimal::new("-0.50")?)       Some(-0.5)
/// to_f64(&Decimal::new("1e400")?)       Some(infinity)
/// ```
pub fn to_f64(number: &Decimal<'_>) -> Option<f64>
    ensures { result ≡ parse_float binary64 (bytes_of number.now) }
{
    number.as_str().parse().ok()
}

/// The number of few digits whose nearest float is this one. What is not finite has none, since JSON has no such number.
///
/// ```text
/// from_f64(alloc, -0.5)?        Some: its text is -0.5
/// from_f64(alloc, 2.0)?         Some: its text is 2.0
/// from_f64(alloc, f64::NAN)?    None
/// ```
///
/// # Errors
///
/// `AllocError` alone, where there is no memory for the text.
pub fn from_f64(alloc: Global, float: f64) -> Result<Option<Decimal<'static>>, AllocError>
    ensures same { IfOk result (λ found. IfSome found (λ d. parse_float binary64 (bytes_of d) ≡ Some float)) }
    ensures finite { IfOk result (λ found. IfSome found (λ d. IsTrue (float_is_finite float))) }
{
    if !float.is_finite() {
        return Ok(None);
    }
    let mut buffer = ryu::Buffer::new();
    match Decimal::new(buffer.format_finite(float)) {
        Some(number) => match number.into_owned(alloc) {
            Ok(owned) => Ok(Some(owned)),
            Err(_) => Err(AllocError),
        },
        None => Ok(None),
    }
}
