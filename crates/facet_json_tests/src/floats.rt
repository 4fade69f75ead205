//! Numbers with a fraction or an exponent as floats, and back (IEEE 754; RFC 8259, section 6).

use crate::expecting::expect_of;
use facet_json::Decimal;
use facet_json::float::{from_f64, to_f64};
use std::alloc::Global;

/// The float of a number's text.
fn float_of(text: &str) -> Option<f64> {
    to_f64(&Decimal::new(text)?)
}

/// Whether this is the text of the float's number, which is read back as this float; or it has none.
fn is_written(alloc: Global, float: f64, text: Option<&str>) -> bool {
    match from_f64(alloc, float) {
        Ok(Some(number)) => text == Some(number.as_str()) && to_f64(&number) == Some(float),
        Ok(None) => text.is_none(),
        Err(_) => false,
    }
}

/// Texts of numbers, and their floats.
static NEAREST: [(&str, f64); 11] = [
    ("0.5", 0.5),
    ("-0.50", -0.5),
    ("1e3", 1000.0),
    ("1.e5", 100000.0),
    ("-.25", -0.25),
    ("007.0", 7.0),
    ("9007199254740993.0", 9007199254740992.0),
    ("9007199254740995.0", 9007199254740996.0),
    ("1E-400", 0.0),
    ("1e400", f64::INFINITY),
    ("-1e400", f64::NEG_INFINITY),
];

/// Floats, and the texts of their numbers, if they have any.
static SHORTEST: [(f64, Option<&str>); 9] = [
    (0.5, Some("0.5")),
    (-2.0, Some("-2.0")),
    (0.1, Some("0.1")),
    (1e300, Some("1e300")),
    (5e-324, Some("5e-324")),
    (1.7976931348623157e308, Some("1.7976931348623157e308")),
    (f64::NAN, None),
    (f64::INFINITY, None),
    (f64::NEG_INFINITY, None),
];

#[test]
fn floats_and_numbers_are_each_others(rt: HostRuntime) {
    for &(text, float) in &NEAREST {
        expect_of(&rt, float_of(text) == Some(float), text);
    }
    for &(float, text) in &SHORTEST {
        let holds = is_written(rt.alloc(), float, text);
        expect_of(&rt, holds, text.unwrap_or("a float that is no number"));
    }
}
