//! Whole numbers of at most 64 bits: a number is read, and then the type holds it or it is out of range.

ghost use Rattle.std.specs.Prelude.{◌≡◌, None, Some, IfOk, IfErr};
ghost use Rattle.facet_format.specs.Complaint.{number_out_of_range, refusal_at};
ghost use Rattle.facet_format.specs.Views.{event_of, refusal_of, scalar_value_of, span_of};
ghost use Rattle.facet_json_core.specs.Refusing.{mismatch_of};
ghost use Rattle.facet_json_serializer.specs.Serializer.{scalar_tree};
ghost use Rattle.facet_format.specs.Event.{scalar};
ghost use Rattle.facet_json_reader.specs.Inner.Whole.{whole_scalar};
ghost use Rattle.facet_json_core.specs.Meaning.Readings.{taken, whole_of};

use crate::leaves::FromScalar;
use facet_format::{
    DeserializeError, DeserializeErrorKind, ParseEvent, ParseEventKind, ScalarValue, Span,
};
use facet_json_core::mismatch;
use facet_json_core::steps::take_next;
use facet_json_parser::JsonParser;
use facet_json_reader::{Whole, whole_at};
use std::alloc::Global;
use std::num::TryFromIntError;

/// A type of whole numbers of at most 64 bits.
pub(crate) trait Number: TryFrom<i128, Error = TryFromIntError> + Drop {
    ghost use Rattle.std.specs.Prelude.{◌≡◌};
    ghost use Rattle.facet_json_facet.specs.Inner.Numbers.{NumberType, NumberLaws};

    /// How the type is called, which numbers it holds, and as what a value is written.
    ghost number: { NumberType Self };

    /// What the type is called.
    fn name() -> &'static str
        ensures { result.now ≡ number.called };

    /// The scalar as which a value is written.
    fn wide(&self) -> ScalarValue<'_>
        ensures tree { number.tree_of self.now ≡ scalar_tree (scalar_value_of result) }
        ensures fits { number.fits self.now }
        ensures fits_wide { number.fits_wide self.now };

    /// What converting a number gives, and what follows from a value's bits.
    ghost laws: { NumberLaws number Self.try_from_gives };
}

impl<T: Number> FromScalar for T {
    ghost use Rattle.std.specs.Prelude.{◌≡◌, ◌⊎◌, refl};
    ghost use Rattle.std.proofs.Common.{inr};
    ghost use Rattle.std.specs.Option.{option_and_then};
    ghost use Rattle.facet_format.specs.Complaint.{number_out_of_range, refusal_at};
    ghost use Rattle.facet_json_core.specs.Refusing.{mismatch_of};
    ghost use Rattle.facet_json_core.proofs.Refusing.{either-about};
    ghost use Rattle.facet_json_core.specs.Meaning.Readings.{whole_of};

    ghost View = { T };

    ghost view = { λ n. n };

    ghost takes = { λ t. option_and_then T.number.holds (whole_of t) };

    ghost refuses = { λ given r. (r ≡ refusal_at (number_out_of_range T.number.called) given.span) ⊎ (r ≡ mismatch_of T.number.called given) };

    ghost tree_of = { T.number.tree_of };

    ghost always = { T.number.always };

    fn take<'t>(_alloc: Global, event: ParseEvent<'_>) -> Result<T, DeserializeError<'t>> {
        let span = event.span;
        let number = whole_in(T::name(), event)?;
        held(number, span)
    }

    #[inline(always)]
    fn take_quickly<'t>(
        _alloc: Global,
        parser: &mut JsonParser<'_>,
    ) -> Option<Result<T, DeserializeError<'t>>> {
        let (whole, span) = take_next(parser)?;
        Some(held(wide(whole), span))
    }

    #[inline(always)]
    fn scalar_in_sight(_alloc: Global, input: &[u8], at: usize) -> Option<(T, usize)> {
        let (whole, len) = whole_at(input, at)?;
        let number = fitted(wide(whole))?;
        Some((number, len))
    }

    fn to_scalar(&self) -> ScalarValue<'_> {
        self.wide()
    }

    ghost refuses_about = { λ given r told. inr (either-about given told refl) };

    ghost reads_back = { T.laws.reads_back };
}

/// The number in 128 bits.
#[inline(always)]
fn wide(whole: Whole) -> i128
    ensures { taken whole_of (scalar (whole_scalar whole)) ≡ Some result }
{
    match whole {
        Whole::Unsigned(n) => i128::from(n),
        Whole::Signed(n) => i128::from(n),
    }
}

/// The number as a value of the type, if it holds it.
#[inline(always)]
fn fitted<T: Number>(number: i128) -> Option<T>
    ensures { result ≡ T.number.holds number }
{
    match T::try_from(number) {
        Ok(n) => Some(n),
        Err(_) => None,
    }
}

/// The number as a value of the type.
///
/// # Errors
///
/// The type does not hold it: `NumberOutOfRange`, with this span.
#[inline(always)]
fn held<'t, T: Number>(number: i128, span: Span) -> Result<T, DeserializeError<'t>>
    ensures is { IfOk result (λ n. T.number.holds number ≡ Some n) }
    ensures none { IfErr result (λ e. T.number.holds number ≡ None) }
    ensures span { IfErr result (λ e. e.span ≡ Some span) }
    ensures told { IfErr result (λ e. refusal_of e ≡ refusal_at (number_out_of_range T.number.called) (span_of span)) }
{
    match fitted(number) {
        Some(n) => Ok(n),
        None => Err(out_of_range(T::name(), span)),
    }
}

/// The whole number that an event is, for a type whose name is `expected`.
///
/// # Errors
///
/// It is another event: a mismatch, with its span.
fn whole_in<'t>(expected: &'t str, event: ParseEvent<'_>) -> Result<i128, DeserializeError<'t>>
    ensures taken { IfOk result (λ z. taken whole_of (event_of event.entry).kind ≡ Some z) }
    ensures refused { IfErr result (λ e. taken whole_of (event_of event.entry).kind ≡ None) }
    ensures span { IfErr result (λ e. e.span ≡ Some event.entry.span) }
    ensures told { IfErr result (λ e. refusal_of e ≡ mismatch_of expected.now (event_of event.entry)) }
{
    match event.kind {
        ParseEventKind::Scalar(ScalarValue::U64(n)) => Ok(i128::from(n)),
        ParseEventKind::Scalar(ScalarValue::I64(n)) => Ok(i128::from(n)),
        _ => Err(mismatch(expected, event)),
    }
}

/// The refusal of a whole number that the type cannot hold.
pub(crate) fn out_of_range<'t>(target_type: &'t str, span: Span) -> DeserializeError<'t>
    ensures span { result.span ≡ Some span }
    ensures told { refusal_of result ≡ refusal_at (number_out_of_range target_type.now) (span_of span) }
{
    DeserializeError {
        kind: DeserializeErrorKind::NumberOutOfRange { target_type },
        span: Some(span),
    }
}
