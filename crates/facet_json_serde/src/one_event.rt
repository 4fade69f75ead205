//! What a step reads of one event, where a few bytes do not decide it.

ghost use Rattle.std.specs.Prelude.{◌≡◌, Some, IfOk, IfSome};
ghost use Rattle.std.specs.Float.Ieee.{binary32, binary64};
ghost use Rattle.std.specs.Float.Parse.{parse_float};
ghost use Rattle.facet_format.specs.Views.{event_of, event_kind_of};
ghost use Rattle.facet_json_serde.specs.Ahead.{HoldsKey};

use crate::fault::Sort;
use crate::found::{digits_in, number_in, number_key};
use facet_format::{ParseEvent, ParseEventKind, ScalarValue};
use facet_json_reader::{ListStart, ObjectStart};

/// Why an event is not read.
#[derive(Clone, Copy)]
pub(crate) enum Unread {
    /// This was wanted, and another event came.
    Other(Sort),
    /// Another event was wanted, where a whole number that came is one that this cannot hold.
    NoWhole(Sort),
    /// A number that this cannot hold.
    OutOfRange(Sort),
    /// A key that is no such value.
    Invalid,
}

/// What one event is read as.
pub(crate) trait OfEvent: Sized {
    ghost use Rattle.std.specs.Prelude.{ℕ, List};
    ghost use Rattle.facet_format.specs.Event.{Event};

    /// That the event, of such an input, is read as the value.
    ghost is: { List ℕ → Event → Self → Type 0 };

    /// The value of the event, which may be the key of a map's entry.
    fn of_event(event: &ParseEvent<'_>, at_key: bool, input: &[u8]) -> Result<Self, Unread>
        ensures { IfOk result (λ v. is input.now (event_of event.now) v) };
}

/// A truth value.
impl OfEvent for bool {
    ghost use Rattle.facet_json_serde.specs.Ahead.{IsBool};

    ghost is = { λ input given v. IsBool given.kind v };

    fn of_event(event: &ParseEvent<'_>, at_key: bool, _input: &[u8]) -> Result<bool, Unread> {
        match &event.kind {
            ParseEventKind::FieldKey(key) if at_key => match key.name.as_str().parse::<bool>() {
                Ok(b) => Ok(b),
                Err(_) => Err(Unread::Invalid),
            },
            _ if at_key => Err(Unread::Other(Sort::String)),
            ParseEventKind::Scalar(ScalarValue::Bool(b)) => Ok(*b),
            _ => Err(Unread::Other(Sort::Bool)),
        }
    }
}

/// The number that a key is (RFC 8259, section 6).
fn key_number<'a>(event: &'a ParseEvent<'_>) -> Result<&'a [u8], Unread>
    ensures { IfOk result (λ t. HoldsKey (event_kind_of event.now.kind) t.now) }
{
    match &event.kind {
        ParseEventKind::FieldKey(key) => number_key(key.name.as_str()).ok_or(Unread::Invalid),
        _ => Err(Unread::Other(Sort::String)),
    }
}

/// A whole number.
impl OfEvent for i64 {
    ghost use Rattle.facet_json_serde.specs.Ahead.{IsSigned};

    ghost is = { λ input given v. IsSigned given.kind v };

    fn of_event(event: &ParseEvent<'_>, at_key: bool, _input: &[u8]) -> Result<i64, Unread> {
        if at_key {
            return fast_float::parse_i64(key_number(event)?).or(Err(Unread::Invalid));
        }
        match &event.kind {
            ParseEventKind::Scalar(ScalarValue::I64(n)) => Ok(*n),
            ParseEventKind::Scalar(ScalarValue::U64(n)) => match i64::try_from(*n) {
                Ok(n) => Ok(n),
                Err(_) => Err(Unread::OutOfRange(Sort::I64)),
            },
            _ => Err(Unread::NoWhole(Sort::I64)),
        }
    }
}

/// A whole number without a sign.
impl OfEvent for u64 {
    ghost use Rattle.facet_json_serde.specs.Ahead.{IsUnsigned};

    ghost is = { λ input given v. IsUnsigned given.kind v };

    fn of_event(event: &ParseEvent<'_>, at_key: bool, _input: &[u8]) -> Result<u64, Unread> {
        if at_key {
            return fast_float::parse_u64(key_number(event)?).or(Err(Unread::Invalid));
        }
        match &event.kind {
            ParseEventKind::Scalar(ScalarValue::U64(n)) => Ok(*n),
            ParseEventKind::Scalar(ScalarValue::I64(n)) => match u64::try_from(*n) {
                Ok(n) => Ok(n),
                Err(_) => Err(Unread::OutOfRange(Sort::U64)),
            },
            _ => Err(Unread::NoWhole(Sort::U64)),
        }
    }
}

/// A whole number of 128 bits, as a value or as a key.
impl OfEvent for i128 {
    ghost use Rattle.facet_json_serde.specs.Ahead.{IsSigned};

    ghost is = { λ input given v. IsSigned given.kind v };

    fn of_event(event: &ParseEvent<'_>, at_key: bool, input: &[u8]) -> Result<i128, Unread> {
        match &event.kind {
            ParseEventKind::Scalar(ScalarValue::U64(n)) => return Ok(i128::from(*n)),
            ParseEventKind::Scalar(ScalarValue::I64(n)) => return Ok(i128::from(*n)),
            _ => {}
        }
        let text = digits_in(event, at_key, input).ok_or(Unread::Other(Sort::I128))?;
        match text.parse::<i128>() {
            Ok(n) => Ok(n),
            Err(_) => Err(Unread::OutOfRange(Sort::I128)),
        }
    }
}

/// A whole number of 128 bits without a sign, as a value or as a key.
impl OfEvent for u128 {
    ghost use Rattle.facet_json_serde.specs.Ahead.{IsUnsigned};

    ghost is = { λ input given v. IsUnsigned given.kind v };

    fn of_event(event: &ParseEvent<'_>, at_key: bool, input: &[u8]) -> Result<u128, Unread> {
        match &event.kind {
            ParseEventKind::Scalar(ScalarValue::U64(n)) => return Ok(u128::from(*n)),
            ParseEventKind::Scalar(ScalarValue::I64(_)) => {
                return Err(Unread::OutOfRange(Sort::U128));
            }
            _ => {}
        }
        let text = digits_in(event, at_key, input).ok_or(Unread::Other(Sort::U128))?;
        match text.parse::<u128>() {
            Ok(n) => Ok(n),
            Err(_) => Err(Unread::OutOfRange(Sort::U128)),
        }
    }
}

/// The float that is nearest to the number of this text, unless it is none or past all that are finite.
#[inline(always)]
pub(crate) fn finite_f32(text: &[u8]) -> Option<f32>
    ensures { IfSome result (λ x. parse_float binary32 text.now ≡ Some x) }
{
    match fast_float::parse::<f32, _>(text) {
        Ok(x) if x.is_finite() => Some(x),
        _ => None,
    }
}

/// The finite float of 64 bits that is nearest to a number's text.
#[inline(always)]
pub(crate) fn finite_f64(text: &[u8]) -> Option<f64>
    ensures { IfSome result (λ x. parse_float binary64 text.now ≡ Some x) }
{
    match fast_float::parse::<f64, _>(text) {
        Ok(x) if x.is_finite() => Some(x),
        _ => None,
    }
}

/// A number as a float: a whole one, or a key, or one with a fraction or an exponent.
impl OfEvent for f32 {
    ghost use Rattle.std.specs.Float.Ieee.{binary32};
    ghost use Rattle.facet_json_serde.specs.Ahead.{IsFloat};

    ghost is = { λ input given v. IsFloat binary32 input given v };

    fn of_event(event: &ParseEvent<'_>, at_key: bool, input: &[u8]) -> Result<f32, Unread> {
        let text = number_in(event, at_key, input).ok_or(Unread::Other(Sort::F32))?;
        finite_f32(text).ok_or(Unread::OutOfRange(Sort::F32))
    }
}

/// A number as a float of 64 bits: a whole one, or a key, or one with a fraction or an exponent.
impl OfEvent for f64 {
    ghost use Rattle.std.specs.Float.Ieee.{binary64};
    ghost use Rattle.facet_json_serde.specs.Ahead.{IsFloat};

    ghost is = { λ input given v. IsFloat binary64 input given v };

    fn of_event(event: &ParseEvent<'_>, at_key: bool, input: &[u8]) -> Result<f64, Unread> {
        let text = number_in(event, at_key, input).ok_or(Unread::Other(Sort::F64))?;
        finite_f64(text).ok_or(Unread::OutOfRange(Sort::F64))
    }
}

/// The beginning of a list.
impl OfEvent for ListStart {
    ghost use Rattle.facet_json_serde.specs.Ahead.{IsListBegin};

    ghost is = { λ input given start. IsListBegin given.kind };

    fn of_event(event: &ParseEvent<'_>, _at_key: bool, _input: &[u8]) -> Result<ListStart, Unread> {
        match &event.kind {
            ParseEventKind::SequenceStart(_) => Ok(ListStart),
            _ => Err(Unread::Other(Sort::Array)),
        }
    }
}

/// The beginning of a map.
impl OfEvent for ObjectStart {
    ghost use Rattle.facet_json_serde.specs.Ahead.{IsMapBegin};

    ghost is = { λ input given start. IsMapBegin given.kind };

    fn of_event(
        event: &ParseEvent<'_>,
        _at_key: bool,
        _input: &[u8],
    ) -> Result<ObjectStart, Unread> {
        match &event.kind {
            ParseEventKind::StructStart(_) => Ok(ObjectStart),
            _ => Err(Unread::Other(Sort::Object)),
        }
    }
}

/// The beginning of a struct's fields: of a map, or of a list.
#[derive(Clone, Copy)]
pub(crate) struct FieldsStart {
    /// They stand in a list, without their names.
    pub(crate) is_list: bool,
}

impl OfEvent for FieldsStart {
    ghost use Rattle.serde.specs.Event.{struct_begins};
    ghost use Rattle.facet_json_serde.specs.Ahead.{Means};

    ghost is = { λ input given start. Means input given (struct_begins start.is_list) };

    fn of_event(
        event: &ParseEvent<'_>,
        _at_key: bool,
        _input: &[u8],
    ) -> Result<FieldsStart, Unread> {
        match &event.kind {
            ParseEventKind::StructStart(_) => Ok(FieldsStart { is_list: false }),
            ParseEventKind::SequenceStart(_) => Ok(FieldsStart { is_list: true }),
            _ => Err(Unread::Other(Sort::Object)),
        }
    }
}
