//! What an event is: its name in an error, the kind of value that it begins, and the text of its number.

ghost use Rattle.std.specs.Prelude.{◌≡◌, IfSome};
ghost use Rattle.facet_format.specs.Views.{event_kind_of, span_of};
ghost use Rattle.facet_json_serde.specs.Ahead.{HoldsText, IsNumberText, bytes_at};

use crate::fault::Sort;
use facet_format::{ParseEvent, ParseEventKind, ScalarValue, Span};
use facet_json_token::check_number_strict;
use serde::Kind;
use std::borrow::CowStr;

/// What an event of this kind is called, at whose span a string stands or not.
pub(crate) fn found_in(kind: &ParseEventKind<'_>, is_quoted: bool) -> Sort {
    match kind {
        ParseEventKind::StructStart(_) => Sort::Object,
        ParseEventKind::SequenceStart(_) => Sort::Array,
        ParseEventKind::StructEnd | ParseEventKind::SequenceEnd => Sort::End,
        ParseEventKind::FieldKey(_) => Sort::Key,
        ParseEventKind::Scalar(value) => scalar_found(value, is_quoted),
    }
}

/// What a scalar is called.
fn scalar_found(value: &ScalarValue<'_>, is_quoted: bool) -> Sort {
    match value {
        ScalarValue::Null | ScalarValue::Unit => Sort::Null,
        ScalarValue::Bool(_) => Sort::Bool,
        ScalarValue::I64(_) | ScalarValue::U64(_) | ScalarValue::I128(_) | ScalarValue::U128(_) => {
            Sort::Integer
        }
        ScalarValue::Decimal(_) => Sort::Decimal,
        ScalarValue::Str(CowStr::Owned(_)) if !is_quoted => Sort::Integer,
        ScalarValue::Char(_) | ScalarValue::Str(_) | ScalarValue::Bytes(_) => Sort::String,
    }
}

/// Whether a string stands at the span, and no number: a whole number that is too long for 64 bits comes as the text of its digits.
pub(crate) fn is_quoted(input: &[u8], span: Span) -> bool {
    input.get(span.offset) == Some(&b'"')
}

/// The kind of the value that begins with the event, or `None` at an end and at a key that is not asked for.
pub(crate) fn kind_of(event: &ParseEvent<'_>, at_key: bool, input: &[u8]) -> Option<Kind> {
    match &event.kind {
        ParseEventKind::StructStart(_) => Some(Kind::Map),
        ParseEventKind::SequenceStart(_) => Some(Kind::Seq),
        ParseEventKind::FieldKey(_) if at_key => Some(Kind::Str),
        ParseEventKind::StructEnd | ParseEventKind::SequenceEnd | ParseEventKind::FieldKey(_) => {
            None
        }
        ParseEventKind::Scalar(value) => Some(scalar_kind(value, is_quoted(input, event.span))),
    }
}

/// The kind of a scalar. A number that is too long for 64 bits is told to be a `Float`, as `serde_json` does.
fn scalar_kind(value: &ScalarValue<'_>, is_quoted: bool) -> Kind {
    match value {
        ScalarValue::Null | ScalarValue::Unit => Kind::Unit,
        ScalarValue::Bool(_) => Kind::Bool,
        ScalarValue::U64(_) | ScalarValue::U128(_) => Kind::Unsigned,
        ScalarValue::I64(_) | ScalarValue::I128(_) => Kind::Signed,
        ScalarValue::Decimal(_) => Kind::Float,
        ScalarValue::Str(CowStr::Owned(_)) if !is_quoted => Kind::Float,
        ScalarValue::Char(_) | ScalarValue::Str(_) => Kind::Str,
        ScalarValue::Bytes(_) => Kind::Bytes,
    }
}

/// The text of the number that the event is, as it is in the input, or that a key holds: that one has to be a number of RFC 8259
/// (section 6).
pub(crate) fn number_in<'a>(
    event: &'a ParseEvent<'_>,
    at_key: bool,
    input: &'a [u8],
) -> Option<&'a [u8]>
    ensures { IfSome result (λ t. IsNumberText (event_kind_of event.now.kind)
        (bytes_at input.now (span_of event.now.span)) t.now) }
{
    match &event.kind {
        ParseEventKind::Scalar(ScalarValue::Decimal(decimal)) => Some(decimal.as_str().as_bytes()),
        ParseEventKind::Scalar(ScalarValue::U64(_) | ScalarValue::I64(_) | ScalarValue::Str(_))
            if !is_quoted(input, event.span) => { input.get(event.span.offset..event.span.end()) }
        ParseEventKind::FieldKey(key) if at_key => number_key(key.name.as_str()),
        _ => None,
    }
}

/// The digits of a whole number past 64 bits, or of a key that is a number of RFC 8259.
pub(crate) fn digits_in<'a>(
    event: &'a ParseEvent<'_>,
    at_key: bool,
    input: &[u8],
) -> Option<&'a str>
    ensures { IfSome result (λ t. HoldsText (event_kind_of event.now.kind) t.now) }
{
    match &event.kind {
        ParseEventKind::Scalar(ScalarValue::Str(text)) if !is_quoted(input, event.span) => {
            Some(text.as_str())
        }
        ParseEventKind::FieldKey(key) if at_key && number_key(key.name.as_str()).is_some() => {
            Some(key.name.as_str())
        }
        _ => None,
    }
}

/// The text of a key that is a number of RFC 8259.
pub(crate) fn number_key(key: &str) -> Option<&[u8]>
    ensures { IfSome result (λ t. t.now ≡ key.now) }
{
    let bytes = key.as_bytes();
    check_number_strict(bytes, 0, bytes.len()).ok()?;
    Some(bytes)
}
