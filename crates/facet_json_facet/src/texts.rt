//! Texts: `String`, which owns its text, and `&str`, whose text stands in the input.

ghost use Rattle.std.specs.Prelude.{◌≡◌, ◌<◌, IfOk, IfErr, OnOk, None, Some, string_bytes};
ghost use Rattle.facet_format.specs.Complaint.{no_memory, refusal_at};
ghost use Rattle.facet_format.specs.Views.{event_of, span_of};
ghost use Rattle.facet_json_core.specs.Meaning.Borrowed.{borrowed_text, lent, made_text, IsNotLent};
ghost use Rattle.facet_json_core.specs.Calls.{refusal_of, ahead, RefusalWithin, TellsRefusal, KeepsOn, PassesValue, IsRead, IsUnread};
ghost use Rattle.facet_json_core.specs.Calls.{HasDocument, EndsStrictly};

use crate::facet::Facet;
use crate::leaves::FromScalar;
use facet_format::{
    DeserializeError, DeserializeErrorKind, FormatSerializer, ParseEvent, ParseEventKind,
    ScalarValue, Span,
};
use facet_json_core::steps::take_next;
use facet_json_core::{mismatch, next_of_value};
use facet_json_parser::JsonParser;
use facet_json_reader::text_at;
use facet_json_serializer::{JsonSerializeError, JsonSerializer};
use std::alloc::Global;
use std::borrow::CowStr;

impl FromScalar for String {
    ghost use Rattle.std.specs.Prelude.{◌≡◌, ◌⊎◌, ℕ, List, true, codes, string_bytes};
    ghost use Rattle.std.specs.Str.{is_utf8};
    ghost use Rattle.facet_format.specs.Complaint.{no_memory};
    ghost use Rattle.facet_json_grammar.specs.Tree.{text as text_tree};
    ghost use Rattle.facet_json_core.specs.Refusing.{mismatch_of};
    ghost use Rattle.facet_json_core.proofs.Refusing.{lacks-about};
    ghost use Rattle.facet_json_core.specs.Meaning.Readings.{text_of_tree};
    ghost use Rattle.facet_json_core.proofs.Meaning.Leaves.TextLaws.{text-reads_back};

    ghost View = { List ℕ };

    ghost view = { string_bytes };

    ghost takes = { text_of_tree };

    ghost refuses = { λ given r. (r ≡ no_memory) ⊎ (r ≡ mismatch_of (codes "string") given) };

    ghost tree_of = { text_tree };

    ghost always = { λ t. is_utf8 t ≡ true };

    fn take<'t>(alloc: Global, event: ParseEvent<'_>) -> Result<String, DeserializeError<'t>> {
        match event.kind {
            ParseEventKind::Scalar(ScalarValue::Str(text)) => Ok(text.into_owned(alloc)?),
            _ => Err(mismatch("string", event)),
        }
    }

    #[inline(always)]
    fn take_quickly<'t>(
        alloc: Global,
        parser: &mut JsonParser<'_>,
    ) -> Option<Result<String, DeserializeError<'t>>> {
        let (text, _): (&str, Span) = take_next(parser)?;
        Some(owned_text(alloc, text))
    }

    #[inline(always)]
    fn scalar_in_sight(alloc: Global, input: &[u8], at: usize) -> Option<(String, usize)> {
        let (text, len) = text_at(input, at)?;
        match String::from_str(alloc, text) {
            Ok(owned) => Some((owned, len)),
            Err(_) => None,
        }
    }

    fn to_scalar(&self) -> ScalarValue<'_> {
        ScalarValue::Str(CowStr::Borrowed(self.as_str()))
    }

    ghost refuses_about = { λ given r told. lacks-about given told };

    ghost reads_back = { text-reads_back };
}

/// A text of the input (RFC 8259, section 7): `read` borrows a string that has no escape. `read_owned` reads none.
///
/// ```text
/// <&str as Facet>::read(alloc, &mut JsonParser::new(alloc, b"\"ab\""))          Ok: the slice ab
/// <&str as Facet>::read(alloc, &mut JsonParser::new(alloc, b"\"a\\u0062\""))     InvalidValue
/// ```
impl<'de> Facet<'de> for &'de str {
    ghost use Rattle.std.specs.Prelude.{ℕ, List, true};
    ghost use Rattle.facet_json_core.specs.Meaning.Types.{borrowed};
    ghost use Rattle.facet_json_core.proofs.Meaning.TypeLaws.{borrowed-laws};

    ghost View = { List ℕ };

    ghost view = { λ s. s.now };

    ghost shape = { borrowed };

    ghost owned = { λ _. ⊥ };

    ghost whole = { true };

    fn read_owned<'t>(
        _alloc: Global,
        parser: &mut JsonParser<'de>,
    ) -> Result<&'de str, DeserializeError<'t>> {
        Err(not_lent(next_of_value(parser)?))
    }

    #[inline(always)]
    fn read<'t>(
        _alloc: Global,
        parser: &mut JsonParser<'de>,
    ) -> Result<&'de str, DeserializeError<'t>> {
        match take_next(parser) {
            Some((text, _)) => Ok(text),
            None => lent_out_of_line(parser),
        }
    }

    #[inline(always)]
    fn in_sight(
        _alloc: Global,
        input: &'de [u8],
        at: usize,
        borrows: bool,
    ) -> Option<(&'de str, usize)> {
        if borrows { text_at(input, at) } else { None }
    }

    fn write(&self, serializer: &mut JsonSerializer<'_>) -> Result<(), JsonSerializeError> {
        let _utf8 = self.as_bytes();
        serializer.scalar(ScalarValue::Str(CowStr::Borrowed(*self)))
    }

    ghost laws = { borrowed-laws };
}

/// The text with memory of its own.
///
/// # Errors
///
/// Out of memory.
fn owned_text<'t>(alloc: Global, text: &str) -> Result<String, DeserializeError<'t>>
    ensures text { IfOk result (λ s. string_bytes s ≡ text.now) }
    ensures memory { IfErr result (λ e. (refusal_of e ≡ no_memory) × (e.span ≡ None)) }
{
    Ok(String::from_str(alloc, text)?)
}

/// Reads the next event, and takes the text of the input that it is.
///
/// # Errors
///
/// No event comes, or it is no such text.
#[inline(never)]
fn lent_out_of_line<'t, 'de>(parser: &mut JsonParser<'de>) -> Result<&'de str, DeserializeError<'t>>
    ensures read { IfOk result (λ s. IsRead borrowed_text parser.old s.now parser.new) }
    ensures unread { IfErr result (λ e. IsUnread borrowed_text parser.old (refusal_of e)) }
    ensures document { OnOk result (HasDocument parser.old) }
    ensures strict { OnOk result (EndsStrictly parser.old parser.new) }
    ensures keeps { KeepsOn parser.old parser.new }
    ensures shorter { OnOk result (ahead parser.new < ahead parser.old) }
    ensures one_value { OnOk result (PassesValue parser.old parser.new) }
    ensures within { IfErr result (λ e. RefusalWithin parser.new.buffer (refusal_of e)) }
    ensures free { OnOk result (parser.new.cursor.refusal ≡ None) }
    ensures tells { IfErr result (λ e. TellsRefusal parser.old parser.new (refusal_of e)) }
{
    lent_in(next_of_value(parser)?)
}

/// The text of the input that an event is.
fn lent_in<'t, 'de>(event: ParseEvent<'de>) -> Result<&'de str, DeserializeError<'t>>
    ensures lent { IfOk result (λ s. lent (event_of event.entry).kind ≡ Some s.now) }
    ensures refused { IfErr result (λ e. lent (event_of event.entry).kind ≡ None) }
    ensures span { IfErr result (λ e. e.span ≡ Some event.entry.span) }
    ensures told { IfErr result (λ e. IsNotLent (event_of event.entry) (refusal_of e)) }
{
    match event.kind {
        ParseEventKind::Scalar(ScalarValue::Str(CowStr::Borrowed(text))) => Ok(text),
        _ => Err(not_lent(event)),
    }
}

/// The refusal of an event that is no text of the input.
fn not_lent<'t>(event: ParseEvent<'_>) -> DeserializeError<'t>
    ensures span { result.span ≡ Some event.entry.span }
    ensures told { IsNotLent (event_of event.entry) (refusal_of result) }
{
    match event.kind {
        ParseEventKind::Scalar(ScalarValue::Str(_)) => made(event.span),
        _ => mismatch("string", event),
    }
}

/// The refusal of a text that may not be borrowed.
fn made<'t>(span: Span) -> DeserializeError<'t>
    ensures span { result.span ≡ Some span }
    ensures told { refusal_of result ≡ refusal_at made_text (span_of span) }
{
    DeserializeError {
        kind: DeserializeErrorKind::InvalidValue {
            message: "a borrowed text needs an unescaped string",
        },
        span: Some(span),
    }
}
