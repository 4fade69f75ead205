//! What a caller wants next, passed without its event being made: the payload alone is answered. Where a few bytes do not decide that it
//! comes, nothing is done.

ghost use Rattle.std.specs.Prelude.{◌≡◌, ◌≤◌, length, IsUtf8, MatchOption};
ghost use Rattle.facet_format.specs.Span.{stop};
ghost use Rattle.facet_format.specs.Views.{span_of};
ghost use Rattle.facet_json_reader.specs.PlaceViews.{language_of};
ghost use Rattle.facet_json_reader.specs.Inner.Quick.{PassesQuickly};

use crate::number::{Whole, short_decimal_in, short_whole_in};
use crate::place::Language;
use crate::reader::Reader;
use crate::text::text_at;
use facet_format::{ContainerKind, Decimal, Span};
use facet_json_token::Trust;

/// What a caller may want next.
pub trait Wanted<'de>: Sized + Drop {
    ghost use Rattle.facet_format.specs.Event.{EventKind};

    /// The event that it stands for.
    ghost kind: { Self → EventKind };

    /// Consumes it and returns it with its event's span, where a few bytes decide that it comes. Else nothing changes.
    fn pass(
        reader: &mut Reader,
        input: &'de [u8],
        language: Language,
        trust: Trust,
    ) -> Option<(Self, Span)>
        requires within { stop (span_of reader.old.last) ≤ length input.now }
        requires utf8 { trust ≡ Trust.Utf8 → IsUtf8 input.now }
        ensures { MatchOption result (reader.new ≡ reader.old)
            (λ r. PassesQuickly input.now (language_of language) reader.old (record { kind = kind r.0; span = span_of r.1 }) reader.new) };
}

/// A text without an escape.
impl<'de> Wanted<'de> for &'de str {
    ghost use Rattle.facet_format.specs.Event.{scalar, text, borrowed};

    ghost kind = { λ s. scalar (text (borrowed s.now)) };

    #[inline(always)]
    fn pass(
        reader: &mut Reader,
        input: &'de [u8],
        language: Language,
        trust: Trust,
    ) -> Option<(&'de str, Span)> {
        let (at, first) = reader.value_start(input, language)?;
        if first != b'"' {
            return None;
        }
        let (end, text) = text_at(input, language, trust, at)?;
        let span = reader.pass_scalar(at, end + 1 - at);
        Some((text, span))
    }
}

/// A truth value.
impl<'de> Wanted<'de> for bool {
    ghost use Rattle.facet_format.specs.Event.{scalar, bool};

    ghost kind = { λ b. scalar (bool b) };

    #[inline(always)]
    fn pass(
        reader: &mut Reader,
        input: &'de [u8],
        language: Language,
        _trust: Trust,
    ) -> Option<(bool, Span)> {
        let (at, first) = reader.value_start(input, language)?;
        match first {
            b't' => {
                let span = reader.pass_word(input, at, b"true")?;
                Some((true, span))
            }
            b'f' => {
                let span = reader.pass_word(input, at, b"false")?;
                Some((false, span))
            }
            _ => None,
        }
    }
}

/// A short whole number, perhaps after a minus.
impl<'de> Wanted<'de> for Whole {
    ghost use Rattle.facet_format.specs.Event.{scalar};
    ghost use Rattle.facet_json_reader.specs.Inner.Whole.{whole_scalar};

    ghost kind = { λ w. scalar (whole_scalar w) };

    #[inline(always)]
    fn pass(
        reader: &mut Reader,
        input: &'de [u8],
        language: Language,
        _trust: Trust,
    ) -> Option<(Whole, Span)> {
        let (at, first) = reader.number_start(input, language)?;
        let (len, whole) = short_whole_in(input, language, at, first)?;
        let span = reader.pass_scalar(at, len);
        Some((whole, span))
    }
}

/// A number with a fraction or an exponent.
impl<'de> Wanted<'de> for Decimal<'de> {
    ghost use Rattle.facet_format.specs.Event.{scalar, decimal};

    ghost kind = { λ d. scalar (decimal d) };

    #[inline(always)]
    fn pass(
        reader: &mut Reader,
        input: &'de [u8],
        language: Language,
        _trust: Trust,
    ) -> Option<(Decimal<'de>, Span)> {
        let (at, first) = reader.number_start(input, language)?;
        let (len, decimal) = short_decimal_in(input, language, at, first)?;
        let span = reader.pass_scalar(at, len);
        Some((decimal, span))
    }
}

/// Null.
#[derive(Clone, Copy)]
pub struct Null;

impl<'de> Wanted<'de> for Null {
    ghost use Rattle.facet_format.specs.Event.{scalar, null};

    ghost kind = { λ _. scalar null };

    #[inline(always)]
    fn pass(
        reader: &mut Reader,
        input: &'de [u8],
        language: Language,
        _trust: Trust,
    ) -> Option<(Null, Span)> {
        let (at, first) = reader.value_start(input, language)?;
        if first != b'n' {
            return None;
        }
        let span = reader.pass_word(input, at, b"null")?;
        Some((Null, span))
    }
}

/// The end of a list.
#[derive(Clone, Copy)]
pub struct ListEnd;

impl<'de> Wanted<'de> for ListEnd {
    ghost use Rattle.facet_format.specs.Event.{sequence_end};

    ghost kind = { λ _. sequence_end };

    #[inline(always)]
    fn pass(
        reader: &mut Reader,
        input: &'de [u8],
        language: Language,
        _trust: Trust,
    ) -> Option<(ListEnd, Span)> {
        let ahead = reader.ahead(input, language)?;
        if ahead.first != b']' {
            return None;
        }
        let span = reader.pass_closing(ContainerKind::Array, ahead)?;
        Some((ListEnd, span))
    }
}

/// The beginning of a list.
#[derive(Clone, Copy)]
pub struct ListStart;

impl<'de> Wanted<'de> for ListStart {
    ghost use Rattle.facet_format.specs.Event.{sequence_start, array};

    ghost kind = { λ _. sequence_start array };

    #[inline(always)]
    fn pass(
        reader: &mut Reader,
        input: &'de [u8],
        language: Language,
        _trust: Trust,
    ) -> Option<(ListStart, Span)> {
        let span = reader.open_value(input, language, ContainerKind::Array)?;
        Some((ListStart, span))
    }
}

/// The beginning of an object.
#[derive(Clone, Copy)]
pub struct ObjectStart;

impl<'de> Wanted<'de> for ObjectStart {
    ghost use Rattle.facet_format.specs.Event.{struct_start, object};

    ghost kind = { λ _. struct_start object };

    #[inline(always)]
    fn pass(
        reader: &mut Reader,
        input: &'de [u8],
        language: Language,
        _trust: Trust,
    ) -> Option<(ObjectStart, Span)> {
        let span = reader.open_value(input, language, ContainerKind::Object)?;
        Some((ObjectStart, span))
    }
}

/// A key of an object, or the object's end.
#[derive(Clone, Copy)]
pub enum Member<'de> {
    /// A key without an escape.
    Key(&'de str),
    /// The end.
    End,
}

impl<'de> Wanted<'de> for Member<'de> {
    ghost use Rattle.facet_json_reader.specs.Inner.Soughts.{event_of_member};

    ghost kind = { event_of_member };

    #[inline(always)]
    fn pass(
        reader: &mut Reader,
        input: &'de [u8],
        language: Language,
        trust: Trust,
    ) -> Option<(Member<'de>, Span)> {
        let ahead = reader.ahead(input, language)?;
        match ahead.first {
            b'"' => {
                if !ahead.is_key() {
                    return None;
                }
                let (end, name) = text_at(input, language, trust, ahead.at)?;
                let span = reader.pass_key(input, language, ahead.at, end)?;
                Some((Member::Key(name), span))
            }
            b'}' => {
                let span = reader.pass_closing(ContainerKind::Object, ahead)?;
                Some((Member::End, span))
            }
            _ => None,
        }
    }
}
