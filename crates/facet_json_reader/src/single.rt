//! Keys and scalars in sight, one by one, for who knows what is to come: a few bytes decide each of them. It is in `Language::Plain`, and
//! how far it is is handed from one to the next.

ghost use Rattle.std.specs.Prelude.{◌≡◌, ◌≤◌, ◌<◌, ◌+◌, ℕ, true, false, List, Some, length, slice_get, IfNone, IfSome};
ghost use Rattle.facet_format.specs.Event.{ContainerKind as SpecContainer, Scalar, text, borrowed, bool, null};
ghost use Rattle.facet_format.specs.Span.{stop, span_at};
ghost use Rattle.facet_format.specs.Views.{span_of};
ghost use Rattle.facet_json_token.specs.Gap.{plain};
ghost use Rattle.facet_json_grammar.specs.Future.{after_value, within};
ghost use Rattle.facet_json_grammar.specs.Language.{Language as SpecLanguage, lenient};
ghost use Rattle.facet_json_grammar.specs.Place.{after_member, after_item};
ghost use Rattle.facet_json_reader.specs.PlaceViews.{language_of, place_of};
ghost use Rattle.facet_json_reader.specs.Inner.InSight.{reader_at, IsFront, IsFrontOf, PassesKeyAt, PassesScalarAt};
ghost use Rattle.facet_json_reader.specs.Inner.Quick.{MayBeValue, IsWord};
ghost use Rattle.facet_json_reader.specs.Values.{IsAllowedThere, IsValueThere};
ghost use Rattle.facet_json_reader.specs.Inner.Whole.{whole_scalar};

use crate::in_sight::{
    Front, InPlain, behind, is_item, is_key, is_there, past, past_empty, take_scalar,
};
use crate::number::{Whole, short_whole_in};
use crate::place::{Language, Place};
use crate::reader::{Reader, Stage};
use crate::text::text_end;
use facet_format::Span;
use facet_json_token::cutting::common_len;
use facet_json_token::plain_text_unchecked;

impl Reader {
    /// How far it is, in `Language::Plain`. Within another language, or where no token is in sight, there is no answer.
    #[inline(always)]
    pub fn front(&self, input: &[u8], language: Language) -> Option<Front>
        requires within { stop (span_of self.now.last) ≤ length input.now }
        ensures { IfSome result (λ f. IsFrontOf input.now (language_of language) self.now f) }
    {
        let Language::Plain = language else {
            return None;
        };
        let ahead = self.ahead(input, language)?;
        Some(Front {
            last: self.last,
            stage: self.stage,
            place: ahead.place,
            at: ahead.at,
        })
    }

    /// Stands that far, within the same containers.
    #[inline(always)]
    pub fn stand(&mut self, front: Front)
        ensures { self.new ≡ reader_at self.old.contexts front }
    {
        self.last = front.last;
        self.stage = front.stage;
    }
}

impl Front {
    /// The name of a key, and how far it is after its colon, where a key without an escape comes.
    #[inline(always)]
    pub fn key<'de>(self, input: &'de [u8]) -> Option<(&'de str, Front)>
        ensures over { IfSome result (λ r. (stack : List SpecContainer) → IsFront input.now (lenient plain) stack self
            → PassesKeyAt input.now (lenient plain) stack self r.0.now r.1) }
        ensures place { IfSome result (λ r. r.1.place ≡ Place.AfterColon) }
        ensures within { IfSome result (λ r. stop (span_of r.1.last) ≤ length input.now) }
        ensures onward { IfSome result (λ r. (self.at < r.1.at) × (self.at < length input.now)) }
    {
        if !is_key(self.place) || !is_there(input, self.at, b'"') {
            return None;
        }
        let end = text_end(input, Language::Plain, self.at)?;
        let colon = past_empty::<InPlain>(input, end + 1);
        if !is_there(input, colon, b':') {
            return None;
        }
        let name = plain_text_unchecked(input, self.at + 1, end);
        Some((name, after_colon(input, colon)))
    }

    /// How far it is after a member's scalar of so many bytes, which comes here.
    #[inline(always)]
    pub fn behind_member(self, input: &[u8], len: usize) -> Front
        requires within { self.at + len ≤ length input.now }
        ensures within { stop (span_of result.last) ≤ length input.now }
        ensures onward { self.at + len ≤ result.at }
        ensures over { (stack : List SpecContainer) (value : Scalar) → MayBeValue (place_of self.place)
            → after_value stack ≡ within after_member → IsFront input.now (lenient plain) stack self
            → IsValueThere (lenient plain) input.now self.at len value
            → PassesScalarAt input.now (lenient plain) stack self len value result }
    {
        behind::<InPlain>(input, self.at, len, Place::AfterMember, Place::BeforeKey)
    }

    /// Whether an item may come.
    #[inline(always)]
    pub fn is_item(self) -> bool
        ensures { result ≡ true → MayBeValue (place_of self.place) }
    {
        is_item(self.place)
    }

    /// How far it is after an item that is a scalar of so many bytes, which comes here.
    #[inline(always)]
    pub fn behind_item(self, input: &[u8], len: usize) -> Front
        requires within { self.at + len ≤ length input.now }
        ensures within { stop (span_of result.last) ≤ length input.now }
        ensures onward { self.at + len ≤ result.at }
        ensures over { (stack : List SpecContainer) (value : Scalar) → MayBeValue (place_of self.place)
            → after_value stack ≡ within after_item → IsFront input.now (lenient plain) stack self
            → IsValueThere (lenient plain) input.now self.at len value
            → PassesScalarAt input.now (lenient plain) stack self len value result }
    {
        behind::<InPlain>(input, self.at, len, Place::AfterItem, Place::BeforeItem)
    }
}

/// How far it is after the colon at this offset.
#[inline(always)]
fn after_colon(input: &[u8], colon: usize) -> Front
    requires { colon + 1 ≤ length input.now }
    ensures front { (stack : List SpecContainer) → IsFront input.now (lenient plain) stack result }
    ensures last { span_of result.last ≡ span_at colon 1 }
    ensures stage { result.stage ≡ Stage.Within Place.AfterColon }
    ensures place { result.place ≡ Place.AfterColon }
    ensures onward { colon < result.at }
{
    Front {
        last: Span::new(colon, 1),
        stage: Stage::Within(Place::AfterColon),
        place: Place::AfterColon,
        at: past::<InPlain>(input, colon + 1),
    }
}

/// The text that stands there without an escape, and how many bytes it takes with its quotes.
#[inline(always)]
pub fn text_at<'de>(input: &'de [u8], at: usize) -> Option<(&'de str, usize)>
    ensures { IfSome result (λ r. IsValueThere (lenient plain) input.now at r.1 (text (borrowed r.0.now))) }
{
    if !is_there(input, at, b'"') {
        return None;
    }
    let end = text_end(input, Language::Plain, at)?;
    Some((plain_text_unchecked(input, at + 1, end), end + 1 - at))
}

/// The whole number of few digits that stands there, and how many bytes it takes.
#[inline(always)]
pub fn whole_at(input: &[u8], at: usize) -> Option<(Whole, usize)>
    ensures { IfSome result (λ r. IsValueThere (lenient plain) input.now at r.1 (whole_scalar r.0)) }
{
    let first = *input.get(at)?;
    match first {
        b'-' | b'0'..=b'9' => {
            let (len, whole) = short_whole_in(input, Language::Plain, at, first)?;
            Some((whole, len))
        }
        _ => None,
    }
}

/// The truth value that stands there, and how many bytes it takes.
#[inline(always)]
pub fn bool_at(input: &[u8], at: usize) -> Option<(bool, usize)>
    ensures { IfSome result (λ r. IsValueThere (lenient plain) input.now at r.1 (bool r.0)) }
{
    match *input.get(at)? {
        b't' => Some((true, word_at(input, at, b"true")?)),
        b'f' => Some((false, word_at(input, at, b"false")?)),
        _ => None,
    }
}

/// Whether the first byte of null stands there.
#[inline(always)]
pub fn begins_null(input: &[u8], at: usize) -> bool
    ensures { result ≡ false → (len : ℕ) → IsValueThere (lenient plain) input.now at len null → ⊥ }
{
    match input.get(at) {
        Some(first) => *first == b'n',
        None => false,
    }
}

/// How many bytes null takes, where it stands there.
#[inline(always)]
pub fn null_at(input: &[u8], at: usize) -> Option<usize>
    ensures { IfSome result (λ len. IsValueThere (lenient plain) input.now at len null) }
{
    if is_there(input, at, b'n') {
        word_at(input, at, b"null")
    } else {
        None
    }
}

/// How many bytes a scalar takes, whatever it is, where one stands there that a few bytes decide.
#[inline(never)]
pub fn scalar_at(input: &[u8], at: usize) -> Option<usize>
    ensures { IfSome result (IsAllowedThere (lenient plain) input.now at) }
{
    take_scalar::<InPlain, ()>(input, &mut (), at)
}

/// How many letters this literal has, where it stands there.
#[inline(always)]
pub(crate) fn word_at(input: &[u8], at: usize, word: &[u8]) -> Option<usize>
    requires { at ≤ length input.now }
    ensures len { IfSome result (λ n. at + n ≤ length input.now) }
    ensures word { (language : SpecLanguage) (first : ℕ) (value : Scalar) → IsWord first word.now value → slice_get input.now at ≡ Some first
        → IfSome result (λ n. IsValueThere language input.now at n value) }
{
    let len = word.len();
    if common_len(input, at, word) == len {
        Some(len)
    } else {
        None
    }
}
