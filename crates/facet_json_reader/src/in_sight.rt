//! Events consumed one after another, as long as a few bytes decide each of them or it is a text with an escape, and it is taken. No event
//! is made of them, where the reader is stands in locals meanwhile, and the language and what takes them are known where this is compiled.

ghost use Rattle.std.specs.Prelude.{◌≡◌, ◌≤◌, ◌<◌, ◌+◌, ◌∷◌, ℕ, true, false, List, Some, length, slice_get, slice_range, IfNone, IfSome};
ghost use Rattle.facet_format.specs.Bytes.{quote};
ghost use Rattle.facet_format.specs.Event.{ContainerKind as SpecContainer, EventKind, Scalar, object, array, scalar};
ghost use Rattle.facet_format.specs.Span.{stop, span_at};
ghost use Rattle.facet_format.specs.Views.{span_of};
ghost use Rattle.facet_json_token.specs.Cut.{past_gap};
ghost use Rattle.facet_json_token.specs.Gap.{jsonc, plain, whole};
ghost use Rattle.facet_json_token.specs.GapLen.{piece_len};
ghost use Rattle.facet_json_token.specs.Token.{string, comma};
ghost use Rattle.facet_json_token.specs.Views.{mode_of};
ghost use Rattle.facet_json_grammar.specs.Future.{after_value, stage_after, within};
ghost use Rattle.facet_json_grammar.specs.Language.{Language as SpecLanguage, gaps, lenient, strict};
ghost use Rattle.facet_json_grammar.specs.Place.{names, passes, place_turn};
ghost use Rattle.facet_json_reader.specs.PlaceViews.{language_of, place_of, opening_bracket, closing_bracket, opening_event};
ghost use Rattle.facet_json_reader.specs.Views.{stage_of};
ghost use Rattle.facet_json_reader.specs.Inner.InSight.{reader_at, IsFront, PassesSeveral, PassesOver, PassesBracket, GoesFar, GoesFarIn};
ghost use Rattle.facet_json_reader.specs.Inner.InSight.{Stays, TakesScalar};
ghost use Rattle.facet_json_reader.specs.Pieces.{IsPiece};
ghost use Rattle.facet_json_reader.specs.Inner.Quick.{MayBeValue, IsWord};
ghost use Rattle.facet_json_reader.specs.Values.{IsAllowedThere};

use crate::number::number_len;
use crate::place::{Language, Place, Turn};
use crate::reader::{Contexts, Reader, Stage};
use crate::single::word_at;
use crate::step::closing_sort;
use crate::takes::{Piece, Takes};
use crate::text::{escaped_end, text_end};
use facet_format::{ContainerKind, Span};
use facet_json_token::Mode;
use facet_json_token::quick::{empty_gap_end, gap_end};

/// A language that is known where code is compiled.
pub(crate) trait InLanguage {
    /// The language.
    ghost language: { SpecLanguage };

    /// The language.
    fn language() -> Language
        ensures { language_of result ≡ language };
}

/// In `Language::Plain`.
pub(crate) struct InPlain;

impl InLanguage for InPlain {
    ghost language = { lenient plain };

    #[inline(always)]
    fn language() -> Language {
        Language::Plain
    }
}

/// In `Language::Jsonc`.
pub(crate) struct InJsonc;

impl InLanguage for InJsonc {
    ghost language = { lenient jsonc };

    #[inline(always)]
    fn language() -> Language {
        Language::Jsonc
    }
}

/// In `Language::Strict`.
pub(crate) struct InStrict;

impl InLanguage for InStrict {
    ghost language = { strict plain };

    #[inline(always)]
    fn language() -> Language {
        Language::Strict
    }
}

/// How far it is: after a token, before the next one that is no separator.
#[derive(Clone, Copy)]
pub struct Front {
    /// The last token that was consumed.
    pub(crate) last: Span,
    /// What stands before, within the innermost container.
    pub(crate) stage: Stage,
    /// The place before the next token that is no separator.
    pub(crate) place: Place,
    /// The offset of that token.
    pub at: usize,
}

impl Reader {
    /// Consumes events as long as a few bytes decide each of them or it is a text with an escape, and it is taken. It allocates for open
    /// containers alone, and where there is no memory for one, it goes no further.
    pub fn pass_in_sight<'de, T: Takes<'de>>(
        &mut self,
        input: &'de [u8],
        language: Language,
        takes: &mut T,
    )
        requires { stop (span_of self.old.last) ≤ length input.now }
        ensures { PassesSeveral (T.takes input.now) input.now (language_of language) self.old takes.old self.new takes.new }
    {
        match language {
            Language::Plain => self.pass_in::<InPlain, T>(input, takes),
            Language::Jsonc => self.pass_in::<InJsonc, T>(input, takes),
            Language::Strict => self.pass_in::<InStrict, T>(input, takes),
        }
    }

    /// Consumes such events in this language.
    #[inline(never)]
    fn pass_in<'de, L: InLanguage, T: Takes<'de>>(&mut self, input: &'de [u8], takes: &mut T)
        requires { stop (span_of self.old.last) ≤ length input.now }
        ensures { PassesSeveral (T.takes input.now) input.now L.language self.old takes.old self.new takes.new }
    {
        let Some(ahead) = self.ahead(input, L::language()) else {
            return;
        };
        let from = Front {
            last: self.last,
            stage: self.stage,
            place: ahead.place,
            at: ahead.at,
        };
        let to = pass_all::<L, T>(input, takes, &mut self.contexts, from);
        self.last = to.last;
        self.stage = to.stage;
    }
}

/// Consumes members and items that a few bytes decide, and the brackets between them.
#[inline(always)]
fn pass_all<'de, L: InLanguage, T: Takes<'de>>(
    input: &'de [u8],
    takes: &mut T,
    contexts: &mut Contexts,
    from: Front,
) -> Front
    ensures { IsFront input.now L.language contexts.old from
        → PassesSeveral (T.takes input.now) input.now L.language (reader_at contexts.old from) takes.old
        (reader_at contexts.new result) takes.new }
{
    let mut front = from;
    loop {
        let inside = pass_inside::<L, T>(input, takes, contexts, front);
        let Some(next) = pass_bracket::<L, T>(input, takes, contexts, inside) else {
            return inside;
        };
        front = next;
        if let Stage::Over = front.stage {
            return front;
        }
    }
}

/// Consumes members or items of the innermost container, up to one that is more than a scalar which a few bytes decide.
#[inline(always)]
fn pass_inside<'de, L: InLanguage, T: Takes<'de>>(
    input: &'de [u8],
    takes: &mut T,
    contexts: &Contexts,
    from: Front,
) -> Front
    ensures far { IsFront input.now L.language contexts.now from
        → GoesFar (T.takes input.now) input.now L.language contexts.now from takes.old result takes.new }
    ensures onward { from.at ≤ result.at }
{
    match contexts.innermost() {
        Some(ContainerKind::Object) => pass_members::<L, T>(input, takes, from),
        Some(ContainerKind::Array) => pass_items::<L, T>(input, takes, from),
        None => from,
    }
}

/// Consumes an object's members, up to one whose value is no scalar that a few bytes decide.
#[inline(always)]
fn pass_members<'de, L: InLanguage, T: Takes<'de>>(
    input: &'de [u8],
    takes: &mut T,
    from: Front,
) -> Front
    ensures far { GoesFarIn (T.takes input.now) input.now L.language object from takes.old result takes.new }
    ensures onward { from.at ≤ result.at }
{
    let mut front = from;
    while is_key(front.place) {
        let Some(key) = pass_key::<L, T>(input, takes, front) else {
            return front;
        };
        if begins_container(input, key.at) {
            return key;
        }
        let Some(next) = pass_scalar::<L, T>(
            input,
            takes,
            key,
            Place::AfterMember,
            Place::BeforeKey,
        ) else {
            return key;
        };
        front = next;
    }
    front
}

/// Consumes an array's items, up to one that is no scalar that a few bytes decide.
#[inline(always)]
fn pass_items<'de, L: InLanguage, T: Takes<'de>>(
    input: &'de [u8],
    takes: &mut T,
    from: Front,
) -> Front
    ensures far { GoesFarIn (T.takes input.now) input.now L.language array from takes.old result takes.new }
    ensures onward { from.at ≤ result.at }
{
    let mut front = from;
    while is_item(front.place) && !begins_container(input, front.at) {
        let Some(next) = pass_scalar::<L, T>(
            input,
            takes,
            front,
            Place::AfterItem,
            Place::BeforeItem,
        ) else {
            return front;
        };
        front = next;
    }
    front
}

/// Whether a key may stand there.
#[inline(always)]
pub(crate) fn is_key(place: Place) -> bool
    ensures { result ≡ true → (start finish : ℕ) → place_turn (place_of place) (string start finish false) ≡ names }
{
    matches!(place, Place::BeforeKey | Place::NextKey)
}

/// Whether an item may stand there.
#[inline(always)]
pub(crate) fn is_item(place: Place) -> bool
    ensures { result ≡ true → MayBeValue (place_of place) }
{
    matches!(place, Place::BeforeItem | Place::NextItem)
}

/// Whether a bracket stands there that opens a container, so that no scalar is sought there.
#[inline(always)]
fn begins_container(input: &[u8], at: usize) -> bool {
    match input.get(at) {
        Some(b'[' | b'{') => true,
        _ => false,
    }
}

/// Whether this byte stands there.
#[inline(always)]
pub(crate) fn is_there(input: &[u8], at: usize, byte: u8) -> bool
    ensures { result ≡ true → slice_get input.now at ≡ Some byte }
{
    match input.get(at) {
        Some(there) => *there == byte,
        None => false,
    }
}

/// The offset after the gap at `at`, most likely of white space alone, or none.
#[inline(always)]
pub(crate) fn past<L: InLanguage>(input: &[u8], at: usize) -> usize
    requires { at ≤ length input.now }
    ensures end { result ≡ past_gap input.now at (gaps L.language) }
    ensures within { result ≤ length input.now }
{
    if is_past::<L>(input, at) {
        at
    } else {
        gap_end(input, at, L::language().mode())
    }
}

/// The offset after the gap at `at`, where nearly all gaps are empty: another one is passed by a call.
#[inline(always)]
pub(crate) fn past_empty<L: InLanguage>(input: &[u8], at: usize) -> usize
    requires { at ≤ length input.now }
    ensures end { result ≡ past_gap input.now at (gaps L.language) }
    ensures within { result ≤ length input.now }
{
    if is_past::<L>(input, at) {
        at
    } else {
        empty_gap_end(input, at, L::language().mode())
    }
}

/// Whether the gap at `at` is empty, as the byte there tells.
#[inline(always)]
fn is_past<L: InLanguage>(input: &[u8], at: usize) -> bool
    ensures { result ≡ true → at ≡ past_gap input.now at (gaps L.language) }
{
    match input.get(at) {
        Some(byte) => begins_no_gap(*byte, L::language().mode()),
        None => false,
    }
}

/// Whether no piece of a gap begins with this byte: no white space is above a space. Where the mode is known, one comparison tells.
#[inline(always)]
fn begins_no_gap(byte: u8, mode: Mode) -> bool
    ensures { result ≡ true → (bytes : List ℕ) → piece_len (mode_of mode) whole (byte ∷ bytes) ≡ 0 }
{
    match mode {
        Mode::Plain => byte > b' ',
        Mode::Jsonc => byte > b' ' && byte != b'/',
    }
}

/// Consumes a key and its colon, where it is taken.
#[inline(always)]
fn pass_key<'de, L: InLanguage, T: Takes<'de>>(
    input: &'de [u8],
    takes: &mut T,
    from: Front,
) -> Option<Front>
    ensures over { IfSome result (λ f. (stack : List SpecContainer)
        → ((start finish : ℕ) → place_turn (place_of from.place) (string start finish false) ≡ names)
        → IsFront input.now L.language stack from
        → PassesOver (T.takes input.now) input.now L.language stack from takes.old stack f takes.new) }
    ensures left { IfNone result (Stays (T.takes input.now) takes.old takes.new) }
    ensures place { IfSome result (λ f. f.place ≡ Place.AfterColon) }
    ensures onward { IfSome result (λ f. (from.at < f.at) × (from.at < length input.now)) }
{
    if !is_there(input, from.at, b'"') {
        return None;
    }
    let end = text_end(input, L::language(), from.at)?;
    let colon = past_empty::<L>(input, end + 1);
    if !is_there(input, colon, b':') {
        return None;
    }
    take_piece(input, takes, Piece::Key, from.at, end + 1 - from.at)?;
    Some(Front {
        last: Span::new(colon, 1),
        stage: Stage::Within(Place::AfterColon),
        place: Place::AfterColon,
        at: past::<L>(input, colon + 1),
    })
}

/// Consumes a scalar, after which this place is, and the comma behind it, where it is taken.
#[inline(always)]
fn pass_scalar<'de, L: InLanguage, T: Takes<'de>>(
    input: &'de [u8],
    takes: &mut T,
    from: Front,
    place: Place,
    next: Place,
) -> Option<Front>
    requires { place_turn (place_of place) comma ≡ passes (place_of next) }
    ensures over { IfSome result (λ f. (stack : List SpecContainer) → MayBeValue (place_of from.place)
        → after_value stack ≡ within (place_of place)
        → IsFront input.now L.language stack from
        → PassesOver (T.takes input.now) input.now L.language stack from takes.old stack f takes.new) }
    ensures left { IfNone result (Stays (T.takes input.now) takes.old takes.new) }
    ensures onward { IfSome result (λ f. (from.at < f.at) × (from.at < length input.now)) }
{
    let len = take_scalar::<L, T>(input, takes, from.at)?;
    Some(behind::<L>(input, from.at, len, place, next))
}

/// Behind a value's last token, which takes so many bytes at `at`: at this place, or where a comma follows, behind it at the next one.
#[inline(always)]
pub(crate) fn behind<L: InLanguage>(
    input: &[u8],
    at: usize,
    len: usize,
    place: Place,
    next: Place,
) -> Front
    requires within { at + len ≤ length input.now }
    requires comma { place_turn (place_of place) comma ≡ passes (place_of next) }
    ensures front { (stack : List SpecContainer) → IsFront input.now L.language stack result }
    ensures last { span_of result.last ≡ span_at at len }
    ensures stage { result.stage ≡ Stage.Within place }
    ensures onward { at + len ≤ result.at }
{
    let end = past_empty::<L>(input, at + len);
    let last = Span::new(at, len);
    let stage = Stage::Within(place);
    if is_there(input, end, b',') {
        Front {
            last,
            stage,
            place: next.led(L::language()),
            at: past::<L>(input, end + 1),
        }
    } else {
        Front {
            last,
            stage,
            place,
            at: end,
        }
    }
}

/// Takes the scalar there, where a few bytes decide it, and returns its length.
#[inline(always)]
pub(crate) fn take_scalar<'de, L: InLanguage, T: Takes<'de>>(
    input: &'de [u8],
    takes: &mut T,
    at: usize,
) -> Option<usize>
    ensures scalar { IfSome result (λ len. TakesScalar (T.takes input.now) input.now L.language at len takes.old takes.new) }
    ensures left { IfNone result (Stays (T.takes input.now) takes.old takes.new) }
{
    let first = *input.get(at)?;
    match first {
        b'"' => take_text::<L, T>(input, takes, at),
        b'-' | b'0'..=b'9' => {
            let len = number_len(input, L::language(), at, first)?;
            take_piece(input, takes, Piece::Number, at, len)
        }
        b't' => take_word(input, takes, Piece::Bool(true), at, b"true"),
        b'f' => take_word(input, takes, Piece::Bool(false), at, b"false"),
        b'n' => take_word(input, takes, Piece::Null, at, b"null"),
        _ => None,
    }
}

/// Takes the text whose quote is at `at`, where it holds no escape, and returns its length.
#[inline(always)]
fn take_text<'de, L: InLanguage, T: Takes<'de>>(
    input: &'de [u8],
    takes: &mut T,
    at: usize,
) -> Option<usize>
    requires { slice_get input.now at ≡ Some quote }
    ensures scalar { IfSome result (λ len. TakesScalar (T.takes input.now) input.now L.language at len takes.old takes.new) }
    ensures left { IfNone result (Stays (T.takes input.now) takes.old takes.new) }
{
    let end = text_end(input, L::language(), at)?;
    take_piece(input, takes, Piece::Text, at, end + 1 - at)
}

/// Takes the literal of these letters, where it stands there, and returns its length.
#[inline(always)]
fn take_word<'de, T: Takes<'de>>(
    input: &'de [u8],
    takes: &mut T,
    piece: Piece,
    at: usize,
    word: &[u8],
) -> Option<usize>
    requires within { at ≤ length input.now }
    requires piece { (kind : EventKind) × ((bytes : List ℕ) → IsPiece bytes piece kind) }
    ensures scalar { (language : SpecLanguage) (first : ℕ) (value : Scalar) → IsWord first word.now value
        → ((bytes : List ℕ) → IsPiece bytes piece (scalar value))
        → slice_get input.now at ≡ Some first
        → IfSome result (λ len. TakesScalar (T.takes input.now) input.now language at len takes.old takes.new) }
    ensures left { IfNone result (Stays (T.takes input.now) takes.old takes.new) }
{
    let len = word_at(input, at, word)?;
    take_piece(input, takes, piece, at, len)
}

/// Takes so many bytes at `at` as an event, and returns how many.
#[inline(always)]
fn take_piece<'de, T: Takes<'de>>(
    input: &'de [u8],
    takes: &mut T,
    piece: Piece,
    at: usize,
    len: usize,
) -> Option<usize>
    requires within { at + len ≤ length input.now }
    requires piece { (kind : EventKind) × IsPiece (slice_range input.now at (at + len)) piece kind }
    ensures len { IfSome result (λ n. n ≡ len) }
    ensures taken { IfSome result (λ _. (kind : EventKind) → IsPiece (slice_range input.now at (at + len)) piece kind
        → T.takes input.now (Some (record { kind = kind; span = span_at at len })) takes.old takes.new) }
    ensures left { IfNone result (Stays (T.takes input.now) takes.old takes.new) }
{
    if takes.take(input, piece, Span::new(at, len)) {
        Some(len)
    } else {
        None
    }
}

/// Consumes a bracket, where it is taken and there is memory for a container that it opens, and the comma behind one that it closes; or a
/// text with an escape, as in `pass_escaped`.
#[inline(always)]
fn pass_bracket<'de, L: InLanguage, T: Takes<'de>>(
    input: &'de [u8],
    takes: &mut T,
    contexts: &mut Contexts,
    from: Front,
) -> Option<Front>
    ensures same { IfNone result (contexts.new ≡ contexts.old) }
    ensures left { IfNone result (Stays (T.takes input.now) takes.old takes.new) }
    ensures over { IfSome result (λ f. IsFront input.now L.language contexts.old from
        → PassesBracket (T.takes input.now) input.now L.language contexts.old from takes.old contexts.new f takes.new) }
    ensures onward { IfSome result (λ f. (from.at < f.at) × (from.at < length input.now)) }
{
    match *input.get(from.at)? {
        b'{' => pass_start::<L, T>(input, takes, contexts, from, ContainerKind::Object),
        b'[' => pass_start::<L, T>(input, takes, contexts, from, ContainerKind::Array),
        b'}' => pass_end::<L, T>(input, takes, contexts, from, ContainerKind::Object),
        b']' => pass_end::<L, T>(input, takes, contexts, from, ContainerKind::Array),
        b'"' => pass_escaped::<L, T>(input, takes, contexts, from),
        _ => None,
    }
}

/// Consumes a text with an escape, where it is taken, and the comma behind it.
#[inline(always)]
fn pass_escaped<'de, L: InLanguage, T: Takes<'de>>(
    input: &'de [u8],
    takes: &mut T,
    contexts: &Contexts,
    from: Front,
) -> Option<Front>
    requires { slice_get input.now from.at ≡ Some quote }
    ensures left { IfNone result (Stays (T.takes input.now) takes.old takes.new) }
    ensures over { IfSome result (λ f. IsFront input.now L.language contexts.now from
        → PassesBracket (T.takes input.now) input.now L.language contexts.now from takes.old contexts.now f takes.new) }
    ensures onward { IfSome result (λ f. (from.at < f.at) × (from.at < length input.now)) }
{
    if !from.place.takes_value() {
        return None;
    }
    let len = take_escaped::<L, T>(input, takes, from.at)?;
    Some(behind_value::<L>(input, contexts, from.at, len))
}

/// Takes the text whose quote is at `at`, where an escape stands in it, and returns its length. It is a call, which nothing but two numbers
/// passes through, so that the events of other bytes stay in locals.
#[inline(never)]
fn take_escaped<'de, L: InLanguage, T: Takes<'de>>(
    input: &'de [u8],
    takes: &mut T,
    at: usize,
) -> Option<usize>
    requires { slice_get input.now at ≡ Some quote }
    ensures scalar { IfSome result (λ len. TakesScalar (T.takes input.now) input.now L.language at len takes.old takes.new) }
    ensures left { IfNone result (Stays (T.takes input.now) takes.old takes.new) }
{
    let end = escaped_end(input, L::language(), at)?;
    let len = end + 1 - at;
    if takes.take_escaped(input, Span::new(at, len)) {
        Some(len)
    } else {
        None
    }
}

/// Consumes the bracket that opens a container of this kind.
#[inline(always)]
fn pass_start<'de, L: InLanguage, T: Takes<'de>>(
    input: &'de [u8],
    takes: &mut T,
    contexts: &mut Contexts,
    from: Front,
    kind: ContainerKind,
) -> Option<Front>
    requires { slice_get input.now from.at ≡ Some (opening_bracket kind) }
    ensures same { IfNone result (contexts.new ≡ contexts.old) }
    ensures left { IfNone result (Stays (T.takes input.now) takes.old takes.new) }
    ensures over { IfSome result (λ f. IsFront input.now L.language contexts.old from
        → PassesBracket (T.takes input.now) input.now L.language contexts.old from takes.old contexts.new f takes.new) }
    ensures onward { IfSome result (λ f. (from.at < f.at) × (from.at < length input.now)) }
{
    if !from.place.takes_value() {
        return None;
    }
    let Ok(()) = contexts.push(kind) else {
        return None;
    };
    match take_piece(input, takes, Piece::Start(kind), from.at, 1) {
        Some(_) => Some(behind_start::<L>(input, from.at, kind)),
        None => {
            contexts.pop();
            None
        }
    }
}

/// Behind the bracket at `at`, which has opened a container of this kind.
#[inline(always)]
fn behind_start<L: InLanguage>(input: &[u8], at: usize, kind: ContainerKind) -> Front
    requires { at < length input.now }
    ensures front { (stack : List SpecContainer) → IsFront input.now L.language stack result }
    ensures last { span_of result.last ≡ span_at at 1 }
    ensures stage { (stack : List SpecContainer) → stage_of result.stage ≡ stage_after (opening_event kind) stack }
    ensures onward { at < result.at }
{
    let place = inside(kind);
    Front {
        last: Span::new(at, 1),
        stage: Stage::Within(place),
        place,
        at: past::<L>(input, at + 1),
    }
}

/// The place after the bracket that opens a container of this kind.
#[inline(always)]
fn inside(kind: ContainerKind) -> Place
    ensures { (stack : List SpecContainer) → within (place_of result) ≡ stage_after (opening_event kind) stack }
{
    match kind {
        ContainerKind::Object => Place::BeforeKey,
        ContainerKind::Array => Place::BeforeItem,
    }
}

/// Consumes the bracket that closes a container of this kind, and the comma behind it.
#[inline(always)]
fn pass_end<'de, L: InLanguage, T: Takes<'de>>(
    input: &'de [u8],
    takes: &mut T,
    contexts: &mut Contexts,
    from: Front,
    kind: ContainerKind,
) -> Option<Front>
    requires { slice_get input.now from.at ≡ Some (closing_bracket kind) }
    ensures same { IfNone result (contexts.new ≡ contexts.old) }
    ensures left { IfNone result (Stays (T.takes input.now) takes.old takes.new) }
    ensures over { IfSome result (λ f. IsFront input.now L.language contexts.old from
        → PassesBracket (T.takes input.now) input.now L.language contexts.old from takes.old contexts.new f takes.new) }
    ensures onward { IfSome result (λ f. (from.at < f.at) × (from.at < length input.now)) }
{
    let Turn::Closes(_) = from.place.turn_by(closing_sort(kind)) else {
        return None;
    };
    take_piece(input, takes, Piece::End(kind), from.at, 1)?;
    contexts.pop();
    Some(behind_value::<L>(input, contexts, from.at, 1))
}

/// Behind a value within these containers, whose last token takes so many bytes at `at`.
#[inline(always)]
fn behind_value<L: InLanguage>(input: &[u8], contexts: &Contexts, at: usize, len: usize) -> Front
    requires { at + len ≤ length input.now }
    ensures front { (result.stage ≡ Stage.Over → ⊥) → IsFront input.now L.language contexts.now result }
    ensures last { span_of result.last ≡ span_at at len }
    ensures stage { stage_of result.stage ≡ after_value contexts.now }
    ensures onward { at + len ≤ result.at }
{
    match contexts.innermost() {
        Some(ContainerKind::Object) => behind::<L>(
            input,
            at,
            len,
            Place::AfterMember,
            Place::BeforeKey,
        ),
        Some(ContainerKind::Array) => behind::<L>(
            input,
            at,
            len,
            Place::AfterItem,
            Place::BeforeItem,
        ),
        None => Front {
            last: Span::new(at, len),
            stage: Stage::Over,
            place: Place::AfterRoot,
            at: at + len,
        },
    }
}
