//! One step of the reader, where a few bytes decide it: where the next token begins, each way past it, and any event as what is wanted: a
//! bracket, a text or a key without an escape, a number that allocates nothing, a literal. Where a few bytes do not decide, nothing
//! changes, and the tokens decide, in `reader`.

ghost use Rattle.std.specs.Prelude.{◌≡◌, ◌≤◌, ◌<◌, ◌+◌, ℕ, List, Some, false, true, length, slice_get, slice_range, IfSome, IfNone, IsUtf8};
ghost use Rattle.std.specs.Prelude.{MatchOption};
ghost use Rattle.facet_format.specs.Event.{Scalar, Text, scalar, field_key, borrowed};
ghost use Rattle.facet_format.specs.Span.{Span as SpecSpan, stop, span_at};
ghost use Rattle.facet_format.specs.Views.{span_of, event_kind_of};
ghost use Rattle.facet_json_token.specs.Cut.{start_of, opens_number};
ghost use Rattle.facet_json_token.specs.Token.{string, number};
ghost use Rattle.facet_json_grammar.specs.Language.{Language as SpecLanguage};
ghost use Rattle.facet_json_grammar.specs.Place.{Place as SpecPlace, names, place_turn};
ghost use Rattle.facet_json_grammar.specs.StrictTokens.{Allows};
ghost use Rattle.facet_json_reader.specs.PlaceViews.{language_of, least_of, place_of, opening_event, closing_event, closing_token};
ghost use Rattle.facet_json_reader.specs.PlaceViews.{opening_bracket, closing_bracket};
ghost use Rattle.facet_json_reader.specs.Values.{AreUnescaped, IsPlainText, IsScalarThere};
ghost use Rattle.facet_json_reader.specs.Inner.Quick.{MayBeValue, Reaches, IsWord, Leaves, PassesQuickly};
ghost use Rattle.facet_json_reader.specs.Inner.Sorts.{kind_by};
ghost use Rattle.facet_format.specs.Bytes.{quote};
ghost use Rattle.facet_format.specs.Number.{float};
ghost use Rattle.facet_json_reader.specs.Inner.Short.{IsDecimalThere};

use crate::number::{decimal_at, short_number_in};
use crate::place::{Language, Place, Sort, Turn};
use crate::reader::{Reader, Stage, closing, opening};
use crate::text::text_at;
use crate::wanted::Wanted;
use facet_format::{ContainerKind, FieldKey, FieldLocationHint, ParseEventKind, ScalarValue, Span};
use facet_json_token::Trust;
use facet_json_token::cutting::common_len;
use facet_json_token::quick::{empty_gap_end, gap_end};
use std::borrow::CowStr;

/// Where the next token begins that is no separator.
#[derive(Clone, Copy)]
pub(crate) struct Ahead {
    /// The place before it.
    pub(crate) place: Place,
    /// Its offset.
    pub(crate) at: usize,
    /// Its first byte.
    pub(crate) first: u8,
}

impl Ahead {
    /// Whether a value may stand there.
    #[inline(always)]
    pub(crate) fn is_value(self) -> bool
        ensures { result ≡ true → MayBeValue (place_of self.place) }
    {
        self.place.takes_value()
    }

    /// Whether a key may stand there.
    #[inline(always)]
    pub(crate) fn is_key(self) -> bool
        ensures { result ≡ true → (start finish : ℕ) → place_turn (place_of self.place) (string start finish false) ≡ names }
    {
        match self.place.turn_by(Sort::Text) {
            Turn::Names => true,
            _ => false,
        }
    }
}

impl Place {
    /// Whether a value may stand there.
    #[inline(always)]
    pub(crate) fn takes_value(self) -> bool
        ensures { result ≡ true → MayBeValue (place_of self) }
    {
        match self.turn_by(Sort::Scalar) {
            Turn::Scalar => true,
            _ => false,
        }
    }
}

impl Reader {
    /// Where the next token begins that is no separator, unless the document or the input ends or a comma stands wrong.
    #[inline(always)]
    pub(crate) fn ahead(&self, input: &[u8], language: Language) -> Option<Ahead>
        requires within { stop (span_of self.now.last) ≤ length input.now }
        ensures reaches { IfSome result (λ a. Reaches input.now (language_of language) self.now (place_of a.place) a.at) }
        ensures here { IfSome result (λ a. slice_get input.now a.at ≡ Some a.first) }
    {
        let Stage::Within(place) = self.stage else {
            return None;
        };
        let mode = language.mode();
        let at = gap_end(input, self.last.end(), mode);
        let first = *input.get(at)?;
        if first != b',' {
            return Some(Ahead { place, at, first });
        }
        let Turn::Passes(next) = place.turn_by(Sort::Comma) else {
            return None;
        };
        let to = empty_gap_end(input, at + 1, mode);
        let first = *input.get(to)?;
        Some(Ahead {
            place: next.led(language),
            at: to,
            first,
        })
    }

    /// Where the next value begins and its first byte, where a value may stand.
    #[inline(always)]
    pub(crate) fn value_start(&self, input: &[u8], language: Language) -> Option<(usize, u8)>
        requires within { stop (span_of self.now.last) ≤ length input.now }
        ensures reaches { IfSome result
            (λ r. (place : SpecPlace) × MayBeValue place × Reaches input.now (language_of language) self.now place r.0) }
        ensures here { IfSome result (λ r. slice_get input.now r.0 ≡ Some r.1) }
    {
        let ahead = self.ahead(input, language)?;
        if !ahead.is_value() {
            return None;
        }
        Some((ahead.at, ahead.first))
    }

    /// Where the next number begins and its first byte, where a value may stand.
    #[inline(always)]
    pub(crate) fn number_start(&self, input: &[u8], language: Language) -> Option<(usize, u8)>
        requires within { stop (span_of self.now.last) ≤ length input.now }
        ensures reaches { IfSome result
            (λ r. (place : SpecPlace) × MayBeValue place × Reaches input.now (language_of language) self.now place r.0) }
        ensures here { IfSome result (λ r. slice_get input.now r.0 ≡ Some r.1) }
        ensures number { IfSome result (λ r. start_of r.1 ≡ opens_number) }
    {
        let (at, first) = self.value_start(input, language)?;
        match first {
            b'-' | b'0'..=b'9' => Some((at, first)),
            _ => None,
        }
    }

    /// Consumes the scalar of so many bytes that stands there.
    #[inline(always)]
    pub(crate) fn pass_scalar(&mut self, at: usize, len: usize) -> Span
        ensures { (buffer : List ℕ) (language : SpecLanguage) (place : SpecPlace) (value : Scalar)
            → (there : IsScalarThere buffer at len value)
            → Allows language buffer (record { kind = there.kind; span = span_at at len }) → MayBeValue place
            → Reaches buffer language self.old place at
            → PassesQuickly buffer language self.old (record { kind = scalar value; span = span_of result }) self.new }
    {
        let span = Span::new(at, len);
        self.move_past(span);
        span
    }

    /// Consumes the literal of these letters.
    #[inline(always)]
    pub(crate) fn pass_word(&mut self, input: &[u8], at: usize, word: &[u8]) -> Option<Span>
        requires { at ≤ length input.now }
        ensures same { IfNone result (self.new ≡ self.old) }
        ensures passes { (language : SpecLanguage) (place : SpecPlace) (first : ℕ) (value : Scalar) → IsWord first word.now value
            → slice_get input.now at ≡ Some first → MayBeValue place → Reaches input.now language self.old place at
            → IfSome result
            (λ s. PassesQuickly input.now language self.old (record { kind = scalar value; span = span_of s }) self.new) }
    {
        let len = word.len();
        if common_len(input, at, word) == len {
            Some(self.pass_scalar(at, len))
        } else {
            None
        }
    }

    /// Consumes the bracket that closes a container of this kind, where one stands.
    #[inline(always)]
    pub(crate) fn pass_closing(&mut self, kind: ContainerKind, ahead: Ahead) -> Option<Span>
        ensures same { IfNone result (self.new ≡ self.old) }
        ensures passes { (buffer : List ℕ) (language : SpecLanguage) → slice_get buffer ahead.at ≡ Some (closing_bracket kind)
            → Reaches buffer language self.old (place_of ahead.place) ahead.at → IfSome result
            (λ s. PassesQuickly buffer language self.old (record { kind = closing_event kind; span = span_of s }) self.new) }
    {
        match ahead.place.turn_by(closing_sort(kind)) {
            Turn::Closes(_) => Some(self.move_past_end(kind, ahead.at)),
            _ => None,
        }
    }

    /// Consumes the bracket that opens a container of this kind, where a value may stand and it does.
    #[inline(always)]
    pub(crate) fn open_value(
        &mut self,
        input: &[u8],
        language: Language,
        kind: ContainerKind,
    ) -> Option<Span>
        requires within { stop (span_of self.old.last) ≤ length input.now }
        ensures same { IfNone result (self.new ≡ self.old) }
        ensures passes { IfSome result (λ s. PassesQuickly input.now (language_of language) self.old
            (record { kind = opening_event kind; span = span_of s }) self.new) }
    {
        let (at, first) = self.value_start(input, language)?;
        if first != first_byte(kind) {
            return None;
        }
        self.pass_opening(kind, at)
    }

    /// Consumes the bracket that opens a container of this kind, which stands there, where there is memory for it.
    #[inline(always)]
    pub(crate) fn pass_opening(&mut self, kind: ContainerKind, at: usize) -> Option<Span>
        ensures same { IfNone result (self.new ≡ self.old) }
        ensures passes { (buffer : List ℕ) (language : SpecLanguage) (place : SpecPlace) → MayBeValue place
            → slice_get buffer at ≡ Some (opening_bracket kind) → Reaches buffer language self.old place at → IfSome result
            (λ s. PassesQuickly buffer language self.old (record { kind = opening_event kind; span = span_of s }) self.new) }
    {
        self.move_past_start(kind, at)
    }

    /// Consumes a key whose quotes stand there and at `end`, and its colon.
    #[inline(always)]
    pub(crate) fn pass_key(
        &mut self,
        input: &[u8],
        language: Language,
        at: usize,
        end: usize,
    ) -> Option<Span>
        requires within { (at < end) × (end < length input.now) }
        requires unescaped { AreUnescaped (least_of (language_of language)) (slice_range input.now (at + 1) end) }
        ensures same { IfNone result (self.new ≡ self.old) }
        ensures passes { (place : SpecPlace) (name : List ℕ) → place_turn place (string (at + 1) end false) ≡ names
            → IsPlainText input.now at end name
            → Reaches input.now (language_of language) self.old place at → IfSome result
            (λ s. PassesQuickly input.now (language_of language) self.old
            (record { kind = field_key (borrowed name); span = span_of s }) self.new) }
    {
        let colon = empty_gap_end(input, end + 1, language.mode());
        match input.get(colon) {
            Some(b':') => {
                self.move_past_name(colon);
                Some(Span::new(at, end + 1 - at))
            }
            _ => None,
        }
    }

    /// Moves past a bracket that closes a container.
    #[inline(always)]
    fn move_past_end(&mut self, _kind: ContainerKind, at: usize) -> Span
        ensures span { span_of result ≡ span_at at 1 }
        ensures leaves { Leaves self.old (closing_event _kind) (span_at at 1) (span_at at 1) self.new }
    {
        self.close();
        self.last = Span::new(at, 1);
        self.last
    }

    /// Moves past a bracket that opens a container, where there is memory for it.
    #[inline(always)]
    fn move_past_start(&mut self, kind: ContainerKind, at: usize) -> Option<Span>
        ensures same { IfNone result (self.new ≡ self.old) }
        ensures span { IfSome result (λ s. span_of s ≡ span_at at 1) }
        ensures leaves { IfSome result (λ _. Leaves self.old (opening_event kind) (span_at at 1) (span_at at 1) self.new) }
    {
        match self.contexts.push(kind) {
            Ok(()) => {
                self.stage = Stage::inside(kind);
                self.last = Span::new(at, 1);
                Some(self.last)
            }
            Err(_) => None,
        }
    }

    /// Moves past a key and its colon.
    #[inline(always)]
    fn move_past_name(&mut self, colon: usize)
        ensures { (name : Text) (s : SpecSpan) → Leaves self.old (field_key name) s (span_at colon 1) self.new }
    {
        self.stage = Stage::Within(Place::AfterColon);
        self.last = Span::new(colon, 1);
    }

    /// Moves past a scalar that takes these bytes.
    #[inline(always)]
    fn move_past(&mut self, span: Span)
        ensures { (value : Scalar) → Leaves self.old (scalar value) (span_of span) (span_of span) self.new }
    {
        self.stage = Stage::after_value(&self.contexts);
        self.last = span;
    }
}

/// The kind of container that a byte opens.
#[inline(always)]
pub(crate) fn opening_kind(byte: u8) -> Option<ContainerKind>
    ensures { IfSome result (λ kind. byte ≡ opening_bracket kind) }
{
    match byte {
        b'{' => Some(ContainerKind::Object),
        b'[' => Some(ContainerKind::Array),
        _ => None,
    }
}

/// The kind of container that a byte closes.
#[inline(always)]
pub(crate) fn closing_kind(byte: u8) -> Option<ContainerKind>
    ensures { IfSome result (λ kind. byte ≡ closing_bracket kind) }
{
    match byte {
        b'}' => Some(ContainerKind::Object),
        b']' => Some(ContainerKind::Array),
        _ => None,
    }
}

/// The bracket that opens a container of this kind.
#[inline(always)]
fn first_byte(kind: ContainerKind) -> u8
    ensures { result ≡ opening_bracket kind }
{
    match kind {
        ContainerKind::Object => b'{',
        ContainerKind::Array => b'[',
    }
}

/// The sort of the bracket that closes a container of this kind.
#[inline(always)]
pub(crate) fn closing_sort(kind: ContainerKind) -> Sort
    ensures { kind_by result ≡ Some (closing_token kind) }
{
    match kind {
        ContainerKind::Object => Sort::ObjectEnd,
        ContainerKind::Array => Sort::ArrayEnd,
    }
}

/// What an event is, with its bytes.
type Told<'de> = (ParseEventKind<'de>, Span);

/// Any event that a few bytes decide.
impl<'de> Wanted<'de> for ParseEventKind<'de> {
    ghost use Rattle.facet_format.specs.Views.{event_kind_of};

    ghost kind = { event_kind_of };

    #[inline(always)]
    fn pass(
        reader: &mut Reader,
        input: &'de [u8],
        language: Language,
        trust: Trust,
    ) -> Option<(ParseEventKind<'de>, Span)> {
        let ahead = reader.ahead(input, language)?;
        if ahead.first == b'"' {
            return string_event(reader, input, language, trust, ahead);
        }
        match closing_kind(ahead.first) {
            Some(kind) => end_event(reader, kind, ahead),
            None => value_event(reader, input, language, ahead),
        }
    }
}

/// Consumes a string without an escape, whose quote stands there: a text, or a key with its colon.
#[inline(always)]
fn string_event<'de>(
    reader: &mut Reader,
    input: &'de [u8],
    language: Language,
    trust: Trust,
    ahead: Ahead,
) -> Option<Told<'de>>
    requires here { slice_get input.now ahead.at ≡ Some quote }
    requires utf8 { trust ≡ Trust.Utf8 → IsUtf8 input.now }
    requires reaches { Reaches input.now (language_of language) reader.old (place_of ahead.place) ahead.at }
    ensures { MatchOption result (reader.new ≡ reader.old)
        (λ r. PassesQuickly input.now (language_of language) reader.old
        (record { kind = event_kind_of r.0; span = span_of r.1 }) reader.new) }
{
    let (end, text) = text_at(input, language, trust, ahead.at)?;
    match ahead.place.turn_by(Sort::Text) {
        Turn::Names => {
            let span = reader.pass_key(input, language, ahead.at, end)?;
            let key = FieldKey::new(CowStr::Borrowed(text), FieldLocationHint::KeyValue);
            Some((ParseEventKind::FieldKey(key), span))
        }
        Turn::Scalar => {
            let span = reader.pass_scalar(ahead.at, end + 1 - ahead.at);
            Some((
                ParseEventKind::Scalar(ScalarValue::Str(CowStr::Borrowed(text))),
                span,
            ))
        }
        _ => None,
    }
}

/// Consumes the bracket that closes a container of this kind, which stands there.
#[inline(always)]
fn end_event<'de>(reader: &mut Reader, kind: ContainerKind, ahead: Ahead) -> Option<Told<'de>>
    ensures { (buffer : List ℕ) (language : SpecLanguage) → slice_get buffer ahead.at ≡ Some (closing_bracket kind)
        → Reaches buffer language reader.old (place_of ahead.place) ahead.at → MatchOption result (reader.new ≡ reader.old)
        (λ r. PassesQuickly buffer language reader.old (record { kind = event_kind_of r.0; span = span_of r.1 }) reader.new) }
{
    let span = reader.pass_closing(kind, ahead)?;
    Some((closing(kind), span))
}

/// Consumes the bracket that opens a container, or a whole literal or number, of which the first byte stands there.
#[inline(always)]
fn value_event<'de>(
    reader: &mut Reader,
    input: &'de [u8],
    language: Language,
    ahead: Ahead,
) -> Option<Told<'de>>
    requires here { slice_get input.now ahead.at ≡ Some ahead.first }
    requires reaches { Reaches input.now (language_of language) reader.old (place_of ahead.place) ahead.at }
    ensures { MatchOption result (reader.new ≡ reader.old)
        (λ r. PassesQuickly input.now (language_of language) reader.old
        (record { kind = event_kind_of r.0; span = span_of r.1 }) reader.new) }
{
    if !ahead.is_value() {
        return None;
    }
    match opening_kind(ahead.first) {
        Some(kind) => start_event(reader, kind, ahead.at),
        None => scalar_event(reader, input, language, ahead.at, ahead.first),
    }
}

/// Consumes the bracket that opens a container of this kind, where there is memory for it.
#[inline(always)]
fn start_event<'de>(reader: &mut Reader, kind: ContainerKind, at: usize) -> Option<Told<'de>>
    ensures { (buffer : List ℕ) (language : SpecLanguage) (place : SpecPlace) → MayBeValue place
        → slice_get buffer at ≡ Some (opening_bracket kind) → Reaches buffer language reader.old place at
        → MatchOption result (reader.new ≡ reader.old)
        (λ r. PassesQuickly buffer language reader.old (record { kind = event_kind_of r.0; span = span_of r.1 }) reader.new) }
{
    let span = reader.pass_opening(kind, at)?;
    Some((opening(kind), span))
}

/// Consumes a whole literal or number, of which this is the first byte.
#[inline(always)]
fn scalar_event<'de>(
    reader: &mut Reader,
    input: &'de [u8],
    language: Language,
    at: usize,
    first: u8,
) -> Option<Told<'de>>
    requires { slice_get input.now at ≡ Some first }
    ensures { (place : SpecPlace) → MayBeValue place → Reaches input.now (language_of language) reader.old place at
        → MatchOption result (reader.new ≡ reader.old)
        (λ r. PassesQuickly input.now (language_of language) reader.old
        (record { kind = event_kind_of r.0; span = span_of r.1 }) reader.new) }
{
    match first {
        b't' => {
            let span = reader.pass_word(input, at, b"true")?;
            Some((ParseEventKind::Scalar(ScalarValue::Bool(true)), span))
        }
        b'f' => {
            let span = reader.pass_word(input, at, b"false")?;
            Some((ParseEventKind::Scalar(ScalarValue::Bool(false)), span))
        }
        b'n' => {
            let span = reader.pass_word(input, at, b"null")?;
            Some((ParseEventKind::Scalar(ScalarValue::Null), span))
        }
        b'-' | b'0'..=b'9' => number_event(reader, input, language, at, first),
        _ => None,
    }
}

/// Consumes a number that allocates nothing, of which this is the first byte.
#[inline(always)]
fn number_event<'de>(
    reader: &mut Reader,
    input: &'de [u8],
    language: Language,
    at: usize,
    first: u8,
) -> Option<Told<'de>>
    requires here { slice_get input.now at ≡ Some first }
    requires number { start_of first ≡ opens_number }
    ensures { (place : SpecPlace) → MayBeValue place → Reaches input.now (language_of language) reader.old place at
        → MatchOption result (reader.new ≡ reader.old)
        (λ r. PassesQuickly input.now (language_of language) reader.old
        (record { kind = event_kind_of r.0; span = span_of r.1 }) reader.new) }
{
    let (len, whole) = short_number_in(input, language, at, first)?;
    match whole {
        Some(whole) => {
            let span = reader.pass_scalar(at, len);
            Some((ParseEventKind::Scalar(whole.scalar()), span))
        }
        None => decimal_event(reader, input, at, len),
    }
}

/// Consumes the decimal of so many bytes that stands here. The answer is a value of its own, so that no other event needs memory.
#[inline(always)]
fn decimal_event<'de>(
    reader: &mut Reader,
    input: &'de [u8],
    at: usize,
    len: usize,
) -> Option<Told<'de>>
    requires { IsDecimalThere input.now at len }
    ensures { (language : SpecLanguage) (place : SpecPlace)
        → Allows language input.now (record { kind = number at (at + len) float; span = span_at at len }) → MayBeValue place
        → Reaches input.now language reader.old place at → MatchOption result (reader.new ≡ reader.old)
        (λ r. PassesQuickly input.now language reader.old (record { kind = event_kind_of r.0; span = span_of r.1 }) reader.new) }
{
    let event = decimal_event_out_of_line(reader, input, at, len);
    event
}

/// Consumes a decimal as `decimal_event`, by a call: it stays out of the code of other events.
#[inline(never)]
fn decimal_event_out_of_line<'de>(
    reader: &mut Reader,
    input: &'de [u8],
    at: usize,
    len: usize,
) -> Option<Told<'de>>
    requires { IsDecimalThere input.now at len }
    ensures { (language : SpecLanguage) (place : SpecPlace)
        → Allows language input.now (record { kind = number at (at + len) float; span = span_at at len }) → MayBeValue place
        → Reaches input.now language reader.old place at → MatchOption result (reader.new ≡ reader.old)
        (λ r. PassesQuickly input.now language reader.old (record { kind = event_kind_of r.0; span = span_of r.1 }) reader.new) }
{
    let decimal = decimal_at(input, at, len)?;
    let span = reader.pass_scalar(at, len);
    Some((ParseEventKind::Scalar(ScalarValue::Decimal(decimal)), span))
}
