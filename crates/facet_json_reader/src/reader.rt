//! Reads the next event of a document, token by token, inside the containers that are open.

ghost use Rattle.std.specs.Prelude.{◌≡◌, ◌≤◌, ℕ, true, false, [], List, Some, length, IfOk, IfErr, IfSome, MatchResult, ◌<◌, ◌∷◌, Option};
ghost use Rattle.facet_format.specs.Event.{ContainerKind as SpecContainer, takes_memory};
ghost use Rattle.facet_format.specs.Span.{stop, span_at};
ghost use Rattle.facet_format.specs.Views.{span_of, event_of, event_kind_of, container_of};
ghost use Rattle.facet_json_grammar.specs.Language.{Language as SpecLanguage, rules, strict, strict_rules};
ghost use Rattle.facet_json_grammar.specs.StrictTokens.{tokens_in};
ghost use Rattle.facet_json_token.specs.Gap.{plain};
ghost use Rattle.facet_json_token.specs.Token.{Kind};
ghost use Rattle.facet_json_token.specs.Tokens.{Tokens, ended, next};
ghost use Rattle.facet_json_token.specs.Views.{kind_of};
ghost use Rattle.facet_json_grammar.specs.Future.{after_value, around, behind_root, finished, stage_after, within};
ghost use Rattle.facet_json_grammar.specs.Place.{Place as SpecPlace, expected_at, goes_on};
ghost use Rattle.facet_json_grammar.specs.Reader.{first_reader, past};
ghost use Rattle.facet_json_reader.specs.PlaceViews.{language_of, place_of, expected_text, refused_of, opening_event, closing_event};
ghost use Rattle.facet_json_reader.specs.PlaceViews.{is_string_token, innermost_of};
ghost use Rattle.facet_json_reader.specs.TokenViews.{CanBeRead, IsMeaningless};
ghost use Rattle.facet_json_reader.specs.Views.{stage_of, passed_of, reader_of, with_opened, comes_at, StopsAt, IsNamed, IsTurn, IsValueOf};
ghost use Rattle.facet_json_reader.specs.Views.{IsNameOf, IsColonAt, IsRefusedBefore, Answers, IsUpcoming};
ghost use Rattle.facet_json_reader.specs.Packed.{kind_in};

use crate::materialized::{check_text, materialize, read_other, string_text};
use crate::place::{Language, Place, Turn};
use crate::refusal::{Expected, Name, Refused, Why};
use facet_format::{
    ContainerKind, FieldKey, FieldLocationHint, ParseEvent, ParseEventKind, ScalarValue, Span,
};
use facet_json_token::{SpannedToken, Token};
use std::alloc::{AllocError, Global};
use std::borrow::CowStr;
use std::marker::Model;

/// The kinds of the containers that are open, the innermost first: a bit each, 1 for an object and 0 for an array, in words of
/// 64 bits. So many containers take `(depth + 63) / 64` words, and the innermost word stands in a field of its own.
#[derive(Drop)]
pub struct Contexts {
    /// How many containers are open.
    depth: usize,
    /// The bits of the innermost 1 to 64 of them, as many as leave whole words for the others. The innermost one's is the lowest.
    word: u64,
    /// The words of the others, the outermost first, 64 containers each.
    others: Vec<u64>,
}

impl Model for Contexts {
    ghost use Rattle.std.specs.Prelude.{List, ◌∷◌, reverse};
    ghost use Rattle.facet_format.specs.Event.{ContainerKind as SpecContainer};
    ghost use Rattle.facet_json_reader.specs.Packed.{kinds_in, IsPacked};

    ghost Value = { List SpecContainer };

    ghost view = { λ c. kinds_in c.depth (c.word ∷ reverse c.others.items) };

    ghost invariant = { λ c. IsPacked c.depth c.word c.others.items };
}

impl Contexts {
    /// No container is open.
    pub fn new(alloc: Global) -> Contexts
        ensures { result ≡ [] }
    {
        Contexts {
            depth: 0,
            word: 0,
            others: Vec::new(alloc),
        }
    }

    /// Opens a container within the innermost one.
    #[inline(always)]
    pub fn push(&mut self, kind: ContainerKind) -> Result<(), AllocError>
        ensures { MatchResult result (λ _. self.new ≡ container_of kind ∷ self.old) (λ _. self.new ≡ self.old) }
    {
        let Some(depth) = self.depth.checked_add(1) else {
            return Err(AllocError);
        };
        if self.depth % 64 != 0 {
            self.word = 2 * self.word + bit_of(kind);
        } else {
            if self.depth != 0 {
                self.others.push(self.word)?;
            }
            self.word = bit_of(kind);
        }
        self.depth = depth;
        Ok(())
    }

    /// Closes the innermost container.
    #[inline(always)]
    pub fn pop(&mut self)
        ensures { self.new ≡ around self.old }
    {
        if self.depth == 0 {
            return;
        }
        self.depth -= 1;
        if self.depth % 64 == 0 {
            self.word = self.others.pop().unwrap_or(0);
        } else {
            self.word /= 2;
        }
    }

    /// The kind of the innermost container.
    #[inline(always)]
    pub fn innermost(&self) -> Option<ContainerKind>
        ensures { innermost_of result self.now }
    {
        if self.depth == 0 {
            return None;
        }
        if self.word % 2 == 1 {
            Some(ContainerKind::Object)
        } else {
            Some(ContainerKind::Array)
        }
    }

    /// Copies the containers.
    pub fn copy(&self, alloc: Global) -> Result<Contexts, AllocError>
        ensures { IfOk result (λ c. c ≡ self.now) }
    {
        Ok(Contexts {
            depth: self.depth,
            word: self.word,
            others: Vec::from_slice(alloc, self.others.as_slice())?,
        })
    }
}

/// The bit of a kind.
#[inline(always)]
fn bit_of(kind: ContainerKind) -> u64
    ensures bit { result < 2 }
    ensures kind { kind_in result ≡ container_of kind }
{
    match kind {
        ContainerKind::Object => 1,
        ContainerKind::Array => 0,
    }
}

/// A place within the root, or after its end.
#[derive(Clone, Copy)]
pub enum Stage {
    /// Within the root, or before it.
    Within(Place),
    /// After the root.
    Over,
}

impl Stage {
    /// After the bracket that opens a container.
    #[inline(always)]
    pub(crate) fn inside(kind: ContainerKind) -> Stage
        ensures { stage_of result ≡ stage_after (opening_event kind) [] }
    {
        match kind {
            ContainerKind::Object => Stage::Within(Place::BeforeKey),
            ContainerKind::Array => Stage::Within(Place::BeforeItem),
        }
    }

    /// Where a value has ended that stands in these containers.
    #[inline(always)]
    pub fn after_value(contexts: &Contexts) -> Stage
        ensures { stage_of result ≡ after_value contexts.now }
    {
        match contexts.innermost() {
            Some(ContainerKind::Object) => Stage::Within(Place::AfterMember),
            Some(ContainerKind::Array) => Stage::Within(Place::AfterItem),
            None => Stage::Over,
        }
    }
}

/// An event that is read, but not passed yet.
pub struct Held<'de> {
    /// The event.
    pub event: ParseEvent<'de>,
    /// The last token that it passes: of a key the colon, of another event the token that it comes from.
    pub last: Span,
}

/// By a call, so that a proof about a function that owns one need not take the event apart.
impl Drop for Held<'_> {
    fn drop(self) {
        let Held { event: _, last: _ } = self;
    }
}

impl<'de> Held<'de> {
    /// The event.
    #[inline(always)]
    pub fn into_event(self) -> ParseEvent<'de>
        ensures { result ≡ self.entry.event }
    {
        let Held { event, last: _ } = self;
        event
    }

    /// Copies the event. A text that is made is copied.
    pub fn copy(&self, alloc: Global) -> Result<Held<'de>, AllocError>
        ensures { IfOk result (λ h. passed_of h ≡ passed_of self.now) }
    {
        Ok(Held {
            event: self.event.clone(alloc)?,
            last: self.last,
        })
    }
}

/// Where the tokens go on, in which containers.
#[derive(Drop)]
pub struct Reader {
    /// The last token that was passed: the tokens go on at its end.
    pub last: Span,
    /// The open containers.
    pub contexts: Contexts,
    /// What stands before, within the innermost one.
    pub stage: Stage,
}

impl Reader {
    /// Before the root.
    pub fn new(alloc: Global) -> Reader
        ensures { reader_of result ≡ first_reader }
    {
        Reader {
            last: Span::new(0, 0),
            contexts: Contexts::new(alloc),
            stage: Stage::Within(Place::Root),
        }
    }

    /// Copies the reader: its place, and the containers that are open.
    pub fn copy(&self, alloc: Global) -> Result<Reader, AllocError>
        ensures { IfOk result (λ r. r ≡ self.now) }
    {
        Ok(Reader {
            last: self.last,
            contexts: self.contexts.copy(alloc)?,
            stage: self.stage,
        })
    }

    /// Reads the next event, or answers that the document has ended. It passes nothing. It allocates for a text that is no
    /// slice of the input: where memory runs out, the refusal names the last token that was passed.
    pub fn upcoming<'de>(
        &self,
        alloc: Global,
        input: &'de [u8],
        language: Language,
    ) -> Result<Option<Held<'de>>, Refused>
        requires within { stop (span_of self.now.last) ≤ length input.now }
        ensures { IsUpcoming input.now (language_of language) self.now result }
    {
        let Stage::Within(mut place) = self.stage else {
            end(input, language, self.last)?;
            return Ok(None);
        };
        let mut position = self.last.end();
        loop {
            let token = language.cut(input, position)?;
            match place.turn(&token.token) {
                Turn::Stops => return Err(stopped(input, place, &token)),
                Turn::Passes(next) => {
                    position = token.span.end();
                    place = next.led(language);
                }
                Turn::Opens(kind) => return Ok(Some(event(opening(kind), token.span, token.span))),
                Turn::Closes(kind) => return Ok(Some(event(closing(kind), token.span, token.span))),
                Turn::Scalar => return Ok(Some(scalar(alloc, input, &token, self.last)?)),
                Turn::Names => return Ok(Some(key(alloc, input, language, &token, self.last)?)),
            }
        }
    }

    /// Opens the container that an event opens, before the event is passed. It allocates for that alone; without memory
    /// nothing changes.
    pub fn open(&mut self, held: &Held<'_>) -> Result<(), AllocError>
        ensures last { self.new.last ≡ self.old.last }
        ensures stage { self.new.stage ≡ self.old.stage }
        ensures contexts { MatchResult result
            (λ _. self.new.contexts ≡ with_opened (event_kind_of held.now.event.kind) self.old.contexts)
            (λ _. (self.new.contexts ≡ self.old.contexts) × (takes_memory (event_kind_of held.now.event.kind) ≡ true)) }
    {
        match &held.event.kind {
            ParseEventKind::StructStart(_) => self.contexts.push(ContainerKind::Object),
            ParseEventKind::SequenceStart(_) => self.contexts.push(ContainerKind::Array),
            _ => Ok(()),
        }
    }

    /// Consumes an event whose container, if it opens one, is open already.
    pub fn pass(&mut self, held: &Held<'_>)
        ensures { (stack : List SpecContainer) → self.old.contexts ≡ with_opened (event_kind_of held.now.event.kind) stack
            → reader_of self.new ≡ past (passed_of held.now) (record (reader_of self.old) { stack = stack }) }
    {
        match &held.event.kind {
            ParseEventKind::StructStart(_) => self.stage = Stage::inside(ContainerKind::Object),
            ParseEventKind::SequenceStart(_) => self.stage = Stage::inside(ContainerKind::Array),
            ParseEventKind::StructEnd => self.close(),
            ParseEventKind::SequenceEnd => self.close(),
            ParseEventKind::FieldKey(_) => self.stage = Stage::Within(Place::AfterColon),
            ParseEventKind::Scalar(_) => self.stage = Stage::after_value(&self.contexts),
        }
        self.last = held.last;
    }

    /// Closes the innermost container.
    #[inline(always)]
    pub fn close(&mut self)
        ensures last { self.new.last ≡ self.old.last }
        ensures contexts { self.new.contexts ≡ around self.old.contexts }
        ensures stage { stage_of self.new.stage ≡ after_value (around self.old.contexts) }
    {
        self.contexts.pop();
        self.stage = Stage::after_value(&self.contexts);
    }
}

/// The event of a bracket that opens a container of this kind.
#[inline(always)]
pub(crate) fn opening<'de>(kind: ContainerKind) -> ParseEventKind<'de>
    ensures { event_kind_of result ≡ opening_event kind }
{
    match kind {
        ContainerKind::Object => ParseEventKind::StructStart(kind),
        ContainerKind::Array => ParseEventKind::SequenceStart(kind),
    }
}

/// The event of a bracket that closes a container of this kind.
#[inline(always)]
pub(crate) fn closing<'de>(kind: ContainerKind) -> ParseEventKind<'de>
    ensures { event_kind_of result ≡ closing_event kind }
{
    match kind {
        ContainerKind::Object => ParseEventKind::StructEnd,
        ContainerKind::Array => ParseEventKind::SequenceEnd,
    }
}

/// The event of this kind that comes from these bytes, and passes this token last.
fn event<'de>(kind: ParseEventKind<'de>, span: Span, last: Span) -> Held<'de>
    ensures event { event_of result.event ≡ record { kind = event_kind_of kind.entry; span = span_of span } }
    ensures last { result.last ≡ last }
{
    Held {
        event: ParseEvent::new(kind, span),
        last,
    }
}

/// Whether the input may end behind the root, whose last token takes these bytes: where RFC 8259 alone is read, nothing is left there.
#[inline(always)]
fn end(input: &[u8], language: Language, last: Span) -> Result<(), Refused>
    requires { stop (span_of last) ≤ length input.now }
    ensures { let behind = behind_root (rules (language_of language)) (tokens_in (language_of language) input.now (stop (span_of last)))
        in MatchResult result
        (λ _. behind ≡ finished)
        (λ r. IsRefusedBefore input.now (span_of last) behind (refused_of r)) }
{
    match language {
        Language::Plain | Language::Jsonc => Ok(()),
        Language::Strict => end_strict(input, last),
    }
}

/// Whether the input may end behind the root, where RFC 8259 alone is read.
#[inline(never)]
fn end_strict(input: &[u8], last: Span) -> Result<(), Refused>
    requires { stop (span_of last) ≤ length input.now }
    ensures { let behind = behind_root strict_rules (tokens_in (strict plain) input.now (stop (span_of last)))
        in MatchResult result
        (λ _. behind ≡ finished)
        (λ r. IsRefusedBefore input.now (span_of last) behind (refused_of r)) }
{
    let token = Language::Strict.cut(input, last.end())?;
    match token.token {
        Token::Eof => Ok(()),
        _ => Err(stopped(input, Place::AfterRoot, &token)),
    }
}

/// A scalar's event.
fn scalar<'de>(
    alloc: Global,
    input: &'de [u8],
    token: &SpannedToken,
    last: Span,
) -> Result<Held<'de>, Refused>
    requires { CanBeRead input.now token.now.span token.now.token }
    ensures { (language : SpecLanguage) (stack : List SpecContainer) (place : SpecPlace) (position : ℕ)
        → IsTurn input.now language place position token.now Turn.Scalar
        → Answers input.now (span_of last) (comes_at input.now language stack (within place) position) result }
{
    let value = scalar_value(alloc, input, token, last)?;
    Ok(event(ParseEventKind::Scalar(value), token.span, token.span))
}

/// The event of a key's string and its colon.
fn key<'de>(
    alloc: Global,
    input: &'de [u8],
    language: Language,
    token: &SpannedToken,
    last: Span,
) -> Result<Held<'de>, Refused>
    requires token { CanBeRead input.now token.now.span token.now.token }
    requires string { is_string_token token.now.token ≡ true }
    requires within { stop (span_of token.now.span) ≤ length input.now }
    ensures { (stack : List SpecContainer) (place : SpecPlace) (position : ℕ)
        → IsTurn input.now (language_of language) place position token.now Turn.Names
        → Answers input.now (span_of last) (comes_at input.now (language_of language) stack (within place) position) result }
{
    let name = name_of_key(alloc, input, token)?;
    let mark = colon(input, token.span.end(), language)?;
    let Some(name) = name else {
        return Err(Refused::out_of_memory(last));
    };
    let key = FieldKey::new(name, FieldLocationHint::KeyValue);
    Ok(event(ParseEventKind::FieldKey(key), token.span, mark))
}

/// The value of a scalar.
fn scalar_value<'de>(
    alloc: Global,
    input: &'de [u8],
    token: &SpannedToken,
    last: Span,
) -> Result<ScalarValue<'de>, Refused>
    requires { CanBeRead input.now token.now.span token.now.token }
    ensures { (kind : Kind) → kind_of token.now.token ≡ Some kind
        → IsValueOf input.now kind (span_of token.now.span) (span_of last) result }
{
    let Some(read) = materialize(alloc, input, token)? else {
        return Err(Refused::out_of_memory(last));
    };
    match read.kind.into_scalar(alloc) {
        Ok(value) => Ok(value),
        Err(_) => Err(Refused::out_of_memory(last)),
    }
}

/// The text of a key's string, or `None` where it has one and there was no memory for it.
fn name_of_key<'de>(
    alloc: Global,
    input: &'de [u8],
    token: &SpannedToken,
) -> Result<Option<CowStr<'de>>, Refused>
    requires string { is_string_token token.now.token ≡ true }
    requires token { CanBeRead input.now token.now.span token.now.token }
    ensures { (kind : Kind) → kind_of token.now.token ≡ Some kind → IsNameOf input.now kind (span_of token.now.span) result }
{
    match token.token {
        Token::String {
            start,
            end,
            has_escapes,
        } => string_text(alloc, input, start, end, has_escapes, token.span),
        _ => unreachable!(),
    }
}

/// The bytes of the colon that is the next token.
fn colon(input: &[u8], position: usize, language: Language) -> Result<Span, Refused>
    requires { position ≤ length input.now }
    ensures { IsColonAt input.now (language_of language) position result }
{
    let token = language.cut(input, position)?;
    match token.token {
        Token::Colon => Ok(token.span),
        Token::Eof => Err(Refused {
            why: Why::Token {
                got: Name::Eof,
                expected: Expected::Colon,
            },
            span: token.span,
        }),
        _ => Err(misplaced(input, &token, Expected::Colon)),
    }
}

/// The refusal of a token, or of the end of the input, with which no document goes on at the place.
fn stopped(input: &[u8], place: Place, token: &SpannedToken) -> Refused
    requires { CanBeRead input.now token.now.span token.now.token }
    ensures end { token.now.token ≡ Token.Eof → span_of token.now.span ≡ span_at (length input.now) 0
        → StopsAt input.now (place_of place) ended (refused_of result) }
    ensures token { (kind : Kind) (rest : Tokens) → kind_of token.now.token ≡ Some kind
        → goes_on (place_of place) kind ≡ false
        → StopsAt input.now (place_of place) (next (record { kind = kind; span = span_of token.now.span }) rest) (refused_of result) }
{
    match token.token {
        Token::Eof => Refused {
            why: place.why_at_end(),
            span: token.span,
        },
        _ => misplaced(input, token, place.expected(&token.token)),
    }
}

/// The refusal of a token at a place where something else is expected. A string or number without a meaning has one of its
/// own.
fn misplaced(input: &[u8], token: &SpannedToken, expected: Expected) -> Refused
    requires { CanBeRead input.now token.now.span token.now.token }
    ensures { (kind : Kind) (place : SpecPlace) (rest : Tokens) → kind_of token.now.token ≡ Some kind
        → expected_text expected ≡ expected_at place kind → goes_on place kind ≡ false
        → StopsAt input.now place (next (record { kind = kind; span = span_of token.now.span }) rest) (refused_of result) }
{
    match name(input, token) {
        Ok(got) => Refused {
            why: Why::Token { got, expected },
            span: token.span,
        },
        Err(refused) => refused,
    }
}

/// How a token is called in a refusal. The text of a string is checked, and not decoded.
fn name(input: &[u8], token: &SpannedToken) -> Result<Name, Refused>
    requires { CanBeRead input.now token.now.span token.now.token }
    ensures named { IfOk result (λ name. IfSome (kind_of token.now.token) (λ k. IsNamed input.now k name)) }
    ensures refused { IfErr result (λ r. IfSome (kind_of token.now.token)
        (λ k. IsMeaningless input.now k (span_of token.now.span) (refused_of r))) }
{
    match token.token {
        Token::String {
            start,
            end,
            has_escapes,
        } => {
            check_text(input, start, end, has_escapes, token.span)?;
            Ok(Name::String)
        }
        _ => Ok(read_other(input, token)?.name()),
    }
}
