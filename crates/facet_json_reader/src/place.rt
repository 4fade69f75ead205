//! Which token may stand at a place of a document, and what follows from it, in the language that a parser reads.

ghost use Rattle.std.specs.Prelude.{◌≡◌, true, Some, ◌≤◌, length, IfOk, IfErr, IfSome, IsSome};
ghost use Rattle.facet_json_token.specs.Token.{Kind, number, string};
ghost use Rattle.facet_json_token.specs.Views.{kind_of, mode_of, cut_of};
ghost use Rattle.facet_json_grammar.specs.Place.{root, after_colon, before_key, after_member, before_item, after_item, next_key, next_item};
ghost use Rattle.facet_json_grammar.specs.Place.{complaint_at_end, expected_at, led};
ghost use Rattle.facet_json_grammar.specs.Language.{rules, lenient, strict, gaps};
ghost use Rattle.facet_json_reader.specs.Inner.Sorts.{kind_by, sort_by};
ghost use Rattle.facet_json_reader.specs.PlaceViews.{language_of, place_of, turn_of, turn_by, expected_text, why_of, is_string_token};
ghost use Rattle.facet_json_reader.specs.PlaceViews.{HasSlices, IsJudged};
ghost use Rattle.facet_format.specs.Span.{span_at};
ghost use Rattle.facet_format.specs.Views.{span_of};
ghost use Rattle.facet_json_token.specs.Gap.{plain};
ghost use Rattle.facet_json_grammar.specs.StrictTokens.{cut_in};

use crate::refusal::{Expected, Why};
use facet_format::ContainerKind;
use facet_json_token::{
    CutResult, Fault, Mode, SpannedToken, Token, check_number_strict, check_string_strict, cut,
};

/// Which texts are documents.
#[derive(Debug, Clone, Copy, PartialEq, Eq)]
pub enum Language {
    /// RFC 8259 with lenient readings, such as a trailing comma.
    Plain,
    /// As `Plain`, and comments are allowed wherever white space is.
    Jsonc,
    /// RFC 8259 alone, from the input's start to its end.
    Strict,
}

impl Language {
    /// What may stand between tokens.
    #[inline(always)]
    pub fn mode(self) -> Mode
        ensures { mode_of result ≡ gaps (language_of self) }
    {
        match self {
            Language::Plain | Language::Strict => Mode::Plain,
            Language::Jsonc => Mode::Jsonc,
        }
    }

    /// What stands at `position`: where RFC 8259 alone is read, a string or a number that it has not is refused.
    #[inline(always)]
    pub(crate) fn cut(self, buffer: &[u8], position: usize) -> CutResult
        requires { position ≤ length buffer.now }
        ensures answer { cut_of result ≡ Some (cut_in (language_of self) buffer.now position) }
        ensures end { IfOk result (λ t. t.token ≡ Token.Eof → span_of t.span ≡ span_at (length buffer.now) 0) }
    {
        match self {
            Language::Plain | Language::Jsonc => cut(buffer, position, self.mode()),
            Language::Strict => cut_strict(buffer, position),
        }
    }
}

impl From<Mode> for Language {
    ghost from_gives = { λ mode language. language_of language ≡ lenient (mode_of mode) };

    /// The lenient language with these gaps between tokens.
    #[inline(always)]
    fn from(mode: Mode) -> Self {
        match mode {
            Mode::Plain => Language::Plain,
            Mode::Jsonc => Language::Jsonc,
        }
    }
}

/// What stands at `position`, where strings and numbers are those of RFC 8259 alone.
#[inline(never)]
fn cut_strict(buffer: &[u8], position: usize) -> CutResult
    requires { position ≤ length buffer.now }
    ensures answer { cut_of result ≡ Some (cut_in (strict plain) buffer.now position) }
    ensures end { IfOk result (λ t. t.token ≡ Token.Eof → span_of t.span ≡ span_at (length buffer.now) 0) }
{
    let token = cut(buffer, position, Mode::Plain)?;
    match judge(buffer, &token) {
        Ok(()) => Ok(token),
        Err(fault) => Err(fault),
    }
}

/// Whether RFC 8259 has a token, as far as it is told before it is decoded.
fn judge(buffer: &[u8], token: &SpannedToken) -> Result<(), Fault>
    requires { HasSlices buffer.now token.now.span token.now.token }
    ensures judged { IfSome (kind_of token.now.token)
        (λ k. IsJudged buffer.now (record { kind = k; span = span_of token.now.span }) result) }
    ensures some { IfErr result (λ _. IsSome (kind_of token.now.token)) }
{
    match token.token {
        Token::String { start, end, .. } => check_string_strict(buffer, start, end),
        Token::Number { start, end, .. } => check_number_strict(buffer, start, end),
        _ => Ok(()),
    }
}

/// Where no value has begun yet, or what stands before, within the innermost open container. After a key's string
/// is no place of its own: its colon is taken with it.
#[derive(Clone, Copy)]
pub enum Place {
    /// Before the root.
    Root,
    /// After `{`, or after a comma in an object.
    BeforeKey,
    /// After a comma in an object, where none may trail.
    NextKey,
    /// After a key's colon.
    AfterColon,
    /// After `[`, or after a comma in an array.
    BeforeItem,
    /// After a comma in an array, where none may trail.
    NextItem,
    /// After a member's value.
    AfterMember,
    /// After an item.
    AfterItem,
    /// Behind the root, where nothing may stand.
    AfterRoot,
}

/// What follows from a token at a place.
#[derive(Clone, Copy)]
pub enum Turn {
    /// No document goes on with it.
    Stops,
    /// It is a separator, after which this place is.
    Passes(Place),
    /// It opens a container.
    Opens(ContainerKind),
    /// It closes the innermost container, one of this kind.
    Closes(ContainerKind),
    /// It is a scalar.
    Scalar,
    /// It is a key, whose colon has to follow.
    Names,
}

impl Place {
    /// The place that a separator leads to in this language, which leads to this one in a lenient document.
    #[inline(always)]
    pub fn led(self, language: Language) -> Place
        ensures { place_of result ≡ led (rules (language_of language)) (place_of self) }
    {
        match language {
            Language::Plain | Language::Jsonc => self,
            Language::Strict => match self {
                Place::BeforeKey => Place::NextKey,
                Place::BeforeItem => Place::NextItem,
                other => other,
            },
        }
    }

    /// What is wrong where the input ends at this place.
    pub fn why_at_end(self) -> Why
        ensures { why_of result ≡ complaint_at_end (place_of self) }
    {
        Why::End(match self {
            Place::Root | Place::AfterColon | Place::NextItem => Expected::Value,
            Place::BeforeKey => Expected::FieldNameOrEnd,
            Place::AfterMember => Expected::CommaOrObjectEnd,
            Place::BeforeItem => Expected::ValueOrArrayEnd,
            Place::AfterItem => Expected::CommaOrArrayEnd,
            Place::NextKey => Expected::FieldName,
            Place::AfterRoot => Expected::EndOfInput,
        })
    }

    /// What is expected at this place, where a token stands with which the document doesn't go on.
    pub fn expected(self, token: &Token) -> Expected
        ensures { (kind : Kind) → kind_of token.now ≡ Some kind → expected_text result ≡ expected_at (place_of self) kind }
    {
        match self {
            Place::Root | Place::AfterColon | Place::NextItem => Expected::Value,
            Place::BeforeKey => Expected::FieldNameOrEnd,
            Place::AfterMember => Expected::CommaOrObjectEnd,
            Place::BeforeItem => expected_item(token),
            Place::AfterItem => Expected::CommaOrArrayEnd,
            Place::NextKey => Expected::FieldName,
            Place::AfterRoot => Expected::EndOfInput,
        }
    }

    /// What follows from a token at this place.
    pub fn turn(self, token: &Token) -> Turn
        ensures turn { turn_of result ≡ turn_by (place_of self) (kind_of token.now) }
        ensures names { result ≡ Turn.Names → is_string_token token.now ≡ true }
    {
        self.turn_by(sort_of(token))
    }

    /// What follows from a token of this sort at this place.
    #[inline(always)]
    pub(crate) fn turn_by(self, sort: Sort) -> Turn
        ensures turn { turn_of result ≡ turn_by (place_of self) (kind_by sort) }
        ensures names { result ≡ Turn.Names → sort ≡ Sort.Text }
    {
        match self {
            Place::Root | Place::AfterColon | Place::NextItem => value_turn(sort),
            Place::BeforeKey => match sort {
                Sort::ObjectEnd => Turn::Closes(ContainerKind::Object),
                Sort::Text => Turn::Names,
                _ => Turn::Stops,
            },
            Place::NextKey => match sort {
                Sort::Text => Turn::Names,
                _ => Turn::Stops,
            },
            Place::AfterMember => match sort {
                Sort::Comma => Turn::Passes(Place::BeforeKey),
                Sort::ObjectEnd => Turn::Closes(ContainerKind::Object),
                _ => Turn::Stops,
            },
            Place::BeforeItem => match sort {
                Sort::ArrayEnd => Turn::Closes(ContainerKind::Array),
                sort => value_turn(sort),
            },
            Place::AfterItem => match sort {
                Sort::Comma => Turn::Passes(Place::BeforeItem),
                Sort::ArrayEnd => Turn::Closes(ContainerKind::Array),
                _ => Turn::Stops,
            },
            Place::AfterRoot => Turn::Stops,
        }
    }
}

/// What a token is to a place, as its first byte tells.
#[derive(Clone, Copy)]
pub enum Sort {
    /// `{`
    ObjectStart,
    /// `}`
    ObjectEnd,
    /// `[`
    ArrayStart,
    /// `]`
    ArrayEnd,
    /// `,`
    Comma,
    /// A string.
    Text,
    /// A number or a literal.
    Scalar,
    /// A colon, or the end of the input.
    Other,
}

/// The sort of a token.
#[inline(always)]
fn sort_of(token: &Token) -> Sort
    ensures sort { result ≡ sort_by (kind_of token.now) }
    ensures text { result ≡ Sort.Text → is_string_token token.now ≡ true }
{
    match token {
        Token::ObjectStart => Sort::ObjectStart,
        Token::ObjectEnd => Sort::ObjectEnd,
        Token::ArrayStart => Sort::ArrayStart,
        Token::ArrayEnd => Sort::ArrayEnd,
        Token::Comma => Sort::Comma,
        Token::String { .. } => Sort::Text,
        Token::Null | Token::True | Token::False | Token::Number { .. } => Sort::Scalar,
        Token::Colon | Token::Eof | Token::NeedMore { .. } => Sort::Other,
    }
}

/// What is expected before an item, where this token stands.
fn expected_item(token: &Token) -> Expected
    ensures { (kind : Kind) → kind_of token.now ≡ Some kind → expected_text result ≡ expected_at before_item kind }
{
    match token {
        Token::Comma => Expected::ValueOrArrayEnd,
        Token::Colon => Expected::ValueOrArrayEnd,
        _ => Expected::Value,
    }
}

/// The turn of a token of this sort where a value may stand.
#[inline(always)]
fn value_turn(sort: Sort) -> Turn
    ensures root { turn_of result ≡ turn_by root (kind_by sort) }
    ensures colon { turn_of result ≡ turn_by after_colon (kind_by sort) }
    ensures item { turn_of result ≡ turn_by next_item (kind_by sort) }
    ensures names { result ≡ Turn.Names → sort ≡ Sort.Text }
{
    match sort {
        Sort::ObjectStart => Turn::Opens(ContainerKind::Object),
        Sort::ArrayStart => Turn::Opens(ContainerKind::Array),
        Sort::Text | Sort::Scalar => Turn::Scalar,
        _ => Turn::Stops,
    }
}
