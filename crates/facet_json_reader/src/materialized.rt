//! Tokens with what they stand for.

ghost use Rattle.std.specs.Prelude.{◌≡◌, true, false, List, ℕ, Some, IsSome, IfOk, IfErr, IfSome, MatchOption, MatchResult, string_bytes};
ghost use Rattle.facet_format.specs.Event.{is_made};
ghost use Rattle.facet_format.specs.HeldText.{text_of};
ghost use Rattle.facet_format.specs.Views.{span_of, scalar_value_of};
ghost use Rattle.facet_json_token.specs.NumberViews.{number_of, is_made_number};
ghost use Rattle.facet_json_token.specs.Views.{kind_of};
ghost use Rattle.facet_json_token.specs.Token.{Kind, string};
ghost use Rattle.facet_json_grammar.specs.Meaning.{meaning_of};
ghost use Rattle.facet_json_grammar.specs.Place.{kind_name};
ghost use Rattle.facet_json_grammar.specs.Walk.{scalar_of};
ghost use Rattle.facet_json_reader.specs.PlaceViews.{refused_of, name_text, is_string_token};
ghost use Rattle.facet_json_reader.specs.TokenViews.{number_in, holds_made_text, CanBeRead, IsContent, IsReadAs, IsReadOrUnmade, IsTextOf};
ghost use Rattle.facet_json_reader.specs.TokenViews.{IsUnmade, IsMeaningless};

use crate::refusal::{Name, Refused, Why};
use facet_format::{Decimal, ScalarValue, Span};
use facet_json_token::{
    ParsedNumber, SpannedToken, Token, check_content, decode_string_owned, measured_number,
    no_number, plain_text,
};
use std::alloc::{AllocError, Global};
use std::borrow::CowStr;

/// What a token stands for.
#[derive(Debug, Drop)]
pub enum TokenKind<'a> {
    /// `{`
    ObjectStart,
    /// `}`
    ObjectEnd,
    /// `[`
    ArrayStart,
    /// `]`
    ArrayEnd,
    /// `:`
    Colon,
    /// `,`
    Comma,
    /// `null`
    Null,
    /// `true`
    True,
    /// `false`
    False,
    /// A string's text: a slice of the input where no escape stands in it.
    String(CowStr<'a>),
    /// Digits alone, below 2^64.
    U64(u64),
    /// A minus and digits, from -2^63 on.
    I64(i64),
    /// Digits alone, from 2^64 on.
    U128(u128),
    /// A minus and digits, below -2^63.
    I128(i128),
    /// A number with a fraction or an exponent.
    Decimal(Decimal<'a>),
    /// The end of the input.
    Eof,
}

/// A token with what it stands for, and its bytes.
#[derive(Debug, Drop)]
pub struct MaterializedToken<'a> {
    /// What it stands for.
    pub kind: TokenKind<'a>,
    /// Its bytes.
    pub span: Span,
}

impl<'a> From<ParsedNumber<'a>> for TokenKind<'a> {
    ghost from_gives = { λ number kind. (number_in kind ≡ Some (number_of number)) × (holds_made_text kind ≡ is_made_number number) };

    #[inline(always)]
    fn from(number: ParsedNumber<'a>) -> Self {
        match number {
            ParsedNumber::U64(n) => TokenKind::U64(n),
            ParsedNumber::I64(n) => TokenKind::I64(n),
            ParsedNumber::U128(n) => TokenKind::U128(n),
            ParsedNumber::I128(n) => TokenKind::I128(n),
            ParsedNumber::Decimal(decimal) => TokenKind::Decimal(decimal),
        }
    }
}

impl<'a> TokenKind<'a> {
    /// How the kind is called in a refusal.
    pub(crate) fn name(&self) -> Name
        ensures { (buffer : List ℕ) (kind : Kind) → IsReadAs buffer kind self.now → name_text result ≡ kind_name buffer kind }
    {
        match self {
            TokenKind::ObjectStart => Name::ObjectStart,
            TokenKind::ObjectEnd => Name::ObjectEnd,
            TokenKind::ArrayStart => Name::ArrayStart,
            TokenKind::ArrayEnd => Name::ArrayEnd,
            TokenKind::Colon => Name::Colon,
            TokenKind::Comma => Name::Comma,
            TokenKind::Null => Name::Null,
            TokenKind::True => Name::True,
            TokenKind::False => Name::False,
            TokenKind::String(_) => Name::String,
            TokenKind::U64(_) => Name::U64,
            TokenKind::I64(_) => Name::I64,
            TokenKind::U128(_) => Name::U128,
            TokenKind::I128(_) => Name::I128,
            TokenKind::Decimal(_) => Name::Decimal,
            TokenKind::Eof => Name::Eof,
        }
    }

    /// The scalar. Whole numbers past 64 bits become the text of their digits, which alone allocates; what is no scalar
    /// becomes null.
    pub(crate) fn into_scalar(self, alloc: Global) -> Result<ScalarValue<'a>, AllocError>
        ensures { (buffer : List ℕ) (kind : Kind) → IsReadAs buffer kind self.entry → MatchResult result
            (λ v. scalar_value_of v ≡ scalar_of kind (meaning_of buffer kind))
            (λ _. is_made (scalar_of kind (meaning_of buffer kind)) ≡ true) }
    {
        match self {
            TokenKind::True => Ok(ScalarValue::Bool(true)),
            TokenKind::False => Ok(ScalarValue::Bool(false)),
            TokenKind::String(text) => Ok(ScalarValue::Str(text)),
            TokenKind::U64(n) => Ok(ScalarValue::U64(n)),
            TokenKind::I64(n) => Ok(ScalarValue::I64(n)),
            TokenKind::U128(n) => Ok(ScalarValue::Str(CowStr::Owned(digits(alloc, n)?))),
            TokenKind::I128(n) => Ok(ScalarValue::Str(CowStr::Owned(digits(alloc, n)?))),
            TokenKind::Decimal(decimal) => Ok(ScalarValue::Decimal(decimal)),
            _ => Ok(ScalarValue::Null),
        }
    }
}

/// The decimal digits of a whole number, after a minus where it is negative.
fn digits<N: itoa::Integer>(alloc: Global, n: N) -> Result<String, AllocError>
    ensures text { IfOk result (λ s. string_bytes s ≡ N.text n) }
{
    let mut buffer = itoa::Buffer::new();
    String::from_str(alloc, buffer.format(n))
}

/// A token of the buffer with what it stands for, or `None` where it is a string with an escape for whose text there was
/// no memory. Nothing else allocates.
#[inline(always)]
pub(crate) fn materialize<'a>(
    alloc: Global,
    buffer: &'a [u8],
    token: &SpannedToken,
) -> Result<Option<MaterializedToken<'a>>, Refused>
    requires { CanBeRead buffer.now token.now.span token.now.token }
    ensures read { IfOk result (λ o. IfSome (kind_of token.now.token) (λ k. IsReadOrUnmade buffer.now k o)) }
    ensures refused { IfErr result (λ r. IfSome (kind_of token.now.token)
        (λ k. IsMeaningless buffer.now k (span_of token.now.span) (refused_of r))) }
{
    match read_kind(alloc, buffer, token)? {
        Some(kind) => Ok(Some(MaterializedToken {
            kind,
            span: token.span,
        })),
        None => Ok(None),
    }
}

/// What a token of the buffer stands for, or `None` where there was no memory for its text.
#[inline(always)]
fn read_kind<'a>(
    alloc: Global,
    buffer: &'a [u8],
    token: &SpannedToken,
) -> Result<Option<TokenKind<'a>>, Refused>
    requires { CanBeRead buffer.now token.now.span token.now.token }
    ensures read { IfOk result (λ o. IfSome (kind_of token.now.token)
        (λ k. MatchOption o (IsUnmade buffer.now k) (λ kind. IsReadAs buffer.now k kind))) }
    ensures refused { IfErr result (λ r. IfSome (kind_of token.now.token)
        (λ k. IsMeaningless buffer.now k (span_of token.now.span) (refused_of r))) }
{
    match token.token {
        Token::String {
            start,
            end,
            has_escapes,
        } => match string_text(alloc, buffer, start, end, has_escapes, token.span)? {
            Some(text) => Ok(Some(TokenKind::String(text))),
            None => Ok(None),
        },
        _ => Ok(Some(read_other(buffer, token)?)),
    }
}

/// What a token of the buffer that is no string stands for: nothing allocates.
#[inline(always)]
pub(crate) fn read_other<'a>(
    buffer: &'a [u8],
    token: &SpannedToken,
) -> Result<TokenKind<'a>, Refused>
    requires token { CanBeRead buffer.now token.now.span token.now.token }
    requires no_string { is_string_token token.now.token ≡ false }
    ensures read { IfOk result (λ kind. IfSome (kind_of token.now.token) (λ k. IsReadAs buffer.now k kind)) }
    ensures refused { IfErr result (λ r. IfSome (kind_of token.now.token)
        (λ k. IsMeaningless buffer.now k (span_of token.now.span) (refused_of r))) }
{
    match token.token {
        Token::ObjectStart => Ok(TokenKind::ObjectStart),
        Token::ObjectEnd => Ok(TokenKind::ObjectEnd),
        Token::ArrayStart => Ok(TokenKind::ArrayStart),
        Token::ArrayEnd => Ok(TokenKind::ArrayEnd),
        Token::Colon => Ok(TokenKind::Colon),
        Token::Comma => Ok(TokenKind::Comma),
        Token::Null => Ok(TokenKind::Null),
        Token::True => Ok(TokenKind::True),
        Token::False => Ok(TokenKind::False),
        Token::Number { start, end, hint } => match measured_number(&buffer[start..end], hint) {
            Some(number) => Ok(TokenKind::from(number)),
            None => Err(Refused::from(no_number(start, end))),
        },
        Token::Eof => Ok(TokenKind::Eof),
        Token::String { .. } | Token::NeedMore { .. } => unreachable!(),
    }
}

/// Whether the string whose content is `buffer[start..end]` has a text, which is not decoded. It is refused as in `string_text`.
pub(crate) fn check_text(
    buffer: &[u8],
    start: usize,
    end: usize,
    has_escapes: bool,
    span: Span,
) -> Result<(), Refused>
    requires { IsContent buffer.now span start end has_escapes }
    ensures text { IfOk result (λ _. IsSome (meaning_of buffer.now (string start end has_escapes))) }
    ensures refused { IfErr result (λ r. IsMeaningless buffer.now (string start end has_escapes) (span_of span) (refused_of r)) }
{
    if has_escapes {
        check_content(buffer, start, end)?;
        return Ok(());
    }
    match plain_text(buffer, start, end) {
        Some(_) => Ok(()),
        None => Err(Refused {
            why: Why::InvalidUtf8,
            span,
        }),
    }
}

/// The text of a string (RFC 8259, section 7) whose content is `buffer[start..end]`, or `None` where it has one and there
/// was no memory for it. Content without an escape that is not UTF-8 is refused over the whole token, `span`.
#[inline(always)]
pub(crate) fn string_text<'a>(
    alloc: Global,
    buffer: &'a [u8],
    start: usize,
    end: usize,
    has_escapes: bool,
    span: Span,
) -> Result<Option<CowStr<'a>>, Refused>
    requires { IsContent buffer.now span start end has_escapes }
    ensures text { IfOk result (λ o. MatchOption o (IsUnmade buffer.now (string start end has_escapes))
        (λ s. IsTextOf buffer.now (string start end has_escapes) (text_of s))) }
    ensures refused { IfErr result (λ r. IsMeaningless buffer.now (string start end has_escapes) (span_of span) (refused_of r)) }
{
    if has_escapes {
        return escaped_text(alloc, buffer, start, end, span);
    }
    match plain_text(buffer, start, end) {
        Some(text) => Ok(Some(CowStr::Borrowed(text))),
        None => Err(Refused {
            why: Why::InvalidUtf8,
            span,
        }),
    }
}

/// The text of a string in whose content a backslash stands, or `None` where it has one and there was no memory for it.
fn escaped_text<'a>(
    alloc: Global,
    buffer: &'a [u8],
    start: usize,
    end: usize,
    span: Span,
) -> Result<Option<CowStr<'a>>, Refused>
    requires { IsContent buffer.now span start end true }
    ensures text { IfOk result (λ o. MatchOption o (IsUnmade buffer.now (string start end true))
        (λ s. IsTextOf buffer.now (string start end true) (text_of s))) }
    ensures refused { IfErr result (λ r. IsMeaningless buffer.now (string start end true) (span_of span) (refused_of r)) }
{
    match decode_string_owned(alloc, buffer, start, end) {
        Ok(text) => Ok(Some(CowStr::Owned(text))),
        Err(_) => {
            check_content(buffer, start, end)?;
            Ok(None)
        }
    }
}
