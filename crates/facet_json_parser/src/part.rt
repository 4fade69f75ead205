//! Finds what stands first where a reader goes on, by its first token.

ghost use Rattle.std.specs.Prelude.{◌≡◌, ◌≤◌, ◌<◌, ◌^◌, ℕ, true, false, List, Some, length, codes, IfOk, IfErr, IfSome};
ghost use Rattle.facet_format.specs.Complaint.{refusal_at, unexpected_eof};
ghost use Rattle.facet_format.specs.Event.{ContainerKind as SpecContainer};
ghost use Rattle.facet_format.specs.Part.{nothing};
ghost use Rattle.facet_format.specs.Span.{stop, span_at};
ghost use Rattle.facet_format.specs.Views.{span_of};
ghost use Rattle.facet_json_token.specs.Token.{Kind};
ghost use Rattle.facet_json_token.specs.Tokens.{Tokens, ended, next};
ghost use Rattle.facet_json_token.specs.Views.{kind_of};
ghost use Rattle.facet_json_grammar.specs.Node.{is_scalar};
ghost use Rattle.facet_json_grammar.specs.Place.{Place as SpecPlace, expected_at, goes_on};
ghost use Rattle.facet_json_grammar.specs.Unread.{unread_name, IsStuckUnread, PartAt};
ghost use Rattle.facet_json_reader.specs.PlaceViews.{language_of, place_of, expected_text, name_text, refused_of};
ghost use Rattle.facet_json_reader.specs.Views.{reader_of};
ghost use Rattle.facet_json_parser.specs.PartViews.{first_span_of, IsFirst};

use facet_format::Span;
use facet_json_reader::{Expected, Language, Name, Place, Reader, Refused, Stage, Turn, Why};
use facet_json_token::quick::{gap_end, token_in_sight};
use facet_json_token::{SpannedToken, Token, cut};

/// What stands first, by its first token.
#[derive(Drop)]
pub enum Part {
    /// A value, which begins with this token.
    Value(SpannedToken),
    /// A key, whose string takes these bytes.
    Key(Span),
    /// A closing bracket, which takes these bytes.
    Closing(Span),
}

/// Finds what stands first where the reader goes on, after separators. Nothing is decoded: where the tokens don't go on with
/// a document, a number is refused without its value. After the root no value stands. The reader's containers are not looked
/// at: what is found is right in whatever containers.
pub fn find(reader: &Reader, input: &[u8], language: Language) -> Result<Part, Refused>
    requires { stop (span_of reader.now.last) ≤ length input.now }
    ensures found { (stack : List SpecContainer)
        → IfOk result (IsFirst input.now (language_of language) (record (reader_of reader.now) { stack = stack })) }
    ensures nothing { (stack : List SpecContainer)
        → IfErr result (λ r. PartAt input.now (language_of language) (record (reader_of reader.now) { stack = stack })
        (nothing (refused_of r))) }
    ensures within { IfOk result (λ part. stop (first_span_of part) ≤ length input.now) }
{
    let Stage::Within(mut place) = reader.stage else {
        return Err(no_value(reader.last));
    };
    let mode = language.mode();
    let mut position = reader.last.end();
    loop {
        let token = cut(input, position, mode)?;
        match place.turn(&token.token) {
            Turn::Stops => return Err(stopped(place, &token)),
            Turn::Passes(next) => {
                position = token.span.end();
                place = next.led(language);
            }
            Turn::Opens(_) => return Ok(Part::Value(token)),
            Turn::Closes(_) => return Ok(Part::Closing(token.span)),
            Turn::Scalar => return Ok(Part::Value(token)),
            Turn::Names => return Ok(Part::Key(token.span)),
        }
    }
}

/// The scalar that stands first, where no separator is before it and a look at its bytes tells it whole.
#[inline(always)]
pub fn scalar_in_sight(reader: &Reader, input: &[u8], language: Language) -> Option<SpannedToken>
    requires { stop (span_of reader.now.last) ≤ length input.now }
    ensures found { (stack : List SpecContainer) → IfSome result
        (λ t. IsFirst input.now (language_of language) (record (reader_of reader.now) { stack = stack }) (Part.Value t)) }
    ensures scalar { (kind : Kind) → IfSome result (λ t. kind_of t.token ≡ Some kind → is_scalar kind ≡ true) }
    ensures within { IfSome result (λ t. stop (span_of t.span) ≤ length input.now) }
{
    let Stage::Within(place) = reader.stage else {
        return None;
    };
    let at = gap_end(input, reader.last.end(), language.mode());
    let token = token_in_sight(input, at)?;
    match place.turn(&token.token) {
        Turn::Scalar => Some(token),
        _ => None,
    }
}

/// The refusal after the root, whose last token takes these bytes.
fn no_value(last: Span) -> Refused
    ensures { stop (span_of last) < 2 ^ 64
        → refused_of result ≡ refusal_at (unexpected_eof (codes "value")) (span_at (stop (span_of last)) 0) }
{
    Refused {
        why: Why::End(Expected::Value),
        span: Span::new(last.end(), 0),
    }
}

/// The refusal of a token, or of the end of the input, with which no document goes on at the place.
fn stopped(place: Place, token: &SpannedToken) -> Refused
    ensures end { (buffer : List ℕ) → token.now.token ≡ Token.Eof → span_of token.now.span ≡ span_at (length buffer) 0
        → IsStuckUnread buffer (place_of place) ended (refused_of result) }
    ensures token { (buffer : List ℕ) (kind : Kind) (rest : Tokens) → kind_of token.now.token ≡ Some kind
        → goes_on (place_of place) kind ≡ false
        → IsStuckUnread buffer (place_of place) (next (record { kind = kind; span = span_of token.now.span }) rest) (refused_of result) }
{
    match token.token {
        Token::Eof => Refused {
            why: place.why_at_end(),
            span: token.span,
        },
        _ => misplaced(token, place.expected(&token.token)),
    }
}

/// The refusal of a token at a place where something else is expected.
pub fn misplaced(token: &SpannedToken, expected: Expected) -> Refused
    ensures { (buffer : List ℕ) (kind : Kind) (place : SpecPlace) (rest : Tokens) → kind_of token.now.token ≡ Some kind
        → expected_text expected ≡ expected_at place kind → goes_on place kind ≡ false
        → IsStuckUnread buffer place (next (record { kind = kind; span = span_of token.now.span }) rest) (refused_of result) }
{
    Refused {
        why: Why::Token {
            got: name(&token.token),
            expected,
        },
        span: token.span,
    }
}

/// How a token is called whose text isn't read.
fn name(token: &Token) -> Name
    ensures { (kind : Kind) → kind_of token.now ≡ Some kind → name_text result ≡ unread_name kind }
{
    match token {
        Token::ObjectStart => Name::ObjectStart,
        Token::ObjectEnd => Name::ObjectEnd,
        Token::ArrayStart => Name::ArrayStart,
        Token::ArrayEnd => Name::ArrayEnd,
        Token::Colon => Name::Colon,
        Token::Comma => Name::Comma,
        Token::Null => Name::Null,
        Token::True => Name::True,
        Token::False => Name::False,
        Token::String { .. } => Name::String,
        Token::Number { .. } => Name::Number,
        _ => Name::Eof,
    }
}
