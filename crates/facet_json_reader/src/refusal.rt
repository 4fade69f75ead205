//! Refusals as a parser keeps them: values of their own, that become texts when they are answered.

ghost use Rattle.std.specs.Prelude.{◌≡◌};
ghost use Rattle.facet_format.specs.Complaint.{refusal_at, save_limit};
ghost use Rattle.facet_format.specs.Cursor.{no_memory_at};
ghost use Rattle.facet_format.specs.Views.{complaint_of, span_of, parse_refusal};
ghost use Rattle.facet_json_reader.specs.PlaceViews.{expected_text, name_text, no_raw_text, why_of, refused_of};
ghost use Rattle.facet_json_token.specs.Views.{told_complaint, told_refusal};

use facet_format::{DeserializeErrorKind, ParseError, Span};
use facet_json_token::{Fault, FaultKind, Inside};

/// What is expected where a document doesn't go on.
#[derive(Clone, Copy)]
pub enum Expected {
    /// A value.
    Value,
    /// A key, or the end of an object.
    FieldNameOrEnd,
    /// The colon after a key.
    Colon,
    /// A comma, or the end of an object.
    CommaOrObjectEnd,
    /// A value, or the end of an array.
    ValueOrArrayEnd,
    /// A comma, or the end of an array.
    CommaOrArrayEnd,
    /// The end of an object.
    ObjectEnd,
    /// The end of an array.
    ArrayEnd,
    /// A key.
    FieldName,
    /// The end of the input.
    EndOfInput,
}

impl Expected {
    /// The text that a refusal says.
    fn text(self) -> &'static str
        ensures { result.now ≡ expected_text self }
    {
        match self {
            Expected::Value => "value",
            Expected::FieldNameOrEnd => "field name or '}'",
            Expected::Colon => "':'",
            Expected::CommaOrObjectEnd => "',' or '}'",
            Expected::ValueOrArrayEnd => "value or ']'",
            Expected::CommaOrArrayEnd => "',' or ']'",
            Expected::ObjectEnd => "'}'",
            Expected::ArrayEnd => "']'",
            Expected::FieldName => "field name",
            Expected::EndOfInput => "end of input",
        }
    }
}

/// How a token, or the end of the input, is called in a refusal.
#[derive(Clone, Copy)]
pub enum Name {
    /// `{`
    ObjectStart,
    /// `}`
    ObjectEnd,
    /// `[`
    ArrayStart,
    /// `]`
    ArrayEnd,
    /// `:`
    Colon,
    /// `,`
    Comma,
    /// `null`
    Null,
    /// `true`
    True,
    /// `false`
    False,
    /// A string.
    String,
    /// A whole number below 2^64.
    U64,
    /// A whole number with a minus, from -2^63 on.
    I64,
    /// A whole number from 2^64 on.
    U128,
    /// A whole number below -2^63.
    I128,
    /// A number with a fraction or an exponent.
    Decimal,
    /// A number whose value is not read.
    Number,
    /// The end of the input.
    Eof,
    /// `}`, where nothing but brackets is looked at.
    ClosingBrace,
    /// `]`, where nothing but brackets is looked at.
    ClosingBracket,
}

impl Name {
    /// The text that a refusal says.
    fn text(self) -> &'static str
        ensures { result.now ≡ name_text self }
    {
        match self {
            Name::ObjectStart => "ObjectStart",
            Name::ObjectEnd => "ObjectEnd",
            Name::ArrayStart => "ArrayStart",
            Name::ArrayEnd => "ArrayEnd",
            Name::Colon => "Colon",
            Name::Comma => "Comma",
            Name::Null => "Null",
            Name::True => "True",
            Name::False => "False",
            Name::String => "String",
            Name::U64 => "U64",
            Name::I64 => "I64",
            Name::U128 => "U128",
            Name::I128 => "I128",
            Name::Decimal => "Decimal",
            Name::Number => "Number",
            Name::Eof => "Eof",
            Name::ClosingBrace => "'}'",
            Name::ClosingBracket => "']'",
        }
    }
}

/// Why there is no raw text.
#[derive(Clone, Copy)]
pub enum NoRaw {
    /// A key stands there.
    Key,
    /// A container ends there.
    End,
    /// The value's bytes are not UTF-8.
    Text,
}

impl NoRaw {
    /// The text that a refusal says.
    fn text(self) -> &'static str
        ensures { result.now ≡ no_raw_text self }
    {
        match self {
            NoRaw::Key => "unexpected field key in capture_raw",
            NoRaw::End => "unexpected end event in capture_raw",
            NoRaw::Text => "invalid UTF-8 in raw JSON",
        }
    }
}

/// Why a parser refused.
#[derive(Clone, Copy)]
pub enum Why {
    /// No token goes on with this character.
    Char(char),
    /// The input ends inside of this.
    Inside(Inside),
    /// The input ends, where this is expected.
    End(Expected),
    /// A token with which no document goes on.
    Token {
        /// How it is called.
        got: Name,
        /// What is expected.
        expected: Expected,
    },
    /// Text that is not UTF-8.
    InvalidUtf8,
    /// No raw text, for this.
    NoRaw(NoRaw),
    /// An allocation failed.
    OutOfMemory,
    /// The counter of save points is at its end.
    SaveLimit,
}

impl Why {
    /// The kind of the refusal, with its texts.
    fn kind<'t>(self) -> DeserializeErrorKind<'t>
        ensures { complaint_of result ≡ why_of self }
    {
        match self {
            Why::Char(ch) => DeserializeErrorKind::UnexpectedChar {
                ch,
                expected: "valid JSON token",
            },
            Why::Inside(inside) => DeserializeErrorKind::UnexpectedEof {
                expected: inside.text(),
            },
            Why::End(expected) => DeserializeErrorKind::UnexpectedEof {
                expected: expected.text(),
            },
            Why::Token { got, expected } => DeserializeErrorKind::UnexpectedToken {
                got: got.text(),
                expected: expected.text(),
            },
            Why::InvalidUtf8 => DeserializeErrorKind::InvalidUtf8,
            Why::NoRaw(no_raw) => DeserializeErrorKind::InvalidValue {
                message: no_raw.text(),
            },
            Why::OutOfMemory => DeserializeErrorKind::OutOfMemory,
            Why::SaveLimit => DeserializeErrorKind::SaveLimit,
        }
    }
}

/// Why a parser refused, and which bytes it is about.
#[derive(Clone, Copy)]
pub struct Refused {
    /// Why.
    pub why: Why,
    /// The bytes.
    pub span: Span,
}

impl Refused {
    /// An allocation failed while this was the last token.
    pub fn out_of_memory(last: Span) -> Refused
        ensures { refused_of result ≡ no_memory_at (span_of last) }
    {
        Refused {
            why: Why::OutOfMemory,
            span: last,
        }
    }

    /// The counter of save points was at its end while this was the last token.
    pub fn save_limit(last: Span) -> Refused
        ensures { refused_of result ≡ refusal_at save_limit (span_of last) }
    {
        Refused {
            why: Why::SaveLimit,
            span: last,
        }
    }
}

impl From<Refused> for ParseError<'_> {
    ghost from_gives = { λ refused e. parse_refusal e ≡ refused_of refused };

    fn from(refused: Refused) -> Self {
        ParseError {
            kind: refused.why.kind(),
            span: refused.span,
        }
    }
}

impl From<FaultKind> for Why {
    ghost from_gives = { λ fault why. why_of why ≡ told_complaint fault };

    fn from(kind: FaultKind) -> Self {
        match kind {
            FaultKind::UnexpectedChar(ch) => Why::Char(ch),
            FaultKind::UnexpectedEof(inside) => Why::Inside(inside),
            FaultKind::InvalidUtf8 => Why::InvalidUtf8,
        }
    }
}

impl From<Fault> for Refused {
    ghost from_gives = { λ fault refused. refused_of refused ≡ told_refusal fault };

    fn from(fault: Fault) -> Self {
        Refused {
            why: Why::from(fault.kind),
            span: fault.span,
        }
    }
}
