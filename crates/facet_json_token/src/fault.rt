//! Faults: why the bytes at some place are no token, or have no text, said by an enum. Users see them as `ScanError`, with a text.

ghost use Rattle.std.specs.Prelude.{◌≡◌};
ghost use Rattle.facet_json_token.specs.Views.{inside_text, SaysFault, SaysKind};

use crate::token::{ScanError, ScanErrorKind, SpannedToken};
use facet_format::Span;

/// What the input ends inside of.
#[derive(Debug, Clone, Copy)]
pub enum Inside {
    /// A string.
    String,
    /// A number.
    Number,
    /// A literal.
    Literal,
    /// A block comment.
    BlockComment,
    /// An escape.
    Escape,
    /// The digits of an escape.
    UnicodeEscape,
}

impl Inside {
    /// The text that a refusal says.
    pub fn text(self) -> &'static str
        ensures { result.now ≡ inside_text self }
    {
        match self {
            Inside::String => "in string",
            Inside::Number => "in number",
            Inside::Literal => "in literal",
            Inside::BlockComment => "in block comment",
            Inside::Escape => "in escape sequence",
            Inside::UnicodeEscape => "in unicode escape",
        }
    }
}

/// Why the bytes at some place are no token, or have no text.
#[derive(Clone, Copy)]
pub enum FaultKind {
    /// No token goes on with this byte, shown as the character of its code.
    UnexpectedChar(char),
    /// The input ends inside of this.
    UnexpectedEof(Inside),
    /// Bytes that are not UTF-8.
    InvalidUtf8,
}

/// What is wrong, and where.
#[derive(Clone, Copy)]
pub struct Fault {
    /// What is wrong.
    pub kind: FaultKind,
    /// The bytes that it is about.
    pub span: Span,
}

/// A token, or the fault where none stands.
pub type CutResult = Result<SpannedToken, Fault>;

impl From<FaultKind> for ScanErrorKind {
    ghost from_gives = { λ fault error. SaysKind fault error };

    fn from(kind: FaultKind) -> Self {
        match kind {
            FaultKind::UnexpectedChar(character) => ScanErrorKind::UnexpectedChar(character),
            FaultKind::UnexpectedEof(inside) => ScanErrorKind::UnexpectedEof(inside.text()),
            FaultKind::InvalidUtf8 => ScanErrorKind::InvalidUtf8,
        }
    }
}

impl From<Fault> for ScanError {
    ghost from_gives = { λ fault error. SaysFault fault error };

    fn from(fault: Fault) -> Self {
        ScanError {
            kind: ScanErrorKind::from(fault.kind),
            span: fault.span,
        }
    }
}
