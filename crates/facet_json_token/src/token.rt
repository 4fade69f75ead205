//! Tokens of JSON text (RFC 8259, section 2), and what is wrong where no token stands.

ghost use Rattle.facet_json_token.specs.DebugViews.{debug_text};

use facet_format::Span;
use facet_format::numeral::NumberHint;
use std::fmt;

/// What a scanner cuts off its buffer. Offsets are in bytes of the buffer.
#[derive(Debug, Clone, PartialEq, Drop)]
pub enum Token {
    /// `{`
    ObjectStart,
    /// `}`
    ObjectEnd,
    /// `[`
    ArrayStart,
    /// `]`
    ArrayEnd,
    /// `:`
    Colon,
    /// `,`
    Comma,
    /// `null`
    Null,
    /// `true`
    True,
    /// `false`
    False,
    /// A string.
    String {
        /// Where the content starts, after the quote.
        start: usize,
        /// Where the content ends, at the closing quote.
        end: usize,
        /// Whether a backslash stands in the content.
        has_escapes: bool,
    },
    /// A number.
    Number {
        /// Where its first byte is.
        start: usize,
        /// Where it ends.
        end: usize,
        /// What stands in it.
        hint: NumberHint,
    },
    /// The end of the input.
    Eof,
    /// The buffer ends inside of what may be a longer token or comment.
    NeedMore {
        /// Where that token or comment starts.
        consumed: usize,
    },
}

/// A token and the bytes that it takes.
#[derive(Debug, Clone, PartialEq, Drop)]
pub struct SpannedToken {
    /// The token.
    pub token: Token,
    /// Its bytes.
    pub span: Span,
}

/// Why the bytes at some place are no token.
#[derive(Clone, PartialEq, Drop)]
pub enum ScanErrorKind {
    /// No token goes on with this byte, shown as the character of its code.
    UnexpectedChar(char),
    /// The input ends inside of what the text names.
    UnexpectedEof(&'static str),
    /// Bytes that are not UTF-8.
    InvalidUtf8,
}

/// As the code would spell it: `UnexpectedChar('x')`, `UnexpectedEof("in string")`, `InvalidUtf8`. The contract says so of what is
/// ASCII.
impl fmt::Debug for ScanErrorKind {
    ghost debug_output = { debug_text };

    fn fmt<W: fmt::Write>(&self, f: &mut fmt::Formatter<W>) -> fmt::Result {
        match self {
            ScanErrorKind::UnexpectedChar(character) => {
                write!(f, "UnexpectedChar({character:?})")
            }
            ScanErrorKind::UnexpectedEof(place) => write!(f, "UnexpectedEof({place:?})"),
            ScanErrorKind::InvalidUtf8 => f.write_str("InvalidUtf8"),
        }
    }
}

/// What is wrong, and where.
#[derive(Debug, Clone, PartialEq, Drop)]
pub struct ScanError {
    /// What is wrong.
    pub kind: ScanErrorKind,
    /// The bytes that it is about.
    pub span: Span,
}

/// A token, or what is wrong where none stands.
pub type ScanResult = Result<SpannedToken, ScanError>;
