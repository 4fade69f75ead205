//! What is said of a refusal, for a person.

ghost use Rattle.std.specs.Prelude.{◌≡◌, ◌++◌, Some, codes};
ghost use Rattle.std.specs.Fmt.{DisplaysOnOk};
ghost use Rattle.facet_format.specs.Views.{complaint_of};
ghost use Rattle.facet_format.specs.Message as texts;
ghost use Rattle.facet_format.specs.Message.{read_text, end_text};

use crate::error::DeserializeErrorKind;
use std::fmt;

/// The message of a reader's refusal.
pub fn write_message<W: fmt::Write>(
    f: &mut fmt::Formatter<W>,
    refused: &DeserializeErrorKind<'static>,
) -> fmt::Result
    ensures { DisplaysOnOk W.write_str_gives f.old result (read_text (complaint_of refused.now)) f.new }
{
    match refused {
        DeserializeErrorKind::UnexpectedChar { ch, expected } => {
            write!(f, "unexpected character {ch:?}, expected {expected}")
        }
        DeserializeErrorKind::UnexpectedEof { expected } => write_end(f, expected),
        DeserializeErrorKind::UnexpectedToken { got, expected } => {
            write_pair(f, "unexpected token: got ", got, ", expected ", expected)
        }
        DeserializeErrorKind::InvalidUtf8 => f.write_str("invalid UTF-8 sequence"),
        DeserializeErrorKind::InvalidValue { message } => {
            write_named(f, "invalid value: ", message)
        }
        DeserializeErrorKind::TypeMismatch { expected, got } => {
            write_pair(f, "type mismatch: expected ", expected, ", got ", got)
        }
        DeserializeErrorKind::NumberOutOfRange { target_type } => {
            write_named(f, "number out of range for ", target_type)
        }
        DeserializeErrorKind::MissingField { field } => {
            write_quoted(f, "missing required field `", field)
        }
        DeserializeErrorKind::OutOfMemory => f.write_str("out of memory"),
        DeserializeErrorKind::SaveLimit => f.write_str("too many save points"),
    }
}

/// The message of an input that ends.
fn write_end<W: fmt::Write>(f: &mut fmt::Formatter<W>, expected: &str) -> fmt::Result
    ensures { DisplaysOnOk W.write_str_gives f.old result (Some (end_text expected.now)) f.new }
{
    if tells_where(expected) {
        write!(f, "unexpected end of input {expected}")
    } else {
        write!(f, "unexpected end of input, expected {expected}")
    }
}

/// Whether what a reader names at the end of its input is where the input breaks off, such as `in string`, and not what is expected.
pub fn tells_where(expected: &str) -> bool
    ensures { result ≡ texts.tells_where expected.now }
{
    expected.as_bytes().starts_with(b"in ")
}

/// What is said, and of what.
pub fn write_named<W: fmt::Write>(f: &mut fmt::Formatter<W>, said: &str, of: &str) -> fmt::Result
    ensures { DisplaysOnOk W.write_str_gives f.old result (Some (said.now ++ of.now)) f.new }
{
    write!(f, "{said}{of}")
}

/// Writes what is said, and of which name, with a quote behind it.
pub fn write_quoted<W: fmt::Write>(f: &mut fmt::Formatter<W>, said: &str, name: &str) -> fmt::Result
    ensures { DisplaysOnOk W.write_str_gives f.old result (Some (said.now ++ name.now ++ codes "`")) f.new }
{
    write!(f, "{said}{name}`")
}

/// Writes what is said of two texts, with what stands between them.
pub fn write_pair<W: fmt::Write>(
    f: &mut fmt::Formatter<W>,
    said: &str,
    first: &str,
    between: &str,
    second: &str,
) -> fmt::Result
    ensures { DisplaysOnOk W.write_str_gives f.old result
        (Some (said.now ++ first.now ++ (between.now ++ second.now))) f.new }
{
    write!(f, "{said}{first}{between}{second}")
}
