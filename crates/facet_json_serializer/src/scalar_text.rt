//! Appending a value that holds no others.

ghost use Rattle.std.specs.Prelude.{◌≡◌, ◌++◌, OnOk};
ghost use Rattle.std.specs.Char.{encode_utf8};
ghost use Rattle.facet_format.specs.Views.{scalar_value_of};
ghost use Rattle.facet_json_grammar.specs.Quoted.{quoted};
ghost use Rattle.facet_json_grammar.specs.Text.{bool_text};
ghost use Rattle.facet_json_serializer.specs.Serializer.{scalar_text};
ghost use Rattle.facet_json_serializer.specs.OptionsViews.{options_of};

use crate::append::{push_bytes, push_number};
use crate::bytes_text::push_bytes_text;
use crate::options::SerializeOptions;
use crate::quote::push_quoted;
use crate::sink::Sink;
use facet_format::ScalarValue;
use std::alloc::AllocError;

/// Appends the text of a value.
#[tactic(auto, unfolding(facet_json_grammar::specs::Text::text))]
pub(crate) fn push_scalar(
    out: &mut Sink,
    options: &SerializeOptions<'_>,
    value: &ScalarValue<'_>,
) -> Result<(), AllocError>
    ensures { OnOk result (out.new
        ≡ out.old ++ scalar_text (options_of options.now) (scalar_value_of value.now)) }
{
    match value {
        ScalarValue::Null => push_bytes(out, b"null"),
        ScalarValue::Unit => push_bytes(out, b"null"),
        ScalarValue::Bool(b) => push_bool(out, *b),
        ScalarValue::Char(c) => push_char(out, *c),
        ScalarValue::I64(n) => push_number(out, *n),
        ScalarValue::U64(n) => push_number(out, *n),
        ScalarValue::I128(n) => push_number(out, *n),
        ScalarValue::U128(n) => push_number(out, *n),
        ScalarValue::Decimal(decimal) => push_bytes(out, decimal.as_str().as_bytes()),
        ScalarValue::Str(text) => push_quoted(out, text.as_str()),
        ScalarValue::Bytes(bytes) => push_bytes_text(out, options.bytes_format, *bytes),
    }
}

/// Appends a truth value.
fn push_bool(out: &mut Sink, b: bool) -> Result<(), AllocError>
    ensures { OnOk result (out.new ≡ out.old ++ bool_text b) }
{
    if b {
        push_bytes(out, b"true")
    } else {
        push_bytes(out, b"false")
    }
}

/// Appends the text of one character, between quotes.
fn push_char(out: &mut Sink, c: char) -> Result<(), AllocError>
    ensures { OnOk result (out.new ≡ out.old ++ quoted (encode_utf8 c)) }
{
    let mut buffer = [0; 4];
    push_quoted(out, c.encode_utf8(&mut buffer))
}
