//! Messages between machines: texts of RFC 8259 alone, from their start to their end.

ghost use Rattle.std.specs.Prelude.{OnOk};
ghost use Rattle.facet_json.specs.Gap.{plain};
ghost use Rattle.facet_json.specs.Nesting.{StandsBeyond};
ghost use Rattle.facet_json.specs.OneRun.{IsOneRun};
ghost use Rattle.facet_json.specs.Span.{Span as SpecSpan};
ghost use Rattle.facet_json.specs.StrictDocument.{IsStrict};
ghost use Rattle.facet_json.specs.TokenList.{tokens};

use crate::loops::count_left;
use facet_json::scanner::{check_number_strict, check_string_strict};
use facet_json::{
    DeserializeError, JsonParser, ParseError, ReadOptions, from_slice_strict,
    from_slice_with_options,
};
use std::alloc::Global;

/// The number that a message is, where it is nothing else: `7`, but neither `07` nor `7,`.
pub fn count<'t>(alloc: Global, message: &[u8]) -> Result<u64, DeserializeError<'t>>
    ensures { OnOk result (IsStrict message.now) }
{
    from_slice_strict(alloc, message)
}

/// The words of a message, which lends them: a text of RFC 8259 alone, in which no list stands within another.
pub fn words<'t, 'de>(
    alloc: Global,
    message: &'de [u8],
) -> Result<Vec<&'de str>, DeserializeError<'t>>
    ensures alone { OnOk result (IsOneRun message.now plain) }
    ensures shallow { OnOk result ((bracket : SpecSpan) → StandsBeyond 1 (tokens message.now plain) bracket → ⊥) }
{
    let options = ReadOptions::new().strict().borrowed().depth(1);
    from_slice_with_options(alloc, message, options)
}

/// How many events a message has, where it is a text of RFC 8259 that can be read; nothing of it is kept.
pub fn events(alloc: Global, message: &[u8]) -> Result<usize, ParseError<'static>> {
    count_left(&mut JsonParser::new_strict(alloc, message))
}

/// Whether the content of a string, and a number, are those of RFC 8259: `a\n` and `-0.5` are, `\q` and `01` are not.
pub fn are_strict(content: &[u8], number: &[u8]) -> bool {
    check_string_strict(content, 0, content.len()).is_ok()
        && check_number_strict(number, 0, number.len()).is_ok()
}
