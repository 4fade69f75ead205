//! A value that is passed unread.

ghost use Rattle.std.specs.Prelude.{◌≡◌, ◌<◌, None, IfErr, OnOk};
ghost use Rattle.facet_json_core.specs.Meaning.OneValue.{IsAfterKey};
ghost use Rattle.facet_json_core.specs.Meaning.Passing.{anything};
ghost use Rattle.facet_json_core.specs.Calls.{refusal_of, ahead, RefusalWithin, TellsRefusal, KeepsOn, PassesValue, IsRead, IsUnread};

use facet_format::{DeserializeError, FormatParser};
use facet_json_parser::JsonParser;

/// Skips a value of which nothing is known, and decodes nothing of it.
///
/// # Errors
///
/// As the parser's `skip_value`.
pub fn pass_value<'t>(parser: &mut JsonParser<'_>) -> Result<(), DeserializeError<'t>>
    ensures read { OnOk result (IsRead anything parser.old tt parser.new) }
    ensures unread { IfErr result (λ e. IsUnread anything parser.old (refusal_of e)) }
    ensures keeps { KeepsOn parser.old parser.new }
    ensures shorter { OnOk result (ahead parser.new < ahead parser.old) }
    ensures one_value { IsAfterKey parser.old → OnOk result (PassesValue parser.old parser.new) }
    ensures within { IfErr result (λ e. RefusalWithin parser.new.buffer (refusal_of e)) }
    ensures free { OnOk result (parser.new.cursor.refusal ≡ None) }
    ensures tells { IfErr result (λ e. TellsRefusal parser.old parser.new (refusal_of e)) }
{
    parser.skip_value()?;
    Ok(())
}
