//! Calls of a new parser, with a contract that says what each input answers.

ghost use Rattle.std.specs.Prelude.{map, IfOk};
ghost use Rattle.facet_json.specs.Agree.{AgreeToLack};
ghost use Rattle.facet_json.specs.Gap.{plain};
ghost use Rattle.facet_json.specs.ScriptViews.{call_of, answer_of};
ghost use Rattle.facet_json_examples.specs.Driving.{AreAnswers};

use facet_json::laws::{headline, trusted_agrees};
use facet_json::{Answer, Call, JsonParser, Language, drive};
use std::alloc::{AllocError, Global};

/// What a new parser of the input answers to these calls, one after another. Where the input has a document, the answers are a run of a
/// cursor on that document's walk. Where it has none, and only the next event is asked for, they are the events of the longest prefix that
/// begins one, and then the input's one refusal. (Where memory is lacking, the cursor's steps and `AnswersAlone` say.)
pub fn answers_to<'de>(
    alloc: Global,
    input: &'de [u8],
    calls: &[Call],
) -> Result<Vec<Answer<'de>>, AllocError>
    ensures { IfOk result (λ answers. AreAnswers input.now plain (map call_of calls.now) (map answer_of answers.items)) }
{
    headline();
    let mut parser = JsonParser::new(alloc, input);
    drive(alloc, &mut parser, calls)
}

/// What a trusted parser of the text answers to these calls, and what one that checks its strings does: the same, one by one, up to the
/// first out of memory in either.
pub fn answers_of_both<'de>(
    alloc: Global,
    text: &'de str,
    calls: &[Call],
) -> Result<(Vec<Answer<'de>>, Vec<Answer<'de>>), AllocError>
    ensures { IfOk result (λ both. AgreeToLack (map answer_of both.0.items) (map answer_of both.1.items)) }
{
    let mut parsers = trusted_agrees(alloc, text, Language::Plain);
    let of_trusted = drive(alloc, &mut parsers.0, calls)?;
    let of_checking = drive(alloc, &mut parsers.1, calls)?;
    Ok((of_trusted, of_checking))
}
