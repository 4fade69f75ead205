//! The script of `drive`: words of calls, separated by single commas.

ghost use Rattle.std.specs.Prelude.{◌≡◌, ◌≢◌, ◌⊎◌, ℕ, List, map, codes, None, IfOk, IfErr, MatchOption, slice_index};
ghost use Rattle.facet_format.specs.Cursor.{Call as SpecCall};
ghost use Rattle.facet_json_core.specs.ScriptViews.{call_of};
ghost use Rattle.facet_json_command.specs.declared.run.Outcome.TheVariants as outcome;
ghost use Rattle.facet_json_command.specs.Script.{IsPointNumber, IsNumbered, IsWordOf, IsScript};

use crate::run::{OUT_OF_MEMORY, Outcome};
use facet_json_core::Call;
use std::alloc::Global;

/// The calls that the script writes. A text that is no script is wrong usage.
pub fn parse_script(alloc: Global, script: &str) -> Result<Vec<Call>, Outcome>
    ensures calls { IfOk result (λ v. IsScript script.now (map call_of v.items)) }
    ensures refused { IfErr result (λ o. (o ≡ outcome.Refused 9 None)
        ⊎ ((o ≡ outcome.Usage) × ((calls : List SpecCall) → ¬ IsScript script.now calls))) }
{
    let mut calls = Vec::new(alloc);
    let mut rest = script;
    'words: while let Some((word, behind)) = rest.split_once(',') {
        let Some(call) = parse_call(word) else {
            return Err(Outcome::Usage);
        };
        if calls.push(call).is_err() {
            return Err(OUT_OF_MEMORY);
        }
        rest = behind;
    }
    let Some(last) = parse_call(rest) else {
        return Err(Outcome::Usage);
    };
    if calls.push(last).is_err() {
        return Err(OUT_OF_MEMORY);
    }
    Ok(calls)
}

/// The call that the word writes.
pub fn parse_call(word: &str) -> Option<Call>
    ensures { MatchOption result ((call : SpecCall) → ¬ IsWordOf call word.now) (λ c. IsWordOf (call_of c) word.now) }
{
    match word {
        "next" => Some(Call::Next),
        "peek" => Some(Call::Peek),
        "skip" => Some(Call::Skip),
        "capture" => Some(Call::Capture),
        "save" => Some(Call::Save),
        "span" => Some(Call::Span),
        _ => parse_numbered(word),
    }
}

/// The call that a word with a number writes.
fn parse_numbered(word: &str) -> Option<Call>
    ensures { MatchOption result
        ((number : ℕ) → ¬ (IsNumbered (codes "events:") word.now number ⊎ IsNumbered (codes "restore:") word.now number))
        (λ c. IsWordOf (call_of c) word.now) }
{
    match word.strip_prefix("events:") {
        Some(digits) => match parse_limit(digits) {
            Some(limit) => Some(Call::Events(limit)),
            None => None,
        },
        None => parse_restore(word),
    }
}

/// The call to go back to the point that the word names.
fn parse_restore(word: &str) -> Option<Call>
    ensures { MatchOption result ((number : ℕ) → ¬ IsNumbered (codes "restore:") word.now number) (λ c. IsWordOf (call_of c) word.now) }
{
    match word.strip_prefix("restore:") {
        Some(digits) => match parse_point(digits) {
            Some(point) => Some(Call::Restore(point)),
            None => None,
        },
        None => None,
    }
}

/// The number of events that the digits write.
fn parse_limit(digits: &str) -> Option<usize>
    ensures { MatchOption result ((number : ℕ) → ¬ IsPointNumber digits.now number) (IsPointNumber digits.now) }
{
    if digits.starts_with('+') {
        return None;
    }
    digits.parse().ok()
}

/// The number of a point that the digits write.
fn parse_point(digits: &str) -> Option<u64>
    ensures { MatchOption result ((number : ℕ) → ¬ IsPointNumber digits.now number) (IsPointNumber digits.now) }
{
    if digits.starts_with('+') {
        return None;
    }
    digits.parse().ok()
}
