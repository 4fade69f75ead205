//! A search for a key among an object's members.

ghost use Rattle.std.specs.Prelude.{◌≡◌, ◌<◌, false, None, Some, IfOk, IfErr, IfSome, if◌then◌else◌, OnOk, MatchBool, MatchOption};
ghost use Rattle.std.specs.Str.{bytes_eq};
ghost use Rattle.facet_format.specs.Event.{bytes_of, object};
ghost use Rattle.facet_format.specs.HeldText.{text_of};
ghost use Rattle.facet_json_core.specs.Meaning.OneValue.{PassesKeyInside, PassesEndOf};
ghost use Rattle.facet_json_core.specs.Calls.{refusal_of, ahead, RefusalWithin, TellsRefusal, KeepsOn};
ghost use Rattle.facet_json_core.specs.Finding.{FindsKey, IsSearching, LacksMembers, PassesUpTo};
ghost use Rattle.facet_json_core.specs.Named.{NamesNext, PassesNamed};
ghost use Rattle.facet_json_grammar.specs.Now.{Now};
ghost use Rattle.facet_json_grammar.specs.Language.{lenient};
ghost use Rattle.facet_json_token.specs.Gap.{plain};
ghost use Rattle.facet_json_reader.specs.Values.{IsAllowedThere};

use crate::steps::objects::next_name;
use crate::steps::values::pass_value;
use facet_format::DeserializeError;
use facet_json_parser::{JsonParser, front, in_object, stand};
use facet_json_reader::scalar_at;
use std::borrow::CowStr;

/// Skips members of the object that is being read, up to the first key of this text (RFC 8259, section 4), which it passes too, or up to
/// the object's end. It answers whether such a key came: then its value comes next, and else the object is over. The values before it are
/// passed undecoded, and a key is decoded only where it holds an escape. A key that came earlier is not found.
///
/// ```text
/// begin_object(parser)?;             of {"is":[{"age":1}],"\u0061ge":30}
/// find_key(parser, "age")?           true: 30 comes next
/// find_key(parser, "name")?          afterwards, once 30 is passed: false, and the object's end is passed
/// ```
///
/// # Errors
///
/// As `next_name` and `pass_value`.
pub fn find_key<'t>(parser: &mut JsonParser<'_>, name: &str) -> Result<bool, DeserializeError<'t>>
    ensures finds { IfOk result (λ is. FindsKey name.now parser.old is parser.new) }
    ensures passed { IfOk result (λ is. PassesUpTo name.now parser.old (if is then Some name.now else None) parser.new) }
    ensures member { IfOk result (λ is. MatchBool is (PassesKeyInside parser.old parser.new) (PassesEndOf object parser.old parser.new)) }
    ensures lacks { IfErr result (λ e. LacksMembers parser.old (refusal_of e)) }
    ensures keeps { KeepsOn parser.old parser.new }
    ensures shorter { OnOk result (ahead parser.new < ahead parser.old) }
    ensures within { IfErr result (λ e. RefusalWithin parser.new.buffer (refusal_of e)) }
    ensures free { OnOk result (parser.new.cursor.refusal ≡ None) }
    ensures tells { IfErr result (λ e. TellsRefusal parser.old parser.new (refusal_of e)) }
{
    while let Some(key) = next_unpassed(parser, name)? {
        if is_named(key, name) {
            return Ok(true);
        }
        pass_value(parser)?;
    }
    Ok(false)
}

/// Passes members of other keys in sight, and returns the next key, whose value is not passed. It is none at the object's end, which is
/// consumed.
///
/// # Errors
///
/// As `next_name`.
#[inline(always)]
fn next_unpassed<'t, 'de>(
    parser: &mut JsonParser<'de>,
    name: &str,
) -> Result<Option<CowStr<'de>>, DeserializeError<'t>>
    ensures passed { (now : Now) × ((start : Now) → IsSearching name.now start parser.old → IsSearching name.now start now)
        × NamesNext now result parser.new }
    ensures within { IfErr result (λ e. RefusalWithin parser.new.buffer (refusal_of e)) }
{
    match others_in_sight(parser, name) {
        Some(key) => Ok(Some(CowStr::Borrowed(key))),
        None => next_name(parser),
    }
}

/// Passes members of other keys whose values are scalars, as long as a few bytes decide each of them. The parser is then behind the key that
/// is returned, which has this text or whose value they don't decide, or before what is no key in sight.
#[inline(always)]
fn others_in_sight<'de>(parser: &mut JsonParser<'de>, name: &str) -> Option<&'de str>
    ensures { (now : Now) × ((start : Now) → IsSearching name.now start parser.old → IsSearching name.now start now)
        × MatchOption result (now ≡ parser.new) (λ key. PassesNamed now key.now parser.new) }
{
    if !in_object(parser) {
        return None;
    }
    let (input, from) = front(parser)?;
    let mut at = from;
    while let Some((key, value)) = at.key(input) {
        let Some(len) = other_len(input, key, name, value.at) else {
            stand(parser, value);
            return Some(key);
        };
        at = value.behind_member(input, len);
    }
    stand(parser, at);
    None
}

/// How many bytes the value at this offset takes, where its key is another one and it is a scalar that a few bytes decide.
#[inline(always)]
fn other_len(input: &[u8], key: &str, name: &str, at: usize) -> Option<usize>
    ensures other { IfSome result (λ _. bytes_eq key.now name.now ≡ false) }
    ensures there { IfSome result (IsAllowedThere (lenient plain) input.now at) }
{
    if key == name {
        None
    } else {
        scalar_at(input, at)
    }
}

/// Whether the key has this text.
#[inline(always)]
fn is_named(key: CowStr<'_>, name: &str) -> bool
    ensures { result ≡ bytes_eq (bytes_of (text_of key.entry)) name.now }
{
    key.as_str() == name
}
