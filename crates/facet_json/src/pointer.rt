//! A search for the value that a JSON pointer names (RFC 6901), over a parser.
//!
//! The pointer is checked as a whole before anything is read. A key is compared with an escaped token byte by byte, so that no token is
//! copied.

ghost use Rattle.std.specs.Prelude.{◌≡◌, ◌≤◌, ℕ, List, Some, None, IfOk, IfErr, IfSome, MatchOption, codes, length, option_and_then};
ghost use Rattle.facet_format.specs.Event.{bytes_of};
ghost use Rattle.facet_format.specs.HeldText.{text_of};
ghost use Rattle.facet_format.specs.Views.{event_of, refusal_of};
ghost use Rattle.facet_json_grammar.specs.UnreadLaws.{RefusalWithin};
ghost use Rattle.facet_json_core.specs.Refusing.{mismatch_of, TellsRefusal};
ghost use Rattle.facet_json_core.specs.Meaning.Nodes.{KeepsOn};
ghost use Rattle.facet_json_tree.specs.Inner.PointerParts.{unescaped};
ghost use Rattle.facet_json_tree.specs.Pointer.{IsPointer, index};
ghost use Rattle.facet_json_tree.specs.PointerViews.{RefusesPointer};
ghost use Rattle.facet_json_tree.specs.Same.{same_bytes};
ghost use Rattle.facet_json_core.specs.Finding.{FindsKey, LacksMembers};
ghost use Rattle.facet_json.specs.Inner.Pointing.{begun_by, FindsChild, FindsItem, LacksItems, less_one, zero_is};
ghost use Rattle.facet_json.specs.Pointed.{FindsNamed, FindsPointed, LacksNode, LacksPointed};
ghost use Rattle.facet_json.specs.PointedViews.{IfPointer, IfRead};

use crate::find_error::FindError;
use facet_format::{DeserializeError, FormatParser, ParseEvent, ParseEventKind};
use facet_json_core::steps::{next_name, pass_value, take_end};
use facet_json_core::{mismatch, next_of_value};
use facet_json_parser::JsonParser;
use facet_json_tree::pointer::{check, first_token, index_of, stands_for};
use std::borrow::CowStr;

/// Goes to the value that a JSON pointer names (RFC 6901) within the parser's next value, and returns whether there is
/// one. Then the parser stands right before it, and it is read or passed as any value. The empty pointer names the value that comes next;
/// each token behind a `/` names a member of an object, or an item of a list by its index, which is `0` or digits that do not begin with
/// `0`. In a token `~1` stands for `/` and `~0` for `~`. A parser does not go back: of several members with one key the first one counts,
/// unlike for `Tree::pointer`.
///
/// Where nothing has that name, the value in which a token names nothing is passed: an object or a list to its end, or a scalar.
///
/// What stands before the value that is named is passed as `pass_value` does. Only keys with an escape are decoded, and a scalar that is an
/// item behind a comment or in which a token is sought.
///
/// ```text
/// of {"log":[{"ms":5},{"ms":7,"a/b":null}]}
/// find_pointer(parser, "/log/1/ms")         true: 7 comes next
/// find_pointer(parser, "/log/2")            false: the list is passed, and the object's end comes next
/// find_pointer(parser, "/log/0/ms/0")       false: 5 is passed
/// find_pointer(parser, "log")               Err: Pointer(NoSlash)
/// ```
///
/// # Errors
///
/// - `Pointer`: the text is no pointer, whatever the input is. Nothing was read.
/// - `Read`: as `next_of_value`, `next_name` and `pass_value`; and where no value comes, a mismatch.
pub fn find_pointer<'t>(parser: &mut JsonParser<'_>, pointer: &str) -> Result<bool, FindError<'t>>
    ensures finds { IfOk result (λ is. FindsPointed pointer.now parser.old is parser.new) }
    ensures refuses { IfErr result (λ e. IfPointer e (λ p. RefusesPointer pointer.now p × (parser.new ≡ parser.old))) }
    ensures lacks { IfErr result (λ e. IfRead e (LacksPointed pointer.now parser.old)) }
    ensures keeps { KeepsOn parser.old parser.new }
    ensures within { IfErr result (λ e. IfRead e (RefusalWithin parser.new.buffer)) }
    ensures tells { IfErr result (λ e. IfRead e (TellsRefusal parser.old parser.new)) }
{
    let bytes = pointer.as_bytes();
    check(bytes)?;
    let found = follow(parser, bytes)?;
    Ok(found)
}

/// Goes along the tokens of a text that is a pointer.
fn follow<'t>(parser: &mut JsonParser<'_>, pointer: &[u8]) -> Result<bool, DeserializeError<'t>>
    ensures finds { IfOk result (λ is. (names : List (List ℕ)) → IsPointer pointer.now names → FindsNamed names parser.old is parser.new) }
    ensures lacks { IfErr result (λ e. (names : List (List ℕ)) → IsPointer pointer.now names → LacksNode parser.old (refusal_of e)) }
    ensures keeps { KeepsOn parser.old parser.new }
    ensures within { IfErr result (λ e. RefusalWithin parser.new.buffer (refusal_of e)) }
    ensures tells { IfErr result (λ e. TellsRefusal parser.old parser.new (refusal_of e)) }
{
    let mut start = 0;
    while start < pointer.len() {
        let token = first_token(&pointer[start + 1..]);
        if !find_child(parser, token)? {
            return Ok(false);
        }
        start += 1 + token.len();
    }
    Ok(true)
}

/// Goes to what a token names directly within the value that comes next, or passes this value.
fn find_child<'t>(parser: &mut JsonParser<'_>, token: &[u8]) -> Result<bool, DeserializeError<'t>>
    ensures finds { IfOk result (λ is. FindsChild (unescaped token.now) parser.old is parser.new) }
    ensures lacks { IfErr result (λ e. LacksNode parser.old (refusal_of e)) }
    ensures keeps { KeepsOn parser.old parser.new }
    ensures within { IfErr result (λ e. RefusalWithin parser.new.buffer (refusal_of e)) }
    ensures tells { IfErr result (λ e. TellsRefusal parser.old parser.new (refusal_of e)) }
{
    match what_begins(next_of_value(parser)?)? {
        Begun::Object => find_named(parser, token),
        Begun::List => find_item(parser, token),
        Begun::Scalar => Ok(false),
    }
}

/// What a value's first event begins.
enum Begun {
    Object,
    List,
    /// The event is the whole value.
    Scalar,
}

/// What the event begins.
///
/// # Errors
///
/// It begins no value: a mismatch, with its span.
fn what_begins<'t>(event: ParseEvent<'_>) -> Result<Begun, DeserializeError<'t>>
    ensures taken { IfOk result (λ b. begun_by (event_of event.entry).kind ≡ Some b) }
    ensures refused { IfErr result (λ e. begun_by (event_of event.entry).kind ≡ None) }
    ensures span { IfErr result (λ e. e.span ≡ Some event.entry.span) }
    ensures told { IfErr result (λ e. refusal_of e ≡ mismatch_of (codes "value") (event_of event.entry)) }
{
    match event.kind {
        ParseEventKind::StructStart(_) => Ok(Begun::Object),
        ParseEventKind::SequenceStart(_) => Ok(Begun::List),
        ParseEventKind::Scalar(_) => Ok(Begun::Scalar),
        _ => Err(mismatch("value", event)),
    }
}

/// Skips members of the object that is being read, up to the first key that the token stands for, which it passes too, or up to the end.
fn find_named<'t>(parser: &mut JsonParser<'_>, token: &[u8]) -> Result<bool, DeserializeError<'t>>
    ensures finds { IfOk result (λ is. FindsKey (unescaped token.now) parser.old is parser.new) }
    ensures lacks { IfErr result (λ e. LacksMembers parser.old (refusal_of e)) }
    ensures keeps { KeepsOn parser.old parser.new }
    ensures within { IfErr result (λ e. RefusalWithin parser.new.buffer (refusal_of e)) }
    ensures tells { IfErr result (λ e. TellsRefusal parser.old parser.new (refusal_of e)) }
{
    while let Some(key) = next_name(parser)? {
        if is_named(key, token) {
            return Ok(true);
        }
        pass_value(parser)?;
    }
    Ok(false)
}

/// Whether the token stands for this key.
fn is_named(key: CowStr<'_>, token: &[u8]) -> bool
    ensures { result ≡ same_bytes (bytes_of (text_of key.entry)) (unescaped token.now) }
{
    stands_for(token, key.as_str().as_bytes())
}

/// Consumes items of the list that is being read, up to the one whose index the token is, or up to the end.
fn find_item<'t>(parser: &mut JsonParser<'_>, token: &[u8]) -> Result<bool, DeserializeError<'t>>
    ensures finds { IfOk result (λ is. FindsItem (index token.now) parser.old is parser.new) }
    ensures lacks { IfErr result (λ e. LacksItems parser.old (refusal_of e)) }
    ensures keeps { KeepsOn parser.old parser.new }
    ensures within { IfErr result (λ e. RefusalWithin parser.new.buffer (refusal_of e)) }
    ensures tells { IfErr result (λ e. TellsRefusal parser.old parser.new (refusal_of e)) }
{
    let mut left = index_within(parser, token);
    while !take_end(parser)? {
        if is_zero(left) {
            return Ok(true);
        }
        pass_value(parser)?;
        left = one_less(left);
    }
    Ok(false)
}

/// The index that a token is, where it is less than the input's length in bytes: no list has as many items.
fn index_within(parser: &JsonParser<'_>, token: &[u8]) -> Option<usize>
    ensures { MatchOption result
        (IfSome (index token.now) (λ i. length parser.now.buffer ≤ i))
        (λ i. index token.now ≡ Some i) }
{
    let bytes = parser.input().unwrap().len();
    let index = index_of(token)?;
    if index < bytes { Some(index) } else { None }
}

/// Whether no item is left to pass before the wanted one.
fn is_zero(left: Option<usize>) -> bool
    ensures { result ≡ zero_is left }
{
    match left {
        Some(items) => items == 0,
        None => false,
    }
}

/// How many items are left to pass, after one.
fn one_less(left: Option<usize>) -> Option<usize>
    ensures { result ≡ option_and_then less_one left }
{
    left?.checked_sub(1)
}
