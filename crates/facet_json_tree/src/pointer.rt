//! The value that a JSON pointer names (RFC 6901).
//!
//! A pointer is checked as a whole before a value is looked into, so that what is wrong with it does not hang on the value. Its tokens are
//! then taken one after the other, and a key is compared with an escaped token byte by byte: nothing is allocated.

ghost use Rattle.std.specs.Prelude.{◌≡◌, ◌≤◌, ◌<◌, ◌^◌, ◌∷◌, [], ℕ, List, true, length, None, Some, IfOk, IfErr, IfSome, OnOk, MatchOption};
ghost use Rattle.std.specs.Prelude.{option_map, option_and_then};
ghost use Rattle.std.specs.List.{list_all};
ghost use Rattle.facet_format.specs.Bytes.{is_digit};
ghost use Rattle.facet_format.specs.NumberValue.{digits_value};
ghost use Rattle.facet_json_tree.specs.Inner.LastNamed.{IsLastNamed};
ghost use Rattle.facet_json_tree.specs.Inner.PointerParts.{unescaped, before_slash};
ghost use Rattle.facet_json_tree.specs.Lookup.{last_member, item_at};
ghost use Rattle.facet_json_tree.specs.Pointer.{IsPointer, PointsTo, begins_pointer, child as child_of, index, lone_tilde};
ghost use Rattle.facet_json_tree.specs.Pointer.{named as named_of, zero_or_one};
ghost use Rattle.facet_json_tree.specs.PointerViews.{IsWrongAt, RefusesPointer};
ghost use Rattle.facet_json_tree.specs.Same.{same_bytes};
ghost use Rattle.facet_json_tree.specs.Views.{tree_view, trees_view, pairs_view};

use crate::pointer_error::PointerError;
use crate::tree::Tree;

impl Tree {
    /// The value that a JSON pointer names (RFC 6901). The empty pointer names the whole value; each token behind a `/` names a member
    /// of an object, or an item of a list by its index, which is `0` or digits that do not begin with `0`. In a token `~1` stands for
    /// `/` and `~0` for `~`. Of several members with one name the last counts, as for `get`. `None` where nothing has that name, as
    /// behind the end of a list, or in a value that is neither an object nor a list.
    ///
    /// A text that is no pointer is refused, whatever the value is: it does not begin with `/`, or a `~` stands in it with neither `0`
    /// nor `1` behind it.
    ///
    /// ```text
    /// of {"foo":["bar","baz"],"a/b":1}: pointer("/foo/1")     Ok(Some: "baz")
    /// pointer("/a~1b")                                        Ok(Some: 1)
    /// pointer("/foo/01")                                      Ok(None)
    /// pointer("foo")                                          Err(NoSlash)
    /// ```
    pub fn pointer(&self, pointer: &str) -> Result<Option<&Tree>, PointerError>
        ensures ok { IfOk result (λ found. PointsTo pointer.now (tree_view self.now) (option_map (λ t. tree_view t.now) found)) }
        ensures err { IfErr result (λ error. RefusesPointer pointer.now error) }
    {
        let bytes = checked(pointer)?;
        Ok(named(self, bytes))
    }
}

/// The bytes of a text that is a pointer.
pub fn checked(text: &str) -> Result<&[u8], PointerError>
    ensures ok { IfOk result (λ bytes. (names : List (List ℕ)) × IsPointer text.now names × (bytes.now ≡ text.now)) }
    ensures err { IfErr result (λ error. RefusesPointer text.now error) }
{
    let bytes = text.as_bytes();
    check(bytes)?;
    Ok(bytes)
}

/// Refuses a text that is no pointer.
pub fn check(text: &[u8]) -> Result<(), PointerError>
    ensures ok { OnOk result ((begins_pointer text.now ≡ true) × (lone_tilde text.now ≡ None)) }
    ensures err { IfErr result (λ error. IsWrongAt text.now error) }
{
    if !begins_well(text) {
        return Err(PointerError::NoSlash);
    }
    for (i, byte) in text.iter().enumerate() {
        if *byte == b'~' && !is_escape(&text[i + 1..]) {
            return Err(PointerError::LoneTilde(i));
        }
    }
    Ok(())
}

/// Whether the text is empty or begins with a slash.
fn begins_well(text: &[u8]) -> bool
    ensures { result ≡ begins_pointer text.now }
{
    match text {
        [] => true,
        [first, ..] => *first == b'/',
    }
}

/// Whether what stands behind a tilde makes an escape of it.
fn is_escape(behind: &[u8]) -> bool
    ensures { result ≡ zero_or_one behind.now }
{
    match behind {
        [] => false,
        [first, ..] => *first == b'0' || *first == b'1',
    }
}

/// What a text names that is a pointer.
fn named<'t>(tree: &'t Tree, pointer: &[u8]) -> Option<&'t Tree>
    ensures { (names : List (List ℕ)) → IsPointer pointer.now names
        → option_map (λ t. tree_view t.now) result ≡ named_of names (tree_view tree.now) }
{
    let mut found = tree;
    let mut start = 0;
    while start < pointer.len() {
        let token = first_token(&pointer[start + 1..]);
        found = child(found, token)?;
        start += 1 + token.len();
    }
    Some(found)
}

/// The bytes before the first slash, or all.
pub fn first_token(text: &[u8]) -> &[u8]
    ensures { result.now ≡ before_slash text.now }
{
    for (i, byte) in text.iter().enumerate() {
        if *byte == b'/' {
            return &text[..i];
        }
    }
    text
}

/// What a token names directly within a value.
fn child<'t>(tree: &'t Tree, token: &[u8]) -> Option<&'t Tree>
    ensures { option_map (λ t. tree_view t.now) result ≡ child_of (unescaped token.now) (tree_view tree.now) }
{
    match tree {
        Tree::Pairs(members) => member_named(members, token),
        Tree::List(items) => item_named(items, token),
        _ => None,
    }
}

/// The value of the last member whose name a token stands for.
fn member_named<'t>(members: &'t [(String, Tree)], token: &[u8]) -> Option<&'t Tree>
    ensures { option_map (λ t. tree_view t.now) result ≡ last_member (unescaped token.now) (pairs_view members.now) }
{
    let index = last_with_name(members, token)?;
    Some(&members[index].1)
}

/// The index of the last member whose name a token stands for.
pub fn last_with_name(members: &[(String, Tree)], token: &[u8]) -> Option<usize>
    ensures found { MatchOption result
        (last_member (unescaped token.now) (pairs_view members.now) ≡ None)
        (IsLastNamed (unescaped token.now) members.now) }
    ensures within { IfSome result (λ i. i < length members.now) }
{
    for index in (0..members.len()).rev() {
        if stands_for(token, members[index].0.as_bytes()) {
            return Some(index);
        }
    }
    None
}

/// Whether the token stands for this name.
pub fn stands_for(token: &[u8], name: &[u8]) -> bool
    ensures { result ≡ same_bytes name.now (unescaped token.now) }
{
    let mut rest = token;
    for byte in name {
        let Some((first, others)) = first_byte(rest) else {
            return false;
        };
        if *byte != first {
            return false;
        }
        rest = others;
    }
    rest.is_empty()
}

/// The first byte of what a token stands for, and the rest of the token.
fn first_byte(token: &[u8]) -> Option<(u8, &[u8])>
    ensures { MatchOption result
        (token.now ≡ [])
        (λ first. unescaped token.now ≡ first.0 ∷ unescaped first.1.now) }
{
    match token {
        [] => None,
        [b'~', b'0', others @ ..] => Some((b'~', others)),
        [b'~', b'1', others @ ..] => Some((b'/', others)),
        [byte, others @ ..] => Some((*byte, others)),
    }
}

/// The item whose index a token is.
fn item_named<'t>(items: &'t [Tree], token: &[u8]) -> Option<&'t Tree>
    ensures { option_map (λ t. tree_view t.now) result
        ≡ option_and_then (λ i. item_at i (trees_view items.now)) (index (unescaped token.now)) }
{
    let count = items.len();
    let index = index_of(token)?;
    if index < count {
        Some(&items[index])
    } else {
        None
    }
}

/// The index that a token is, where it fits.
pub fn index_of(token: &[u8]) -> Option<usize>
    ensures { MatchOption result
        (IfSome (index token.now) (λ i. 2 ^ 64 ≤ i))
        (λ i. index token.now ≡ Some i) }
{
    match token {
        [] => None,
        [b'0', _, ..] => None,
        _ => value_of(token),
    }
}

/// The value of digits, where it fits; none of other texts.
fn value_of(digits: &[u8]) -> Option<usize>
    ensures { MatchOption result
        (list_all is_digit digits.now ≡ true → 2 ^ 64 ≤ digits_value 0 digits.now)
        (λ n. (list_all is_digit digits.now ≡ true) × (n ≡ digits_value 0 digits.now)) }
{
    let mut value: usize = 0;
    for digit in digits {
        if !digit.is_ascii_digit() {
            return None;
        }
        let tens = value.checked_mul(10)?;
        value = tens.checked_add(usize::from(*digit - b'0'))?;
    }
    Some(value)
}
