//! Looks at a tree, and changes of it.

use crate::marks::mark;
use crate::told::Told;
use crate::trees::{tell_tree, text_displayed, tree_of};
use facet_json::{NotStored, PointerError, Tree, tree_from_slice};
use std::alloc::{AllocError, Global};
use std::mem;

/// Why a call is refused.
#[derive(Drop)]
enum Refusal {
    /// A value was not stored.
    Stored(NotStored),
    /// A text is no pointer.
    Pointer(PointerError),
    /// Memory was lacking.
    Memory,
    /// No call has this name.
    NoCall,
}

impl From<NotStored> for Refusal {
    fn from(error: NotStored) -> Refusal {
        Refusal::Stored(error)
    }
}

impl From<PointerError> for Refusal {
    fn from(error: PointerError) -> Refusal {
        Refusal::Pointer(error)
    }
}

impl From<AllocError> for Refusal {
    fn from(_error: AllocError) -> Refusal {
        Refusal::Memory
    }
}

/// Tells what the call answers of the tree on the text's first line, and what that becomes, where it changes. The call's argument stands on
/// the lines after it.
pub fn answer_change(alloc: Global, call: &str, text: &str, told: &mut Told) {
    let (document, argument) = text.split_once('\n').unwrap_or((text, ""));
    match tree_of(alloc, document) {
        Some(tree) => tell_change(alloc, &tree, call, argument, told),
        None => told.say("NO TREE"),
    }
    told.say("\n");
}

/// Tells what the call answers of a copy of the tree, and what that becomes, where it changes. The call's requests for memory stand between
/// two marks.
fn tell_change(alloc: Global, before: &Tree, call: &str, argument: &str, told: &mut Told) {
    let Ok(mut tree) = before.clone(alloc) else {
        return told.lack();
    };
    mark(alloc);
    let answer = changed(alloc, &mut tree, call, argument);
    mark(alloc);
    match answer {
        Ok(Some(value)) => tell_tree(alloc, &value, told),
        Ok(None) => told.say("None"),
        Err(refusal) => tell_refusal(alloc, refusal, told),
    }
    if !tree.is_same(before) {
        told.say("; ");
        tell_tree(alloc, &tree, told);
    }
}

/// Makes the call, whose argument is a name, a pointer, a patch or an index. What is stored is `false`.
fn changed(
    alloc: Global,
    tree: &mut Tree,
    call: &str,
    argument: &str,
) -> Result<Option<Tree>, Refusal> {
    match call {
        "clone" => copied(alloc, Some(tree)),
        "display" => displayed(alloc, tree),
        "get" => copied(alloc, tree.get(argument)),
        "get_mut" => Ok(taken(tree.get_mut(argument))),
        "pointer" => copied(alloc, tree.pointer(argument)?),
        "pointer_mut" => Ok(taken(tree.pointer_mut(argument)?)),
        "insert" => Ok(tree.insert(alloc, argument, Tree::Bool(false))?),
        "get_or_insert" => {
            let lent = tree.get_or_insert(alloc, argument, Tree::Bool(false))?;
            Ok(taken(Some(lent)))
        }
        "remove" => Ok(tree.remove(argument)),
        "merge_patch" => merged(alloc, tree, argument),
        "sort_keys" => {
            tree.sort_keys(alloc)?;
            Ok(None)
        }
        "push" => {
            tree.push(Tree::Bool(false))?;
            Ok(None)
        }
        _ => match argument.parse() {
            Ok(index) => item_changed(alloc, tree, call, index),
            Err(_) => Err(Refusal::NoCall),
        },
    }
}

/// Makes a call whose argument is an index.
fn item_changed(
    alloc: Global,
    tree: &mut Tree,
    call: &str,
    index: usize,
) -> Result<Option<Tree>, Refusal> {
    match call {
        "item" => copied(alloc, tree.item(index)),
        "item_mut" => Ok(taken(tree.item_mut(index))),
        "remove_item" => Ok(tree.remove_item(index)),
        _ => Err(Refusal::NoCall),
    }
}

/// A copy of the value, where there is one; none where the copy is another value.
fn copied(alloc: Global, value: Option<&Tree>) -> Result<Option<Tree>, Refusal> {
    let Some(value) = value else {
        return Ok(None);
    };
    let copy = value.clone(alloc)?;
    if copy.is_same(value) && copy == *value {
        Ok(Some(copy))
    } else {
        Ok(None)
    }
}

/// The text of the tree as it is displayed, as a value.
fn displayed(alloc: Global, tree: &Tree) -> Result<Option<Tree>, Refusal> {
    match text_displayed(alloc, tree) {
        Some(text) => Ok(Some(Tree::from(text))),
        None => Err(Refusal::Memory),
    }
}

/// The value that is lent, which becomes `null`.
fn taken(lent: Option<&mut Tree>) -> Option<Tree> {
    match lent {
        Some(value) => Some(mem::replace(value, Tree::Null)),
        None => None,
    }
}

/// Merges the patch of this document.
fn merged(alloc: Global, tree: &mut Tree, patch: &str) -> Result<Option<Tree>, Refusal> {
    match tree_from_slice(alloc, patch.as_bytes()) {
        Ok(patch) => tree.merge_patch(alloc, &patch)?,
        Err(_) => return Err(Refusal::Memory),
    }
    Ok(None)
}

/// Tells why a call is refused, with the value that comes back, or the place of what is wrong.
fn tell_refusal(alloc: Global, refusal: Refusal, told: &mut Told) {
    match refusal {
        Refusal::Stored(error) => {
            told.say(match &error {
                NotStored::WrongKind(_) => "WrongKind ",
                NotStored::Memory(_) => "Memory ",
            });
            tell_tree(alloc, &error.into_value(), told);
        }
        Refusal::Pointer(error) => tell_no_pointer(error, told),
        Refusal::Memory => told.say("AllocError"),
        Refusal::NoCall => told.say("NO CALL"),
    }
}

/// Tells why a text is no pointer, and where.
pub fn tell_no_pointer(error: PointerError, told: &mut Told) {
    told.show(&error);
    told.say(" at ");
    told.show(&error.offset());
}
