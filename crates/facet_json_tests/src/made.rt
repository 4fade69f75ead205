//! Trees that are written down where they are needed, by `tree!`: each is the tree of its text.

use crate::documents::is_of;
use facet_json::{Tree, tree};
use std::alloc::{AllocError, Global};
use std::process::Abort;

/// Whole numbers of each type with a sign.
fn signed(alloc: Global) -> Result<Tree, AllocError> {
    tree!(in alloc; [-1i8, 2i16, -3, 4i64, 0,])
}

/// Literals of each kind that may stand in a tree.
fn of_literals(alloc: Global) -> Result<Tree, AllocError> {
    tree!(in alloc; {
        "nothing": null,
        "truth": [true, false],
        "signed": signed(alloc)?,
    })
}

/// Names and texts that are expressions, and a name that comes twice.
fn of_names(alloc: Global, name: &str) -> Result<Tree, AllocError> {
    tree!(in alloc; {
        "name": name,
        (name): {"none": [], "empty": {}},
        "name": String::from_str(alloc, "twice")?,
    })
}

/// Whole numbers of each type without a sign.
fn ids(alloc: Global) -> Result<Tree, AllocError> {
    tree!(in alloc; [1u8, 2u16, 3u32, 4u64, 5usize])
}

/// Values that may be null.
fn nullable(alloc: Global) -> Result<Tree, AllocError> {
    tree!(in alloc; [Some(1u8), None::<bool>, [null]])
}

/// A tree that is moved and one that is copied.
fn of_trees(alloc: Global, moved: Tree, copied: &Tree, perhaps: Tree) -> Result<Tree, AllocError> {
    tree!(in alloc; {
        "ids": moved,
        "again": copied,
        "perhaps": perhaps,
    })
}

/// A value alone.
fn seven(alloc: Global) -> Result<Tree, AllocError> {
    tree!(in alloc; 7u8)
}

/// The text of `of_literals`.
const LITERALS: &str = r#"{"nothing":null,"truth":[true,false],"signed":[-1,2,-3,4,0]}"#;

/// The text of `of_names`.
const NAMES: &str = r#"{"name":"Ada","Ada":{"none":[],"empty":{}},"name":"twice"}"#;

/// The text of `of_trees`.
const TREES: &str = r#"{"ids":[1,2,3,4,5],"again":[1,2,3,4,5],"perhaps":[1,null,[null]]}"#;

/// Fails where a tree is not the one of this text.
fn expect_made(rt: &impl Abort, alloc: Global, made: Result<Tree, AllocError>, text: &str) {
    let tree = made.expect(rt, "memory");
    assert!(rt; is_of(alloc, &tree, text) == Some(true), "{text}");
}

#[test]
fn trees_are_written_down(rt: HostRuntime) {
    let alloc = rt.alloc();
    expect_made(&rt, alloc, of_literals(alloc), LITERALS);
    expect_made(&rt, alloc, of_names(alloc, "Ada"), NAMES);
    let copied = ids(alloc).expect(&rt, "memory");
    let moved = ids(alloc).expect(&rt, "memory");
    let perhaps = nullable(alloc).expect(&rt, "memory");
    expect_made(&rt, alloc, of_trees(alloc, moved, &copied, perhaps), TREES);
    expect_made(&rt, alloc, seven(alloc), "7");
    expect_made(&rt, alloc, tree!(in alloc; null), "null");
}
