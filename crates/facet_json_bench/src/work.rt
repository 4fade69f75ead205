//! What can be done with a text, and the names of it.

use crate::accounts::{accounts_of, typed, typed_lent, typed_text};
use crate::derives::{List, Listed, Side, derive, derive_text, list_of};
use crate::lines::log;
use crate::passes::{events, scanned, skip, strict_events, strict_trusted, tokens, trusted};
use crate::seen::Seen;
use crate::trees::{checked, document, document_of, document_text, text, tree, tree_of};
use facet_json::scanner::Mode;
use facet_json::{Document, Tree};
use facet_json_examples::accounts::Account;
use std::alloc::Global;

/// A work.
#[derive(Clone, Copy)]
pub enum Work {
    /// Each token, cut by its position.
    Tokens,
    /// Each token, cut by a scanner.
    Scanner,
    /// The document as one value.
    Skip,
    /// Each event, from bytes.
    Events,
    /// Each event, from a text.
    Trusted,
    /// Each event in strict mode, from bytes.
    StrictEvents,
    /// Each event in strict mode, from a text.
    StrictTrusted,
    /// A document of nodes is read and dropped.
    Document,
    /// Whether there is a document.
    Check,
    /// A tree is read and dropped.
    Tree,
    /// A tree is written.
    Text,
    /// A document of nodes is written.
    DocumentText,
    /// A list of accounts is read and dropped.
    Typed,
    /// Whom to write to of a list of accounts is read and dropped.
    TypedLent,
    /// A list of accounts is written.
    TypedText,
    /// A list of a type with serde's derives is read and dropped.
    Derive(Listed, Side),
    /// A list of a type with serde's derives is written.
    DeriveText(Listed, Side),
    /// One member of each line is found.
    Log,
}

/// A name of a work.
pub type Named = (&'static str, Work);

/// The works that any document is passed by.
pub static GENERAL: [Named; 10] = [
    ("tokens", Work::Tokens),
    ("scanner", Work::Scanner),
    ("skip", Work::Skip),
    ("events", Work::Events),
    ("trusted", Work::Trusted),
    ("document", Work::Document),
    ("check", Work::Check),
    ("tree", Work::Tree),
    ("text", Work::Text),
    ("document-text", Work::DocumentText),
];

/// The works of a document of one type; of a type with serde's derives by the toolchain's `serde_json` where the name ends so.
static OF_TYPES: [Named; 20] = [
    ("typed", Work::Typed),
    ("typed-lent", Work::TypedLent),
    ("typed-text", Work::TypedText),
    ("log", Work::Log),
    ("derive", Work::Derive(Listed::Accounts, Side::Ours)),
    (
        "derive-text",
        Work::DeriveText(Listed::Accounts, Side::Ours),
    ),
    ("derive-kit", Work::Derive(Listed::Accounts, Side::Kit)),
    (
        "derive-text-kit",
        Work::DeriveText(Listed::Accounts, Side::Kit),
    ),
    ("points", Work::Derive(Listed::Points, Side::Ours)),
    ("points-text", Work::DeriveText(Listed::Points, Side::Ours)),
    ("points-kit", Work::Derive(Listed::Points, Side::Kit)),
    (
        "points-text-kit",
        Work::DeriveText(Listed::Points, Side::Kit),
    ),
    ("shapes", Work::Derive(Listed::Shapes, Side::Ours)),
    ("shapes-text", Work::DeriveText(Listed::Shapes, Side::Ours)),
    ("shapes-kit", Work::Derive(Listed::Shapes, Side::Kit)),
    (
        "shapes-text-kit",
        Work::DeriveText(Listed::Shapes, Side::Kit),
    ),
    ("outlines", Work::Derive(Listed::Outlines, Side::Ours)),
    (
        "outlines-text",
        Work::DeriveText(Listed::Outlines, Side::Ours),
    ),
    ("outlines-kit", Work::Derive(Listed::Outlines, Side::Kit)),
    (
        "outlines-text-kit",
        Work::DeriveText(Listed::Outlines, Side::Kit),
    ),
];

/// The works that are done in strict mode too.
static STRICT: [Named; 2] = [
    ("events", Work::StrictEvents),
    ("trusted", Work::StrictTrusted),
];

/// The work of this name.
pub fn work_of(name: &str) -> Option<Work> {
    named(&GENERAL, name).or(named(&OF_TYPES, name))
}

/// The work of this name in strict mode, where there is one.
pub fn strict_work_of(name: &str) -> Option<Work> {
    named(&STRICT, name)
}

/// The work of this name among those.
fn named(works: &[Named], name: &str) -> Option<Work> {
    for (known, work) in works {
        if *known == name {
            return Some(*work);
        }
    }
    None
}

/// What is to be written.
#[derive(Drop)]
pub enum Value<'i> {
    /// A tree.
    Tree(Tree),
    /// A document of nodes.
    Document(Document<'i>),
    /// Accounts.
    Accounts(Vec<Account>),
    /// Items of a type with serde's derives, and which crate writes them.
    List(List, Side),
}

/// What is to be done, and with what.
#[derive(Drop)]
pub struct Order<'i> {
    /// The work.
    work: Work,
    /// What may stand between the input's tokens.
    mode: Mode,
    /// The document.
    input: &'i str,
    /// The value, where one is to be written.
    value: Option<Value<'i>>,
}

impl<'i> Order<'i> {
    /// The order to do this with this input: what is to be written is read here.
    pub fn new(alloc: Global, work: Work, mode: Mode, input: &'i str) -> Order<'i> {
        Order {
            work,
            mode,
            input,
            value: value_of(alloc, work, mode, input.as_bytes()),
        }
    }

    /// Does it once, and returns what was passed, or `None` where the input is refused.
    pub fn follow(&self, alloc: Global) -> Option<Seen> {
        let input = self.input.as_bytes();
        match self.work {
            Work::Tokens => tokens(input, self.mode),
            Work::Scanner => scanned(input, self.mode),
            Work::Skip => skip(alloc, input, self.mode),
            Work::Events => events(alloc, input, self.mode),
            Work::Trusted => trusted(alloc, self.input, self.mode),
            Work::StrictEvents => strict_events(alloc, input),
            Work::StrictTrusted => strict_trusted(alloc, self.input),
            Work::Document => document(alloc, input, self.mode),
            Work::Check => checked(alloc, input, self.mode),
            Work::Tree => tree(alloc, input, self.mode),
            Work::Typed => typed(alloc, input, self.mode),
            Work::TypedLent => typed_lent(alloc, input, self.mode),
            Work::Log => log(alloc, input),
            Work::Derive(listed, side) => derive(alloc, input, listed, side),
            Work::Text | Work::DocumentText | Work::TypedText | Work::DeriveText(_, _) => {
                match &self.value {
                    Some(value) => value_text(alloc, value),
                    None => None,
                }
            }
        }
    }
}

/// The value of the document that the work writes, where it writes one.
fn value_of<'i>(alloc: Global, work: Work, mode: Mode, input: &'i [u8]) -> Option<Value<'i>> {
    match work {
        Work::Text => Some(Value::Tree(tree_of(alloc, input, mode)?)),
        Work::DocumentText => Some(Value::Document(document_of(alloc, input, mode)?)),
        Work::TypedText => Some(Value::Accounts(accounts_of(alloc, input, mode)?)),
        Work::DeriveText(listed, side) => Some(Value::List(list_of(alloc, input, listed)?, side)),
        _ => None,
    }
}

/// The value is written.
fn value_text(alloc: Global, value: &Value<'_>) -> Option<Seen> {
    match value {
        Value::Tree(tree) => text(alloc, tree),
        Value::Document(document) => document_text(alloc, document),
        Value::Accounts(accounts) => typed_text(alloc, accounts),
        Value::List(list, side) => derive_text(alloc, list, *side),
    }
}
