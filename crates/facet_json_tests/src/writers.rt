//! Texts of trees to writers that take a few bytes at a time, none, or fail. `write_allocations` has those that take all, bytes and text.

use crate::error_samples::is_displayed;
use crate::expecting::expect_of;
use facet_json::{to_writer_std, to_writer_std_pretty, to_writer_std_with_options};
use facet_json_serializer::SerializeOptions;
use facet_json_tree::{Tree, WriteError};
use std::alloc::{AllocError, Global};
use std::io;
use std::io::{ErrorKind, Write};

/// A list of null and two bytes, which each layout writes in another way.
pub fn sample(alloc: Global) -> Option<Tree> {
    let bytes = Vec::from_slice(alloc, &[1, 255]).ok()?;
    let mut items = Vec::new(alloc);
    items.push(Tree::Null).ok()?;
    items.push(Tree::Bytes(bytes)).ok()?;
    Some(Tree::List(items))
}

const COMPACT: &str = "[null,[1,255]]";

const PRETTY: &str = "[\n  null,\n  [1,255]\n]";

const TABS_AND_HEX: &str = "[\n\tnull,\n\t\"0x01ff\"\n]";

/// A line for each container and tabs, and bytes as hexadecimal digits.
pub fn tabs_and_hex() -> SerializeOptions<'static> {
    SerializeOptions::new().indent("\t").bytes_as_hex()
}

/// A function that writes to a writer.
#[derive(Clone, Copy)]
pub enum Form {
    /// `to_writer_std`
    Compact,
    /// `to_writer_std_pretty`
    Pretty,
    /// `to_writer_std_with_options`
    WithOptions,
}

/// All of them.
pub const FORMS: [Form; 3] = [Form::Compact, Form::Pretty, Form::WithOptions];

/// Writes the tree by this function, in tabs and hexadecimal digits where it takes options.
pub fn write_by<W: Write>(
    form: Form,
    alloc: Global,
    writer: &mut W,
    tree: &Tree,
) -> Result<(), WriteError> {
    match form {
        Form::Compact => to_writer_std(alloc, writer, tree),
        Form::Pretty => to_writer_std_pretty(alloc, writer, tree),
        Form::WithOptions => to_writer_std_with_options(alloc, writer, tree, &tabs_and_hex()),
    }
}

/// What it writes of the sample.
pub fn text_by(form: Form) -> &'static str {
    match form {
        Form::Compact => COMPACT,
        Form::Pretty => PRETTY,
        Form::WithOptions => TABS_AND_HEX,
    }
}

/// Takes at most so many bytes in a write, and fails so in one of them.
#[derive(Drop)]
struct Steps {
    taken: Vec<u8>,
    step: usize,
    fails_at: usize,
    kind: ErrorKind,
    writes: usize,
    flushes: usize,
}

impl Write for Steps {
    fn write(&mut self, buf: &[u8]) -> io::Result<usize> {
        let at = self.writes;
        self.writes = at.saturating_add(1);
        if at == self.fails_at {
            return Err(io::Error::from(self.kind));
        }
        let n = buf.len().min(self.step);
        self.taken.extend_from_slice(&buf[..n])?;
        Ok(n)
    }

    fn flush(&mut self) -> io::Result<()> {
        self.flushes = self.flushes.saturating_add(1);
        Ok(())
    }
}

/// How many bytes are taken in a write, which one fails, how, and how the function ends then.
type Way = (usize, usize, ErrorKind, Option<ErrorKind>);

/// Short and interrupted writes go on; where nothing is taken, that is told.
static WAYS: [Way; 3] = [
    (1, usize::MAX, ErrorKind::Other, None),
    (3, 2, ErrorKind::Interrupted, None),
    (0, usize::MAX, ErrorKind::Other, Some(ErrorKind::WriteZero)),
];

/// Whether the writer failed so.
fn has_failed(answer: &Result<(), WriteError>, kind: Option<ErrorKind>) -> bool {
    match answer {
        Err(WriteError::Io(error)) => kind == Some(error.kind()),
        _ => false,
    }
}

/// Whether the writer took the whole text, and the write that was to fail never came; or took the text's front, and failed so. It is not
/// flushed.
fn has_ended(
    writer: &Steps,
    answer: &Result<(), WriteError>,
    text: &str,
    kind: Option<ErrorKind>,
) -> bool {
    let taken = writer.taken.as_slice();
    let is_right = if answer.is_ok() {
        taken == text.as_bytes() && (kind.is_none() || writer.writes <= writer.fails_at)
    } else {
        text.as_bytes().starts_with(taken) && has_failed(answer, kind)
    };
    is_right && writer.flushes == 0
}

/// Whether the function writes so to a writer of this way.
fn ends(alloc: Global, form: Form, tree: &Tree, way: &Way) -> bool {
    let mut writer = Steps {
        taken: Vec::new(alloc),
        step: way.0,
        fails_at: way.1,
        kind: way.2,
        writes: 0,
        flushes: 0,
    };
    let answer = write_by(form, alloc, &mut writer, tree);
    has_ended(&writer, &answer, text_by(form), way.3)
}

/// Whether a writer with too little room has failed, and took the text's first bytes.
fn fails_where_room_ends(alloc: Global, form: Form, tree: &Tree) -> bool {
    let mut room = [0; 4];
    let mut left = room.as_mut_slice();
    let answer = write_by(form, alloc, &mut left, tree);
    has_failed(&answer, Some(ErrorKind::WriteZero)) && text_by(form).as_bytes().starts_with(&room)
}

/// Whether the function writes so to a writer of each way, to one that fails at whichever write, and to one with too little room.
fn ends_each_way(alloc: Global, form: Form, tree: &Tree) -> bool {
    for way in &WAYS {
        if !ends(alloc, form, tree, way) {
            return false;
        }
    }
    for at in 0..40 {
        let way = (3, at, ErrorKind::BrokenPipe, Some(ErrorKind::BrokenPipe));
        if !ends(alloc, form, tree, &way) {
            return false;
        }
    }
    fails_where_room_ends(alloc, form, tree)
}

/// Whether the function writes the sample so, each way.
fn holds(alloc: Global, form: Form) -> bool {
    match sample(alloc) {
        Some(tree) => ends_each_way(alloc, form, &tree),
        None => false,
    }
}

/// Whether the refusal has this number and is displayed so.
fn is_told(alloc: Global, refusal: &WriteError, code: u8, message: &str) -> bool {
    refusal.code() == code && is_displayed(alloc, refusal, message) == Some(true)
}

/// Whether each refusal is told.
fn are_told(alloc: Global) -> bool {
    let failed = WriteError::from(io::Error::from(ErrorKind::BrokenPipe));
    is_told(alloc, &WriteError::Memory, 1, "out of memory")
        && is_told(alloc, &WriteError::from(AllocError), 1, "out of memory")
        && is_told(alloc, &failed, 2, "I/O error: broken pipe")
}

#[test]
fn each_function_writes_to_each_writer(rt: HostRuntime) {
    for form in FORMS {
        expect_of(&rt, holds(rt.alloc(), form), text_by(form));
    }
    assert!(rt; are_told(rt.alloc()));
}
