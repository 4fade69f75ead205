//! The functions that read a value of a type, each by its name.

use facet_format::DeserializeError;
use facet_json::{
    Facet, Language, ReadOptions, from_slice, from_slice_borrowed, from_slice_borrowed_jsonc,
    from_slice_jsonc, from_slice_prefix, from_slice_strict, from_slice_with_options, from_str,
    from_str_borrowed, from_str_borrowed_jsonc, from_str_jsonc, from_str_prefix, from_str_strict,
    from_str_with_options,
};
use std::alloc::Global;

/// A way to read a value of a type.
#[derive(Clone, Copy)]
pub enum Entry {
    /// `from_slice`
    Slice,
    /// `from_slice_jsonc`
    SliceJsonc,
    /// `from_slice_prefix`
    SlicePrefix,
    /// `from_slice_strict`
    SliceStrict,
    /// `from_str`
    Str,
    /// `from_str_jsonc`
    StrJsonc,
    /// `from_str_prefix`
    StrPrefix,
    /// `from_str_strict`
    StrStrict,
    /// The type's own `read_owned`, by a parser
    Owned,
    /// `from_slice_borrowed`
    SliceBorrowed,
    /// `from_slice_borrowed_jsonc`
    SliceBorrowedJsonc,
    /// `from_str_borrowed`
    StrBorrowed,
    /// `from_str_borrowed_jsonc`
    StrBorrowedJsonc,
    /// The type's own `read`, by a parser
    Borrowed,
    /// `from_slice_with_options`, in a language, where the value may borrow or not
    SliceWith(Language, bool),
    /// `from_str_with_options`
    StrWith(Language, bool),
}

/// Some of them.
#[derive(Clone, Copy)]
pub enum By {
    /// All
    Each,
    /// Those that read more than RFC 8259 has
    Lenient,
    /// Those that read RFC 8259 alone
    Strict,
    /// Those that read comments
    Comments,
    /// Those that borrow nothing
    Owned,
    /// Those that may borrow
    Borrowed,
    /// Those of them that read comments
    BorrowedComments,
    /// Those that may borrow and read RFC 8259 alone
    BorrowedStrict,
}

/// All of them, and what they are called.
#[rattlefmt::skip]
pub static ENTRIES: [(Entry, &str); 26] = [
    (Entry::Slice, "from_slice"),
    (Entry::SliceJsonc, "from_slice_jsonc"),
    (Entry::SlicePrefix, "from_slice_prefix"),
    (Entry::Str, "from_str"),
    (Entry::StrJsonc, "from_str_jsonc"),
    (Entry::StrPrefix, "from_str_prefix"),
    (Entry::Owned, "read_owned"),
    (Entry::SliceStrict, "from_slice_strict"),
    (Entry::StrStrict, "from_str_strict"),
    (Entry::SliceBorrowed, "from_slice_borrowed"),
    (Entry::SliceBorrowedJsonc, "from_slice_borrowed_jsonc"),
    (Entry::StrBorrowed, "from_str_borrowed"),
    (Entry::StrBorrowedJsonc, "from_str_borrowed_jsonc"),
    (Entry::Borrowed, "read"),
    (Entry::SliceWith(Language::Plain, false), "slice_with:plain"),
    (Entry::SliceWith(Language::Plain, true), "slice_with:plain:borrowed"),
    (Entry::SliceWith(Language::Jsonc, false), "slice_with:jsonc"),
    (Entry::SliceWith(Language::Jsonc, true), "slice_with:jsonc:borrowed"),
    (Entry::SliceWith(Language::Strict, false), "slice_with:strict"),
    (Entry::SliceWith(Language::Strict, true), "slice_with:strict:borrowed"),
    (Entry::StrWith(Language::Plain, false), "str_with:plain"),
    (Entry::StrWith(Language::Plain, true), "str_with:plain:borrowed"),
    (Entry::StrWith(Language::Jsonc, false), "str_with:jsonc"),
    (Entry::StrWith(Language::Jsonc, true), "str_with:jsonc:borrowed"),
    (Entry::StrWith(Language::Strict, false), "str_with:strict"),
    (Entry::StrWith(Language::Strict, true), "str_with:strict:borrowed"),
];

/// Those of the entries that the word names.
pub fn by_of(word: &str) -> Option<By> {
    match word {
        "each" => Some(By::Each),
        "lenient" => Some(By::Lenient),
        "strict" => Some(By::Strict),
        "comments" => Some(By::Comments),
        "owned" => Some(By::Owned),
        "borrowed" => Some(By::Borrowed),
        "borrowed_comments" => Some(By::BorrowedComments),
        "borrowed_strict" => Some(By::BorrowedStrict),
        _ => None,
    }
}

/// The entry of this name.
pub fn entry_of(word: &str) -> Option<Entry> {
    for (entry, name) in &ENTRIES {
        if *name == word {
            return Some(*entry);
        }
    }
    None
}

/// Which language an entry reads, and whether it may borrow.
fn reading_of(entry: &Entry) -> (Language, bool) {
    match entry {
        Entry::Slice | Entry::SlicePrefix | Entry::Str | Entry::StrPrefix | Entry::Owned => {
            (Language::Plain, false)
        }
        Entry::SliceJsonc | Entry::StrJsonc => (Language::Jsonc, false),
        Entry::SliceStrict | Entry::StrStrict => (Language::Strict, false),
        Entry::SliceBorrowed | Entry::StrBorrowed | Entry::Borrowed => (Language::Plain, true),
        Entry::SliceBorrowedJsonc | Entry::StrBorrowedJsonc => (Language::Jsonc, true),
        Entry::SliceWith(language, borrows) | Entry::StrWith(language, borrows) => {
            (*language, *borrows)
        }
    }
}

/// Whether an entry is one of these.
pub fn is_one(entry: &Entry, by: By) -> bool {
    let (language, borrows) = reading_of(entry);
    let is_strict = matches!(language, Language::Strict);
    let has_comments = matches!(language, Language::Jsonc);
    match by {
        By::Each => true,
        By::Lenient => !is_strict,
        By::Strict => is_strict && !borrows,
        By::Comments => has_comments,
        By::Owned => !borrows,
        By::Borrowed => borrows && !is_strict,
        By::BorrowedComments => borrows && has_comments,
        By::BorrowedStrict => borrows && is_strict,
    }
}

/// Whether an entry takes a depth.
pub fn takes_depth(entry: &Entry) -> bool {
    matches!(entry, Entry::SliceWith(..) | Entry::StrWith(..))
}

/// The value, without where its document ends.
fn alone<'t, T: Drop>(
    answer: Result<(T, usize), DeserializeError<'t>>,
) -> Result<T, DeserializeError<'t>> {
    let (value, _) = answer?;
    Ok(value)
}

/// What an entry function reads of the text, within the depth where it takes one. The type's own readers take a parser, and the caller
/// makes it.
pub fn read_by<'t, 'de, T: Facet<'de>>(
    alloc: Global,
    entry: &Entry,
    depth: Option<usize>,
    text: &'de str,
) -> Result<T, DeserializeError<'t>> {
    let bytes = text.as_bytes();
    let (language, borrows) = reading_of(entry);
    let options = ReadOptions {
        language,
        borrows,
        depth,
    };
    match entry {
        Entry::Slice | Entry::Owned => from_slice(alloc, bytes),
        Entry::SliceJsonc => from_slice_jsonc(alloc, bytes),
        Entry::SlicePrefix => alone(from_slice_prefix(alloc, bytes)),
        Entry::SliceStrict => from_slice_strict(alloc, bytes),
        Entry::Str => from_str(alloc, text),
        Entry::StrJsonc => from_str_jsonc(alloc, text),
        Entry::StrPrefix => alone(from_str_prefix(alloc, text)),
        Entry::StrStrict => from_str_strict(alloc, text),
        Entry::SliceBorrowed | Entry::Borrowed => from_slice_borrowed(alloc, bytes),
        Entry::SliceBorrowedJsonc => from_slice_borrowed_jsonc(alloc, bytes),
        Entry::StrBorrowed => from_str_borrowed(alloc, text),
        Entry::StrBorrowedJsonc => from_str_borrowed_jsonc(alloc, text),
        Entry::SliceWith(..) => from_slice_with_options(alloc, bytes, options),
        Entry::StrWith(..) => from_str_with_options(alloc, text, options),
    }
}
