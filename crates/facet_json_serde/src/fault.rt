//! What is wrong, without borrowed texts, so that generic code can hold it.

ghost use Rattle.std.specs.Prelude.{◌≡◌};
ghost use Rattle.facet_json_serde.specs.Messages.{detail_text};

use facet_format::Span;
use std::alloc::Global;
use std::fmt;
use std::fmt::InlineText;

/// The first bytes of a name or of a message, at most 32: where it is longer, cut between characters, with dots in place of the last ones.
#[derive(Clone, Copy, Drop)]
pub struct Detail(InlineText<32>);

impl Detail {
    /// What of the text has room.
    fn of(text: &str) -> Detail {
        Detail(InlineText::of(text))
    }

    /// The text.
    pub fn as_str(&self) -> &str
        ensures { result.now ≡ detail_text self.now }
    {
        self.0.as_str()
    }
}

impl fmt::Debug for Detail {
    fn fmt<W: fmt::Write>(&self, f: &mut fmt::Formatter<W>) -> fmt::Result {
        fmt::Debug::fmt(self.as_str(), f)
    }
}

/// What a step was to read, or what came in its place.
#[derive(Clone, Copy, Drop)]
pub(crate) enum Sort {
    /// `true` or `false`.
    Bool,
    /// A number that a `u8` holds.
    U8,
    /// A number that an `i64` holds.
    I64,
    /// A number that a `u64` holds.
    U64,
    /// A number that an `i128` holds.
    I128,
    /// A number that a `u128` holds.
    U128,
    /// A number that is read as an `f32`.
    F32,
    /// A number that is read as an `f64`.
    F64,
    /// A whole number.
    Integer,
    /// A number with a fraction or an exponent.
    Decimal,
    /// `null`.
    Null,
    /// A string.
    String,
    /// A list.
    Array,
    /// A map.
    Object,
    /// A key of a map.
    Key,
    /// The end of a list or a map.
    End,
    /// A value.
    Value,
    /// Nothing more.
    EndOfInput,
}

impl Sort {
    /// Its name.
    pub(crate) fn name<'t>(self) -> &'t str {
        match self {
            Sort::Bool => "bool",
            Sort::U8 => "u8",
            Sort::I64 => "i64",
            Sort::U64 => "u64",
            Sort::I128 => "i128",
            Sort::U128 => "u128",
            Sort::F32 => "f32",
            Sort::F64 => "f64",
            Sort::Integer => "integer",
            Sort::Decimal => "decimal",
            Sort::Null => "null",
            Sort::String => "string",
            Sort::Array => "array",
            Sort::Object => "object",
            Sort::Key => "key",
            Sort::End => "end",
            Sort::Value => "value",
            Sort::EndOfInput => "end of input",
        }
    }
}

/// What is wrong.
#[derive(Clone, Copy, Drop)]
pub(crate) enum ReadFaultKind {
    /// The parser refused, and repeats it when it is asked.
    Parser,
    /// The document is over.
    Ended,
    /// This was wanted, and that came.
    Mismatch(Sort, Sort),
    /// A number that this cannot hold.
    OutOfRange(Sort),
    /// More than white space stands after the document.
    Trailing,
    /// A field has no value.
    MissingField,
    /// A field comes twice.
    DuplicateField,
    /// A field that the type does not have.
    UnknownField,
    /// A variant that the type does not have.
    UnknownVariant,
    /// A list of another length.
    InvalidLength,
    /// A value that the type does not have.
    InvalidValue,
    /// What a reader of a type says.
    Custom,
    /// An allocation failed.
    Memory,
}

/// What is wrong, and where: the error of `Json`'s steps. `Error` is the same with its words: `Json::told` gives it.
pub struct ReadFault {
    pub(crate) kind: ReadFaultKind,
    pub(crate) span: Option<Span>,
    /// The field that it is about, or what a type says: boxed, since each step of each type hands the fault on.
    pub(crate) detail: Option<Box<Detail>>,
}

/// Its name alone: `Json::told` has the words.
impl fmt::Debug for ReadFault {
    fn fmt<W: fmt::Write>(&self, f: &mut fmt::Formatter<W>) -> fmt::Result {
        f.debug_struct("ReadFault").finish_non_exhaustive()
    }
}

/// By a call, so that a proof about a step need not take its fault apart.
impl Drop for ReadFault {
    fn drop(self) {
        let ReadFault {
            kind: _,
            span: _,
            detail: _,
        } = self;
    }
}

impl ReadFault {
    /// The fault at these bytes of the input.
    #[cold]
    #[inline(never)]
    pub(crate) fn at(kind: ReadFaultKind, span: Span) -> ReadFault {
        ReadFault {
            kind,
            span: Some(span),
            detail: None,
        }
    }

    /// The fault that is about no bytes of an input.
    #[cold]
    #[inline(never)]
    pub(crate) fn of(kind: ReadFaultKind) -> ReadFault {
        ReadFault {
            kind,
            span: None,
            detail: None,
        }
    }

    /// The fault with this detail; a refused allocation where there is no memory to say it.
    pub(crate) fn about(self, alloc: Global, detail: &str) -> ReadFault {
        match Box::new(alloc, Detail::of(detail)) {
            Ok(detail) => ReadFault {
                kind: self.kind,
                span: self.span,
                detail: Some(detail),
            },
            Err(_) => ReadFault::of(ReadFaultKind::Memory),
        }
    }

    /// What it is about.
    pub(crate) fn detail(&self) -> Detail {
        match &self.detail {
            Some(detail) => **detail,
            None => Detail::of(""),
        }
    }

    /// Whether no other reading of the same input can succeed.
    pub(crate) fn is_final(&self) -> bool {
        matches!(
            self.kind,
            ReadFaultKind::Parser | ReadFaultKind::Ended | ReadFaultKind::Memory
        )
    }
}

/// Why a writer refuses a step.
#[derive(Debug, Clone, Copy, Drop)]
pub enum Refusal {
    /// No value goes on with it.
    NotOneValue,
    /// A key that is no string.
    KeyMustBeAString,
    /// A value that is no map, where its members were to stand in the map around it, or a number that is none.
    InvalidValue,
    /// An allocation failed.
    OutOfMemory,
}

/// The error of `JsonWriter`'s steps: small, since each step of each type hands it on. `Error` is the same with its words, by
/// `Error::from`.
#[derive(Debug)]
pub enum WriteFault {
    /// The writer refuses.
    Refused(Refusal),
    /// A type refuses, and says why.
    Custom(Box<Detail>),
}

/// By a call, so that a proof about a step need not take its fault apart.
impl Drop for WriteFault {
    fn drop(self) {
        match self {
            WriteFault::Refused(_) => {}
            WriteFault::Custom(_) => {}
        }
    }
}

impl WriteFault {
    /// A type's own message.
    #[cold]
    #[inline(never)]
    pub(crate) fn custom(alloc: Global, message: &str) -> WriteFault {
        match Box::new(alloc, Detail::of(message)) {
            Ok(detail) => WriteFault::Custom(detail),
            Err(_) => WriteFault::Refused(Refusal::OutOfMemory),
        }
    }
}

impl From<Refusal> for WriteFault {
    fn from(why: Refusal) -> WriteFault {
        WriteFault::Refused(why)
    }
}
