//! Events, in which a document is read: a parser gives them one by one, each with the range of bytes that it comes from.

ghost use Rattle.std.specs.Prelude.{◌≡◌, true, IfOk, MatchResult, ◌+◌, ◌-◌, ◌^◌, ◌<◌, min};
ghost use Rattle.facet_format.specs.Event.{owned, is_owned, is_made, holds_made};
ghost use Rattle.facet_format.specs.HeldText.{text_of};
ghost use Rattle.facet_format.specs.Views.{scalar_value_of, event_kind_of, event_of, span_of};

use crate::decimal::Decimal;
use std::alloc::{AllocError, Global};
use std::borrow::CowStr;

/// A range of bytes of the input: its offset and its length, both in bytes.
#[derive(Debug, Clone, Copy, PartialEq, Eq)]
pub struct Span {
    /// The offset of the first byte.
    pub offset: usize,
    /// The number of bytes.
    pub len: usize,
}

impl Span {
    /// The range of `len` bytes from `offset` on.
    #[inline(always)]
    pub fn new(offset: usize, len: usize) -> Span
        ensures offset { result.offset ≡ offset }
        ensures len { result.len ≡ len }
    {
        Span { offset, len }
    }

    /// The offset after the last byte; the greatest offset, 2^64 - 1, where that is beyond all offsets. The span of a token,
    /// an event or a refusal lies within its input, so its end is an offset.
    ///
    /// ```text
    /// Span::new(3, 4).end()           7
    /// Span::new(3, usize::MAX).end()  usize::MAX
    /// ```
    #[inline(always)]
    pub fn end(self) -> usize
        ensures end { result ≡ min (self.offset + self.len) (2 ^ 64 - 1) }
        ensures fits { self.offset + self.len < 2 ^ 64 → result ≡ self.offset + self.len }
    {
        self.offset.saturating_add(self.len)
    }
}

/// What a container is in the text that it stands in.
#[derive(Debug, Clone, Copy, PartialEq, Eq)]
pub enum ContainerKind {
    /// Pairs of a name and a value.
    Object,
    /// Values in order.
    Array,
}

/// Where a field's name stands.
#[derive(Debug, Clone, Copy, PartialEq, Eq)]
pub enum FieldLocationHint {
    /// Before the value, as the key of a pair.
    KeyValue,
}

/// The name of a field, and its place.
#[derive(Debug, PartialEq, Drop)]
pub struct FieldKey<'a> {
    /// The name.
    pub name: CowStr<'a>,
    /// Where it stands.
    pub hint: FieldLocationHint,
}

impl<'a> FieldKey<'a> {
    /// The field of this name, which stands there.
    #[inline(always)]
    pub fn new(name: CowStr<'a>, hint: FieldLocationHint) -> FieldKey<'a>
        ensures name { text_of result.name ≡ text_of name.entry }
        ensures hint { result.hint ≡ hint }
    {
        FieldKey { name, hint }
    }

    /// Copies the field, its name too where that is owned.
    fn copy(&self, alloc: Global) -> Result<FieldKey<'a>, AllocError>
        ensures { MatchResult result
            (λ copy. text_of copy.name ≡ text_of self.now.name)
            (λ _. is_owned (text_of self.now.name) ≡ true) }
    {
        let name = copy_text(&self.name, alloc)?;
        Ok(FieldKey {
            name,
            hint: self.hint,
        })
    }
}

/// A value that holds no others.
#[derive(Debug, PartialEq, Drop)]
pub enum ScalarValue<'a> {
    /// No value.
    Null,
    /// The value of the type with one value.
    Unit,
    /// A truth value.
    Bool(bool),
    /// A character.
    Char(char),
    /// A whole number of 64 bits, with a sign.
    I64(i64),
    /// A whole number of 64 bits, without one.
    U64(u64),
    /// A whole number of 128 bits, with a sign.
    I128(i128),
    /// A whole number of 128 bits, without one.
    U128(u128),
    /// A number with a fraction or an exponent.
    Decimal(Decimal<'a>),
    /// A text.
    Str(CowStr<'a>),
    /// Bytes.
    Bytes(&'a [u8]),
}

impl<'a> ScalarValue<'a> {
    /// Copies the value, its text too where that is owned.
    fn copy(&self, alloc: Global) -> Result<ScalarValue<'a>, AllocError>
        ensures { MatchResult result
            (λ copy. scalar_value_of copy ≡ scalar_value_of self.now)
            (λ _. is_made (scalar_value_of self.now) ≡ true) }
    {
        match self {
            ScalarValue::Null => Ok(ScalarValue::Null),
            ScalarValue::Unit => Ok(ScalarValue::Unit),
            ScalarValue::Bool(b) => Ok(ScalarValue::Bool(*b)),
            ScalarValue::Char(c) => Ok(ScalarValue::Char(*c)),
            ScalarValue::I64(n) => Ok(ScalarValue::I64(*n)),
            ScalarValue::U64(n) => Ok(ScalarValue::U64(*n)),
            ScalarValue::I128(n) => Ok(ScalarValue::I128(*n)),
            ScalarValue::U128(n) => Ok(ScalarValue::U128(*n)),
            ScalarValue::Decimal(decimal) => Ok(ScalarValue::Decimal(decimal.clone(alloc)?)),
            ScalarValue::Str(text) => Ok(ScalarValue::Str(copy_text(text, alloc)?)),
            ScalarValue::Bytes(bytes) => Ok(ScalarValue::Bytes(*bytes)),
        }
    }
}

/// What an event is.
#[derive(Debug, PartialEq, Drop)]
pub enum ParseEventKind<'a> {
    /// Fields begin.
    StructStart(ContainerKind),
    /// Fields end.
    StructEnd,
    /// Values in order begin.
    SequenceStart(ContainerKind),
    /// Values in order end.
    SequenceEnd,
    /// The name of the field whose value follows.
    FieldKey(FieldKey<'a>),
    /// A value that holds no others.
    Scalar(ScalarValue<'a>),
}

impl<'a> ParseEventKind<'a> {
    /// Copies the kind, its text too where that is owned.
    fn copy(&self, alloc: Global) -> Result<ParseEventKind<'a>, AllocError>
        ensures { MatchResult result
            (λ copy. event_kind_of copy ≡ event_kind_of self.now)
            (λ _. holds_made (event_kind_of self.now) ≡ true) }
    {
        match self {
            ParseEventKind::StructStart(kind) => Ok(ParseEventKind::StructStart(*kind)),
            ParseEventKind::StructEnd => Ok(ParseEventKind::StructEnd),
            ParseEventKind::SequenceStart(kind) => Ok(ParseEventKind::SequenceStart(*kind)),
            ParseEventKind::SequenceEnd => Ok(ParseEventKind::SequenceEnd),
            ParseEventKind::FieldKey(key) => Ok(ParseEventKind::FieldKey(key.copy(alloc)?)),
            ParseEventKind::Scalar(value) => Ok(ParseEventKind::Scalar(value.copy(alloc)?)),
        }
    }
}

/// A piece of a document, and its place.
///
/// Of `{"a":[1]}` the events are `StructStart` at 0+1, `FieldKey` of `a` at 1+3, `SequenceStart` at 5+1, `Scalar` of
/// `U64(1)` at 6+1, `SequenceEnd` at 7+1 and `StructEnd` at 8+1.
#[derive(Debug, PartialEq, Drop)]
pub struct ParseEvent<'a> {
    /// What the event is.
    pub kind: ParseEventKind<'a>,
    /// The bytes of the bracket, the key or the value that it comes from.
    pub span: Span,
}

impl<'a> ParseEvent<'a> {
    /// The event of this kind that comes from these bytes.
    #[inline(always)]
    pub fn new(kind: ParseEventKind<'a>, span: Span) -> ParseEvent<'a>
        ensures kind { event_kind_of result.kind ≡ event_kind_of kind.entry }
        ensures span { result.span ≡ span }
    {
        ParseEvent { kind, span }
    }

    /// Copies the event. A borrowed text stays borrowed, and an owned one is copied, which alone allocates.
    pub fn clone(&self, alloc: Global) -> Result<ParseEvent<'a>, AllocError>
        ensures { MatchResult result
            (λ copy. event_of copy ≡ event_of self.now)
            (λ _. holds_made (event_kind_of self.now.kind) ≡ true) }
    {
        Ok(ParseEvent {
            kind: self.kind.copy(alloc)?,
            span: self.span,
        })
    }
}

/// The number of a point that a parser keeps, to which it can go back.
#[derive(Debug, Clone, Copy, PartialEq, Eq)]
pub struct SavePoint(pub u64);

/// Copies a text: a borrowed one stays borrowed, an owned one is copied.
pub(crate) fn copy_text<'a>(text: &CowStr<'a>, alloc: Global) -> Result<CowStr<'a>, AllocError>
    ensures { MatchResult result
        (λ copy. text_of copy ≡ text_of text.now)
        (λ _. is_owned (text_of text.now) ≡ true) }
{
    match text {
        CowStr::Borrowed(borrowed) => Ok(CowStr::Borrowed(*borrowed)),
        CowStr::Owned(owned) => copied(owned.as_str(), alloc),
    }
}

/// The text in memory of its own.
pub(crate) fn copied<'a>(text: &str, alloc: Global) -> Result<CowStr<'a>, AllocError>
    ensures { IfOk result (λ copy. text_of copy ≡ owned text.now) }
{
    Ok(CowStr::Owned(String::from_str(alloc, text)?))
}
