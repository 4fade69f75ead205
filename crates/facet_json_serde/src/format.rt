//! The steps of a `Format`, over the events of a parser.

ghost use Rattle.std.specs.Prelude.{◌≡◌, [], IfOk, OnOk, MatchBool, slice_range, string_bytes};
ghost use Rattle.std.specs.Cow.{cow_str_bytes};
ghost use Rattle.serde.specs.Event.{text, seq_ends};
ghost use Rattle.facet_json_serde.specs.Ahead.{StepGives, Picks, StepReads, Stays, StepShows, IsListBegin};

use crate::fault::{ReadFault, ReadFaultKind, Sort};
use crate::found::kind_of;
use crate::json::{Ahead, Json};
use crate::one_event::{FieldsStart, OfEvent, Unread, finite_f32, finite_f64};
use facet_format::{Decimal, ParseEvent, ParseEventKind, Span};
use facet_json_reader::{ListEnd, ListStart, ObjectStart, Sought, Whole};
use serde::{Format, Kind, Name};
use std::alloc::Global;
use std::borrow::CowStr;

/// A number that the type cannot hold.
#[cold]
#[inline(never)]
fn out_of_range(wanted: Sort, span: Span) -> ReadFault {
    ReadFault::at(ReadFaultKind::OutOfRange(wanted), span)
}

/// The text, in memory of its own.
#[inline(always)]
fn owned(alloc: Global, text: CowStr<'_>) -> Result<String, ReadFault>
    ensures { IfOk result (λ s. string_bytes s ≡ cow_str_bytes text.entry) }
{
    match text.into_owned(alloc) {
        Ok(text) => Ok(text),
        Err(_) => Err(ReadFault::of(ReadFaultKind::Memory)),
    }
}

impl<'de> Json<'de> {
    /// What the next event is read as, as a value or as a key.
    #[inline(never)]
    fn one<V: OfEvent>(&mut self, at_key: bool, input: &[u8]) -> Result<V, ReadFault>
        ensures { IfOk result (λ v. StepReads self.old (λ given. V.is input.now given v) self.new) }
    {
        let event = self.take()?;
        match V::of_event(&event.0, at_key, input) {
            Ok(value) => Ok(value),
            Err(why) => Err(self.unread(why, &event.0)),
        }
    }

    /// What the next event, of a value that holds no others, is read as.
    #[inline(never)]
    fn scalar<V: OfEvent>(&mut self, input: &[u8]) -> Result<V, ReadFault>
        ensures { IfOk result (λ v. StepReads self.old (λ given. V.is input.now given v) self.new) }
    {
        let at_key = self.at_key;
        self.at_key = false;
        self.one(at_key, input)
    }

    /// The fault of an event that is not read.
    #[cold]
    #[inline(never)]
    fn unread(&self, why: Unread, event: &ParseEvent<'_>) -> ReadFault {
        match why {
            Unread::Other(wanted) => self.mismatch(wanted, &event.kind, event.span),
            Unread::NoWhole(wanted) => self.no_number(wanted, &event.kind, event.span),
            Unread::OutOfRange(wanted) => out_of_range(wanted, event.span),
            Unread::Invalid => self.error(ReadFaultKind::InvalidValue),
        }
    }

    /// Where the text of the last event stands in the input, after its quote. In an input that is not the parser's it may stand nowhere.
    #[inline(always)]
    fn place_of(&self, text: &str, input: &[u8]) -> Result<(usize, usize), ReadFault>
        ensures { IfOk result (λ r. slice_range input.now r.0 r.1 ≡ text.now) }
    {
        let start = self.last.offset.saturating_add(1);
        let end = start.saturating_add(text.len());
        match input.get(start..end) {
            Some(bytes) if bytes == text.as_bytes() => Ok((start, end)),
            _ => Err(self.error(ReadFaultKind::InvalidValue)),
        }
    }

    /// A text in memory of its own, as a value or as a key, by an event.
    #[inline(never)]
    fn string_out_of_line(&mut self, alloc: Global, input: &[u8]) -> Result<String, ReadFault>
        ensures { IfOk result (λ v. StepGives self.old [] (text (string_bytes v)) self.new) }
    {
        owned(alloc, self.text(input)?)
    }

    /// Whether an item comes, which stays the next one, by an event.
    #[inline(never)]
    fn next_item_out_of_line(&mut self) -> Result<bool, ReadFault>
        ensures { IfOk result (λ b. MatchBool b (Stays self.old self.new)
            (StepGives self.old [] seq_ends self.new)) }
    {
        let item = self.take()?;
        if let ParseEventKind::SequenceEnd = item.0.kind {
            return Ok(false);
        }
        self.ahead = Ahead::Event(item);
        Ok(true)
    }

    /// The next byte of a list of bytes, or `None` at its end, which it takes.
    fn next_byte(&mut self, input: &[u8]) -> Result<Option<u8>, ReadFault> {
        if !self.next_item(input)? {
            return Ok(None);
        }
        match u8::try_from(self.u64(input)?) {
            Ok(byte) => Ok(Some(byte)),
            Err(_) => Err(out_of_range(Sort::U8, self.last)),
        }
    }

    /// A list of bytes.
    fn byte_list(&mut self, alloc: Global, input: &[u8]) -> Result<Vec<u8>, ReadFault>
        ensures { OnOk result
            (StepShows self.old (λ shown. IsListBegin shown.kind) self.old) }
    {
        self.begin_seq(input)?;
        let mut bytes = Vec::new(alloc);
        for _ in 0..u64::MAX {
            let Some(byte) = self.next_byte(input)? else {
                break;
            };
            if bytes.push(byte).is_err() {
                return Err(ReadFault::of(ReadFaultKind::Memory));
            }
        }
        Ok(bytes)
    }
}

impl<'de> Format for Json<'de> {
    type Error = ReadFault;

    type Mark = usize;

    ghost gives = { StepGives };

    ghost picks = { Picks };

    ghost stays = { Stays };

    #[inline(always)]
    fn bool(&mut self, input: &[u8]) -> Result<bool, ReadFault> {
        match self.plain() {
            Some(truth) => Ok(truth),
            None => Ok(self.scalar(input)?),
        }
    }

    #[inline(always)]
    fn i64(&mut self, input: &[u8]) -> Result<i64, ReadFault> {
        match self.plain() {
            Some(Whole::Signed(n)) => Ok(n),
            Some(Whole::Unsigned(n)) => match i64::try_from(n) {
                Ok(n) => Ok(n),
                Err(_) => Err(out_of_range(Sort::I64, self.last)),
            },
            None => Ok(self.scalar(input)?),
        }
    }

    #[inline(always)]
    fn u64(&mut self, input: &[u8]) -> Result<u64, ReadFault> {
        match self.plain() {
            Some(Whole::Unsigned(n)) => Ok(n),
            Some(Whole::Signed(n)) => match u64::try_from(n) {
                Ok(n) => Ok(n),
                Err(_) => Err(out_of_range(Sort::U64, self.last)),
            },
            None => Ok(self.scalar(input)?),
        }
    }

    fn i128(&mut self, input: &[u8]) -> Result<i128, ReadFault> {
        self.scalar(input)
    }

    fn u128(&mut self, input: &[u8]) -> Result<u128, ReadFault> {
        self.scalar(input)
    }

    #[inline(always)]
    fn f32(&mut self, input: &[u8]) -> Result<f32, ReadFault> {
        let Some(decimal) = self.plain::<Decimal<'_>>() else {
            return Ok(self.scalar(input)?);
        };
        match finite_f32(decimal.as_str().as_bytes()) {
            Some(x) => Ok(x),
            None => Err(out_of_range(Sort::F32, self.last)),
        }
    }

    #[inline(always)]
    fn f64(&mut self, input: &[u8]) -> Result<f64, ReadFault> {
        let Some(decimal) = self.plain::<Decimal<'_>>() else {
            return Ok(self.scalar(input)?);
        };
        match finite_f64(decimal.as_str().as_bytes()) {
            Some(x) => Ok(x),
            None => Err(out_of_range(Sort::F64, self.last)),
        }
    }

    fn char(&mut self, input: &[u8]) -> Result<char, ReadFault> {
        match self.text(input)?.as_str().parse::<char>() {
            Ok(c) => Ok(c),
            Err(_) => Err(self.error(ReadFaultKind::InvalidValue)),
        }
    }

    #[inline(always)]
    fn plain_str(&mut self, input: &[u8]) -> Result<(usize, usize), ReadFault> {
        match self.text(input)? {
            CowStr::Borrowed(text) => self.place_of(text, input),
            CowStr::Owned(_) => Err(self.error(ReadFaultKind::InvalidValue)),
        }
    }

    fn plain_bytes(&mut self, input: &[u8]) -> Result<(usize, usize), ReadFault> {
        self.plain_str(input)
    }

    #[inline(always)]
    fn string(&mut self, alloc: Global, input: &[u8]) -> Result<String, ReadFault> {
        if !self.at_key {
            if let Some(text) = self.wanted() {
                return owned(alloc, CowStr::Borrowed(text));
            }
        }
        Ok(self.string_out_of_line(alloc, input)?)
    }

    fn byte_buf(&mut self, alloc: Global, input: &[u8]) -> Result<Vec<u8>, ReadFault> {
        if let Kind::Str = self.peek(input)? {
            return Ok(self.string(alloc, input)?.into_bytes());
        }
        self.byte_list(alloc, input)
    }

    fn peek(&mut self, input: &[u8]) -> Result<Kind, ReadFault> {
        self.look()?;
        let found = match &self.ahead {
            Ahead::Event(event) => kind_of(&event.0, self.at_key, input),
            Ahead::Stopped(kind, span) => return Err(ReadFault::at(*kind, *span)),
            Ahead::Nothing | Ahead::Back => None,
        };
        match found {
            Some(kind) => Ok(kind),
            None => Err(self.error(ReadFaultKind::InvalidValue)),
        }
    }

    #[inline(always)]
    fn take_unit(&mut self, _input: &[u8]) -> Result<bool, ReadFault> {
        self.passes_null()
    }

    #[inline(always)]
    fn take_none(&mut self, _input: &[u8]) -> Result<bool, ReadFault> {
        self.passes_null()
    }

    #[inline(always)]
    fn begin_seq(&mut self, input: &[u8]) -> Result<(), ReadFault> {
        match self.wanted() {
            Some(ListStart) => Ok(()),
            None => {
                let ListStart = self.one(self.at_key, input)?;
                Ok(())
            }
        }
    }

    #[inline(always)]
    fn next_item(&mut self, _input: &[u8]) -> Result<bool, ReadFault> {
        if self.other_comes(Sought::ListEnd) {
            return Ok(true);
        }
        match self.wanted() {
            Some(ListEnd) => Ok(false),
            None => Ok(self.next_item_out_of_line()?),
        }
    }

    /// An item that comes is one too many, and the error is about it.
    fn end_tuple(&mut self, _input: &[u8]) -> Result<(), ReadFault> {
        if self.next_item_out_of_line()? {
            Err(self.wrong_len())
        } else {
            Ok(())
        }
    }

    #[inline(always)]
    fn begin_map(&mut self, input: &[u8]) -> Result<(), ReadFault> {
        match self.wanted() {
            Some(ObjectStart) => Ok(()),
            None => {
                let ObjectStart = self.one(self.at_key, input)?;
                Ok(())
            }
        }
    }

    #[inline(always)]
    fn begin_struct(&mut self, input: &[u8]) -> Result<bool, ReadFault> {
        match self.wanted() {
            Some(ObjectStart) => Ok(false),
            None => {
                let FieldsStart { is_list } = self.one(self.at_key, input)?;
                Ok(is_list)
            }
        }
    }

    #[inline(always)]
    fn next_key(&mut self, _input: &[u8], names: &[Name<'_>]) -> Result<Option<usize>, ReadFault> {
        match self.key()? {
            Some(key) => Ok(Some(serde::find(names, key.as_str()))),
            None => Ok(None),
        }
    }

    fn next_entry(&mut self, _input: &[u8]) -> Result<bool, ReadFault> {
        let event = self.take()?;
        match &event.0.kind {
            ParseEventKind::FieldKey(_) => {
                self.ahead = Ahead::Event(event);
                self.at_key = true;
                Ok(true)
            }
            ParseEventKind::StructEnd => Ok(false),
            _ => Err(self.mismatch(Sort::Key, &event.0.kind, event.0.span)),
        }
    }

    fn variant(&mut self, input: &[u8], names: &[Name<'_>]) -> Result<usize, ReadFault> {
        let name = self.text(input)?;
        self.variant = self.last;
        Ok(serde::find(names, name.as_str()))
    }

    #[inline(always)]
    fn skip(&mut self, _input: &[u8]) -> Result<(), ReadFault> {
        if let Ahead::Nothing = &self.ahead {
            return self.pass();
        }
        self.skip_ahead()?;
        Ok(())
    }

    #[inline(always)]
    fn mark(&mut self) -> usize {
        let mark = self.marks();
        if !self.has_stopped() {
            self.keep();
        }
        mark
    }

    /// After a refusal of the parser's, or a failed allocation, nothing is rewound: so each later step, and the caller, is told that one.
    fn rewind(&mut self, mark: usize) {
        if self.has_stopped() {
            return;
        }
        self.forget(mark.saturating_add(1));
        self.go_back();
    }

    fn release(&mut self, mark: usize) {
        self.forget(mark);
    }

    fn is_fatal(&self, error: &ReadFault) -> bool {
        error.is_final()
    }

    fn missing(&self, name: &str) -> ReadFault {
        self.error(ReadFaultKind::MissingField)
            .about(self.alloc, name)
    }

    fn duplicate(&self, name: &str) -> ReadFault {
        self.error(ReadFaultKind::DuplicateField)
            .about(self.alloc, name)
    }

    fn unknown_key(&self) -> ReadFault {
        self.unknown(ReadFaultKind::UnknownField, self.last)
    }

    fn unknown_variant(&self) -> ReadFault {
        self.unknown(ReadFaultKind::UnknownVariant, self.variant)
    }

    fn wrong_len(&self) -> ReadFault {
        self.error(ReadFaultKind::InvalidLength)
    }

    fn invalid(&self) -> ReadFault {
        self.error(ReadFaultKind::InvalidValue)
    }

    fn no_memory(&self) -> ReadFault {
        ReadFault::of(ReadFaultKind::Memory)
    }

    fn custom(&self, message: &str) -> ReadFault {
        self.error(ReadFaultKind::Custom).about(self.alloc, message)
    }
}
