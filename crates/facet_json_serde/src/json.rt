//! JSON as a `Format` of `serde`'s: the events of a parser, and a look ahead of one. Here is what the steps of `format` stand on.

ghost use Rattle.std.specs.Prelude.{◌≡◌, true, [], IfOk, IfSome, OnOk, MatchBool, MatchOption};
ghost use Rattle.std.specs.Cow.{cow_str_bytes};
ghost use Rattle.facet_format.specs.Views.{event_of, span_of};
ghost use Rattle.facet_json_grammar.specs.Move.{with_kept};
ghost use Rattle.facet_json_grammar.specs.Next.{PassesNext};
ghost use Rattle.facet_json_reader.specs.Inner.Soughts.{event_of_member};
ghost use Rattle.serde.specs.Event.{nothing, map_ends};
ghost use Rattle.facet_json_serde.specs.Ahead.{JsonStands, Stays, StepReads, StepPasses, StepGives, HoldsText, HoldsKey};

use crate::error::Error;
use crate::fault::{ReadFault, ReadFaultKind, Sort};
use crate::found::{found_in, is_quoted};
use facet_format::{FormatParser, ParseEvent, ParseEventKind, SavePoint, ScalarValue, Span};
use facet_json_parser::{JsonParser, comes_other, next_wanted};
use facet_json_reader::{Member, Null, Sought, Wanted, Whole};
use std::alloc::Global;
use std::borrow::CowStr;

/// An event that came. It is dropped by a call, so that a proof about a function that owns one need not take it apart.
pub(crate) struct Came<'de>(pub(crate) ParseEvent<'de>);

impl<'de> Came<'de> {
    /// The event.
    #[inline(always)]
    fn event(self) -> ParseEvent<'de>
        ensures { result ≡ self.entry.0 }
    {
        let Came(event) = self;
        event
    }
}

impl Drop for Came<'_> {
    #[inline(always)]
    fn drop(self) {
        let Came(_) = self;
    }
}

/// What stands before the parser's next event.
pub(crate) enum Ahead<'de> {
    /// Nothing: the parser's next event comes.
    Nothing,
    /// This event, which the parser has passed.
    Event(Came<'de>),
    /// Nothing, after a return to the last mark, which is kept again before anything is read.
    Back,
    /// No event ever: reading failed so, and no rewind brings it back.
    Stopped(ReadFaultKind, Span),
}

impl<'de> Ahead<'de> {
    /// The event, where one is ahead.
    #[inline(always)]
    fn event(self) -> Option<Came<'de>>
        ensures { IfSome result (λ e. self.entry ≡ Ahead.Event e) }
    {
        match self {
            Ahead::Event(event) => Some(event),
            Ahead::Nothing | Ahead::Back | Ahead::Stopped(_, _) => None,
        }
    }
}

/// By a call, so that a proof about a step need not take it apart.
impl Drop for Ahead<'_> {
    #[inline(always)]
    fn drop(self) {
        match self {
            Ahead::Event(_) => {}
            Ahead::Nothing | Ahead::Back | Ahead::Stopped(_, _) => {}
        }
    }
}

/// A place to come back to.
#[derive(Drop)]
struct Landmark<'de> {
    point: SavePoint,
    ahead: Option<Came<'de>>,
    last: Span,
    at_key: bool,
}

/// JSON as a `Format` of `serde`'s, for a caller who has a parser. `from_slice` and its kin make one.
///
/// A step that ends well says which event of the parser's came, and that it is what was read (`Gives`, `Picks`, `Stays` in `Ahead`): so a
/// type that is read by hand can say the same. A skip, and a return to a mark, say nothing of where the format stands.
///
/// ```text
/// let mut json = Json::new(alloc, JsonParser::new(alloc, input));
/// match json.value(input) {
///     Ok(value) => ..,
///     Err(fault) => Err(json.told(fault)),
/// }
/// ```
pub struct Json<'de> {
    pub(crate) alloc: Global,
    parser: JsonParser<'de>,
    pub(crate) ahead: Ahead<'de>,
    /// The bytes of the last event that was taken.
    pub(crate) last: Span,
    /// The bytes of the name that was last looked for among variants: a rewind does not lose it.
    pub(crate) variant: Span,
    /// The next value is the key of a map's entry.
    pub(crate) at_key: bool,
    marks: Vec<Landmark<'de>>,
}

/// By a call, so that a proof about a function that owns one need not take it apart.
impl Drop for Json<'_> {
    fn drop(self) {
        let Json {
            alloc: _,
            parser: _,
            ahead: _,
            last: _,
            variant: _,
            at_key: _,
            marks: _,
        } = self;
    }
}

/// The text, unless it is the digits of a number that is too long for 64 bits.
#[inline(always)]
fn quoted<'de>(text: CowStr<'de>, input: &[u8], span: Span) -> Result<CowStr<'de>, ReadFault>
    ensures { IfOk result (λ t. t ≡ text.entry) }
{
    match text {
        CowStr::Borrowed(text) => Ok(CowStr::Borrowed(text)),
        CowStr::Owned(text) => {
            if is_quoted(input, span) {
                Ok(CowStr::Owned(text))
            } else {
                Err(ReadFault::at(ReadFaultKind::Mismatch(Sort::String, Sort::Integer), span))
            }
        }
    }
}

/// Whether such a scalar comes, which is passed then. Else nothing changes.
#[inline(always)]
fn passes<'de, W: Wanted<'de>>(parser: &mut JsonParser<'de>) -> bool {
    next_wanted::<W>(parser).is_some()
}

/// Consumes a scalar, where a few bytes decide that it comes. Else nothing changes.
fn passes_scalar<'de>(parser: &mut JsonParser<'de>) -> bool {
    passes::<&'de str>(parser) || passes::<Whole>(parser) || passes::<bool>(parser)
}

impl<'de> Json<'de> {
    /// The format before the parser's next event. It does not allocate.
    pub fn new(alloc: Global, parser: JsonParser<'de>) -> Json<'de>
        ensures { JsonStands result parser.entry }
    {
        Json {
            alloc,
            parser,
            ahead: Ahead::Nothing,
            last: Span::new(0, 0),
            variant: Span::new(0, 0),
            at_key: false,
            marks: Vec::new(alloc),
        }
    }

    /// Checks that the document is over, which a reader of a type leaves to its caller. A strict parser looks at all that follows.
    ///
    /// # Errors
    ///
    /// Another type, where `end of input` is expected, if more of the document comes; what the parser refuses; or the fault for which
    /// reading stopped.
    pub fn finish(&mut self) -> Result<(), ReadFault> {
        match &self.ahead {
            Ahead::Nothing | Ahead::Back => {}
            Ahead::Event(event) => return Err(self.mismatch(
                Sort::EndOfInput,
                &event.0.kind,
                event.0.span,
            )),
            Ahead::Stopped(kind, span) => return Err(ReadFault::at(*kind, *span)),
        }
        match self.parser.next_event() {
            Ok(None) => Ok(()),
            Ok(Some(event)) => Err(self.unwanted(Sort::EndOfInput, Came(event))),
            Err(refused) => Err(self.stop(ReadFaultKind::Parser, refused.span)),
        }
    }

    /// Checks that the document is over, and that nothing but white space follows it.
    ///
    /// # Errors
    ///
    /// As `finish`, and trailing characters at what follows. A comment is no white space.
    pub fn finish_whole(&mut self) -> Result<(), ReadFault> {
        self.finish()?;
        let end = self.parser.current_span().unwrap_or(self.last).end();
        let rest = self.parser.input().unwrap_or(&[]).get(end..).unwrap_or(&[]);
        for (at, byte) in rest.iter().enumerate() {
            if !matches!(byte, b' ' | b'\t' | b'\n' | b'\r') {
                let span = Span::new(end.saturating_add(at), rest.len().saturating_sub(at));
                return Err(ReadFault::at(ReadFaultKind::Trailing, span));
            }
        }
        Ok(())
    }

    /// What a fault is, in words: where the parser refused, its own.
    #[cold]
    #[inline(never)]
    pub fn told<'t>(&mut self, fault: ReadFault) -> Error<'t> {
        if let ReadFaultKind::Parser = fault.kind {
            if let Err(refused) = self.parser.next_event() {
                return Error::from(refused);
            }
        }
        Error::from(fault)
    }

    /// What was wanted, and is not there.
    #[cold]
    #[inline(never)]
    pub(crate) fn mismatch(
        &self,
        wanted: Sort,
        kind: &ParseEventKind<'_>,
        span: Span,
    ) -> ReadFault {
        let is_quoted = is_quoted(self.parser.input().unwrap_or(&[]), span);
        ReadFault::at(
            ReadFaultKind::Mismatch(wanted, found_in(kind, is_quoted)),
            span,
        )
    }

    /// The mismatch, once the event has come.
    #[cold]
    #[inline(never)]
    fn unwanted(&self, wanted: Sort, event: Came<'_>) -> ReadFault {
        self.mismatch(wanted, &event.0.kind, event.0.span)
    }

    /// What was wanted, and is not there: where a whole number stands there, it is too great.
    #[cold]
    #[inline(never)]
    pub(crate) fn no_number(
        &self,
        wanted: Sort,
        kind: &ParseEventKind<'_>,
        span: Span,
    ) -> ReadFault {
        let fault = self.mismatch(wanted, kind, span);
        match fault.kind {
            ReadFaultKind::Mismatch(_, Sort::Integer) => ReadFault::at(
                ReadFaultKind::OutOfRange(wanted),
                span,
            ),
            _ => fault,
        }
    }

    /// The fault at the last event that was taken.
    #[cold]
    #[inline(never)]
    pub(crate) fn error(&self, kind: ReadFaultKind) -> ReadFault {
        ReadFault::at(kind, self.last)
    }

    /// The fault about the name that is spelled at these bytes between quotes, up to its first control character, which has no place in a
    /// message of one line.
    #[cold]
    #[inline(never)]
    pub(crate) fn unknown(&self, kind: ReadFaultKind, span: Span) -> ReadFault {
        let fault = ReadFault::at(kind, span);
        match self.quoted_at(span) {
            Some(name) => fault.about(self.alloc, name),
            None => fault,
        }
    }

    /// What is spelled at these bytes between quotes, up to its first control character.
    fn quoted_at(&self, span: Span) -> Option<&str> {
        let token = self.parser.input()?.get(span.offset..span.end())?;
        let [b'"', content @ .., b'"'] = token else {
            return None;
        };
        let end = content.iter().position(|byte| byte.is_ascii_control());
        str::from_utf8(content.get(..end.unwrap_or(content.len()))?).ok()
    }

    /// Stops reading for good.
    #[cold]
    #[inline(never)]
    fn stop(&mut self, kind: ReadFaultKind, span: Span) -> ReadFault {
        self.ahead = Ahead::Stopped(kind, span);
        ReadFault::at(kind, span)
    }

    /// Whether reading stopped for good.
    pub(crate) fn has_stopped(&self) -> bool {
        matches!(&self.ahead, Ahead::Stopped(_, _))
    }

    /// The parser's next event.
    #[inline(always)]
    fn read(&mut self) -> Result<Came<'de>, ReadFault>
        ensures passes { IfOk result (λ e. PassesNext self.old.parser (event_of e.0) self.new.parser) }
        ensures ahead { OnOk result (self.new.ahead ≡ self.old.ahead) }
    {
        match self.parser.next_event() {
            Ok(Some(event)) => {
                self.last = event.span;
                Ok(Came(event))
            }
            Ok(None) => Err(self.stop(ReadFaultKind::Ended, Span::new(self.last.end(), 0))),
            Err(refused) => Err(self.stop(ReadFaultKind::Parser, refused.span)),
        }
    }

    /// Takes what is wanted, where nothing is ahead and a few bytes decide that it comes. Else nothing changes.
    #[inline(always)]
    pub(crate) fn wanted<W: Wanted<'de>>(&mut self) -> Option<W>
        ensures { MatchOption result (self.new ≡ self.old)
            (λ w. StepPasses self.old (record { kind = W.kind w; span = span_of self.new.last }) self.new
            × (self.new.ahead ≡ Ahead.Nothing)) }
    {
        let Ahead::Nothing = &self.ahead else {
            return None;
        };
        let (wanted, span) = next_wanted(&mut self.parser)?;
        self.last = span;
        Some(wanted)
    }

    /// What is wanted, of a value that is no key, where a few bytes decide that it comes.
    #[inline(always)]
    pub(crate) fn plain<W: Wanted<'de>>(&mut self) -> Option<W>
        ensures { MatchOption result (self.new ≡ self.old)
            (λ w. StepPasses self.old (record { kind = W.kind w; span = span_of self.new.last }) self.new
            × (self.new.ahead ≡ Ahead.Nothing)) }
    {
        if self.at_key {
            return None;
        }
        self.wanted()
    }

    /// Whether something else than this comes, as its first byte tells. Nothing is read.
    #[inline(always)]
    pub(crate) fn other_comes(&self, sought: Sought) -> bool {
        match &self.ahead {
            Ahead::Nothing => comes_other(&self.parser, sought),
            _ => false,
        }
    }

    /// Takes the next event.
    #[inline(always)]
    pub(crate) fn take(&mut self) -> Result<Came<'de>, ReadFault>
        ensures passes { IfOk result (λ e. StepPasses self.old (event_of e.0) self.new) }
        ensures free { OnOk result (self.new.ahead ≡ Ahead.Nothing) }
    {
        if let Ahead::Nothing = &self.ahead {
            return self.read();
        }
        Ok(self.take_ahead()?)
    }

    /// Takes the event that is ahead, or keeps the mark to which it returned before it reads one.
    #[tactic(auto, using(crate::proofs::StepsRead::kept_passes))]
    fn take_ahead(&mut self) -> Result<Came<'de>, ReadFault>
        ensures passes { IfOk result (λ e. StepPasses self.old (event_of e.0) self.new) }
        ensures free { OnOk result (self.new.ahead ≡ Ahead.Nothing) }
    {
        match &self.ahead {
            Ahead::Event(_) => {}
            Ahead::Nothing => return self.read(),
            Ahead::Back => {
                self.keep_again()?;
                return self.read();
            }
            Ahead::Stopped(kind, span) => return Err(ReadFault::at(*kind, *span)),
        }
        match std::mem::replace(&mut self.ahead, Ahead::Nothing).event() {
            Some(event) => {
                self.last = event.0.span;
                Ok(event)
            }
            // One is ahead, as was seen above.
            None => Err(self.error(ReadFaultKind::Ended)),
        }
    }

    /// Reads the next event, which stays the next one.
    #[inline(always)]
    pub(crate) fn look(&mut self) -> Result<(), ReadFault>
        ensures { OnOk result (Stays self.old self.new) }
    {
        if let Ahead::Nothing | Ahead::Back = &self.ahead {
            let event = self.take()?;
            self.ahead = Ahead::Event(event);
        }
        Ok(())
    }

    /// Consumes null, if it comes.
    #[inline(always)]
    pub(crate) fn passes_null(&mut self) -> Result<bool, ReadFault>
        ensures { IfOk result (λ b. MatchBool b (StepGives self.old [] nothing self.new)
            (Stays self.old self.new)) }
    {
        if self.other_comes(Sought::Null) {
            return Ok(false);
        }
        match self.wanted() {
            Some(Null) => Ok(true),
            None => Ok(self.passes_null_out_of_line()?),
        }
    }

    /// Whether a null came, and is passed, by a look ahead.
    #[inline(never)]
    fn passes_null_out_of_line(&mut self) -> Result<bool, ReadFault>
        ensures { IfOk result (λ b. MatchBool b (StepGives self.old [] nothing self.new)
            (Stays self.old self.new)) }
    {
        self.look()?;
        match &self.ahead {
            Ahead::Event(event) => {
                if !matches!(event.0.kind, ParseEventKind::Scalar(ScalarValue::Null)) {
                    return Ok(false);
                }
            }
            Ahead::Nothing | Ahead::Back => return Ok(false),
            Ahead::Stopped(kind, span) => return Err(ReadFault::at(*kind, *span)),
        }
        self.ahead = Ahead::Nothing;
        Ok(true)
    }

    /// A text, as a value or as a key.
    #[inline(always)]
    pub(crate) fn text(&mut self, input: &[u8]) -> Result<CowStr<'de>, ReadFault>
        ensures text { IfOk result
            (λ t. StepReads self.old (λ given. HoldsText given.kind (cow_str_bytes t)) self.new) }
        ensures key { self.old.at_key ≡ true → IfOk result
            (λ t. StepReads self.old (λ given. HoldsKey given.kind (cow_str_bytes t)) self.new) }
    {
        if !self.at_key {
            if let Some(text) = self.wanted() {
                return Ok(CowStr::Borrowed(text));
            }
        }
        Ok(self.text_out_of_line(input)?)
    }

    /// A text or a key, by its event.
    #[inline(never)]
    fn text_out_of_line(&mut self, input: &[u8]) -> Result<CowStr<'de>, ReadFault>
        ensures text { IfOk result
            (λ t. StepReads self.old (λ given. HoldsText given.kind (cow_str_bytes t)) self.new) }
        ensures key { self.old.at_key ≡ true → IfOk result
            (λ t. StepReads self.old (λ given. HoldsKey given.kind (cow_str_bytes t)) self.new) }
    {
        let at_key = self.at_key;
        self.at_key = false;
        let ParseEvent { kind, span } = self.take()?.event();
        match kind {
            ParseEventKind::Scalar(ScalarValue::Str(text)) if !at_key => quoted(text, input, span),
            ParseEventKind::FieldKey(key) if at_key => Ok(key.name),
            kind => Err(self.unwanted(Sort::String, Came(ParseEvent { kind, span }))),
        }
    }

    /// A key without an escape, or the end of the map, where a few bytes decide that one of them comes. Else nothing changes.
    #[inline(always)]
    fn member(&mut self) -> Option<Member<'de>>
        ensures { MatchOption result (self.new ≡ self.old)
            (λ m. StepPasses self.old (record { kind = event_of_member m; span = span_of self.new.last }) self.new
            × (self.new.ahead ≡ Ahead.Nothing)) }
    {
        self.wanted()
    }

    /// A key, or `None` at the end of the map, which it takes.
    #[inline(always)]
    pub(crate) fn key(&mut self) -> Result<Option<CowStr<'de>>, ReadFault>
        ensures { IfOk result (λ o. MatchOption o (StepGives self.old [] map_ends self.new)
            (λ key. StepReads self.old (λ given. HoldsKey given.kind (cow_str_bytes key)) self.new)) }
    {
        match self.member() {
            Some(Member::Key(name)) => Ok(Some(CowStr::Borrowed(name))),
            Some(Member::End) => Ok(None),
            None => Ok(self.key_out_of_line()?),
        }
    }

    /// A key, or the end of the map, by its event.
    #[cold]
    #[inline(never)]
    fn key_out_of_line(&mut self) -> Result<Option<CowStr<'de>>, ReadFault>
        ensures { IfOk result (λ o. MatchOption o (StepGives self.old [] map_ends self.new)
            (λ key. StepReads self.old (λ given. HoldsKey given.kind (cow_str_bytes key)) self.new)) }
    {
        let ParseEvent { kind, span } = self.take()?.event();
        match kind {
            ParseEventKind::FieldKey(key) => Ok(Some(key.name)),
            ParseEventKind::StructEnd => Ok(None),
            kind => Err(self.unwanted(Sort::Key, Came(ParseEvent { kind, span }))),
        }
    }

    /// Skips a value, of which one event is ahead.
    #[inline(never)]
    pub(crate) fn skip_ahead(&mut self) -> Result<(), ReadFault> {
        let event = self.take()?;
        self.at_key = false;
        match &event.0.kind {
            ParseEventKind::Scalar(_) | ParseEventKind::FieldKey(_) => Ok(()),
            ParseEventKind::StructStart(_) | ParseEventKind::SequenceStart(_) => self.skip_rest(),
            kind => Err(self.mismatch(Sort::Value, kind, event.0.span)),
        }
    }

    /// Consumes the rest of a container: of a map's members the values unread.
    fn skip_rest(&mut self) -> Result<(), ReadFault> {
        let mut depth = 1u64;
        for _ in 0..u64::MAX {
            match self.read()?.0.kind {
                ParseEventKind::StructStart(_) | ParseEventKind::SequenceStart(_) => {
                    depth = depth.saturating_add(1);
                }
                ParseEventKind::StructEnd | ParseEventKind::SequenceEnd => {
                    depth = depth.saturating_sub(1);
                    if depth == 0 {
                        break;
                    }
                }
                ParseEventKind::FieldKey(_) => self.pass()?,
                ParseEventKind::Scalar(_) => {}
            }
        }
        Ok(())
    }

    /// Skips a value, unread.
    #[inline(always)]
    pub(crate) fn pass(&mut self) -> Result<(), ReadFault> {
        if passes_scalar(&mut self.parser) {
            return Ok(());
        }
        match self.parser.skip_value() {
            Ok(()) => Ok(()),
            Err(refused) => Err(self.stop(ReadFaultKind::Parser, refused.span)),
        }
    }

    /// Keeps where the parser stands, and the event that is ahead, as the last mark. Without memory for it the answer is no.
    #[inline(always)]
    fn keep_point(&mut self, ahead: Option<Came<'de>>) -> bool
        ensures { result ≡ true → (self.new.parser ≡ with_kept self.old.parser) × (self.new.ahead ≡ self.old.ahead) }
    {
        let Ok(point) = self.parser.save() else {
            return false;
        };
        let marked = Landmark {
            point,
            ahead,
            last: self.last,
            at_key: self.at_key,
        };
        self.marks.push(marked).is_ok()
    }

    /// Keeps where the parser stands, with a copy of the event that is ahead.
    #[inline(never)]
    fn keep_with_event(&mut self) -> bool
        ensures { result ≡ true → (self.new.parser ≡ with_kept self.old.parser) × (self.new.ahead ≡ self.old.ahead) }
    {
        let Ahead::Event(event) = &self.ahead else {
            return false;
        };
        match event.0.clone(self.alloc) {
            Ok(event) => self.keep_point(Some(Came(event))),
            Err(_) => false,
        }
    }

    /// Saves its position as the last mark.
    #[inline(always)]
    fn keep_here(&mut self) -> Result<(), ReadFault>
        ensures { OnOk result ((self.new.parser ≡ with_kept self.old.parser) × (self.new.ahead ≡ self.old.ahead)) }
    {
        let is_kept = match &self.ahead {
            Ahead::Event(_) => self.keep_with_event(),
            _ => self.keep_point(None),
        };
        if is_kept {
            Ok(())
        } else {
            Err(self.stop(ReadFaultKind::Memory, self.last))
        }
    }

    /// Keeps the mark to which it returned again, as the last one.
    #[inline(never)]
    fn keep_again(&mut self) -> Result<(), ReadFault>
        ensures { OnOk result ((self.new.parser ≡ with_kept self.old.parser) × (self.new.ahead ≡ Ahead.Nothing)) }
    {
        self.ahead = Ahead::Nothing;
        self.keep_here()
    }

    /// Saves its position as the last mark, or stops where there is no memory for it.
    #[inline(always)]
    pub(crate) fn keep(&mut self) {
        let is_ready = match &self.ahead {
            Ahead::Back => self.keep_again().is_ok(),
            Ahead::Stopped(_, _) => false,
            _ => true,
        };
        if is_ready {
            self.keep_here().ok();
        }
    }

    /// How many marks there are, with the one to which it returned.
    pub(crate) fn marks(&self) -> usize {
        let returned = usize::from(matches!(&self.ahead, Ahead::Back));
        self.marks.len().saturating_add(returned)
    }

    /// Goes back to the last mark.
    pub(crate) fn go_back(&mut self) {
        if let Ahead::Back = &self.ahead {
            return;
        }
        let Some(marked) = self.marks.pop() else {
            return;
        };
        let Landmark {
            point,
            ahead,
            last,
            at_key,
        } = marked;
        self.parser.restore(point);
        self.last = last;
        self.at_key = at_key;
        match ahead {
            Some(event) => {
                self.ahead = Ahead::Event(event);
                self.keep();
            }
            None => self.ahead = Ahead::Back,
        }
    }

    /// Drops the marks from this one on.
    pub(crate) fn forget(&mut self, mark: usize) {
        if let Ahead::Back = &self.ahead {
            if mark < self.marks() {
                self.ahead = Ahead::Nothing;
            }
        }
        for _ in mark..self.marks.len() {
            if let Some(marked) = self.marks.pop() {
                self.parser.forget(marked.point);
            }
        }
    }
}
