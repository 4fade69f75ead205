//! Where a parser stands: after the last token that was passed, with an event that is read but not passed.

ghost use Rattle.std.specs.Prelude.{◌≡◌, ◌≤◌, ℕ, true, false, List, None, length, IfOk, IfErr, OnOk, MatchOption, MatchResult, Ok, Err, Some};
ghost use Rattle.std.specs.Prelude.{OnSome, IfSome, ◌∷◌, IsUtf8, is_some, ◌<◌};
ghost use Rattle.std.specs.Option.{option_map};
ghost use Rattle.std.specs.VecDeque.{deque_len, deque_capacity};
ghost use Rattle.facet_json_parser.specs.Ready.{IsSound};
ghost use Rattle.facet_json_parser.specs.Steps.{PassesOne, ShowsOne, QueuesOne, SkipsOne, CapturesOne};
ghost use Rattle.facet_format.specs.Cursor.{current_span};
ghost use Rattle.facet_format.specs.Event.{ContainerKind, object};
ghost use Rattle.facet_format.specs.Span.{stop};
ghost use Rattle.facet_format.specs.Views.{event_of, span_of};
ghost use Rattle.facet_json_grammar.specs.Future.{finished};
ghost use Rattle.facet_json_grammar.specs.Reader.{future_at};
ghost use Rattle.facet_json_grammar.specs.Language.{Language as SpecLanguage};
ghost use Rattle.facet_json_grammar.specs.Now.{on_input};
ghost use Rattle.facet_json_reader.specs.PlaceViews.{language_of, refused_of};
ghost use Rattle.facet_json_reader.specs.Views.{passed_of, reader_of, IsRefusedBefore};
ghost use Rattle.facet_json_parser.specs.PartViews.{after_part};
ghost use Rattle.facet_json_parser.specs.Lookahead.{lookahead_at, lookahead_with, first_lookahead, reader_before, spot_of, HoldsWhatComes};
ghost use Rattle.facet_json_parser.specs.Lookahead.{TakesHeld, Lends, Withholds};
ghost use Rattle.facet_json_parser.specs.Views.{lookahead_of};
ghost use Rattle.facet_json_reader.specs.Inner.InSight.{reader_at, IsFrontOf};
ghost use Rattle.facet_json_parser.specs.Inner.Wanted.{NeverGives, ReaderPasses};
ghost use Rattle.facet_json_reader.specs.Inner.Soughts.{event_of_sought};

use crate::part::{Part, find, scalar_in_sight};
use crate::passing::{capture, leave, pass};
use facet_format::{ParseEvent, ParseEventKind, Span};
use facet_json_reader::{Front, Held, Language, Reader, Refused, Sought, Takes, Wanted};
use facet_json_token::Trust;
use std::alloc::{AllocError, Global};
use std::collections::VecDeque;

/// What a save keeps.
pub struct Lookahead<'de> {
    /// Where the tokens go on.
    pub reader: Reader,
    /// An event that is read, but not passed. Its container, if it opens one, is open in the reader.
    pub held: Option<Held<'de>>,
    /// Whether a peek answered it.
    pub shown: bool,
}

/// By a call, so that a proof about a function that owns one need not take it apart.
impl Drop for Lookahead<'_> {
    fn drop(self) {
        let Lookahead {
            reader: _,
            held: _,
            shown: _,
        } = self;
    }
}

impl<'de> Lookahead<'de> {
    /// Before the document.
    pub fn new(alloc: Global) -> Lookahead<'de>
        ensures { lookahead_of result ≡ first_lookahead }
    {
        Lookahead {
            reader: Reader::new(alloc),
            held: None,
            shown: false,
        }
    }

    /// The last token that was read: of the event that a peek answered, else of the one that was passed.
    pub fn span(&self) -> Span
        ensures { (buffer : List ℕ) (language : SpecLanguage) → HoldsWhatComes buffer language (lookahead_of self.now)
            → span_of result ≡ current_span (on_input buffer language) (spot_of (lookahead_of self.now)) }
    {
        match &self.held {
            Some(held) if self.shown => held.last,
            _ => self.reader.last,
        }
    }

    /// Consumes the next event and returns it, or `None` after the document's last one.
    pub fn next(
        &mut self,
        alloc: Global,
        input: &'de [u8],
        language: Language,
    ) -> Result<Option<ParseEvent<'de>>, Refused>
        requires sound { IsSound input.now (language_of language) (lookahead_of self.old) }
        ensures sound { IsSound input.now (language_of language) (lookahead_of self.new) }
        ensures passed { MatchResult result
            (λ o. PassesOne (on_input input.now (language_of language)) (spot_of (lookahead_of self.old)) (Ok (option_map event_of o))
            (spot_of (lookahead_of self.new)))
            (λ r. PassesOne (on_input input.now (language_of language)) (spot_of (lookahead_of self.old)) (Err (refused_of r))
            (spot_of (lookahead_of self.new))) }
    {
        if self.held.is_some() {
            return Ok(self.take());
        }
        let Some(held) = self.begin(alloc, input, language)? else {
            return Ok(None);
        };
        self.reader.pass(&held);
        self.shown = false;
        Ok(Some(held.into_event()))
    }

    /// Consumes what is wanted and returns it with its span, where no event is held and a few bytes decide that it comes. Else nothing
    /// changes.
    #[inline(always)]
    pub fn step<W: Wanted<'de>>(
        &mut self,
        input: &'de [u8],
        language: Language,
        trust: Trust,
    ) -> Option<(W, Span)>
        requires utf8 { trust ≡ Trust.Utf8 → IsUtf8 input.now }
        requires sound { IsSound input.now (language_of language) (lookahead_of self.old) }
        ensures sound { IsSound input.now (language_of language) (lookahead_of self.new) }
        ensures passed { MatchOption result (self.new ≡ self.old)
            (λ r. PassesOne (on_input input.now (language_of language)) (spot_of (lookahead_of self.old))
            (Ok (Some (record { kind = W.kind r.0; span = span_of r.1 }))) (spot_of (lookahead_of self.new))) }
    {
        if self.held.is_some() {
            return None;
        }
        W::pass(&mut self.reader, input, language, trust)
    }

    /// Whether the innermost open container is an object, where no event is held.
    #[inline(always)]
    pub fn in_object(&self) -> bool
        ensures { result ≡ true
            → (others : List ContainerKind) × ((reader_before (lookahead_of self.now)).stack ≡ object ∷ others) }
    {
        if self.held.is_some() {
            return false;
        }
        matches!(
            self.reader.contexts.innermost(),
            Some(facet_format::ContainerKind::Object)
        )
    }

    /// How far the reader is, where no event is held, in `Language::Plain`.
    #[inline(always)]
    pub fn front(&self, input: &[u8], language: Language) -> Option<Front>
        requires sound { IsSound input.now (language_of language) (lookahead_of self.now) }
        ensures held { IfSome result (λ _. is_some self.now.held ≡ false) }
        ensures front { IfSome result (λ f. IsFrontOf input.now (language_of language) self.now.reader f) }
    {
        if self.held.is_some() {
            return None;
        }
        self.reader.front(input, language)
    }

    /// Stands that far, within the same containers.
    #[inline(always)]
    pub fn stand(&mut self, front: Front)
        ensures { lookahead_of self.new ≡ lookahead_at (reader_of (reader_at (reader_before (lookahead_of self.old)).stack front)) }
    {
        self.release();
        self.reader.stand(front);
    }

    /// Consumes events as long as a few bytes decide each of them and it is taken, where none is held.
    #[inline(always)]
    pub fn pass_in_sight<T: Takes<'de>>(
        &mut self,
        input: &'de [u8],
        language: Language,
        takes: &mut T,
    )
        requires sound { IsSound input.now (language_of language) (lookahead_of self.old) }
        ensures sound { IsSound input.now (language_of language) (lookahead_of self.new) }
        ensures passes { ReaderPasses (T.takes input.now) input.now (language_of language) self.old takes.old self.new takes.new }
    {
        if self.held.is_some() {
            return;
        }
        self.reader.pass_in_sight(input, language, takes);
    }

    /// Whether something else comes next, where its first byte tells. Where it does not tell, the answer is no.
    #[inline(always)]
    pub fn comes_other(&self, input: &[u8], language: Language, sought: Sought) -> bool
        requires sound { IsSound input.now (language_of language) (lookahead_of self.now) }
        ensures { result ≡ true
            → NeverGives (event_of_sought sought) (future_at input.now (language_of language) (reader_before (lookahead_of self.now))) }
    {
        self.reader.comes_other(input, language, sought)
    }

    /// Returns a copy of the next event, which stays the next one, or `None` after the document's last one.
    pub fn peek(
        &mut self,
        alloc: Global,
        input: &'de [u8],
        language: Language,
    ) -> Result<Option<ParseEvent<'de>>, Refused>
        requires sound { IsSound input.now (language_of language) (lookahead_of self.old) }
        ensures sound { IsSound input.now (language_of language) (lookahead_of self.new) }
        ensures shown { MatchResult result
            (λ o. ShowsOne (on_input input.now (language_of language)) (spot_of (lookahead_of self.old)) (Ok (option_map event_of o))
            (spot_of (lookahead_of self.new)))
            (λ r. ShowsOne (on_input input.now (language_of language)) (spot_of (lookahead_of self.old)) (Err (refused_of r))
            (spot_of (lookahead_of self.new))) }
    {
        self.fill(alloc, input, language)?;
        match self.lend(alloc) {
            Ok(event) => Ok(event),
            Err(_) => Err(Refused::out_of_memory(self.span())),
        }
    }

    /// Consumes the next event and returns it, once the queue has room for it.
    pub fn next_with_room(
        &mut self,
        alloc: Global,
        input: &'de [u8],
        language: Language,
        queue: &mut VecDeque<ParseEvent<'de>>,
    ) -> Result<Option<ParseEvent<'de>>, Refused>
        requires sound { IsSound input.now (language_of language) (lookahead_of self.old) }
        ensures sound { IsSound input.now (language_of language) (lookahead_of self.new) }
        ensures items { queue.new.items ≡ queue.old.items }
        ensures room { IfOk result (λ o. OnSome o (deque_len queue.new < deque_capacity queue.new)) }
        ensures passed { MatchResult result
            (λ o. QueuesOne (on_input input.now (language_of language)) (spot_of (lookahead_of self.old)) (Ok (option_map event_of o))
            (spot_of (lookahead_of self.new)))
            (λ r. QueuesOne (on_input input.now (language_of language)) (spot_of (lookahead_of self.old)) (Err (refused_of r))
            (spot_of (lookahead_of self.new))) }
    {
        self.fill(alloc, input, language)?;
        if self.held.is_none() {
            return Ok(None);
        }
        match queue.reserve(1) {
            Ok(()) => Ok(self.take()),
            Err(_) => Err(Refused::out_of_memory(self.span())),
        }
    }

    /// Skips a scalar, where no event is held and a look at its bytes tells it whole. Else nothing changes.
    #[inline(always)]
    pub fn skip_scalar(&mut self, input: &[u8], language: Language) -> bool
        requires sound { IsSound input.now (language_of language) (lookahead_of self.old) }
        ensures sound { IsSound input.now (language_of language) (lookahead_of self.new) }
        ensures same { result ≡ false → self.new ≡ self.old }
        ensures passed { result ≡ true → SkipsOne (on_input input.now (language_of language)) (spot_of (lookahead_of self.old)) (Ok tt)
            (spot_of (lookahead_of self.new)) }
    {
        if self.held.is_some() {
            return false;
        }
        let Some(scalar) = scalar_in_sight(&self.reader, input, language) else {
            return false;
        };
        let last = scalar.span;
        self.leave(&Part::Value(scalar), last);
        true
    }

    /// Skips what stands next, its text unread: a value with all that it holds, a key with its colon, or a closing bracket.
    /// Where it is refused, nothing changes.
    pub fn skip(
        &mut self,
        alloc: Global,
        input: &'de [u8],
        language: Language,
    ) -> Result<(), Refused>
        requires sound { IsSound input.now (language_of language) (lookahead_of self.old) }
        ensures sound { IsSound input.now (language_of language) (lookahead_of self.new) }
        ensures passed { MatchResult result
            (λ _. SkipsOne (on_input input.now (language_of language)) (spot_of (lookahead_of self.old)) (Ok tt)
            (spot_of (lookahead_of self.new)))
            (λ r. SkipsOne (on_input input.now (language_of language)) (spot_of (lookahead_of self.old)) (Err (refused_of r))
            (spot_of (lookahead_of self.new))) }
    {
        let mode = language.mode();
        let part = find(&self.reader, input, language)?;
        let last = pass(alloc, input, mode, &part, self.span())?;
        self.leave(&part, last);
        Ok(())
    }

    /// Skips the value that stands next, and returns its bytes as they are in the input. Where it is refused, nothing changes.
    pub fn capture(
        &mut self,
        alloc: Global,
        input: &'de [u8],
        language: Language,
    ) -> Result<&'de str, Refused>
        requires sound { IsSound input.now (language_of language) (lookahead_of self.old) }
        ensures sound { IsSound input.now (language_of language) (lookahead_of self.new) }
        ensures passed { MatchResult result
            (λ text. CapturesOne (on_input input.now (language_of language)) (spot_of (lookahead_of self.old)) (Ok text.now)
            (spot_of (lookahead_of self.new)))
            (λ r. CapturesOne (on_input input.now (language_of language)) (spot_of (lookahead_of self.old)) (Err (refused_of r))
            (spot_of (lookahead_of self.new))) }
    {
        let mode = language.mode();
        let part = find(&self.reader, input, language)?;
        let (text, last) = capture(alloc, input, mode, &part, self.span())?;
        self.leave(&part, last);
        Ok(text)
    }

    /// Reads the next event, where none is held, and opens its container. Where it is refused, nothing changes.
    fn fill(&mut self, alloc: Global, input: &'de [u8], language: Language) -> Result<(), Refused>
        requires within { stop (span_of self.old.reader.last) ≤ length input.now }
        requires held { HoldsWhatComes input.now (language_of language) (lookahead_of self.old) }
        ensures held { HoldsWhatComes input.now (language_of language) (lookahead_of self.new) }
        ensures spot { spot_of (lookahead_of self.new) ≡ spot_of (lookahead_of self.old) }
        ensures filled { MatchResult result
            (λ _. (lookahead_of self.new).held ≡ None
            → future_at input.now (language_of language) (reader_before (lookahead_of self.new)) ≡ finished)
            (λ r. ((lookahead_of self.old).held ≡ None)
            × IsRefusedBefore input.now (reader_before (lookahead_of self.old)).last
            (future_at input.now (language_of language) (reader_before (lookahead_of self.old))) (refused_of r)) }
    {
        if self.held.is_some() {
            return Ok(());
        }
        self.held = self.begin(alloc, input, language)?;
        self.shown = false;
        Ok(())
    }

    /// Reads the next event, which it answers, and opens its container. Where it is refused, nothing changes.
    fn begin(
        &mut self,
        alloc: Global,
        input: &'de [u8],
        language: Language,
    ) -> Result<Option<Held<'de>>, Refused>
        requires within { stop (span_of self.old.reader.last) ≤ length input.now }
        requires free { self.old.held ≡ None }
        ensures free { OnOk result (self.new.held ≡ None) }
        ensures held { IfOk result
            (λ o. HoldsWhatComes input.now (language_of language) (lookahead_with (option_map passed_of o) (lookahead_of self.new))) }
        ensures spot { IfOk result
            (λ o. spot_of (lookahead_with (option_map passed_of o) (lookahead_of self.new)) ≡ spot_of (lookahead_of self.old)) }
        ensures over { IfOk result (λ o. o ≡ None
            → future_at input.now (language_of language) (reader_before (lookahead_with None (lookahead_of self.new))) ≡ finished) }
        ensures refused { IfErr result (λ r. (lookahead_of self.new ≡ lookahead_of self.old)
            × IsRefusedBefore input.now (reader_before (lookahead_of self.old)).last
            (future_at input.now (language_of language) (reader_before (lookahead_of self.old))) (refused_of r)) }
    {
        let Some(held) = self.reader.upcoming(alloc, input, language)? else {
            return Ok(None);
        };
        match self.reader.open(&held) {
            Ok(()) => Ok(Some(held)),
            Err(_) => Err(Refused::out_of_memory(self.reader.last)),
        }
    }

    /// Consumes the event that is held.
    fn take(&mut self) -> Option<ParseEvent<'de>>
        ensures { MatchOption result
            ((lookahead_of self.new ≡ lookahead_of self.old) × ((lookahead_of self.old).held ≡ None))
            (λ e. TakesHeld (lookahead_of self.old) (event_of e) (lookahead_of self.new)) }
    {
        let held = self.held.take()?;
        self.shown = false;
        self.reader.pass(&held);
        Some(held.into_event())
    }

    /// Stands after the part, whose last token takes these bytes.
    fn leave(&mut self, part: &Part, last: Span)
        ensures { lookahead_of self.new ≡ lookahead_at (after_part part.now (span_of last) (reader_before (lookahead_of self.old)).stack) }
    {
        self.release();
        leave(&mut self.reader, part, last);
    }

    /// Drops the event that is held, if there is one, and closes the container that it opens.
    #[inline(always)]
    fn release(&mut self)
        ensures { lookahead_of self.new ≡ lookahead_at (reader_before (lookahead_of self.old)) }
    {
        if self.held.is_some() {
            self.release_held();
        }
        self.shown = false;
    }

    /// Does so by a call, so that nothing is moved where no event is held.
    #[inline(never)]
    fn release_held(&mut self)
        ensures { lookahead_of self.new ≡ lookahead_at (reader_before (lookahead_of self.old)) }
    {
        if let Some(held) = self.held.take() {
            match &held.event.kind {
                ParseEventKind::StructStart(_) => self.reader.contexts.pop(),
                ParseEventKind::SequenceStart(_) => self.reader.contexts.pop(),
                _ => {}
            }
        }
        self.shown = false;
    }

    /// A copy of the event that is held, which is shown from then on. Without memory for it nothing changes.
    fn lend(&mut self, alloc: Global) -> Result<Option<ParseEvent<'de>>, AllocError>
        ensures { MatchResult result
            (λ shown. MatchOption shown
            ((lookahead_of self.new ≡ lookahead_of self.old) × ((lookahead_of self.old).held ≡ None))
            (λ e. Lends (lookahead_of self.old) (event_of e) (lookahead_of self.new)))
            (λ _. Withholds (lookahead_of self.old) (lookahead_of self.new)) }
    {
        let Some(held) = &self.held else {
            return Ok(None);
        };
        let event = held.event.clone(alloc)?;
        self.shown = true;
        Ok(Some(event))
    }

    /// Copies the lookahead, its reader and the event that it holds.
    pub fn copy(&self, alloc: Global) -> Result<Lookahead<'de>, AllocError>
        ensures { IfOk result (λ s. lookahead_of s ≡ lookahead_of self.now) }
    {
        let held = match &self.held {
            Some(held) => Some(held.copy(alloc)?),
            None => None,
        };
        Ok(Lookahead {
            reader: self.reader.copy(alloc)?,
            held,
            shown: self.shown,
        })
    }
}
