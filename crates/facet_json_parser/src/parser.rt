//! Reads a document event by event, with a look ahead and points to go back to.

ghost use Rattle.std.specs.Prelude.{◌≡◌, ◌≤◌, ◌+◌, suc, true, false, List, Some, None, Ok, Err, ◌<◌, length, ◌∷◌, ◌++◌, OnSome, IfOk, IfErr, IfSome};
ghost use Rattle.std.specs.Prelude.{IfNone, IsSome, IsUtf8, map, codes, MatchOption, MatchResult};
ghost use Rattle.std.specs.Option.{option_map};
ghost use Rattle.std.specs.VecDeque.{deque_len, deque_capacity};
ghost use Rattle.facet_format.specs.declared.event.ParseEvent.{ParseEvent as RustEvent};
ghost use Rattle.facet_format.specs.Cursor.{event, next, peek, events, skip, capture, save, restore, restored, span, spans, refused_at};
ghost use Rattle.facet_format.specs.Kept.{found, without};
ghost use Rattle.facet_format.specs.Event.{ContainerKind, object};
ghost use Rattle.facet_format.specs.Span.{stop};
ghost use Rattle.facet_format.specs.Steps.{IsStep};
ghost use Rattle.facet_format.specs.Views.{event_of, span_of, parse_refusal, answer_of_event, answer_of_events, answer_of_skip};
ghost use Rattle.facet_format.specs.Views.{answer_of_capture, answer_of_save, answer_of_span};
ghost use Rattle.facet_json_token.specs.Gap.{plain, jsonc};
ghost use Rattle.facet_json_grammar.specs.Language.{strict};
ghost use Rattle.facet_json_grammar.specs.Future.{finished};
ghost use Rattle.facet_json_reader.specs.PlaceViews.{language_of, refused_of};
ghost use Rattle.facet_json_grammar.specs.Now.{fresh, fresh_in, current_span_of, ahead, future_of, SameInput, GoesOn, StandsAt};
ghost use Rattle.facet_json_grammar.specs.Move.{Moves, MovesBy, with_kept, without_point};
ghost use Rattle.facet_json_grammar.specs.Next.{PassesNext, ShowsNext, PassesAll, IsOver};
ghost use Rattle.facet_json_parser.specs.Inner.Sight.{standing, StandsThere};
ghost use Rattle.facet_json_parser.specs.Inner.Wanted.{NeverGives, PassesMore, PassesWanted};
ghost use Rattle.facet_json_reader.specs.Inner.Soughts.{event_of_sought};
ghost use Rattle.facet_json_grammar.specs.UnreadLaws.{RefusalWithin};
ghost use Rattle.facet_json_grammar.specs.Within.{NowWithin, AnswerWithin};
ghost use Rattle.facet_json_parser.specs.Steps.{QueuesNow};

use crate::lookahead::Lookahead;
use crate::points::{Point, bring_back, drop_point, keep};
use facet_format::{FormatParser, ParseError, ParseEvent, ParseEventKind, SavePoint, Span};
use facet_json_reader::{Front, Language, Refused, Sought, Takes, Wanted};
use facet_json_token::Trust;
use std::alloc::Global;
use std::collections::VecDeque;
use std::fmt;
use std::marker::Model;

/// A parser of a JSON document (RFC 8259, sections 2 to 7), event by event, over an input that lives for `'de`.
///
/// The document is the value at the start of the input. What stands after it is not looked at, but by a parser that
/// `new_strict` makes: there it must be white space. Offsets and lengths of spans are in bytes.
///
/// ```text
/// let mut parser = JsonParser::new(alloc, b"{\"a\":[1]}");
/// parser.next_event()              Ok: StructStart(Object), span 0+1
/// parser.peek_event()              Ok: FieldKey of a, span 1+3
/// parser.current_span()            Some: span 4+1, the colon after the key
/// parser.next_event()              Ok: FieldKey of a, span 1+3
/// parser.save()                    Ok: SavePoint(1)
/// parser.next_event()              Ok: SequenceStart(Array), span 5+1
/// parser.restore(SavePoint(1))
/// parser.save()                    Ok: SavePoint(2)
/// parser.capture_raw()             Ok: Some of [1]
/// parser.skip_value()              Ok: the end of the object is passed
/// parser.restore(SavePoint(2))
/// parser.next_events(&mut q, 9)    Ok: 4, and q has SequenceStart, Scalar of U64(1), SequenceEnd, StructEnd
/// parser.next_event()              Ok: None
/// ```
///
/// # Errors
///
/// A refusal of a call for events, of a skip or of a capture sticks: these calls and saves repeat it, until a point that is
/// kept is restored. A refused save changes nothing, and does not stick.
pub struct JsonParser<'de> {
    alloc: Global,
    input: &'de [u8],
    language: Language,
    trust: Trust,
    lookahead: Lookahead<'de>,
    refusal: Option<Refused>,
    points: Vec<Point<'de>>,
    counter: u64,
}

/// Its name alone.
impl fmt::Debug for JsonParser<'_> {
    fn fmt<W: fmt::Write>(&self, f: &mut fmt::Formatter<W>) -> fmt::Result {
        f.debug_struct("JsonParser").finish_non_exhaustive()
    }
}

/// By a call, so that a proof about a function that owns a parser need not take it apart.
impl Drop for JsonParser<'_> {
    fn drop(self) {
        let JsonParser {
            alloc: _,
            input: _,
            language: _,
            trust: _,
            lookahead: _,
            refusal: _,
            points: _,
            counter: _,
        } = self;
    }
}

impl<'de> Model for JsonParser<'de> {
    ghost use Rattle.std.specs.Prelude.{◌≡◌, map, IsUtf8};
    ghost use Rattle.std.specs.Option.{option_map};
    ghost use Rattle.facet_json_grammar.specs.Now.{Now};
    ghost use Rattle.facet_json_token.specs.declared.mode.Trust.TheVariants.{Utf8};
    ghost use Rattle.facet_json_reader.specs.PlaceViews.{language_of, refused_of};
    ghost use Rattle.facet_json_parser.specs.Ready.{IsReady};
    ghost use Rattle.facet_json_parser.specs.Views.{lookahead_of, point_of, now_of};

    ghost Value = { Now };

    ghost view = { λ p. now_of p.input.now p.language p.lookahead p.refusal p.points.items p.counter };

    ghost invariant = { λ p. IsReady p.input.now (language_of p.language) (lookahead_of p.lookahead) (option_map refused_of p.refusal)
        (map point_of p.points.items) p.counter × (p.trust ≡ Utf8 → IsUtf8 p.input.now) };
}

impl<'de> JsonParser<'de> {
    /// A parser of a document without comments, before the input. It does not allocate.
    pub fn new(alloc: Global, input: &'de [u8]) -> JsonParser<'de>
        ensures { result ≡ fresh input.now plain }
    {
        JsonParser::in_language(alloc, input, Language::Plain, Trust::Nothing)
    }

    /// A parser of a document in which comments are allowed wherever white space is: `//` to the line's end, and `/*` to
    /// `*/`. It does not allocate.
    pub fn new_jsonc(alloc: Global, input: &'de [u8]) -> JsonParser<'de>
        ensures { result ≡ fresh input.now jsonc }
    {
        JsonParser::in_language(alloc, input, Language::Jsonc, Trust::Nothing)
    }

    /// The parser that `new` makes, for a caller that knows the input to be UTF-8, as the bytes of a `str` are. It
    /// answers as the one that checks its strings.
    pub fn new_trusted(alloc: Global, input: &'de [u8]) -> JsonParser<'de>
        requires utf8 { IsUtf8 input.now }
        ensures { result ≡ fresh input.now plain }
    {
        JsonParser::in_language(alloc, input, Language::Plain, Trust::Utf8)
    }

    /// The parser that `new_jsonc` makes, for a caller that knows the input to be UTF-8, as the bytes of a `str` are. It
    /// answers as the one that checks its strings.
    pub fn new_jsonc_trusted(alloc: Global, input: &'de [u8]) -> JsonParser<'de>
        requires utf8 { IsUtf8 input.now }
        ensures { result ≡ fresh input.now jsonc }
    {
        JsonParser::in_language(alloc, input, Language::Jsonc, Trust::Utf8)
    }

    /// A parser of a text that is one of RFC 8259 alone: no comma trails, strings and numbers are as the RFC has them, and nothing but
    /// white space stands behind the root. It does not allocate.
    pub fn new_strict(alloc: Global, input: &'de [u8]) -> JsonParser<'de>
        ensures { result ≡ fresh_in input.now (strict plain) }
    {
        JsonParser::in_language(alloc, input, Language::Strict, Trust::Nothing)
    }

    /// The parser that `new_strict` makes, for a caller that knows the input to be UTF-8, as the bytes of a `str` are. It
    /// answers as the one that checks its strings.
    pub fn new_strict_trusted(alloc: Global, input: &'de [u8]) -> JsonParser<'de>
        requires utf8 { IsUtf8 input.now }
        ensures { result ≡ fresh_in input.now (strict plain) }
    {
        JsonParser::in_language(alloc, input, Language::Strict, Trust::Utf8)
    }

    /// A parser in this language, before the input. The other constructors are this one with its language and trust: strings of an input
    /// that is trusted are not checked, and the parser answers as the one that checks them. It does not allocate.
    ///
    /// ```text
    /// JsonParser::in_language(alloc, b"[1,]", Language::Plain, Trust::Nothing)    as JsonParser::new(alloc, b"[1,]")
    /// ```
    pub fn in_language(
        alloc: Global,
        input: &'de [u8],
        language: Language,
        trust: Trust,
    ) -> JsonParser<'de>
        requires utf8 { trust ≡ Trust.Utf8 → IsUtf8 input.now }
        ensures { result ≡ fresh_in input.now (language_of language) }
    {
        JsonParser {
            alloc,
            input,
            language,
            trust,
            lookahead: Lookahead::new(alloc),
            refusal: None,
            points: Vec::new(alloc),
            counter: 0,
        }
    }

    /// Drops a point that is kept, as `restore` does, and stays where it is, refused or not. A point that is not kept changes nothing.
    /// It does not allocate.
    pub fn forget(&mut self, point: SavePoint)
        ensures { self.new ≡ without_point point.0 self.old }
    {
        drop_point(&mut self.points, point.0);
    }

    /// Repeats a refusal, where there is one.
    #[inline(always)]
    fn unrefused<'t>(&self) -> Result<(), ParseError<'t>>
        ensures { MatchResult result
            (λ _. self.now.cursor.refusal ≡ None)
            (λ e. self.now.cursor.refusal ≡ Some (parse_refusal e)) }
    {
        match self.refusal {
            Some(refused) => Err(ParseError::from(refused)),
            None => Ok(()),
        }
    }

    /// Refuses so from now on.
    #[inline(never)]
    fn refuse<'t>(&mut self, refused: Refused) -> ParseError<'t>
        requires within { RefusalWithin self.old.buffer (refused_of refused) }
        ensures error { parse_refusal result ≡ refused_of refused }
        ensures kept { self.new
            ≡ record self.old { cursor = refused_at self.old.cursor self.old.cursor.spot (refused_of refused) } }
    {
        self.refusal = Some(refused);
        ParseError::from(refused)
    }

    /// Consumes what is wanted, where a few bytes decide that it comes. Else nothing changes.
    #[inline(always)]
    fn step<W: Wanted<'de>>(&mut self) -> Option<(W, Span)>
        ensures passed { MatchOption result (self.new ≡ self.old)
            (λ r. MovesBy self.old (record { kind = W.kind r.0; span = span_of r.1 }) self.new) }
        ensures within { NowWithin self.old }
    {
        if self.refusal.is_some() {
            return None;
        }
        self.lookahead.step(self.input, self.language, self.trust)
    }

    /// Consumes events as long as a few bytes decide each of them and it is taken.
    #[inline(always)]
    fn pass_events<T: Takes<'de>>(&mut self, takes: &mut T)
        ensures { PassesMore (T.takes self.old.buffer) self.old takes.old self.new takes.new }
    {
        if self.refusal.is_some() {
            return;
        }
        self.lookahead
            .pass_in_sight(self.input, self.language, takes);
    }

    /// Whether the innermost open container is an object. Where an event is held, the answer is no.
    #[inline(always)]
    fn stands_in_object(&self) -> bool
        ensures { result ≡ true → (others : List ContainerKind) × (self.now.cursor.spot.place.stack ≡ object ∷ others) }
    {
        self.lookahead.in_object()
    }

    /// The input, and how far it is, where no event is held, in `Language::Plain`.
    #[inline(always)]
    fn front_there(&self) -> Option<(&'de [u8], Front)>
        ensures input { IfSome result (λ r. r.0.now ≡ self.now.buffer) }
        ensures there { IfSome result (λ r. StandsThere self.now r.1) }
    {
        if self.refusal.is_some() {
            return None;
        }
        let front = self.lookahead.front(self.input, self.language)?;
        Some((self.input, front))
    }

    /// Stands that far, within the same containers.
    #[inline(always)]
    fn stand_there(&mut self, front: Front)
        requires within { stop (span_of front.last) ≤ length self.old.buffer }
        ensures { self.new ≡ standing self.old front }
    {
        self.lookahead.stand(front);
    }

    /// Whether something else comes next, as its first byte tells.
    #[inline(always)]
    fn finds_other(&self, sought: Sought) -> bool
        ensures { result ≡ true → NeverGives (event_of_sought sought) (future_of self.now) }
    {
        self.lookahead
            .comes_other(self.input, self.language, sought)
    }

    /// The next event, token by token, as a value of its own: so an event that is passed at once, which never goes through this,
    /// needs no memory.
    #[inline(always)]
    fn next_apart<'t>(&mut self) -> Result<Option<ParseEvent<'de>>, ParseError<'t>>
        ensures { Moves self.old next (answer_of_event result) self.new }
    {
        let result = self.next_out_of_line();
        result
    }

    /// The next event, token by token.
    #[inline(never)]
    fn next_out_of_line<'t>(&mut self) -> Result<Option<ParseEvent<'de>>, ParseError<'t>>
        ensures { Moves self.old next (answer_of_event result) self.new }
    {
        self.unrefused()?;
        match self.lookahead.next(self.alloc, self.input, self.language) {
            Ok(passed) => Ok(passed),
            Err(refused) => Err(self.refuse(refused)),
        }
    }

    /// Skips a scalar, where a look at its bytes tells it whole. Else nothing changes.
    #[inline(always)]
    fn skip_scalar(&mut self) -> bool
        ensures skipped { result ≡ true → Moves self.old skip (answer_of_skip (Ok tt)) self.new }
        ensures same { result ≡ false → self.new ≡ self.old }
        ensures within { NowWithin self.old }
    {
        if self.refusal.is_some() {
            return false;
        }
        self.lookahead.skip_scalar(self.input, self.language)
    }

    /// Skips what stands next, by a call, so that a scalar, which never goes through this, needs no memory.
    #[inline(never)]
    fn skip_out_of_line<'t>(&mut self) -> Result<(), ParseError<'t>>
        ensures { Moves self.old skip (answer_of_skip result) self.new }
    {
        self.unrefused()?;
        match self.lookahead.skip(self.alloc, self.input, self.language) {
            Ok(()) => Ok(()),
            Err(refused) => Err(self.refuse(refused)),
        }
    }

    /// The next event, once the queue has room for it.
    fn next_with_room<'t>(
        &mut self,
        queue: &mut VecDeque<ParseEvent<'de>>,
    ) -> Result<Option<ParseEvent<'de>>, ParseError<'t>>
        ensures items { queue.new.items ≡ queue.old.items }
        ensures room { IfOk result (λ o. OnSome o (deque_len queue.new < deque_capacity queue.new)) }
        ensures event { MatchResult result
            (λ o. QueuesNow self.old (Ok (option_map event_of o)) self.new)
            (λ e. QueuesNow self.old (Err (parse_refusal e)) self.new) }
        ensures within { NowWithin self.old }
    {
        self.unrefused()?;
        match self
            .lookahead
            .next_with_room(self.alloc, self.input, self.language, queue)
        {
            Ok(event) => Ok(event),
            Err(refused) => Err(self.refuse(refused)),
        }
    }
}

/// Consumes what is wanted and returns it with its event's span, where a few bytes decide that it comes. Else nothing changes. It does not
/// allocate, but for an open container.
#[inline(always)]
pub fn next_wanted<'de, W: Wanted<'de>>(parser: &mut JsonParser<'de>) -> Option<(W, Span)>
    ensures { MatchOption result (parser.new ≡ parser.old)
        (λ r. PassesWanted parser.old (record { kind = W.kind r.0; span = span_of r.1 }) parser.new) }
{
    parser.step()
}

/// Consumes events as long as a few bytes decide each of them and it is taken. It does not allocate, but for open containers.
#[inline(always)]
pub fn pass_in_sight<'de, T: Takes<'de>>(parser: &mut JsonParser<'de>, takes: &mut T)
    ensures { PassesMore (T.takes parser.old.buffer) parser.old takes.old parser.new takes.new }
{
    parser.pass_events(takes);
}

/// Whether the innermost open container is an object.
#[inline(always)]
pub fn in_object(parser: &JsonParser<'_>) -> bool
    ensures { result ≡ true → (others : List ContainerKind) × (parser.now.cursor.spot.place.stack ≡ object ∷ others) }
{
    parser.stands_in_object()
}

/// The input, and how far the parser is in it, for who takes keys and scalars in sight: where no event is held and no refusal sticks, in
/// `Language::Plain`.
#[inline(always)]
pub fn front<'de>(parser: &JsonParser<'de>) -> Option<(&'de [u8], Front)>
    ensures input { IfSome result (λ r. r.0.now ≡ parser.now.buffer) }
    ensures there { IfSome result (λ r. StandsThere parser.now r.1) }
{
    parser.front_there()
}

/// Lets the parser stand that far, within the same containers.
#[inline(always)]
pub fn stand(parser: &mut JsonParser<'_>, front: Front)
    requires within { stop (span_of front.last) ≤ length parser.old.buffer }
    ensures { parser.new ≡ standing parser.old front }
{
    parser.stand_there(front);
}

/// Whether something else comes next, as its first byte tells. Where it does not tell, the answer is no. Nothing is read.
#[inline(always)]
pub fn comes_other(parser: &JsonParser<'_>, sought: Sought) -> bool
    ensures { result ≡ true → NeverGives (event_of_sought sought) (future_of parser.now) }
{
    parser.finds_other(sought)
}

impl<'de> FormatParser<'de> for JsonParser<'de> {
    ghost at = { StandsAt };

    ghost ahead = { ahead };

    /// Consumes the next event and returns it, or `None` after the document's last one, again and again.
    ///
    /// # Errors
    ///
    /// The input does not go on with a document; the span is that of the bytes that are wrong.
    ///
    /// - `UnexpectedChar`: no token begins or goes on so, or a character is wrong in an escape (RFC 8259, sections 2, 6
    ///   and 7). A number without a value is refused as the character `?`, with the number's span.
    /// - `UnexpectedEof`: the input ends. The span is empty at its end, or goes from the start of the piece that is cut.
    /// - `UnexpectedToken`: no document goes on with this token, or the input ends after a key.
    /// - `InvalidUtf8`: a string's bytes are not UTF-8 (section 8.1).
    /// - `OutOfMemory`: no memory for an open container or for an owned text, with the current span. An event that a peek
    ///   answered takes none.
    ///
    /// A refusal sticks, until a point that is kept is restored.
    #[inline(always)]
    fn next_event<'t>(&mut self) -> Result<Option<ParseEvent<'de>>, ParseError<'t>>
        ensures steps { IsStep StandsAt self.old next (answer_of_event result) self.new }
        ensures moves { Moves self.old next (answer_of_event result) self.new }
        ensures within { AnswerWithin self.new.buffer (answer_of_event result) }
        ensures lowers { ahead self.new ≤ ahead self.old }
        ensures onward { GoesOn self.old self.new }
        ensures shorter { IfOk result (λ o. OnSome o (ahead self.new < ahead self.old)) }
        ensures next { IfOk result (λ o. IfSome o (λ e. PassesNext self.old (event_of e) self.new)) }
        ensures end { IfOk result (λ o. IfNone o (IsOver self.old self.new)) }
    {
        let Some((kind, span)) = self.step::<ParseEventKind<'de>>() else {
            return self.next_apart();
        };
        Ok(Some(ParseEvent::new(kind, span)))
    }

    /// Returns the next event and lets it stay the next one, or `None` after the document's last one.
    ///
    /// # Errors
    ///
    /// As `next_event`, and `OutOfMemory`, with the current span, where the event's owned text can't be copied: for an event
    /// that a peek answered before, only then. A refusal sticks, until a point that is kept is restored.
    fn peek_event<'t>(&mut self) -> Result<Option<ParseEvent<'de>>, ParseError<'t>>
        ensures steps { IsStep StandsAt self.old peek (answer_of_event result) self.new }
        ensures moves { Moves self.old peek (answer_of_event result) self.new }
        ensures within { AnswerWithin self.new.buffer (answer_of_event result) }
        ensures lowers { ahead self.new ≤ ahead self.old }
        ensures onward { GoesOn self.old self.new }
        ensures next { IfOk result (λ o. IfSome o (λ e. ShowsNext self.old (event_of e) self.new)) }
        ensures end { IfOk result (λ o. IfNone o (IsOver self.old self.new)) }
    {
        self.unrefused()?;
        match self.lookahead.peek(self.alloc, self.input, self.language) {
            Ok(shown) => Ok(shown),
            Err(refused) => Err(self.refuse(refused)),
        }
    }

    /// Consumes the next events, up to so many, appends them to the queue and returns how many they are. They are fewer
    /// only where the document ends.
    ///
    /// # Errors
    ///
    /// As `next_event`, and `OutOfMemory`, with the current span, where the queue can't grow. The events before the
    /// refusal are passed and appended. A refusal sticks, until a point that is kept is restored; a call for no events
    /// answers 0 even then.
    fn next_events<'t>(
        &mut self,
        buf: &mut VecDeque<ParseEvent<'de>>,
        limit: usize,
    ) -> Result<usize, ParseError<'t>>
        ensures steps { (given : List RustEvent) × (buf.new.items ≡ buf.old.items ++ given)
            × IsStep StandsAt self.old (events limit) (answer_of_events given result) self.new }
        ensures moves { (given : List RustEvent) × (buf.new.items ≡ buf.old.items ++ given)
            × Moves self.old (events limit) (answer_of_events given result) self.new
            × AnswerWithin self.new.buffer (answer_of_events given result) }
        ensures lowers { ahead self.new ≤ ahead self.old }
        ensures onward { GoesOn self.old self.new }
        ensures shorter { IfOk result (λ n. ahead self.new + n ≤ ahead self.old) }
        ensures next { (given : List RustEvent) × (buf.new.items ≡ buf.old.items ++ given)
            × PassesAll self.old (map event_of given) self.new × IfOk result (λ n. n ≡ length given) }
        ensures end { IfOk result (λ n. n < limit → future_of self.new ≡ finished) }
    {
        for count in 0..limit {
            let Some(event) = self.next_with_room(buf)? else {
                return Ok(count);
            };
            buf.push_back_reserved(event);
        }
        Ok(limit)
    }

    /// Skips the next value with all that it holds, or a key with its colon, or the end of a container, and decodes nothing:
    /// tokens are cut and brackets matched, and no more. An event that was peeked at is passed with its value.
    ///
    /// # Errors
    ///
    /// No such part stands there; the span is that of the bytes that are wrong.
    ///
    /// - `UnexpectedChar`: no token begins or goes on so (RFC 8259, sections 2, 6 and 7).
    /// - `UnexpectedEof`: the input ends. After the document's last event it is `value`, with an empty span after the last token.
    /// - `UnexpectedToken`: no document goes on with this token, a bracket within the value closes another one, or the input
    ///   ends after a key.
    /// - `OutOfMemory`: no memory for the brackets that are open within the value, with the current span.
    ///
    /// A refusal sticks, until a point that is kept is restored.
    fn skip_value<'t>(&mut self) -> Result<(), ParseError<'t>>
        ensures steps { IsStep StandsAt self.old skip (answer_of_skip result) self.new }
        ensures moves { Moves self.old skip (answer_of_skip result) self.new }
        ensures within { AnswerWithin self.new.buffer (answer_of_skip result) }
        ensures lowers { ahead self.new ≤ ahead self.old }
        ensures onward { GoesOn self.old self.new }
        ensures shorter { IfOk result (λ _. ahead self.new < ahead self.old) }
    {
        if self.skip_scalar() {
            return Ok(());
        }
        self.skip_out_of_line()
    }

    /// Consumes the next value with all that it holds, as a skip does, and returns its bytes as they are in the input, from its
    /// first token to its last one. They are always there.
    ///
    /// # Errors
    ///
    /// As `skip_value` for a value, and `InvalidValue` for what is no raw text:
    ///
    /// - `unexpected field key in capture_raw`: a key stands there; with an empty span at its start.
    /// - `unexpected end event in capture_raw`: the end of a container stands there; with an empty span at its start.
    /// - `invalid UTF-8 in raw JSON`: the value's bytes are not UTF-8 (RFC 8259, section 8.1); with the value's span.
    ///
    /// A refusal sticks, until a point that is kept is restored.
    fn capture_raw<'t>(&mut self) -> Result<Option<&'de str>, ParseError<'t>>
        ensures steps { IsStep StandsAt self.old capture (answer_of_capture result) self.new }
        ensures moves { Moves self.old capture (answer_of_capture result) self.new }
        ensures within { AnswerWithin self.new.buffer (answer_of_capture result) }
        ensures lowers { ahead self.new ≤ ahead self.old }
        ensures onward { GoesOn self.old self.new }
        ensures shorter { IfOk result (λ _. ahead self.new < ahead self.old) }
        ensures given { IfOk result IsSome }
    {
        self.unrefused()?;
        match self
            .lookahead
            .capture(self.alloc, self.input, self.language)
        {
            Ok(text) => Ok(Some(text)),
            Err(refused) => Err(self.refuse(refused)),
        }
    }

    /// Saves its position, an event that was peeked at included, under the next number: the first point has 1. Numbers
    /// are not used again.
    ///
    /// # Errors
    ///
    /// - `OutOfMemory`: no memory to keep the point, with the current span.
    /// - `SaveLimit`: the last point has the greatest number, 2^64 - 1; with the current span.
    ///
    /// Both change nothing and don't stick. A refusal that sticks already is repeated.
    fn save<'t>(&mut self) -> Result<SavePoint, ParseError<'t>>
        ensures steps { IsStep StandsAt self.old save (answer_of_save result) self.new }
        ensures moves { Moves self.old save (answer_of_save result) self.new }
        ensures within { AnswerWithin self.new.buffer (answer_of_save result) }
        ensures input { SameInput self.old self.new }
        ensures lowers { ahead self.new ≤ ahead self.old }
        ensures point { IfOk result (λ p. (p.0 ≡ suc self.old.cursor.counter) × (self.new ≡ with_kept self.old)) }
        ensures own_number { IfOk result (λ p. found p.0 self.old.cursor.kept ≡ None) }
        ensures unchanged { IfErr result (λ _. self.new ≡ self.old) }
    {
        self.unrefused()?;
        let Some(number) = self.counter.checked_add(1) else {
            return Err(ParseError::from(Refused::save_limit(self.lookahead.span())));
        };
        match keep(&mut self.points, self.alloc, number, &self.lookahead) {
            Ok(()) => {
                self.counter = number;
                Ok(SavePoint(number))
            }
            Err(_) => Err(ParseError::from(Refused::out_of_memory(self.lookahead.span()))),
        }
    }

    /// Goes back to where it stood at the save of a point that is kept, with no refusal, and drops the point; other points
    /// stay. A point that is not kept changes nothing. It does not allocate.
    fn restore(&mut self, point: SavePoint)
        ensures steps { IsStep StandsAt self.old (restore point.0) restored self.new }
        ensures moves { Moves self.old (restore point.0) restored self.new }
        ensures input { SameInput self.old self.new }
        ensures points { self.new.cursor.kept ≡ without point.0 self.old.cursor.kept }
        ensures counter { self.new.cursor.counter ≡ self.old.cursor.counter }
    {
        if let Some(lookahead) = bring_back(&mut self.points, point.0) {
            self.lookahead = lookahead;
            self.refusal = None;
        }
    }

    /// The bytes of the last token that an event took, also of an event that was peeked at: of a key the colon's, of
    /// another event its own. Before the first event the span is 0+0. It is always there.
    fn current_span(&self) -> Option<Span>
        ensures steps { IsStep StandsAt self.now span (answer_of_span result) self.now }
        ensures told { answer_of_span result ≡ spans (Some (current_span_of self.now)) }
        ensures within { AnswerWithin self.now.buffer (answer_of_span result) }
        ensures given { IsSome result }
    {
        Some(self.lookahead.span())
    }

    /// The whole input, whatever was read of it. It is always there.
    fn input(&self) -> Option<&'de [u8]>
        ensures bytes { IfSome result (λ bytes. bytes.now ≡ self.now.buffer) }
        ensures given { IsSome result }
    {
        Some(self.input)
    }

    /// The name of the format, `json`, in each language. It is always there.
    fn format_namespace<'t>(&self) -> Option<&'t str>
        ensures name { IfSome result (λ name. name.now ≡ codes "json") }
        ensures given { IsSome result }
    {
        Some("json")
    }
}
