//! Generic code over parsers is proved from the trait alone.

ghost use Rattle.std.specs.Prelude.{◌≡◌, ◌+◌, ◌^◌, ◌<◌, ◌≤◌, ℕ, List, IfSome, IfOk};
ghost use Rattle.facet_format.specs.Part.{Source};
ghost use Rattle.facet_format.specs.Cursor.{Cursor};
ghost use Rattle.facet_format.specs.Views.{event_of};
ghost use Rattle.facet_format.specs.declared.error.DeserializeErrorKind.TheVariants.{OutOfMemory};

use facet_format::{
    DeserializeError, FormatParser, ParseError, ParseEvent, ParseEventKind, SavePoint, ScalarValue,
    Span,
};
use std::alloc::AllocError;
use std::collections::VecDeque;

/// The event that a peek shows, and the one that follows.
fn peek_and_next<'de, P: FormatParser<'de>>(
    parser: &mut P,
) -> Option<(ParseEvent<'de>, ParseEvent<'de>)>
    ensures alike { (w : Source) (c : Cursor ℕ) → P.at parser.old w c
        → IfSome result (λ events. event_of events.0 ≡ event_of events.1) }
    ensures stands { (w : Source) (c : Cursor ℕ) → P.at parser.old w c → (last : Cursor ℕ) × P.at parser.new w last }
{
    match parser.peek_event() {
        Ok(Some(shown)) => match parser.next_event() {
            Ok(Some(event)) => Some((shown, event)),
            _ => None,
        },
        _ => None,
    }
}

/// How many events come.
fn count<'de, 't, P: FormatParser<'de>>(parser: &mut P) -> Result<usize, ParseError<'t>>
    requires fits { P.ahead parser.old < 2 ^ 64 }
    ensures { IfOk result (λ n. n + P.ahead parser.new ≤ P.ahead parser.old) }
{
    let mut count = 0;
    while let Some(_event) = parser.next_event()? {
        count += 1;
    }
    Ok(count)
}

/// The offset after the last token that was taken, of whatever parser.
fn position<'de, P: FormatParser<'de>>(parser: &P) -> usize {
    parser.current_span().unwrap().end()
}

/// How a reader over a parser refuses where an allocation failed.
fn growth_refused<'de, 't, P: FormatParser<'de>>(parser: &P) -> ParseError<'t>
    ensures { result.kind ≡ OutOfMemory }
{
    ParseError::new(
        parser.current_span().unwrap(),
        DeserializeError::out_of_memory().kind,
    )
}

/// The number of the kind of that refusal, once it is passed on.
fn code_of_growth<'de, P: FormatParser<'de>>(parser: &P) -> u8
    ensures { result ≡ 9 }
{
    DeserializeError::from(growth_refused(parser)).kind.code()
}

/// The number of the kind as which a refusal of the allocator is passed on.
fn code_of_refusal(refused: AllocError) -> u8
    ensures { result ≡ 9 }
{
    DeserializeError::from(refused).kind.code()
}

/// Stands on no walk, and gives `null` again and again.
#[derive(Drop)]
struct Nulls {
    left: usize,
}

impl<'de> FormatParser<'de> for Nulls {
    ghost at = { λ _ _ _. ⊥ };

    ghost ahead = { λ s. s.left };

    fn next_event<'t>(&mut self) -> Result<Option<ParseEvent<'de>>, ParseError<'t>> {
        if self.left == 0 {
            return Ok(None);
        }
        self.left -= 1;
        let kind = ParseEventKind::Scalar(ScalarValue::Null);
        Ok(Some(ParseEvent::new(kind, Span::new(0, 4))))
    }

    fn peek_event<'t>(&mut self) -> Result<Option<ParseEvent<'de>>, ParseError<'t>> {
        self.next_event()
    }

    fn next_events<'t>(
        &mut self,
        _buf: &mut VecDeque<ParseEvent<'de>>,
        _limit: usize,
    ) -> Result<usize, ParseError<'t>> {
        Ok(0)
    }

    fn skip_value<'t>(&mut self) -> Result<(), ParseError<'t>> {
        if self.left == 0 {
            let kind = DeserializeError::out_of_memory().kind;
            return Err(ParseError::new(Span::new(0, 4), kind));
        }
        self.left -= 1;
        Ok(())
    }

    fn capture_raw<'t>(&mut self) -> Result<Option<&'de str>, ParseError<'t>> {
        self.skip_value()?;
        Ok(Some("null"))
    }

    fn save<'t>(&mut self) -> Result<SavePoint, ParseError<'t>> {
        Ok(SavePoint(1))
    }

    fn restore(&mut self, _point: SavePoint) {}

    fn current_span(&self) -> Option<Span> {
        Some(Span::new(3, self.left))
    }

    fn input(&self) -> Option<&'de [u8]> {
        None
    }

    fn format_namespace<'t>(&self) -> Option<&'t str> {
        None
    }
}

/// How many values are skipped before a refusal.
fn skipped<'de, P: FormatParser<'de>>(parser: &mut P) -> usize
    requires fits { P.ahead parser.old < 2 ^ 64 }
{
    let mut count = 0;
    while parser.skip_value().is_ok() {
        count += 1;
    }
    count
}

/// The raw text of the next value, where there is one.
fn raw<'de, P: FormatParser<'de>>(parser: &mut P) -> Option<&'de str> {
    parser.capture_raw().ok().flatten()
}

/// Whether a peek shows what the next call gives.
fn peek_shows_next(parser: &mut Nulls) -> bool {
    match peek_and_next(parser) {
        Some((shown, event)) => shown == event,
        None => false,
    }
}

/// Whether events and values of a parser are counted and shown.
fn goes_on() -> bool {
    count(&mut Nulls { left: 3 }) == Ok(3)
        && peek_shows_next(&mut Nulls { left: 3 })
        && skipped(&mut Nulls { left: 3 }) == 3
        && skipped(&mut Nulls { left: 0 }) == 0
        && raw(&mut Nulls { left: 1 }) == Some("null")
        && raw(&mut Nulls { left: 0 }) == None
}

/// Whether a parser's place and refusals are told.
fn is_told() -> bool {
    position(&Nulls { left: 4 }) == 7
        && position(&Nulls { left: usize::MAX }) == usize::MAX
        && code_of_growth(&Nulls { left: 4 }) == 9
        && DeserializeError::out_of_memory().kind.code() == 9
}

#[test]
fn generic_code_runs_over_a_parser(rt: HostRuntime) {
    assert!(rt; goes_on() && is_told());
}
