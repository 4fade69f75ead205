//! What every parser of a format offers: a document's events one by one, with a look ahead and points to go back to.

ghost use Rattle.std.specs.Prelude.{◌≡◌, ◌+◌, ◌<◌, ◌≤◌, List, ◌++◌, IfOk, OnSome, IsSome};
ghost use Rattle.facet_format.specs.declared.event.ParseEvent.{ParseEvent};
ghost use Rattle.facet_format.specs.Cursor.{next, peek, events, skip, capture, save, restore, restored, span};
ghost use Rattle.facet_format.specs.Steps.{IsStep};
ghost use Rattle.facet_format.specs.Views.{answer_of_event, answer_of_events, answer_of_skip, answer_of_capture, answer_of_save};
ghost use Rattle.facet_format.specs.Views.{answer_of_span};

use crate::event::{ParseEvent, SavePoint, Span};
use crate::parse_error::ParseError;
use std::collections::VecDeque;

/// A parser of a format, over an input that lives for `'de`.
///
/// On an input with a document it stands at a cursor on that document's walk, its list of events, and each call is one
/// step of that cursor.
pub trait FormatParser<'de> {
    ghost use Rattle.std.specs.Prelude.{ℕ};
    ghost use Rattle.facet_format.specs.Part.{Source};
    ghost use Rattle.facet_format.specs.Cursor.{Cursor};

    /// It stands at this cursor on this walk in an input.
    ghost at: { Self → Source → Cursor ℕ → Type 0 };

    /// So much is ahead of it: each event that is passed lowers it, and each skip and capture.
    ghost ahead: { Self → ℕ };

    /// The next event, or `None` at the document's end.
    fn next_event<'t>(&mut self) -> Result<Option<ParseEvent<'de>>, ParseError<'t>>
        ensures steps { IsStep at self.old next (answer_of_event result) self.new }
        ensures lowers { ahead self.new ≤ ahead self.old }
        ensures shorter { IfOk result (λ o. OnSome o (ahead self.new < ahead self.old)) };

    /// The next event, which stays the next one.
    fn peek_event<'t>(&mut self) -> Result<Option<ParseEvent<'de>>, ParseError<'t>>
        ensures steps { IsStep at self.old peek (answer_of_event result) self.new }
        ensures lowers { ahead self.new ≤ ahead self.old };

    /// Appends the next events to the queue, up to so many, and returns how many they are. Where a refusal comes, the
    /// events before it are appended.
    fn next_events<'t>(
        &mut self,
        buf: &mut VecDeque<ParseEvent<'de>>,
        limit: usize,
    ) -> Result<usize, ParseError<'t>>
        ensures steps { (given : List ParseEvent) × (buf.new.items ≡ buf.old.items ++ given)
            × IsStep at self.old (events limit) (answer_of_events given result) self.new }
        ensures lowers { ahead self.new ≤ ahead self.old }
        ensures shorter { IfOk result (λ n. ahead self.new + n ≤ ahead self.old) };

    /// Skips the next value with all that it holds, or the next key or end, and decodes nothing.
    fn skip_value<'t>(&mut self) -> Result<(), ParseError<'t>>
        ensures steps { IsStep at self.old skip (answer_of_skip result) self.new }
        ensures lowers { ahead self.new ≤ ahead self.old }
        ensures shorter { IfOk result (λ _. ahead self.new < ahead self.old) };

    /// Consumes the next value with all that it holds, and returns its bytes as they are in the input, where the parser has all
    /// of it.
    fn capture_raw<'t>(&mut self) -> Result<Option<&'de str>, ParseError<'t>>
        ensures steps { IsStep at self.old capture (answer_of_capture result) self.new }
        ensures lowers { ahead self.new ≤ ahead self.old }
        ensures shorter { IfOk result (λ _. ahead self.new < ahead self.old) };

    /// Saves its position, under a number of its own.
    fn save<'t>(&mut self) -> Result<SavePoint, ParseError<'t>>
        ensures steps { IsStep at self.old save (answer_of_save result) self.new }
        ensures lowers { ahead self.new ≤ ahead self.old };

    /// Goes back to a point that is kept, and drops the point. Another point changes nothing.
    fn restore(&mut self, point: SavePoint)
        ensures steps { IsStep at self.old (restore point.0) restored self.new };

    /// The bytes of the last token that was consumed, a peek's included. It is always there.
    fn current_span(&self) -> Option<Span>
        ensures steps { IsStep at self.now span (answer_of_span result) self.now }
        ensures given { IsSome result };

    /// The input, where the parser has all of it.
    fn input(&self) -> Option<&'de [u8]>;

    /// The name of the format, where it has one by which fields are told apart.
    fn format_namespace<'t>(&self) -> Option<&'t str>;
}
