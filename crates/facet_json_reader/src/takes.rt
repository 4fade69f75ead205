//! What takes events while they are consumed in sight.

ghost use Rattle.std.specs.Prelude.{◌≡◌, ◌≤◌, ℕ, List, Option, Some, None, true, false, length, slice_range};
ghost use Rattle.facet_format.specs.Event.{Event, EventKind};
ghost use Rattle.facet_format.specs.Span.{stop};
ghost use Rattle.facet_format.specs.Views.{span_of};
ghost use Rattle.facet_json_reader.specs.Pieces.{IsPiece};
ghost use Rattle.facet_json_reader.specs.Inner.InSight.{TakesText};

use facet_format::{ContainerKind, Span};
use facet_json_token::check_content;

/// What an event in sight is of. Its bytes tell the rest.
#[derive(Clone, Copy)]
pub enum Piece {
    /// A text without an escape.
    Text,
    /// A key without an escape.
    Key,
    /// A number whose value has 64 bits, a fraction or an exponent.
    Number,
    /// `true` or `false`
    Bool(bool),
    /// `null`
    Null,
    /// The bracket that opens a container.
    Start(ContainerKind),
    /// The bracket that closes one.
    End(ContainerKind),
}

/// What takes events while they are consumed in sight.
pub trait Takes<'de>: Sized {
    /// How an event of this input changes it, or one that it does not take.
    ghost takes: { List ℕ → Option Event → Self → Self → Type 0 };

    /// Takes the event of these bytes of the input, and says whether it did. Where it did not, the event is not consumed, and none behind it.
    fn take(&mut self, input: &'de [u8], piece: Piece, span: Span) -> bool
        requires within { stop (span_of span) ≤ length input.now }
        requires piece { (kind : EventKind) × IsPiece (slice_range input.now span.offset (stop (span_of span))) piece kind }
        ensures taken { result ≡ true → (kind : EventKind)
            → IsPiece (slice_range input.now span.offset (stop (span_of span))) piece kind
            → takes input.now (Some (record { kind = kind; span = span_of span })) self.old self.new }
        ensures left { result ≡ false → takes input.now None self.old self.new };

    /// Takes the event of the text of the string that has these bytes, in which an escape stands, and says whether it did: only where there
    /// is such a text. Where it did not, the event is not consumed, and none behind it.
    fn take_escaped(&mut self, input: &'de [u8], span: Span) -> bool
        requires within { stop (span_of span) ≤ length input.now }
        requires quotes { 2 ≤ span.len }
        ensures taken { result ≡ true → TakesText (takes input.now) input.now (span_of span) self.old self.new }
        ensures left { result ≡ false → takes input.now None self.old self.new };
}

/// Nothing is kept of any event.
impl<'de> Takes<'de> for () {
    ghost takes = { λ _ _ _ _. Unit {0} };

    #[inline(always)]
    fn take(&mut self, _input: &'de [u8], _piece: Piece, _span: Span) -> bool {
        true
    }

    #[inline(always)]
    fn take_escaped(&mut self, input: &'de [u8], span: Span) -> bool {
        check_content(input, span.offset + 1, span.end() - 1).is_ok()
    }
}
