//! Types that have their value from a scalar alone: how each of them is read and written.

ghost use Rattle.std.specs.Prelude.{◌≡◌, ◌⊎◌, ◌<◌, None, Some, IfOk, IfErr, IfSome, OnOk, MatchOption};
ghost use Rattle.facet_format.specs.Complaint.{no_memory};
ghost use Rattle.facet_format.specs.Views.{event_of, scalar_value_of};
ghost use Rattle.facet_json_serializer.specs.Serializer.{scalar_tree};
ghost use Rattle.facet_json_tree.specs.Write.{IsOfRust};
ghost use Rattle.facet_json_core.specs.Meaning.Readings.{taken, leaf};
ghost use Rattle.facet_json_core.specs.Calls.{refusal_of, ahead, RefusalWithin, TellsRefusal, KeepsOn, PassesValue, IsRead, IsUnread};
ghost use Rattle.facet_json_core.specs.Calls.{HasDocument, EndsStrictly};
ghost use Rattle.facet_json_core.specs.Meaning.Taking.{TakesNext};
ghost use Rattle.facet_json_facet.specs.Inner.Taking.{IsTakenOf, IsTakenThere};

use crate::facet::Facet;
use facet_format::{DeserializeError, FormatSerializer, ParseEvent, ScalarValue};
use facet_json_core::next_of_value;
use facet_json_parser::JsonParser;
use facet_json_serializer::{JsonSerializeError, JsonSerializer};
use std::alloc::Global;

/// A type that has its value from a scalar, which is one event, and is written as one. Nothing of the input is borrowed.
pub(crate) trait FromScalar: Sized + Drop {
    ghost use Rattle.std.specs.Prelude.{Option};
    ghost use Rattle.facet_format.specs.Complaint.{Refusal};
    ghost use Rattle.facet_format.specs.Event.{Event};
    ghost use Rattle.facet_json_grammar.specs.Tree.{Tree};
    ghost use Rattle.facet_json_core.specs.Refusing.{LacksOrIsAbout};
    ghost use Rattle.facet_json_core.specs.Meaning.Laws.{ReadsBack};
    ghost use Rattle.facet_json_core.specs.Meaning.Readings.{leaf};

    /// What is seen of values.
    ghost View: { Type 0 };

    /// What is seen of a value.
    ghost view: { Self → View };

    /// What is taken of a scalar's tree, if anything.
    ghost takes: { Tree → Option View };

    /// How an event is refused.
    ghost refuses: { Event → Refusal → Type 0 };

    /// The tree as which a value is written.
    ghost tree_of: { View → Tree };

    /// What every value of the type has.
    ghost always: { View → Type 0 };

    /// The value that an event is.
    ///
    /// # Errors
    ///
    /// It is none of the type: a mismatch, or a number out of range, with its span. Or out of memory.
    fn take<'t>(alloc: Global, event: ParseEvent<'_>) -> Result<Self, DeserializeError<'t>>
        ensures taken { IfOk result (λ v. taken takes (event_of event.entry).kind ≡ Some (view v)) }
        ensures refused { IfErr result (λ e. (refusal_of e ≡ no_memory) ⊎ (taken takes (event_of event.entry).kind ≡ None)) }
        ensures span { IfErr result (λ e. IfSome e.span (λ s. s ≡ event.entry.span)) }
        ensures told { IfErr result (λ e. refuses (event_of event.entry) (refusal_of e)) };

    /// The value that comes next, where a few bytes decide what comes, or its refusal. Else nothing changes.
    ///
    /// # Errors
    ///
    /// As `take`.
    fn take_quickly<'t>(
        alloc: Global,
        parser: &mut JsonParser<'_>,
    ) -> Option<Result<Self, DeserializeError<'t>>>
        ensures { MatchOption result (parser.new ≡ parser.old)
            (λ answer. (given : Event) × TakesNext parser.old given parser.new × IsTakenOf view takes refuses given answer) };

    /// The value of the scalar at this offset and how many bytes it takes, where a few bytes decide it and there is memory for it.
    #[inline(always)]
    fn scalar_in_sight(alloc: Global, input: &[u8], at: usize) -> Option<(Self, usize)>
        ensures { IfSome result (λ r. IsTakenThere takes input.now at r.1 (view r.0)) }
    {
        None
    }

    /// The scalar as which a value is written.
    fn to_scalar(&self) -> ScalarValue<'_>
        ensures tree { tree_of (view self.now) ≡ scalar_tree (scalar_value_of result) }
        ensures of_rust { IsOfRust (tree_of (view self.now)) }
        ensures always { always (view self.now) };

    /// A refusal is about the event, or memory lacks.
    ghost refuses_about: { (given : Event) (r : Refusal) → refuses given r → LacksOrIsAbout given.span r };

    /// The text of a value reads as the value.
    ghost reads_back: { ReadsBack (leaf takes) tree_of always (λ _. Unit {0}) };
}

/// Truth values, whole numbers and `String` are each read from one event (RFC 8259, section 3), and written by one call.
///
/// ```text
/// <bool as Facet>::read_owned(alloc, &mut JsonParser::new(alloc, b"true"))     Ok: true
/// <u8 as Facet>::read_owned(alloc, &mut JsonParser::new(alloc, b"256"))        NumberOutOfRange
/// <u8 as Facet>::read_owned(alloc, &mut JsonParser::new(alloc, b"null"))       TypeMismatch
/// ```
impl<'de, T: FromScalar> Facet<'de> for T {
    ghost use Rattle.std.specs.Prelude.{true};
    ghost use Rattle.facet_json_core.specs.Meaning.Types.{scalar};
    ghost use Rattle.facet_json_core.proofs.Meaning.TypeLaws.{scalar-laws};

    ghost View = { T.View };

    ghost view = { T.view };

    ghost shape = { scalar T.takes T.tree_of T.always };

    ghost whole = { true };

    #[inline(always)]
    fn read_owned<'t>(
        alloc: Global,
        parser: &mut JsonParser<'de>,
    ) -> Result<T, DeserializeError<'t>> {
        match T::take_quickly(alloc, parser) {
            Some(answer) => answer,
            None => take_out_of_line(alloc, parser),
        }
    }

    #[inline(always)]
    fn read<'t>(alloc: Global, parser: &mut JsonParser<'de>) -> Result<T, DeserializeError<'t>> {
        T::read_owned(alloc, parser)
    }

    #[inline(always)]
    fn in_sight(alloc: Global, input: &'de [u8], at: usize, _borrows: bool) -> Option<(T, usize)> {
        T::scalar_in_sight(alloc, input, at)
    }

    fn write(&self, serializer: &mut JsonSerializer<'_>) -> Result<(), JsonSerializeError> {
        serializer.scalar(self.to_scalar())
    }

    ghost laws = { scalar-laws T.takes T.reads_back };
}

/// Reads the next event, and takes the value that it is.
///
/// # Errors
///
/// No event comes, or it is no value of the type.
#[inline(never)]
fn take_out_of_line<'t, T: FromScalar>(
    alloc: Global,
    parser: &mut JsonParser<'_>,
) -> Result<T, DeserializeError<'t>>
    ensures read { IfOk result (λ v. IsRead (leaf T.takes) parser.old (T.view v) parser.new) }
    ensures unread { IfErr result (λ e. IsUnread (leaf T.takes) parser.old (refusal_of e)) }
    ensures document { OnOk result (HasDocument parser.old) }
    ensures strict { OnOk result (EndsStrictly parser.old parser.new) }
    ensures keeps { KeepsOn parser.old parser.new }
    ensures shorter { OnOk result (ahead parser.new < ahead parser.old) }
    ensures one_value { OnOk result (PassesValue parser.old parser.new) }
    ensures within { IfErr result (λ e. RefusalWithin parser.new.buffer (refusal_of e)) }
    ensures free { OnOk result (parser.new.cursor.refusal ≡ None) }
    ensures tells { IfErr result (λ e. TellsRefusal parser.old parser.new (refusal_of e)) }
{
    T::take(alloc, next_of_value(parser)?)
}
