//! The trait of types that are read from JSON and written as JSON.

ghost use Rattle.std.specs.Prelude.{◌≡◌, ◌<◌, true, false, cond, None, OnOk, OnErr, IfOk, IfErr, IfSome};
ghost use Rattle.facet_json_serializer.specs.Serializer.{out_of_memory};
ghost use Rattle.facet_json_serializer.specs.Views.{write_refusal_of as writing_refusal_of};
ghost use Rattle.facet_json_tree.specs.Write.{HasWritten, IsOfRust};
ghost use Rattle.facet_json_core.specs.Calls.{refusal_of, ahead, RefusalWithin, TellsRefusal, KeepsOn, PassesValue, IsRead, IsUnread};
ghost use Rattle.facet_json_core.specs.Calls.{HasDocument, EndsStrictly};
ghost use Rattle.facet_json_core.specs.Meaning.Scalars.{IsSeen};

use facet_format::DeserializeError;
use facet_json_parser::JsonParser;
use facet_json_serializer::{JsonSerializeError, JsonSerializer};
use std::alloc::Global;

/// What reading a value gives: the value, or why there is none.
pub type ReadResult<'t, T> = Result<T, DeserializeError<'t>>;

/// A type that is read from JSON (RFC 8259, sections 3 to 7) and written as JSON. The input lives for `'de`.
///
/// ```text
/// let mut parser = JsonParser::new(alloc, b"true,");
/// <bool as Facet>::read_owned(alloc, &mut parser)     Ok: true, and the parser is after the value
/// true.write(&mut serializer)                         Ok: true is written
/// ```
///
/// What a value means is said by the ghost members: `view`, what is seen of a value, since a `String` carries a capacity beside
/// its text; `shape`, as what the type is read and written; `owned`, which values borrow nothing of the input; and `whole`, whether an
/// input is read only where it has a document. `laws` are what the shape has to keep.
pub trait Facet<'de>: Sized + Drop {
    ghost use Rattle.std.specs.Prelude.{Bool, false};
    ghost use Rattle.facet_json_core.specs.Meaning.Shapes.{Shape, ShapeLaws};

    /// What is seen of values.
    ghost View: { Type 0 };

    /// What is seen of a value.
    ghost view: { Self → View };

    /// As what a value is read, and as what it is written.
    ghost shape: { Shape View };

    /// The value borrows nothing of the input. A type whose values may borrow says of which this is so; of another nothing is said.
    ghost owned: { Self → Type 0 } = { λ _. Unit {0} };

    /// Reading at the start of an input succeeds only where the input has a document; and where the parser is strict, and then at the end,
    /// only where the input is a strict document. A type that keeps the default says nothing of it.
    ghost whole: { Bool } = { false };

    /// Reads the parser's next value, and borrows nothing of the input.
    ///
    /// # Errors
    ///
    /// What stands there is no value of the type: `TypeMismatch`, `NumberOutOfRange`, `InvalidValue` or `MissingField`. Or no
    /// document goes on there, as the parser says. Or out of memory.
    fn read_owned<'t>(
        alloc: Global,
        parser: &mut JsonParser<'de>,
    ) -> Result<Self, DeserializeError<'t>>
        ensures read { IfOk result (λ v. IsRead shape.reading parser.old (view v) parser.new) }
        ensures owned { IfOk result (λ v. owned v) }
        ensures unread { IfErr result (λ e. IsUnread shape.reading parser.old (refusal_of e)) }
        ensures document { whole ≡ true → OnOk result (HasDocument parser.old) }
        ensures strict { whole ≡ true → OnOk result (EndsStrictly parser.old parser.new) }
        ensures keeps { KeepsOn parser.old parser.new }
        ensures shorter { OnOk result (ahead parser.new < ahead parser.old) }
        ensures one_value { OnOk result (PassesValue parser.old parser.new) }
        ensures within { IfErr result (λ e. RefusalWithin parser.new.buffer (refusal_of e)) }
        ensures free { OnOk result (parser.new.cursor.refusal ≡ None) }
        ensures tells { IfErr result (λ e. TellsRefusal parser.old parser.new (refusal_of e)) };

    /// Reads the parser's next value, and may borrow of the input.
    ///
    /// # Errors
    ///
    /// As `read_owned`.
    fn read<'t>(alloc: Global, parser: &mut JsonParser<'de>) -> Result<Self, DeserializeError<'t>>
        ensures read { IfOk result (λ v. IsRead shape.reading_borrowed parser.old (view v) parser.new) }
        ensures unread { IfErr result (λ e. IsUnread shape.reading_borrowed parser.old (refusal_of e)) }
        ensures document { whole ≡ true → OnOk result (HasDocument parser.old) }
        ensures strict { whole ≡ true → OnOk result (EndsStrictly parser.old parser.new) }
        ensures keeps { KeepsOn parser.old parser.new }
        ensures shorter { OnOk result (ahead parser.new < ahead parser.old) }
        ensures one_value { OnOk result (PassesValue parser.old parser.new) }
        ensures within { IfErr result (λ e. RefusalWithin parser.new.buffer (refusal_of e)) }
        ensures free { OnOk result (parser.new.cursor.refusal ≡ None) }
        ensures tells { IfErr result (λ e. TellsRefusal parser.old parser.new (refusal_of e)) };

    /// The value of the scalar at this offset of an input without comments that is read leniently, and how many bytes it takes, where a few
    /// bytes decide it. It may borrow of the input where `borrows` says so. Where there is no answer, `read` or `read_owned` reads the value, and
    /// says what is wrong: so a type may always answer `None`, and is read faster as a field or an item where it does not.
    fn in_sight(alloc: Global, input: &'de [u8], at: usize, borrows: bool) -> Option<(Self, usize)>
        ensures seen { IfSome result (λ r. IsSeen (cond borrows shape.reading_borrowed shape.reading) input.now at r.1 (view r.0)) }
        ensures owned { borrows ≡ false → IfSome result (λ r. owned r.0) };

    /// Writes the value, where a value stands, in the layout of the serializer's options.
    ///
    /// # Errors
    ///
    /// `OutOfMemory` alone; the serializer is then out of memory for good.
    fn write(&self, serializer: &mut JsonSerializer<'_>) -> Result<(), JsonSerializeError>
        ensures written { OnOk result (HasWritten serializer.old (shape.tree_of (view self.now)) serializer.new) }
        ensures refused { IfErr result (λ e. writing_refusal_of e ≡ out_of_memory) }
        ensures spent { OnErr result (serializer.new ≡ None) }
        ensures of_rust { OnOk result (IsOfRust (shape.tree_of (view self.now))) }
        ensures always { OnOk result (shape.always (view self.now)) };

    /// Nodes that the same bytes spell are read alike, and the text of a readable value is read as the value.
    ghost laws: { ShapeLaws shape };
}

/// Reads a value, which may borrow of the input where `borrows` says so: an element, or the value of a field.
///
/// # Errors
///
/// As `T` refuses.
#[inline(always)]
pub fn value_in<'t, 'de, T: Facet<'de>>(
    alloc: Global,
    parser: &mut JsonParser<'de>,
    borrows: bool,
) -> Result<T, DeserializeError<'t>>
    ensures read { IfOk result (λ v. IsRead (cond borrows T.shape.reading_borrowed T.shape.reading) parser.old (T.view v) parser.new) }
    ensures owned { borrows ≡ false → IfOk result T.owned }
    ensures unread { IfErr result (λ e. IsUnread (cond borrows T.shape.reading_borrowed T.shape.reading) parser.old (refusal_of e)) }
    ensures document { T.whole ≡ true → OnOk result (HasDocument parser.old) }
    ensures strict { T.whole ≡ true → OnOk result (EndsStrictly parser.old parser.new) }
    ensures keeps { KeepsOn parser.old parser.new }
    ensures shorter { OnOk result (ahead parser.new < ahead parser.old) }
    ensures one_value { OnOk result (PassesValue parser.old parser.new) }
    ensures within { IfErr result (λ e. RefusalWithin parser.new.buffer (refusal_of e)) }
    ensures free { OnOk result (parser.new.cursor.refusal ≡ None) }
    ensures tells { IfErr result (λ e. TellsRefusal parser.old parser.new (refusal_of e)) }
{
    if borrows {
        T::read(alloc, parser)
    } else {
        T::read_owned(alloc, parser)
    }
}
