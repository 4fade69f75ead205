//! What every serializer of a format offers: a value is written call by call.

ghost use Rattle.std.specs.Prelude.{◌≡◌};
ghost use Rattle.facet_format.specs.SerializerCall.{begin_struct, field_key, end_struct, begin_seq, end_seq, scalar, raw_scalar};
ghost use Rattle.facet_format.specs.SerializerCall.{byte_sequence, byte_array, IsServed, IsServedOrLeft};
ghost use Rattle.facet_format.specs.Views.{scalar_value_of};

use crate::event::ScalarValue;

/// A serializer of a format. Each call is taken, or refused: then nothing changes, or memory is spent, and from then on every
/// call is refused.
///
/// A list of two numbers, in whatever format:
///
/// ```text
/// serializer.begin_seq()?;
/// serializer.scalar(ScalarValue::U64(1))?;
/// serializer.scalar(ScalarValue::U64(2))?;
/// serializer.end_seq()
/// ```
pub trait FormatSerializer {
    ghost use Rattle.facet_format.specs.SerializerCall.{SerializerCall};

    /// How a call is refused.
    type Error: Drop;

    /// From the first state it takes the call, and is then in the second.
    ghost takes: { Self → SerializerCall → Self → Type 0 };

    /// Memory ran out, for good.
    ghost spent: { Self → Type 0 };

    /// Begins a struct.
    fn begin_struct(&mut self) -> Result<(), Self::Error>
        ensures serves { IsServed takes spent self.old begin_struct result self.new };

    /// Writes a key of the innermost open struct.
    fn field_key(&mut self, key: &str) -> Result<(), Self::Error>
        ensures serves { IsServed takes spent self.old (field_key key.now) result self.new };

    /// Ends the innermost open struct.
    fn end_struct(&mut self) -> Result<(), Self::Error>
        ensures serves { IsServed takes spent self.old end_struct result self.new };

    /// Begins a list.
    fn begin_seq(&mut self) -> Result<(), Self::Error>
        ensures serves { IsServed takes spent self.old begin_seq result self.new };

    /// Ends the innermost open list.
    fn end_seq(&mut self) -> Result<(), Self::Error>
        ensures serves { IsServed takes spent self.old end_seq result self.new };

    /// Writes a value that holds no others.
    fn scalar(&mut self, value: ScalarValue<'_>) -> Result<(), Self::Error>
        ensures serves { IsServed takes spent self.old (scalar (scalar_value_of value.entry)) result self.new };

    /// Writes a value by its text in the format, verbatim.
    fn raw_scalar(&mut self, text: &str) -> Result<(), Self::Error>
        ensures serves { IsServed takes spent self.old (raw_scalar text.now) result self.new };

    /// Writes bytes of any number, and returns `true`; or `false`, and writes nothing, where the format leaves bytes to the
    /// caller, who writes a list.
    fn serialize_byte_sequence(&mut self, bytes: &[u8]) -> Result<bool, Self::Error>
        ensures serves { IsServedOrLeft takes spent self.old (byte_sequence bytes.now) result self.new };

    /// Writes bytes of a fixed number, as `serialize_byte_sequence` those of any number.
    fn serialize_byte_array(&mut self, bytes: &[u8]) -> Result<bool, Self::Error>
        ensures serves { IsServedOrLeft takes spent self.old (byte_array bytes.now) result self.new };

    /// The name of the format, where it has one by which fields are told apart.
    fn format_namespace<'t>(&self) -> Option<&'t str>;
}
