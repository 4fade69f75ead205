//! Values that are written call by call: as JSON, and in whatever format.

ghost use Rattle.std.specs.Prelude.{[], ◌∷◌, IfOk};
ghost use Rattle.facet_json.specs.Event.{u64};
ghost use Rattle.facet_json.specs.SerializerCall.{begin_seq, end_seq, scalar, TakesAll};

use facet_json::{
    FormatSerializer, HexBytesOptions, JsonSerializeError, JsonSerializer, ScalarValue,
    SerializeOptions,
};
use std::alloc::Global;

/// A message, as `{"id":7,"sent":"0x00ff"}`. Of more than 64 bytes only some at either end stand in it.
pub fn message(alloc: Global, id: u64, sent: &[u8]) -> Result<Vec<u8>, JsonSerializeError> {
    let hex = HexBytesOptions::new().truncate(64).head_tail(8, 8);
    let options = SerializeOptions::new().bytes_as_hex_with_options(hex);
    let mut serializer = JsonSerializer::with_options(alloc, options);
    serializer.begin_struct()?;
    serializer.field_key("id")?;
    serializer.scalar(ScalarValue::U64(id))?;
    serializer.field_key("sent")?;
    serializer.serialize_byte_sequence(sent)?;
    serializer.end_struct()?;
    serializer.finish()
}

/// Writes a list of two numbers, in whatever format.
pub fn write_pair<S: FormatSerializer>(
    serializer: &mut S,
    first: u64,
    second: u64,
) -> Result<(), S::Error>
    ensures { IfOk result (λ _. TakesAll S.takes serializer.old
        (begin_seq ∷ scalar (u64 first) ∷ scalar (u64 second) ∷ end_seq ∷ []) serializer.new) }
{
    serializer.begin_seq()?;
    serializer.scalar(ScalarValue::U64(first))?;
    serializer.scalar(ScalarValue::U64(second))?;
    serializer.end_seq()?;
    Ok(())
}
