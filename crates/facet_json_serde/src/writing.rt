//! The JSON text of a value, as bytes or as a `String`.

ghost use Rattle.std.specs.Prelude.{true, string_bytes, IfOk};
ghost use Rattle.facet_json_grammar.specs.Text.{default_options};
ghost use Rattle.facet_json_serializer.specs.OptionsViews.{options_of};
ghost use Rattle.facet_json_serde.specs.OneValue.{IsTextOfTree};

use crate::error::Error;
use crate::fault::{Refusal, WriteFault};
use crate::writer::JsonWriter;
use facet_json_serializer::SerializeOptions;
use serde::Serialize;
use std::alloc::Global;

/// The compact text of a value (RFC 8259, sections 2 to 7): no white space, and each character that has no escape as its UTF-8. What is
/// written is the text of one tree, whatever the type does to its writer.
///
/// ```text
/// to_vec(alloc, &(true, 0.5, "x"))?   b"[true,0.5,\"x\"]"
/// ```
///
/// # Errors
///
/// `NotOneValue` and `KeyMustBeAString`, where what the type writes is not one JSON value; what the type says; `OutOfMemory`. Nothing is
/// given out then.
pub fn to_vec<'t, T: Serialize>(alloc: Global, value: &T) -> Result<Vec<u8>, Error<'t>>
    ensures { IfOk result (λ v. IsTextOfTree default_options v.items) }
{
    to_vec_with_options(alloc, value, &SerializeOptions::new())
}

/// The text of a value, each element and each key on a line of its own, after two spaces for each container around it.
///
/// # Errors
///
/// As `to_vec`.
pub fn to_vec_pretty<'t, T: Serialize>(alloc: Global, value: &T) -> Result<Vec<u8>, Error<'t>>
    ensures { IfOk result (λ v. IsTextOfTree (record default_options { pretty = true }) v.items) }
{
    to_vec_with_options(alloc, value, &SerializeOptions::new().pretty())
}

/// The text of a value in the layout of these options.
///
/// # Errors
///
/// As `to_vec`.
pub fn to_vec_with_options<'t, T: Serialize>(
    alloc: Global,
    value: &T,
    options: &SerializeOptions<'_>,
) -> Result<Vec<u8>, Error<'t>>
    ensures { IfOk result (λ v. IsTextOfTree (options_of options.now) v.items) }
{
    Ok(written(alloc, value, options)?)
}

/// The compact text of a value, as `to_vec` gives it.
///
/// # Errors
///
/// As `to_vec`.
pub fn to_string<'t, T: Serialize>(alloc: Global, value: &T) -> Result<String, Error<'t>>
    ensures { IfOk result (λ s. IsTextOfTree default_options (string_bytes s)) }
{
    to_string_with_options(alloc, value, &SerializeOptions::new())
}

/// The text of a value with line breaks, as `to_vec_pretty` gives it.
///
/// # Errors
///
/// As `to_vec`.
pub fn to_string_pretty<'t, T: Serialize>(alloc: Global, value: &T) -> Result<String, Error<'t>>
    ensures { IfOk result (λ s. IsTextOfTree (record default_options { pretty = true }) (string_bytes s)) }
{
    to_string_with_options(alloc, value, &SerializeOptions::new().pretty())
}

/// The text of a value in the layout of these options, as `to_vec_with_options` gives it.
///
/// # Errors
///
/// As `to_vec`.
pub fn to_string_with_options<'t, T: Serialize>(
    alloc: Global,
    value: &T,
    options: &SerializeOptions<'_>,
) -> Result<String, Error<'t>>
    ensures { IfOk result (λ s. IsTextOfTree (options_of options.now) (string_bytes s)) }
{
    match String::from_utf8(to_vec_with_options(alloc, value, options)?) {
        Ok(text) => Ok(text),
        Err(_) => Err(Error::from(Refusal::InvalidValue)),
    }
}

/// What is written of a value.
fn written<T: Serialize>(
    alloc: Global,
    value: &T,
    options: &SerializeOptions<'_>,
) -> Result<Vec<u8>, WriteFault>
    ensures { IfOk result (λ v. IsTextOfTree (options_of options.now) v.items) }
{
    let mut writer = JsonWriter::new(alloc, *options);
    value.serialize(&mut writer)?;
    Ok(writer.finish(options)?)
}
