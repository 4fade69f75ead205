//! The JSON text of a value, as bytes or as a `String`.

ghost use Rattle.std.specs.Prelude.{◌≡◌, true, IfOk, IfErr};
ghost use Rattle.std.specs.Str.{is_utf8};
ghost use Rattle.std.specs.String.{string_bytes};
ghost use Rattle.facet_json_grammar.specs.Text.{default_options, text};
ghost use Rattle.facet_json_serializer.specs.OptionsViews.{options_of};
ghost use Rattle.facet_json_serializer.specs.Serializer.{out_of_memory};
ghost use Rattle.facet_json_serializer.specs.Views.{write_refusal_of};
ghost use Rattle.facet_json_tree.specs.Write.{pretty_options, IsReadable};
ghost use Rattle.facet_json_facet.specs.Inputs.{ComesBack};

use facet_json_facet::Facet;
use facet_json_serializer::{JsonSerializeError, JsonSerializer, SerializeOptions};
use std::alloc::Global;

/// The compact text of a value (RFC 8259, sections 2 to 7): no white space, and each character that has no escape as its UTF-8. Where the
/// value is readable, `from_slice` reads the text as the value.
///
/// ```text
/// to_vec(alloc, &true)?   b"true"
/// ```
///
/// # Errors
///
/// `OutOfMemory` alone, where an allocation fails.
pub fn to_vec<'de, T: Facet<'de>>(alloc: Global, value: &T) -> Result<Vec<u8>, JsonSerializeError>
    ensures text { IfOk result (λ v. v.items ≡ text default_options 0 (T.shape.tree_of (T.view value.now))) }
    ensures refused { IfErr result (λ e. write_refusal_of e ≡ out_of_memory) }
    ensures read_back { IfOk result (λ v. IsReadable default_options (T.shape.tree_of (T.view value.now)) v.items) }
    ensures comes_back { IfOk result (λ v. T.shape.readable (T.view value.now) → ComesBack T.shape.reading v.items (T.view value.now)) }
{
    to_vec_with_options(alloc, value, &SerializeOptions::new())
}

/// The text of a value, each element and each key on a line of its own, after two spaces for each container around it.
///
/// ```text
/// to_vec_pretty(alloc, &7_u8)?   b"7"
/// ```
///
/// # Errors
///
/// `OutOfMemory` alone, where an allocation fails.
pub fn to_vec_pretty<'de, T: Facet<'de>>(
    alloc: Global,
    value: &T,
) -> Result<Vec<u8>, JsonSerializeError>
    ensures text { IfOk result (λ v. v.items ≡ text pretty_options 0 (T.shape.tree_of (T.view value.now))) }
    ensures refused { IfErr result (λ e. write_refusal_of e ≡ out_of_memory) }
    ensures read_back { IfOk result (λ v. IsReadable pretty_options (T.shape.tree_of (T.view value.now)) v.items) }
{
    to_vec_with_options(alloc, value, &SerializeOptions::new().pretty())
}

/// The text of a value in the layout of these options.
///
/// ```text
/// to_vec_with_options(alloc, &7_u8, &SerializeOptions::new().indent("\t"))?   b"7"
/// ```
///
/// # Errors
///
/// `OutOfMemory` alone, where an allocation fails.
pub fn to_vec_with_options<'de, T: Facet<'de>>(
    alloc: Global,
    value: &T,
    options: &SerializeOptions<'_>,
) -> Result<Vec<u8>, JsonSerializeError>
    ensures text { IfOk result (λ v. v.items ≡ text (options_of options.now) 0 (T.shape.tree_of (T.view value.now))) }
    ensures refused { IfErr result (λ e. write_refusal_of e ≡ out_of_memory) }
    ensures read_back { IfOk result (λ v. IsReadable (options_of options.now) (T.shape.tree_of (T.view value.now)) v.items) }
    ensures comes_back { options_of options.now ≡ default_options
        → IfOk result (λ v. T.shape.readable (T.view value.now) → ComesBack T.shape.reading v.items (T.view value.now)) }
    ensures utf8 { IfOk result (λ v. is_utf8 v.items ≡ true) }
{
    let mut serializer = JsonSerializer::with_options(alloc, *options);
    value.write(&mut serializer)?;
    serializer.finish()
}

/// The compact text of a value, as `to_vec` gives it.
///
/// ```text
/// to_string(alloc, &-1_i8)?   "-1"
/// ```
///
/// # Errors
///
/// `OutOfMemory` alone, where an allocation fails.
pub fn to_string<'de, T: Facet<'de>>(alloc: Global, value: &T) -> Result<String, JsonSerializeError>
    ensures text { IfOk result (λ v. string_bytes v ≡ text default_options 0 (T.shape.tree_of (T.view value.now))) }
    ensures refused { IfErr result (λ e. write_refusal_of e ≡ out_of_memory) }
    ensures read_back { IfOk result (λ v. IsReadable default_options (T.shape.tree_of (T.view value.now)) (string_bytes v)) }
    ensures comes_back { IfOk result
        (λ v. T.shape.readable (T.view value.now) → ComesBack T.shape.reading (string_bytes v) (T.view value.now)) }
{
    to_string_with_options(alloc, value, &SerializeOptions::new())
}

/// The text of a value with line breaks, as `to_vec_pretty` gives it.
///
/// ```text
/// to_string_pretty(alloc, &false)?   "false"
/// ```
///
/// # Errors
///
/// `OutOfMemory` alone, where an allocation fails.
pub fn to_string_pretty<'de, T: Facet<'de>>(
    alloc: Global,
    value: &T,
) -> Result<String, JsonSerializeError>
    ensures text { IfOk result (λ v. string_bytes v ≡ text pretty_options 0 (T.shape.tree_of (T.view value.now))) }
    ensures refused { IfErr result (λ e. write_refusal_of e ≡ out_of_memory) }
    ensures read_back { IfOk result (λ v. IsReadable pretty_options (T.shape.tree_of (T.view value.now)) (string_bytes v)) }
{
    to_string_with_options(alloc, value, &SerializeOptions::new().pretty())
}

/// The text of a value in the layout of these options, as `to_vec_with_options` gives it.
///
/// ```text
/// to_string_with_options(alloc, &7_u8, &SerializeOptions::new())?   "7"
/// ```
///
/// # Errors
///
/// `OutOfMemory` alone, where an allocation fails.
pub fn to_string_with_options<'de, T: Facet<'de>>(
    alloc: Global,
    value: &T,
    options: &SerializeOptions<'_>,
) -> Result<String, JsonSerializeError>
    ensures text { IfOk result (λ v. string_bytes v ≡ text (options_of options.now) 0 (T.shape.tree_of (T.view value.now))) }
    ensures refused { IfErr result (λ e. write_refusal_of e ≡ out_of_memory) }
    ensures read_back { IfOk result (λ v. IsReadable (options_of options.now) (T.shape.tree_of (T.view value.now)) (string_bytes v)) }
    ensures comes_back { options_of options.now ≡ default_options
        → IfOk result (λ v. T.shape.readable (T.view value.now) → ComesBack T.shape.reading (string_bytes v) (T.view value.now)) }
{
    let bytes = to_vec_with_options(alloc, value, options)?;
    // The text is UTF-8, as its contract says, so it is not looked over again.
    Ok(unsafe { String::from_utf8_unchecked(bytes) })
}
