//! Values of a type from the start of an input, with where their document ends: what follows may be another one.

ghost use Rattle.std.specs.Prelude.{◌≡◌, ◌<◌, ◌≤◌, ◌^◌, ℕ, List, length, IfOk};
ghost use Rattle.facet_json_token.specs.Gap.{Mode, plain};
ghost use Rattle.facet_json_facet.specs.Inputs.{FirstValue, BeginsWithRunTo};
ghost use Rattle.facet_json_grammar.specs.Now.{fresh};

use crate::facet::Facet;
use facet_format::DeserializeError;
use facet_json_core::last_span;
use facet_json_parser::JsonParser;
use std::alloc::Global;

/// Reads a value as `from_slice`, and returns the offset in bytes at which its document ends: that of the byte after its last token.
///
/// ```text
/// from_slice_prefix::<u8>(alloc, b" 7 8")        Ok: (7, 2)
/// from_slice_prefix::<u8>(alloc, b" 8")          Ok: (8, 2)
/// ```
///
/// # Errors
///
/// As `from_slice`.
pub fn from_slice_prefix<'t, 'de, T: Facet<'de>>(
    alloc: Global,
    input: &'de [u8],
) -> Result<(T, usize), DeserializeError<'t>>
    ensures value { FirstValue T.shape.reading T.whole (λ r. T.view r.0) input.now plain result }
    ensures owned { IfOk result (λ r. T.owned r.0) }
    ensures end { IfOk result (λ r. BeginsWithRunTo input.now plain r.1) }
    ensures inside { IfOk result (λ r. (0 < r.1) × (r.1 ≤ length input.now)) }
{
    value_and_end(alloc, &mut JsonParser::new(alloc, input))
}

/// Reads a value as `from_slice_prefix`, from a text, which is known to be UTF-8. The end stands between two characters.
///
/// ```text
/// from_str_prefix::<bool>(alloc, "true,")        Ok: (true, 4)
/// ```
///
/// # Errors
///
/// As `from_slice`.
pub fn from_str_prefix<'t, 'de, T: Facet<'de>>(
    alloc: Global,
    input: &'de str,
) -> Result<(T, usize), DeserializeError<'t>>
    ensures value { FirstValue T.shape.reading T.whole (λ r. T.view r.0) input.now plain result }
    ensures owned { IfOk result (λ r. T.owned r.0) }
    ensures end { IfOk result (λ r. BeginsWithRunTo input.now plain r.1) }
    ensures inside { IfOk result (λ r. (0 < r.1) × (r.1 ≤ length input.now)) }
{
    let bytes = input.as_bytes();
    value_and_end(alloc, &mut JsonParser::new_trusted(alloc, bytes))
}

/// Reads the first value of a new parser, and returns the end of its last token.
fn value_and_end<'t, 'de, T: Facet<'de>>(
    alloc: Global,
    parser: &mut JsonParser<'de>,
) -> Result<(T, usize), DeserializeError<'t>>
    ensures value { (input : List ℕ) (mode : Mode) → parser.old ≡ fresh input mode
        → FirstValue T.shape.reading T.whole (λ r. T.view r.0) input mode result }
    ensures owned { IfOk result (λ r. T.owned r.0) }
    ensures end { (input : List ℕ) (mode : Mode) → length input < 2 ^ 64 → parser.old ≡ fresh input mode
        → IfOk result (λ r. BeginsWithRunTo input mode r.1) }
    ensures inside { (input : List ℕ) (mode : Mode) → length input < 2 ^ 64 → parser.old ≡ fresh input mode
        → IfOk result (λ r. (0 < r.1) × (r.1 ≤ length input)) }
{
    let value = T::read_owned(alloc, parser)?;
    Ok((value, last_span(parser).end()))
}
