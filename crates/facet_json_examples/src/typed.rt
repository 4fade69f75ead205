//! Values of types that are read and written.

use facet_json::{DeserializeError, Documents, JsonSerializeError, from_slice, to_vec};
use std::alloc::Global;
use std::collections::BTreeMap;

/// The limits that a configuration sets by their names, `{"jobs": 4, "files": null}`; null is no limit.
fn limits<'t>(
    alloc: Global,
    input: &[u8],
) -> Result<BTreeMap<String, Option<u32>>, DeserializeError<'t>> {
    from_slice(alloc, input)
}

/// The text of ports: `[80,8080]`.
fn text_of(alloc: Global, ports: &Vec<u16>) -> Result<Vec<u8>, JsonSerializeError> {
    to_vec(alloc, ports)
}

/// The sum of numbers in a row: `1 2 39` has 42.
fn total<'de>(alloc: Global, input: &'de [u8]) -> Result<u64, DeserializeError<'de>> {
    let mut total: u64 = 0;
    for number in Documents::<u64>::new(alloc, input) {
        total = total.saturating_add(number?);
    }
    Ok(total)
}
