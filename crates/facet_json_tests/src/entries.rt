//! The entry functions, each once with ample memory, and texts that the input lends.

use crate::typed::{is_text, is_written};
use facet_json::{
    from_str, to_string, to_string_pretty, to_string_with_options, to_vec, to_vec_pretty,
    to_vec_with_options,
};
use facet_json_serializer::SerializeOptions;
use std::alloc::Global;

/// A list of texts.
const TEXTS: &str = "[\"a\",\"b\"]";

/// What is read of an input which is gone then, if memory suffices.
fn read_and_let_go(alloc: Global) -> Option<Vec<String>> {
    let input = String::from_str(alloc, TEXTS).ok()?;
    from_str(alloc, input.as_str()).ok()
}

/// Whether it is written as the input.
fn outlives_its_input(alloc: Global) -> bool {
    match read_and_let_go(alloc) {
        Some(list) => is_written(to_vec(alloc, &list), TEXTS) == Some(true),
        None => false,
    }
}

#[test]
fn a_list_outlives_its_input(rt: HostRuntime) {
    assert!(rt; outlives_its_input(rt.alloc()));
}

/// Whether each function that writes bytes lays the list of the number seven out as it should.
fn is_written_as_bytes(alloc: Global, list: &Vec<u8>, options: &SerializeOptions<'_>) -> bool {
    is_written(to_vec(alloc, list), "[7]") == Some(true)
        && is_written(to_vec_pretty(alloc, list), "[\n  7\n]") == Some(true)
        && is_written(to_vec_with_options(alloc, list, options), "[\n\t7\n]") == Some(true)
}

/// Whether each that writes a text does.
fn is_written_as_text(alloc: Global, list: &Vec<u8>, options: &SerializeOptions<'_>) -> bool {
    is_text(to_string(alloc, list), "[7]")
        && is_text(to_string_pretty(alloc, list), "[\n  7\n]")
        && is_text(to_string_with_options(alloc, list, options), "[\n\t7\n]")
}

#[test]
fn values_are_written(rt: HostRuntime) {
    let alloc = rt.alloc();
    let list = vec![in alloc; 7_u8].expect(&rt, "memory");
    let options = SerializeOptions::new().indent("\t");
    let holds = is_written_as_bytes(alloc, &list, &options)
        && is_written_as_text(alloc, &list, &options);
    assert!(rt; holds);
}
