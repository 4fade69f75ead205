//! Raw texts.

use facet_json_core::RawJson;
use facet_json_facet::value_in;
use facet_json_parser::JsonParser;
use std::alloc::Global;
use std::borrow::CowStr;

/// Whether a list is read as raw text that is borrowed or not, as `is_lent` says.
fn is_list(alloc: Global, is_lent: bool) -> bool {
    let mut parser = JsonParser::new(alloc, b"[1]");
    match value_in(alloc, &mut parser, is_lent) {
        Ok(RawJson(CowStr::Borrowed(lent))) => is_lent && lent == "[1]",
        Ok(RawJson(CowStr::Owned(copy))) => !is_lent && copy.as_str() == "[1]",
        Err(_) => false,
    }
}

#[test]
fn a_raw_text_is_lent_or_copied(rt: HostRuntime) {
    assert!(rt; is_list(rt.alloc(), true) && is_list(rt.alloc(), false));
}
