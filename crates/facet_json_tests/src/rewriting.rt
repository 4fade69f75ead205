//! Documents: read and written, and the text read and written again.

use crate::expecting::expect_of;
use facet_json_examples::rewriting::rewritten;
use std::alloc::Global;

/// Inputs, and what their documents are written as.
static REWRITTEN: [(&str, &str); 6] = [
    (" [1,] x", "[1]"),
    ("-0", "0"),
    ("[-0,{\"a\":-0}]", "[0,{\"a\":0}]"),
    ("{\"a\":1.,\"a\":\"\\u00e9\"}", "{\"a\":1.,\"a\":\"é\"}"),
    ("18446744073709551616", "\"18446744073709551616\""),
    ("-007", "-7"),
];

/// Whether the document is written as this text.
fn is_rewritten(alloc: Global, document: &str, text: &str) -> bool {
    match rewritten(alloc, document.as_bytes()) {
        Ok(written) => written.as_slice() == text.as_bytes(),
        Err(_) => false,
    }
}

#[test]
fn documents_are_rewritten(rt: HostRuntime) {
    let alloc = rt.alloc();
    for &(document, text) in &REWRITTEN {
        let holds = is_rewritten(alloc, document, text) && is_rewritten(alloc, text, text);
        expect_of(&rt, holds, document);
    }
    assert!(rt; rewritten(alloc, b"[1").is_err());
}
