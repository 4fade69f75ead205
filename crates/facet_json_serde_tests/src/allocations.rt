//! Failed allocations. With ample memory this test passes as any other does. `checks/allocations` runs it once more for each of its
//! requests for memory, which is refused, and it has to pass in every such run. Each text is tried twice: as one request is refused in a
//! run, memory runs out in one of the two at most, and the other gives the whole answer.

use crate::forms::again::{rewritten, shown};
use crate::forms::enums::{Adjacent, Command};
use crate::forms::structs::Account;
use facet_json_serde::{DeserializeErrorKind, Error, ErrorKind};
use serde::{Deserialize, Serialize};
use std::alloc::Global;

/// Whether this is the text that is wanted, or what the error says; no answer where an allocation failed.
fn is_text(alloc: Global, answer: Result<String, Error<'static>>, wanted: &str) -> Option<bool> {
    if lacks_memory(&answer) {
        return None;
    }
    match shown(alloc, answer) {
        Ok(text) => Some(text.as_str() == wanted),
        Err(_) => None,
    }
}

/// Whether an allocation failed.
fn lacks_memory(answer: &Result<String, Error<'static>>) -> bool {
    match answer {
        Ok(_) => false,
        Err(error) => matches!(
            error.kind,
            ErrorKind::Read(DeserializeErrorKind::OutOfMemory)
        ),
    }
}

/// Whether the value that the text is read as is written so, or its error says so, two times but for one at most in which memory ran out.
fn comes_back_but_once<'de, T: Deserialize<'de> + Serialize>(
    alloc: Global,
    text: &'de str,
    written: &str,
) -> bool {
    let first = is_text(alloc, rewritten::<T>(alloc, text), written);
    let again = is_text(alloc, rewritten::<T>(alloc, text), written);
    first.unwrap_or(true) && again.unwrap_or(true) && (first.is_some() || again.is_some())
}

#[test]
fn a_growth_is_refused(rt: HostRuntime) {
    let alloc = rt.alloc();
    let text = r#"{"note":"a\nb","id":7}"#;
    let written = r#"{"ID":7,"note":"a\nb"}"#;
    assert!(rt; comes_back_but_once::<Account>(alloc, text, written));
    let text = r#"[{"x":1,"kind":"move_to","y":-2},{"kind":"stop"}]"#;
    let written = r#"[{"kind":"move_to","x":1,"y":-2},{"kind":"stop"}]"#;
    assert!(rt; comes_back_but_once::<Vec<Command>>(alloc, text, written));
    let text = r#"[{"t":"two","c":[1,2]},{"t":"nothing"}]"#;
    assert!(rt; comes_back_but_once::<Vec<Adjacent>>(alloc, text, text));
}

#[test]
fn a_name_in_an_error_is_not_kept(rt: HostRuntime) {
    let alloc = rt.alloc();
    let (text, error) = (r#"{"id":7,"port":1}"#, "unknown field `port`");
    assert!(rt; comes_back_but_once::<Account>(alloc, text, error));
    let (text, error) = (r#"[{"kind":"jump"}]"#, "unknown variant `jump`");
    assert!(rt; comes_back_but_once::<Vec<Command>>(alloc, text, error));
}
