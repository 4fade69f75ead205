//! With ample memory a container's run is passed to its last token, whatever stands between the brackets.

use facet_format::{ContainerKind, Span};
use facet_json_parser::pass_container;
use facet_json_token::Mode;
use std::alloc::Global;

/// Inputs that begin with a container of this kind, and the last token of its run.
#[rattlefmt::skip]
static RUNS: [(&[u8], ContainerKind, Span); 3] = [
    (b"[1,,:] 2", ContainerKind::Array, Span { offset: 5, len: 1 }),
    (b"{\"a\":[1 2]}}", ContainerKind::Object, Span { offset: 10, len: 1 }),
    (b"[[\"\\ud800\"]]", ContainerKind::Array, Span { offset: 11, len: 1 }),
];

/// Whether the run of the container at the start of the input ends with this token.
fn ends_with(alloc: Global, input: &[u8], kind: ContainerKind, last: Span) -> bool {
    if input.is_empty() {
        return false;
    }
    let first = Span { offset: 0, len: 1 };
    match pass_container(alloc, input, Mode::Plain, kind, first, first) {
        Ok(passed) => passed == last,
        Err(_) => false,
    }
}

#[test]
fn runs_are_passed(rt: HostRuntime) {
    for (input, kind, last) in &RUNS {
        assert!(rt; ends_with(rt.alloc(), *input, *kind, *last));
    }
}
