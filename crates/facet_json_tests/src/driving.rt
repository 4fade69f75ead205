//! Calls of a new parser: with ample memory each is answered, of a document and of what is none.

use crate::expecting::expect_of;
use facet_json_core::{Answer, Call};
use facet_json_examples::driving::{answers_of_both, answers_to};
use std::alloc::Global;

/// How many events are answered before the end, which is 0, or a refusal, which is its code.
fn told(answers: &[Answer<'_>]) -> Option<(usize, u8)> {
    for (count, answer) in answers.iter().enumerate() {
        match answer {
            Answer::Event(Ok(Some(_))) => {}
            Answer::Event(Ok(None)) => return Some((count, 0)),
            Answer::Event(Err(error)) => return Some((count, error.kind.code())),
            _ => return None,
        }
    }
    None
}

/// Inputs, how many events come, and the end, which is 0, or the code of a refusal.
static ROWS: [(&str, usize, u8); 6] = [
    ("[1]", 3, 0),
    (r#"{"a":"b"} x"#, 4, 0),
    ("", 0, 2),
    ("[1 2", 2, 3),
    ("[1,@", 2, 1),
    ("{\"a\"", 1, 3),
];

/// What is asked of a parser.
static CALLS: [Call; 6] = [Call::Next; 6];

/// Whether a parser tells so many events, and then this end.
fn is_told(alloc: Global, input: &str, wanted: Option<(usize, u8)>) -> bool {
    match answers_to(alloc, input.as_bytes(), &CALLS) {
        Ok(answers) => told(answers.as_slice()) == wanted,
        Err(_) => false,
    }
}

/// Whether both parsers of a text do.
fn is_told_twice(alloc: Global, input: &str, wanted: Option<(usize, u8)>) -> bool {
    match answers_of_both(alloc, input, &CALLS) {
        Ok((these, those)) => told(these.as_slice()) == wanted && told(those.as_slice()) == wanted,
        Err(_) => false,
    }
}

#[test]
fn events_come_and_then_the_end_or_a_refusal(rt: HostRuntime) {
    let alloc = rt.alloc();
    for &(input, events, end) in &ROWS {
        let wanted = Some((events, end));
        let holds = is_told(alloc, input, wanted) && is_told_twice(alloc, input, wanted);
        expect_of(&rt, holds, input);
    }
}
