//! What is read of a text, written again; or its error, as a person sees it.

use facet_json_serde::{Error, from_str, to_string};
use serde::{Deserialize, Serialize};
use std::alloc::{AllocError, Global};
use std::fmt::Display;
use std::process::Abort;
use std::test::Fail;

/// An input, and the text of the value that it is read as, or the error with its place in the input.
pub(crate) type Case<'r> = (&'r str, &'r str);

/// Fails where an input isn't read and written, or refused, as its case says.
pub(crate) fn expect<'de, T: Deserialize<'de> + Serialize>(
    rt: &impl Abort,
    alloc: Global,
    cases: &[Case<'de>],
) -> Result<(), Fail> {
    for (input, expected) in cases {
        let text = told(alloc, rewritten::<T>(alloc, *input), *input);
        expect_text(rt, text, *expected)?;
    }
    Ok(())
}

/// Fails where the text isn't that.
pub(crate) fn expect_text(
    rt: &impl Abort,
    text: Result<String, AllocError>,
    expected: &str,
) -> Result<(), Fail> {
    let text = text?;
    assert_eq!(rt; text.as_str(), expected);
    Ok(())
}

/// The text, or the error with its place in the input.
pub(crate) fn told(
    alloc: Global,
    answer: Result<String, Error<'static>>,
    input: &str,
) -> Result<String, AllocError> {
    shown(alloc, answer.map_err(|error| error.report(input)))
}

/// The text, or what is displayed in the place of one.
pub(crate) fn shown<D: Display + Drop>(
    alloc: Global,
    answer: Result<String, D>,
) -> Result<String, AllocError> {
    match answer {
        Ok(text) => Ok(text),
        Err(other) => format!(in alloc; "{other}"),
    }
}

/// The text of the value that the input is read as.
pub(crate) fn rewritten<'t, 'de, T: Deserialize<'de> + Serialize>(
    alloc: Global,
    input: &'de str,
) -> Result<String, Error<'t>> {
    written::<T>(alloc, from_str(alloc, input))
}

/// The text of the value.
pub(crate) fn written<'t, T: Serialize + Drop>(
    alloc: Global,
    read: Result<T, Error<'t>>,
) -> Result<String, Error<'t>> {
    match read {
        Ok(value) => to_string(alloc, &value),
        Err(error) => Err(error),
    }
}

/// Whether these bytes came.
pub(crate) fn are_bytes<E: Drop>(answer: Result<Vec<u8>, E>, wanted: &[u8]) -> bool {
    match answer {
        Ok(bytes) => bytes.as_slice() == wanted,
        Err(_) => false,
    }
}
