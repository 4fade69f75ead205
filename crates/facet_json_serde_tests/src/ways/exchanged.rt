//! Generated texts, read and written by the toolchain's `serde_json` and by this library: each reads what the other one has written.

use serde_json::Value;
use std::alloc::{AllocError, Global};
use std::process::Abort;
use std::test::Fail;

/// Contents of strings.
static CONTENTS: [&str; 8] = [
    "",
    "a",
    "\\n\\\"\\\\",
    "\\u0041\\ud83d\\ude00",
    "é",
    "日本",
    "\\u0000",
    "sixteen letters.",
];

/// The next of some numbers that follow no plain pattern, below 2^31.
fn next(seed: &mut u64) -> u64 {
    *seed = seed
        .wrapping_mul(6364136223846793005)
        .wrapping_add(1442695040888963407);
    *seed >> 33
}

/// One of the contents.
fn content(seed: &mut u64) -> &'static str {
    let at = usize::try_from(next(seed) % 8).unwrap_or(0);
    CONTENTS.get(at).copied().unwrap_or("")
}

/// A text with a value of each kind.
fn sample(alloc: Global, seed: &mut u64) -> Result<String, AllocError> {
    let (id, ratio, power) = (next(seed), next(seed), next(seed) % 290);
    let (name, key, tag) = (content(seed), content(seed), content(seed));
    let scale = if ratio % 2 == 0 { "" } else { "-" };
    format!(in alloc;
        "{{\"id\":{scale}{id},\"ratio\":{scale}{ratio}.{id}e{scale}{power},\"name\":\"{name}{tag}\",\"k{key}\":[null,true,[],{{}},\"{tag}\"]}}"
    )
}

/// Whether that value was read.
fn is_value<E: Drop>(read: Result<Value, E>, value: &Value) -> bool {
    match read {
        Ok(read) => read == *value,
        Err(_) => false,
    }
}

/// Whether this library reads the text as that value.
fn is_read_here<E: Drop>(alloc: Global, text: Result<String, E>, value: &Value) -> bool {
    match text {
        Ok(text) => is_value(facet_json_serde::from_str(alloc, text.as_str()), value),
        Err(_) => false,
    }
}

/// Whether the toolchain's `serde_json` reads the text as that value.
fn is_read_there<E: Drop>(alloc: Global, text: Result<String, E>, value: &Value) -> bool {
    match text {
        Ok(text) => is_value(serde_json::from_str(alloc, text.as_str()), value),
        Err(_) => false,
    }
}

/// Whether this library reads the text as that value too, and each reads so what the other one writes of it.
fn is_shared(alloc: Global, text: &str, value: &Value) -> bool {
    is_value(facet_json_serde::from_str(alloc, text), value)
        & is_read_here(alloc, serde_json::to_string(alloc, value), value)
        & is_read_there(alloc, facet_json_serde::to_string(alloc, value), value)
}

/// Whether the two read the text as one value, and each what the other one writes of it.
fn is_exchanged(alloc: Global, text: &str) -> bool {
    match serde_json::from_str(alloc, text) {
        Ok(value) => is_shared(alloc, text, &value),
        Err(_) => false,
    }
}

/// Fails where the next text is not exchanged.
fn exchange(rt: &impl Abort, alloc: Global, seed: &mut u64) -> Result<(), Fail> {
    let text = sample(alloc, seed)?;
    assert!(rt; is_exchanged(alloc, text.as_str()), "{text}");
    Ok(())
}

#[test]
fn values_are_exchanged(rt: HostRuntime) -> Result<(), Fail> {
    let mut seed = 1;
    for _ in 0..300 {
        exchange(&rt, rt.alloc(), &mut seed)?;
    }
    Ok(())
}
