//! Writers by hand: what is not one value is refused, and nothing is given out.

use crate::forms::again::{expect_text, shown};
use facet_json_serde::{SerializeOptions, to_string, to_string_pretty, to_string_with_options};
use serde::{Described, Serialize, Serializer};
use std::test::Fail;

/// A call of a serializer.
enum Call {
    Bool,
    Number(u64),
    NoNumber,
    Unit,
    BeginSeq,
    EndSeq,
    BeginMap,
    EndMap,
    Key,
    BeginKey,
    FlattenNext,
    /// A text whose refusal is passed over.
    PassedOver,
    Custom,
}

/// A type that makes these calls.
#[derive(Drop)]
struct Calls(&'static [Call]);

impl Described for Calls {}

impl Serialize for Calls {
    fn serialize<S: Serializer>(&self, out: &mut S) -> Result<(), S::Error> {
        for call in self.0 {
            make(call, out)?;
        }
        Ok(())
    }
}

/// Makes the call.
fn make<S: Serializer>(call: &Call, out: &mut S) -> Result<(), S::Error> {
    match call {
        Call::Bool => out.bool(true),
        Call::Number(number) => out.u64(*number),
        Call::NoNumber => out.f64(f64::NAN),
        Call::Unit => out.unit(),
        Call::BeginSeq => out.begin_seq(None),
        Call::EndSeq => out.end_seq(),
        Call::BeginMap => out.begin_map(None),
        Call::EndMap => out.end_map(),
        Call::Key => out.key("a"),
        Call::BeginKey => out.begin_key(),
        Call::FlattenNext => out.flatten_next(),
        Call::PassedOver => {
            let _ = out.str("refused, and passed over");
            Ok(())
        }
        Call::Custom => Err(out.custom("odd")),
    }
}

/// Calls that are not one value, and what the refusal says; at last, some that are.
static CALLS: [(&[Call], &str); 12] = [
    (&[], "not one value"),
    (&[Call::Number(1), Call::Number(2)], "not one value"),
    (&[Call::BeginSeq], "not one value"),
    (
        &[Call::BeginMap, Call::Number(1), Call::EndMap],
        "not one value",
    ),
    (&[Call::BeginMap, Call::Key, Call::EndMap], "not one value"),
    (&[Call::BeginSeq, Call::Key, Call::EndSeq], "not one value"),
    (&[Call::BeginSeq, Call::EndMap], "not one value"),
    (&[Call::Bool, Call::PassedOver], "not one value"),
    (
        &[Call::BeginMap, Call::BeginKey, Call::Unit],
        "key must be a string",
    ),
    (
        &[Call::BeginMap, Call::FlattenNext, Call::Number(1)],
        "invalid value",
    ),
    (&[Call::Custom], "odd"),
    (
        &[Call::BeginMap, Call::Key, Call::NoNumber, Call::EndMap],
        r#"{"a":null}"#,
    ),
];

#[test]
fn only_one_value_is_written(rt: HostRuntime) -> Result<(), Fail> {
    let alloc = rt.alloc();
    for (calls, refusal) in &CALLS {
        expect_text(
            &rt,
            shown(alloc, to_string(alloc, &Calls(*calls))),
            *refusal,
        )?;
    }
    let refused = to_string(alloc, &Calls(&[])).map_err(|error| error.at("1"));
    expect_text(&rt, shown(alloc, refused), "not one value")
}

#[test]
fn layouts_are_those_of_the_options(rt: HostRuntime) -> Result<(), Fail> {
    let (alloc, value) = (rt.alloc(), (1u8, "x"));
    let pretty = shown(alloc, to_string_pretty(alloc, &value));
    expect_text(&rt, pretty, "[\n  1,\n  \"x\"\n]")?;
    let options = SerializeOptions::new().indent("\t");
    let tabbed = shown(alloc, to_string_with_options(alloc, &value, &options));
    expect_text(&rt, tabbed, "[\n\t1,\n\t\"x\"\n]")
}
