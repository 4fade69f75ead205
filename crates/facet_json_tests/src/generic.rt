//! Generic code over serializers is proved from the trait alone, and runs over `JsonSerializer`.

ghost use Rattle.std.specs.Prelude.{◌≡◌, [], ◌∷◌, IfOk, IsErr};
ghost use Rattle.facet_format.specs.Event.{u64};
ghost use Rattle.facet_format.specs.SerializerCall.{begin_seq, end_seq, scalar, TakesAll};
ghost use Rattle.facet_json_grammar.specs.Text.{default_options, text};
ghost use Rattle.facet_json_grammar.specs.Tree.{list, tree, no_trees};
ghost use Rattle.facet_json_grammar.specs.Tree as trees;

use facet_format::{FormatSerializer, ScalarValue};
use facet_json_serializer::{JsonSerializeError, JsonSerializer};
use std::alloc::Global;

/// Writes a list of two numbers.
#[tactic(auto, unfolding(facet_format::specs::SerializerCall::TakesAll))]
fn write_pair<S: FormatSerializer>(
    serializer: &mut S,
    first: u64,
    second: u64,
) -> Result<(), S::Error>
    ensures taken { IfOk result (λ _. TakesAll S.takes serializer.old
        (begin_seq ∷ scalar (u64 first) ∷ scalar (u64 second) ∷ end_seq ∷ []) serializer.new) }
    ensures spent { S.spent serializer.old → IsErr result }
{
    serializer.begin_seq()?;
    serializer.scalar(ScalarValue::U64(first))?;
    serializer.scalar(ScalarValue::U64(second))?;
    serializer.end_seq()?;
    Ok(())
}

/// The JSON text of a list of two numbers: what is known of the calls that were taken says which it is.
fn pair_text(alloc: Global, first: u64, second: u64) -> Result<Vec<u8>, JsonSerializeError>
    ensures { IfOk result (λ v. v.items ≡ text default_options 0 (list (tree (trees.u64 first) (tree (trees.u64 second) no_trees)))) }
{
    let mut serializer = JsonSerializer::new(alloc);
    write_pair(&mut serializer, first, second)?;
    let text = serializer.finish()?;
    Ok(text)
}

#[test]
fn a_pair_is_written(rt: HostRuntime) {
    let text = pair_text(rt.alloc(), 7, 70).expect(&rt, "memory");
    assert!(rt; text.as_slice() == b"[7,70]".as_slice());
}
