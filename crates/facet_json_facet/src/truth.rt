//! Truth values: `true` and `false`.

use crate::leaves::FromScalar;
use facet_format::{DeserializeError, ParseEvent, ParseEventKind, ScalarValue};
use facet_json_core::mismatch;
use facet_json_core::steps::take_next;
use facet_json_parser::JsonParser;
use facet_json_reader::bool_at;
use std::alloc::Global;

impl FromScalar for bool {
    ghost use Rattle.std.specs.Prelude.{◌≡◌, Bool, codes};
    ghost use Rattle.std.proofs.Common.{inr};
    ghost use Rattle.facet_json_grammar.specs.Tree.{bool as bool_tree};
    ghost use Rattle.facet_json_core.specs.Refusing.{mismatch_of};
    ghost use Rattle.facet_json_core.proofs.Refusing.{mismatch-about};
    ghost use Rattle.facet_json_core.specs.Meaning.Readings.{bool_of};
    ghost use Rattle.facet_json_core.proofs.Meaning.Leaves.TruthLaws.{bool-reads_back};

    ghost View = { Bool };

    ghost view = { λ b. b };

    ghost takes = { bool_of };

    ghost refuses = { λ given r. r ≡ mismatch_of (codes "bool") given };

    ghost tree_of = { bool_tree };

    ghost always = { λ _. Unit {0} };

    fn take<'t>(_alloc: Global, event: ParseEvent<'_>) -> Result<bool, DeserializeError<'t>> {
        match event.kind {
            ParseEventKind::Scalar(ScalarValue::Bool(b)) => Ok(b),
            _ => Err(mismatch("bool", event)),
        }
    }

    #[inline(always)]
    fn take_quickly<'t>(
        _alloc: Global,
        parser: &mut JsonParser<'_>,
    ) -> Option<Result<bool, DeserializeError<'t>>> {
        let (value, _) = take_next(parser)?;
        Some(Ok(value))
    }

    #[inline(always)]
    fn scalar_in_sight(_alloc: Global, input: &[u8], at: usize) -> Option<(bool, usize)> {
        bool_at(input, at)
    }

    fn to_scalar(&self) -> ScalarValue<'_> {
        ScalarValue::Bool(*self)
    }

    ghost refuses_about = { λ given r told. inr (mismatch-about _ given told) };

    ghost reads_back = { bool-reads_back };
}
