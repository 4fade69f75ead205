//! Whole numbers of 128 bits: `u128` and `i128`. Within 64 bits they are read as numbers, past them as the texts of their digits.

ghost use Rattle.std.specs.Prelude.{◌≡◌};
ghost use Rattle.facet_json_core.specs.Meaning.Readings.{unsigned_text, signed_text};

use crate::leaves::FromScalar;
use crate::whole::out_of_range;
use facet_format::{DeserializeError, ParseEvent, ParseEventKind, ScalarValue};
use facet_json_core::mismatch;
use facet_json_parser::JsonParser;
use std::alloc::Global;

impl FromScalar for u128 {
    ghost use Rattle.std.specs.Prelude.{◌≡◌, ◌⊎◌, ◌<◌, ◌^◌, ℕ, codes, refl};
    ghost use Rattle.std.proofs.Common.{inr};
    ghost use Rattle.facet_format.specs.Complaint.{number_out_of_range, refusal_at};
    ghost use Rattle.facet_json_grammar.specs.Tree.{u128 as u128_tree};
    ghost use Rattle.facet_json_core.specs.Refusing.{mismatch_of};
    ghost use Rattle.facet_json_core.proofs.Refusing.{either-about};
    ghost use Rattle.facet_json_core.specs.Meaning.Readings.{u128_of};
    ghost use Rattle.facet_json_core.proofs.Meaning.Leaves.WideNumbers.{u128-reads_back};

    ghost View = { ℕ };

    ghost view = { λ n. n };

    ghost takes = { u128_of };

    ghost refuses = { λ given r.
        (r ≡ refusal_at (number_out_of_range (codes "u128")) given.span) ⊎ (r ≡ mismatch_of (codes "u128") given) };

    ghost tree_of = { u128_tree };

    ghost always = { λ n. n < 2 ^ 128 };

    fn take<'t>(_alloc: Global, event: ParseEvent<'_>) -> Result<u128, DeserializeError<'t>> {
        let number = match &event.kind {
            ParseEventKind::Scalar(ScalarValue::U64(n)) => Some(u128::from(*n)),
            ParseEventKind::Scalar(ScalarValue::I64(n)) => match u128::try_from(*n) {
                Ok(wide) => Some(wide),
                Err(_) => return Err(out_of_range("u128", event.span)),
            },
            ParseEventKind::Scalar(ScalarValue::Str(text)) => unsigned_text(text.as_str()),
            _ => None,
        };
        match number {
            Some(n) => Ok(n),
            None => Err(mismatch("u128", event)),
        }
    }

    fn take_quickly<'t>(
        _alloc: Global,
        _parser: &mut JsonParser<'_>,
    ) -> Option<Result<u128, DeserializeError<'t>>> {
        None
    }

    fn to_scalar(&self) -> ScalarValue<'_> {
        ScalarValue::U128(*self)
    }

    ghost refuses_about = { λ given r told. inr (either-about given told refl) };

    ghost reads_back = { u128-reads_back };
}

impl FromScalar for i128 {
    ghost use Rattle.std.specs.Prelude.{◌≡◌, ℤ, codes};
    ghost use Rattle.std.proofs.Common.{inr};
    ghost use Rattle.facet_json_grammar.specs.Tree.{i128 as i128_tree};
    ghost use Rattle.facet_json_grammar.specs.AsRead.{FitsBits};
    ghost use Rattle.facet_json_core.specs.Refusing.{mismatch_of};
    ghost use Rattle.facet_json_core.proofs.Refusing.{mismatch-about};
    ghost use Rattle.facet_json_core.specs.Meaning.Readings.{i128_of};
    ghost use Rattle.facet_json_core.proofs.Meaning.Leaves.WideNumbers.{i128-reads_back};

    ghost View = { ℤ };

    ghost view = { λ n. n };

    ghost takes = { i128_of };

    ghost refuses = { λ given r. r ≡ mismatch_of (codes "i128") given };

    ghost tree_of = { i128_tree };

    ghost always = { λ n. FitsBits 127 n };

    fn take<'t>(_alloc: Global, event: ParseEvent<'_>) -> Result<i128, DeserializeError<'t>> {
        let number = match &event.kind {
            ParseEventKind::Scalar(ScalarValue::U64(n)) => Some(i128::from(*n)),
            ParseEventKind::Scalar(ScalarValue::I64(n)) => Some(i128::from(*n)),
            ParseEventKind::Scalar(ScalarValue::Str(text)) => signed_text(text.as_str()),
            _ => None,
        };
        match number {
            Some(n) => Ok(n),
            None => Err(mismatch("i128", event)),
        }
    }

    fn take_quickly<'t>(
        _alloc: Global,
        _parser: &mut JsonParser<'_>,
    ) -> Option<Result<i128, DeserializeError<'t>>> {
        None
    }

    fn to_scalar(&self) -> ScalarValue<'_> {
        ScalarValue::I128(*self)
    }

    ghost refuses_about = { λ given r told. inr (mismatch-about _ given told) };

    ghost reads_back = { i128-reads_back };
}

/// The number without a sign whose decimal digits the text is, or `None`: it has no leading zero then.
fn unsigned_text(text: &str) -> Option<u128>
    ensures { result ≡ unsigned_text text.now }
{
    let Ok(n) = text.parse::<u128>() else {
        return None;
    };
    let mut digits = itoa::Buffer::new();
    if digits.format(n) == text {
        Some(n)
    } else {
        None
    }
}

/// The number with a sign whose decimal digits the text is, after a minus where it is negative, or `None`.
fn signed_text(text: &str) -> Option<i128>
    ensures { result ≡ signed_text text.now }
{
    let Ok(n) = text.parse::<i128>() else {
        return None;
    };
    let mut written = itoa::Buffer::new();
    if written.format(n) == text {
        Some(n)
    } else {
        None
    }
}
