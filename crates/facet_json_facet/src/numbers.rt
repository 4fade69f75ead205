//! The types of whole numbers of at most 64 bits, by their bits and names.

use crate::whole::Number;
use facet_format::ScalarValue;

impl Number for u8 {
    ghost use Rattle.std.specs.Prelude.{codes};
    ghost use Rattle.std.specs.Int.{w8};
    ghost use Rattle.facet_json_core.proofs.Meaning.Leaves.WholeNumbers.{u8-reads_back};
    ghost use Rattle.facet_json_facet.specs.Inner.Numbers.{unsigned, unsigned-laws};

    ghost number = { unsigned w8 (codes "u8") };

    fn name() -> &'static str {
        "u8"
    }

    fn wide(&self) -> ScalarValue<'_> {
        ScalarValue::U64(u64::from(*self))
    }

    ghost laws = { unsigned-laws w8 (codes "u8") u8-reads_back };
}

impl Number for u16 {
    ghost use Rattle.std.specs.Prelude.{codes};
    ghost use Rattle.std.specs.Int.{w16};
    ghost use Rattle.facet_json_core.proofs.Meaning.Leaves.WholeNumbers.{u16-reads_back};
    ghost use Rattle.facet_json_facet.specs.Inner.Numbers.{unsigned, unsigned-laws};

    ghost number = { unsigned w16 (codes "u16") };

    fn name() -> &'static str {
        "u16"
    }

    fn wide(&self) -> ScalarValue<'_> {
        ScalarValue::U64(u64::from(*self))
    }

    ghost laws = { unsigned-laws w16 (codes "u16") u16-reads_back };
}

impl Number for u32 {
    ghost use Rattle.std.specs.Prelude.{codes};
    ghost use Rattle.std.specs.Int.{w32};
    ghost use Rattle.facet_json_core.proofs.Meaning.Leaves.WholeNumbers.{u32-reads_back};
    ghost use Rattle.facet_json_facet.specs.Inner.Numbers.{unsigned, unsigned-laws};

    ghost number = { unsigned w32 (codes "u32") };

    fn name() -> &'static str {
        "u32"
    }

    fn wide(&self) -> ScalarValue<'_> {
        ScalarValue::U64(u64::from(*self))
    }

    ghost laws = { unsigned-laws w32 (codes "u32") u32-reads_back };
}

impl Number for u64 {
    ghost use Rattle.std.specs.Prelude.{codes};
    ghost use Rattle.std.specs.Int.{w64};
    ghost use Rattle.facet_json_core.proofs.Meaning.Leaves.WholeNumbers.{u64-reads_back};
    ghost use Rattle.facet_json_facet.specs.Inner.Numbers.{unsigned, unsigned-laws};

    ghost number = { unsigned w64 (codes "u64") };

    fn name() -> &'static str {
        "u64"
    }

    fn wide(&self) -> ScalarValue<'_> {
        ScalarValue::U64(*self)
    }

    ghost laws = { unsigned-laws w64 (codes "u64") u64-reads_back };
}

impl Number for usize {
    ghost use Rattle.std.specs.Prelude.{codes};
    ghost use Rattle.std.specs.Int.{w64};
    ghost use Rattle.facet_json_core.proofs.Meaning.Leaves.WholeNumbers.{u64-reads_back};
    ghost use Rattle.facet_json_facet.specs.Inner.Numbers.{unsigned, unsigned-laws};

    ghost number = { unsigned w64 (codes "usize") };

    fn name() -> &'static str {
        "usize"
    }

    fn wide(&self) -> ScalarValue<'_> {
        ScalarValue::U64(*self as u64)
    }

    ghost laws = { unsigned-laws w64 (codes "usize") u64-reads_back };
}

impl Number for i8 {
    ghost use Rattle.std.specs.Prelude.{codes};
    ghost use Rattle.std.specs.Int.{w8};
    ghost use Rattle.facet_json_core.proofs.Meaning.Leaves.WholeNumbers.{i8-reads_back};
    ghost use Rattle.facet_json_facet.specs.Inner.Numbers.{signed, signed-laws};

    ghost number = { signed w8 (codes "i8") };

    fn name() -> &'static str {
        "i8"
    }

    fn wide(&self) -> ScalarValue<'_> {
        ScalarValue::I64(i64::from(*self))
    }

    ghost laws = { signed-laws w8 (codes "i8") i8-reads_back };
}

impl Number for i16 {
    ghost use Rattle.std.specs.Prelude.{codes};
    ghost use Rattle.std.specs.Int.{w16};
    ghost use Rattle.facet_json_core.proofs.Meaning.Leaves.WholeNumbers.{i16-reads_back};
    ghost use Rattle.facet_json_facet.specs.Inner.Numbers.{signed, signed-laws};

    ghost number = { signed w16 (codes "i16") };

    fn name() -> &'static str {
        "i16"
    }

    fn wide(&self) -> ScalarValue<'_> {
        ScalarValue::I64(i64::from(*self))
    }

    ghost laws = { signed-laws w16 (codes "i16") i16-reads_back };
}

impl Number for i32 {
    ghost use Rattle.std.specs.Prelude.{codes};
    ghost use Rattle.std.specs.Int.{w32};
    ghost use Rattle.facet_json_core.proofs.Meaning.Leaves.WholeNumbers.{i32-reads_back};
    ghost use Rattle.facet_json_facet.specs.Inner.Numbers.{signed, signed-laws};

    ghost number = { signed w32 (codes "i32") };

    fn name() -> &'static str {
        "i32"
    }

    fn wide(&self) -> ScalarValue<'_> {
        ScalarValue::I64(i64::from(*self))
    }

    ghost laws = { signed-laws w32 (codes "i32") i32-reads_back };
}

impl Number for i64 {
    ghost use Rattle.std.specs.Prelude.{codes};
    ghost use Rattle.std.specs.Int.{w64};
    ghost use Rattle.facet_json_core.proofs.Meaning.Leaves.WholeNumbers.{i64-reads_back};
    ghost use Rattle.facet_json_facet.specs.Inner.Numbers.{signed, signed-laws};

    ghost number = { signed w64 (codes "i64") };

    fn name() -> &'static str {
        "i64"
    }

    fn wide(&self) -> ScalarValue<'_> {
        ScalarValue::I64(*self)
    }

    ghost laws = { signed-laws w64 (codes "i64") i64-reads_back };
}

impl Number for isize {
    ghost use Rattle.std.specs.Prelude.{codes};
    ghost use Rattle.std.specs.Int.{w64};
    ghost use Rattle.facet_json_core.proofs.Meaning.Leaves.WholeNumbers.{i64-reads_back};
    ghost use Rattle.facet_json_facet.specs.Inner.Numbers.{signed, signed-laws};

    ghost number = { signed w64 (codes "isize") };

    fn name() -> &'static str {
        "isize"
    }

    fn wide(&self) -> ScalarValue<'_> {
        ScalarValue::I64(*self as i64)
    }

    ghost laws = { signed-laws w64 (codes "isize") i64-reads_back };
}
