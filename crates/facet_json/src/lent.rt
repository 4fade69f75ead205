//! Fields of structs that are lent, and an object that is written of them.

ghost use Rattle.std.specs.Prelude.{◌≡◌, None, IfErr, OnErr, OnOk};
ghost use Rattle.facet_json_grammar.specs.Tree.{pairs, no_pairs, pair};
ghost use Rattle.facet_json_serializer.specs.Serializer.{out_of_memory};
ghost use Rattle.facet_json_serializer.specs.Views.{write_refusal_of};
ghost use Rattle.facet_json_tree.specs.Write.{HasWritten, IsOfRust};
ghost use Rattle.facet_json.specs.Fields.{keys, first_name, other_names};
ghost use Rattle.facet_json.specs.Written.{HasWrittenMembers, IsWithinStruct};

use crate::fields::{Done, Need, after_first, first};
use facet_format::FormatSerializer;
use facet_json_facet::Facet;
use facet_json_serializer::{JsonSerializeError, JsonSerializer};

/// A list of lent fields, as `Need(&self.name, Need(&self.age, Done))`, that `write_fields` writes.
pub trait LentFields<'de> {
    ghost use Rattle.std.specs.Prelude.{ℕ, List};
    ghost use Rattle.facet_json_grammar.specs.Tree.{Pairs};

    /// The members as which the fields are written, under these names.
    ghost members: { List (List ℕ) → Self → Pairs };

    /// Each field has what every value of its type has.
    ghost always: { Self → Type 0 };

    /// Writes the fields as members of the object that is open.
    ///
    /// # Errors
    ///
    /// `OutOfMemory`, and then the serializer is out of memory for good; or `KeyOutsideStruct`, where no object is open.
    fn write_members(
        &self,
        names: &[&str],
        serializer: &mut JsonSerializer<'_>,
    ) -> Result<(), JsonSerializeError>
        ensures written { OnOk result (HasWrittenMembers serializer.old (members (keys names.now) self.now) serializer.new) }
        ensures refused { IsWithinStruct serializer.old → IfErr result (λ e. write_refusal_of e ≡ out_of_memory) }
        ensures spent { IsWithinStruct serializer.old → OnErr result (serializer.new ≡ None) }
        ensures of_rust { OnOk result (IsOfRust (pairs (members (keys names.now) self.now))) }
        ensures always { OnOk result (always self.now) };
}

impl<'de> LentFields<'de> for Done {
    ghost members = { λ names fields. no_pairs };

    ghost always = { λ _. Unit {0} };

    fn write_members(
        &self,
        _names: &[&str],
        _serializer: &mut JsonSerializer<'_>,
    ) -> Result<(), JsonSerializeError> {
        Ok(())
    }
}

impl<'de, 'a, T: Facet<'de>, R: LentFields<'de>> LentFields<'de> for Need<&'a T, R> {
    ghost members = { λ names fields.
        pair (first_name names) (T.shape.tree_of (T.view fields.0.now)) (R.members (other_names names) fields.1) };

    ghost always = { λ fields. T.shape.always (T.view fields.0.now) × R.always fields.1 };

    fn write_members(
        &self,
        names: &[&str],
        serializer: &mut JsonSerializer<'_>,
    ) -> Result<(), JsonSerializeError> {
        let name = first(names);
        let _utf8 = name.as_bytes();
        serializer.field_key(name)?;
        self.0.write(serializer)?;
        self.1.write_members(after_first(names), serializer)
    }
}

/// Writes an object of these fields, in their order (RFC 8259, section 4). A field that may be missing is lent as the others, and is
/// null where it is none.
///
/// ```text
/// write_fields(serializer, &["name", "age"], &Need(&self.name, Need(&self.age, Done)))
///
/// {"name":"Alice","age":30}
/// ```
///
/// # Errors
///
/// `OutOfMemory` alone; the serializer is then out of memory for good.
pub fn write_fields<'de, F: LentFields<'de>>(
    serializer: &mut JsonSerializer<'_>,
    names: &[&str],
    fields: &F,
) -> Result<(), JsonSerializeError>
    ensures written { OnOk result (HasWritten serializer.old (pairs (F.members (keys names.now) fields.now)) serializer.new) }
    ensures refused { IfErr result (λ e. write_refusal_of e ≡ out_of_memory) }
    ensures spent { OnErr result (serializer.new ≡ None) }
    ensures of_rust { OnOk result (IsOfRust (pairs (F.members (keys names.now) fields.now))) }
    ensures always { OnOk result (F.always fields.now) }
{
    serializer.begin_struct()?;
    fields.write_members(names, serializer)?;
    serializer.end_struct()
}
