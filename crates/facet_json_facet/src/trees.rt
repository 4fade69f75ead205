//! Any value: `Tree`.

use crate::facet::Facet;
use facet_format::DeserializeError;
use facet_json_parser::JsonParser;
use facet_json_serializer::{JsonSerializeError, JsonSerializer};
use facet_json_tree::{Tree, read_tree, write_tree};
use std::alloc::Global;

/// Any value (RFC 8259, section 3), as the tree that it stands for. Nothing of the input is borrowed.
///
/// ```text
/// <Tree as Facet>::read_owned(alloc, &mut JsonParser::new(alloc, b"[7,null]"))     Ok: Tree::List of Tree::U64(7) and Tree::Null
/// Tree::U64(7).write(&mut serializer)                                              Ok: 7 is written
/// Tree::U128(7).write(&mut serializer)                                             Ok: 7 is written, which is read as Tree::U64(7)
/// ```
///
/// Reading recurses once for each list or object within another.
impl<'de> Facet<'de> for Tree {
    ghost use Rattle.std.specs.Prelude.{true};
    ghost use Rattle.facet_json_grammar.specs.Tree.{Tree as SpecTree};
    ghost use Rattle.facet_json_core.specs.Meaning.Types.{any};
    ghost use Rattle.facet_json_core.proofs.Meaning.TypeLaws.{any-laws};
    ghost use Rattle.facet_json_tree.specs.Views.{tree_view};

    ghost View = { SpecTree };

    ghost view = { tree_view };

    ghost shape = { any };

    ghost whole = { true };

    fn read_owned<'t>(
        alloc: Global,
        parser: &mut JsonParser<'de>,
    ) -> Result<Tree, DeserializeError<'t>> {
        read_tree(alloc, parser)
    }

    fn read<'t>(alloc: Global, parser: &mut JsonParser<'de>) -> Result<Tree, DeserializeError<'t>> {
        Tree::read_owned(alloc, parser)
    }

    fn in_sight(_: Global, _: &'de [u8], _: usize, _: bool) -> Option<(Self, usize)> {
        None
    }

    fn write(&self, serializer: &mut JsonSerializer<'_>) -> Result<(), JsonSerializeError> {
        write_tree(serializer, self)
    }

    ghost laws = { any-laws };
}
