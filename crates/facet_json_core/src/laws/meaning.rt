//! The laws of what types are read as and written as. That each type reads the same bytes alike stands in `facet_json_facet::laws`.

ghost use Rattle.facet_json_core.specs.Meaning.SameBytes.{DocumentNodesAreSpelled, SameBytesSameText};
ghost use Rattle.facet_json_core.specs.Meaning.StrictTexts.{StrictReadsTexts};
ghost use Rattle.facet_json_core.specs.Meaning.Trees.{DocumentComesBack, DocumentIsReadable};

/// The nodes of a document are spelled in its input.
pub fn document_nodes_are_spelled()
    ensures { DocumentNodesAreSpelled }
{}

/// Nodes whose ranges hold the same bytes are nodes of the same text, whatever stands around them, also where comments may stand in one of
/// the inputs and not in the other.
pub fn same_bytes_same_text()
    ensures { SameBytesSameText }
{}

/// Strict mode, in the terms of RFC 8259 alone. Read by the next event, a strict parser ends in `None` exactly where its input is UTF-8 and
/// one text of the grammar (sections 2 to 8) whose strings have a text and whose whole numbers lie within 128 bits, out of memory aside;
/// and there it answers every list of calls as a cursor on the walk of the text's document does.
///
/// So ` [1, "a"] ` ends in `None`. `[1,]`, `01`, `[1] x`, a text with a tab between its quotes and an empty input are refused.
pub fn strict_reads_texts()
    ensures { StrictReadsTexts }
{}

/// The tree of a document is readable: it has no raw text, its texts are UTF-8 and its numbers within their bits, and what is written of it
/// reads as it, but that zero has no sign.
///
/// So `[1,"a"]` is read as a list of a number and a text, which reads as itself; `[-0]` as a list of a zero with a sign, which reads as one
/// of a zero without, and that reads as itself.
pub fn document_is_readable()
    ensures { DocumentIsReadable }
{}

/// What is written of a document's tree, whatever the options, where the indent is white space, is one document, whose tree is the same,
/// but that zero has no sign.
///
/// So of ` [1,] x` there is written `[1]`, which has the same tree.
pub fn document_comes_back()
    ensures { DocumentComesBack }
{}
