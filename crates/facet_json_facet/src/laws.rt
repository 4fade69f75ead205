//! What every type of the trait keeps, in the terms of its input's bytes.

ghost use Rattle.facet_json_core.specs.Meaning.SameBytes.{ReadsBytesAlike};

use crate::facet::Facet;

/// Nodes whose ranges hold the same bytes have the same reading, wherever they stand and whatever stands around them: so a value that is
/// captured, kept or sent on is read later as it would have been read in its place. With
/// `facet_json_core::laws::document_nodes_are_spelled` this holds of all nodes of documents.
pub fn same_bytes_read_alike<'de, T: Facet<'de>>()
    ensures reading { ReadsBytesAlike T.shape.reading }
    ensures reading_borrowed { ReadsBytesAlike T.shape.reading_borrowed }
{}
