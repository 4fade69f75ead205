//! The laws of strings' contents: what they stand for, and what is wrong with those that stand for nothing.

ghost use Rattle.facet_json_token.specs.DecodeLaws.{DecodedIsDecodes, TextOrFault};
ghost use Rattle.facet_json_token.specs.FirstFault.{FirstFaultIsFound};

/// The text that is computed for a string's content is the one text that it stands for, piece by piece
/// (RFC 8259, section 7).
pub fn decoded_is_decodes()
    ensures { DecodedIsDecodes }
{}

/// The fault that is computed for a content is its first one: pieces, and then bytes that begin with that fault.
pub fn first_fault_is_found()
    ensures { FirstFaultIsFound }
{}

/// A content has a text or a first fault, never both, and one first fault at most, whose bytes are some of the content's.
pub fn text_or_fault()
    ensures { TextOrFault }
{}
