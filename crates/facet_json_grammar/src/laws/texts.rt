//! The law of written texts.

ghost use Rattle.facet_json_grammar.specs.TextLaws.{QuotedByCharacters};

/// A text is written character by character: an escape, or its UTF-8 (RFC 8259, sections 7 and 8.1).
pub fn quoted_by_characters()
    ensures { QuotedByCharacters }
{}
