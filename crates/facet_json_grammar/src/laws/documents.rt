//! Laws about documents: which tokens spell a value, and which value.

ghost use Rattle.facet_json_grammar.specs.Laws.{OneDocument, OneSpelling, PlainIsJsonc};

/// Tokens spell at most one value, and no spelling is a proper prefix of another's.
pub fn one_spelling()
    ensures { OneSpelling }
{}

/// An input has at most one document.
pub fn one_document()
    ensures { OneDocument }
{}

/// A plain document is the same document where comments are read.
pub fn plain_is_jsonc()
    ensures { PlainIsJsonc }
{}
