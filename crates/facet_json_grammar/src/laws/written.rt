//! What the definitions of `specs/` mean, in the subject's own words: each law is the contract of a function without effect.

ghost use Rattle.facet_json_grammar.specs.ReadBack.{IndentIsNotRead, OneReading, QuotedDecodesAlone, WrittenIsRead};
ghost use Rattle.facet_json_grammar.specs.RfcLaws.{QuotedIsRfc, WrittenIsRfc};
ghost use Rattle.facet_json_grammar.specs.StrictTexts.{ReadableIsRfc, StrictIsRfc, WrittenIsStrict};

/// What stands between the quotes of a written text decodes to this text, and to no other (RFC 8259, section 7).
///
/// So `"a\nb"`, which is what is written of `a`, a line feed and `b`, is read as these three characters alone.
pub fn quoted_decodes_alone()
    ensures { QuotedDecodesAlone }
{}

/// The text of a tree is one document, whose tree is what the tree reads as (RFC 8259, section 2), where the indent is white space
/// and each raw part is a document by itself.
///
/// So a list of a character and of raw text ` 1 ` is written `["a", 1 ]`, which is read as a list of a text and a number.
pub fn written_is_read()
    ensures { WrittenIsRead }
{}

/// A tree reads as one tree alone, by the format of bytes, and neither by indent nor by layout.
pub fn one_reading()
    ensures { OneReading }
{}

/// The same tree is read whether or not the text is indented, and whatever white space the indent is.
pub fn indent_is_not_read()
    ensures { IndentIsNotRead }
{}

/// What is written of a text is one string of RFC 8259 (section 7), between its quotes.
///
/// So no control character stands in it, and a backslash is followed by one of the eight letters, or by `u` and four hexadecimal digits.
pub fn quoted_is_rfc_string()
    ensures { QuotedIsRfc }
{}

/// The text of a tree is one text of RFC 8259 (sections 2 to 8), where the indent is white space, decimals are numbers of the RFC and
/// raw parts are texts of it.
///
/// So a list of raw text ` 1 ` is written `[ 1 ]`, which is one; a list of raw text `[1,]` is written `[[1,]]`, of which nothing is
/// said, though this library reads both.
pub fn written_is_rfc_text()
    ensures { WrittenIsRfc }
{}

/// The text of a tree is a strict document, which a strict parser reads as well, where the indent is white space, decimals are numbers of
/// RFC 8259 and raw parts are strict documents.
///
/// So a list of the decimal `1.5` and of raw text ` [] ` is written `[1.5, [] ]`, which is one; a list of raw text `[1,]` is written
/// `[[1,]]`, which no strict parser reads.
pub fn written_is_strict()
    ensures { WrittenIsStrict }
{}

/// The strict documents are the texts of RFC 8259 (sections 2 to 8) whose strings have a text and whose whole numbers lie within 128 bits.
/// The grammar knows nothing of tokens, and shares no leaf with the reader.
///
/// So ` [1, "a"] ` is one; `[1,]`, `01` and a text with a tab between its quotes are none; and `"\ud800"` is a text of the RFC, but none
/// with a text, since its surrogate stands alone.
pub fn strict_is_rfc()
    ensures { StrictIsRfc }
{}

/// A text of RFC 8259 whose strings have a text and whose whole numbers lie within 128 bits is one of RFC 8259.
pub fn readable_is_rfc()
    ensures { ReadableIsRfc }
{}
