//! The law of trust: a parser that takes its input for UTF-8 answers as one that checks its strings.

ghost use Rattle.std.specs.Prelude.{◌≡◌};
ghost use Rattle.facet_json_grammar.specs.Now.{fresh_in};
ghost use Rattle.facet_json_grammar.specs.ParserLaws.{AnswerAlike};
ghost use Rattle.facet_json_reader.specs.LanguageViews.{language_of};

use facet_json_parser::JsonParser;
use facet_json_reader::Language;
use facet_json_token::Trust;
use std::alloc::Global;

/// A trusted parser of a text, the first of the two, and one that checks its strings: they answer every list of calls alike, up to the
/// first out of memory in either.
pub fn trusted_agrees<'de>(
    alloc: Global,
    text: &'de str,
    language: Language,
) -> (JsonParser<'de>, JsonParser<'de>)
    ensures alike { AnswerAlike result.0 result.1 }
    ensures trusted { result.0 ≡ fresh_in text.now (language_of language) }
    ensures checking { result.1 ≡ fresh_in text.now (language_of language) }
{
    let input = text.as_bytes();
    let trusted = JsonParser::in_language(alloc, input, language, Trust::Utf8);
    let checking = JsonParser::in_language(alloc, input, language, Trust::Nothing);
    (trusted, checking)
}
