//! The words of a row's command.

use facet_json::Language;

/// The first word, and what stands after the blank that ends it.
pub fn first_word(text: &str) -> (&str, &str) {
    text.split_once(' ').unwrap_or((text, ""))
}

/// The languages of this name.
pub fn languages(word: &str) -> &'static [Language] {
    match word {
        "plain" => &[Language::Plain],
        "jsonc" => &[Language::Jsonc],
        "strict" => &[Language::Strict],
        "both" => &[Language::Plain, Language::Jsonc],
        "each" => &[Language::Plain, Language::Jsonc, Language::Strict],
        _ => &[],
    }
}
