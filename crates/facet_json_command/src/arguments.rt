//! What the arguments after the program's name ask for.

ghost use Rattle.std.specs.Prelude.{◌≡◌, ◌≢◌, ◌≤◌, ◌⊎◌, ℕ, Bool, true, false, List, [], ◌∷◌, ◌++◌, length, codes, None, IfOk, IfErr};
ghost use Rattle.std.specs.Prelude.{MatchOption, MatchResult};
ghost use Rattle.facet_json_token.specs.Gap.{plain};
ghost use Rattle.facet_json_grammar.specs.Language.{Language as SpecLanguage, lenient};
ghost use Rattle.facet_json_reader.specs.PlaceViews.{language_of};
ghost use Rattle.facet_json_command.specs.declared.run.Outcome.TheVariants as outcome;
ghost use Rattle.facet_json_command.specs.Arguments.{AreWords, AskFor, AskForNothing};
ghost use Rattle.facet_json_command.specs.OutcomeViews.{words_of, command_view, operands_of};

use crate::run::Outcome;
use crate::script::parse_script;
use facet_json_core::Call;
use facet_json_reader::Language;
use facet_json_token::Mode;
use std::alloc::Global;

/// What the program is asked to do.
#[derive(Drop)]
pub enum Command {
    /// Write the document of the input anew.
    Fmt {
        /// How the input is read.
        language: Language,
        /// Whether the text is indented.
        pretty: bool,
    },
    /// Print the events of the input's document.
    Events {
        /// How the input is read.
        language: Language,
    },
    /// Print the tokens of the input.
    Tokens {
        /// How the input is read.
        mode: Mode,
    },
    /// Make these calls of a parser of the input, and print their answers.
    Drive {
        /// How the input is read.
        language: Language,
        /// The calls.
        calls: Vec<Call>,
    },
}

/// The option by which the input may have comments.
const COMMENTS: &str = "--jsonc";

/// The option by which the input has to be RFC 8259 alone.
const STRICTLY: &str = "--strict";

/// The option by which the text is indented.
const INDENTED: &str = "--pretty";

/// The words after the command's name.
#[derive(Clone, Copy)]
struct Words<'a> {
    language: Language,
    pretty: bool,
    operand: Option<&'a str>,
}

impl<'a> Words<'a> {
    /// These words, and then one more, where it may stand there: each option once, and one other word.
    fn with(self, word: &'a str) -> Option<Words<'a>>
        ensures { (before : List (List ℕ))
            → AreWords (language_of self.entry.language) self.entry.pretty (operands_of self.entry.operand) before
            → MatchOption result
            ((language : SpecLanguage) (pretty : Bool) (operands rest : List (List ℕ)) → length operands ≤ 1
            → ¬ AreWords language pretty operands (before ++ (word.now ∷ rest)))
            (λ w. AreWords (language_of w.language) w.pretty (operands_of w.operand) (before ++ (word.now ∷ []))) }
    {
        if word == COMMENTS {
            return self.with_language(Language::Jsonc);
        }
        if word == STRICTLY {
            return self.with_language(Language::Strict);
        }
        if word == INDENTED {
            return self.with_indent();
        }
        self.with_operand(word)
    }

    /// With an option that asks for this language: one such option stands there at most.
    fn with_language(self, language: Language) -> Option<Words<'a>>
        ensures { MatchOption result (language_of self.entry.language ≢ lenient plain)
            (λ w. (language_of self.entry.language ≡ lenient plain) × (w ≡ record self.entry { language = language })) }
    {
        match self.language {
            Language::Plain => Some(Words { language, ..self }),
            _ => None,
        }
    }

    /// With the option by which the text is indented, once.
    fn with_indent(self) -> Option<Words<'a>>
        ensures { MatchOption result (self.entry.pretty ≡ true)
            (λ w. (self.entry.pretty ≡ false) × (w ≡ record self.entry { pretty = true })) }
    {
        if self.pretty {
            return None;
        }
        Some(Words {
            pretty: true,
            ..self
        })
    }

    /// With a word that is no option, once.
    fn with_operand(self, word: &'a str) -> Option<Words<'a>>
        ensures { MatchOption result ((taken : List ℕ) × (operands_of self.entry.operand ≡ taken ∷ []))
            (λ w. (operands_of self.entry.operand ≡ []) × (w.language ≡ self.entry.language) × (w.pretty ≡ self.entry.pretty)
            × (operands_of w.operand ≡ word.now ∷ [])) }
    {
        match self.operand {
            None => Some(Words {
                operand: Some(word),
                ..self
            }),
            Some(_) => None,
        }
    }
}

/// The command that the arguments ask for.
pub fn command_of(alloc: Global, args: &[String]) -> Result<Command, Outcome>
    ensures asked { IfOk result (λ c. AskFor (command_view c) (words_of args.now)) }
    ensures refused { IfErr result (λ o. (o ≡ outcome.Refused 9 None)
        ⊎ ((o ≡ outcome.Usage) × AskForNothing (words_of args.now))) }
{
    let Some((name, rest)) = args.split_first() else {
        return Err(Outcome::Usage);
    };
    match words_after(rest) {
        Some(words) => named(alloc, name.as_str(), words),
        None => Err(Outcome::Usage),
    }
}

/// The command of this name with these words.
fn named(alloc: Global, name: &str, words: Words<'_>) -> Result<Command, Outcome>
    ensures { (rest : List (List ℕ)) → AreWords (language_of words.entry.language) words.entry.pretty (operands_of words.entry.operand) rest
        → MatchResult result
        (λ c. AskFor (command_view c) (name.now ∷ rest))
        (λ o. (o ≡ outcome.Refused 9 None) ⊎ ((o ≡ outcome.Usage) × AskForNothing (name.now ∷ rest))) }
{
    let language = words.language;
    match words.operand {
        None => bare(name, language, words.pretty),
        Some(script) => {
            if words.pretty {
                return Err(Outcome::Usage);
            }
            scripted(alloc, name, language, script)
        }
    }
}

/// The command of this name with a script.
fn scripted(alloc: Global, name: &str, language: Language, script: &str) -> Result<Command, Outcome>
    ensures { (rest : List (List ℕ)) → AreWords (language_of language) false (script.now ∷ []) rest → MatchResult result
        (λ c. AskFor (command_view c) (name.now ∷ rest))
        (λ o. (o ≡ outcome.Refused 9 None) ⊎ ((o ≡ outcome.Usage) × AskForNothing (name.now ∷ rest))) }
{
    match name {
        "drive" => match parse_script(alloc, script) {
            Ok(calls) => Ok(Command::Drive { language, calls }),
            Err(outcome) => Err(outcome),
        },
        _ => Err(Outcome::Usage),
    }
}

/// The command of this name, without an operand.
fn bare(name: &str, language: Language, pretty: bool) -> Result<Command, Outcome>
    ensures { (rest : List (List ℕ)) → AreWords (language_of language) pretty [] rest → MatchResult result
        (λ c. AskFor (command_view c) (name.now ∷ rest))
        (λ o. (o ≡ outcome.Usage) × AskForNothing (name.now ∷ rest)) }
{
    match name {
        "fmt" => Ok(Command::Fmt { language, pretty }),
        _ => {
            if pretty {
                return Err(Outcome::Usage);
            }
            listing(name, language)
        }
    }
}

/// The command of this name that lists something, without an operand and the option of the layout.
fn listing(name: &str, language: Language) -> Result<Command, Outcome>
    ensures { (rest : List (List ℕ)) → name.now ≢ codes "fmt" → AreWords (language_of language) false [] rest → MatchResult result
        (λ c. AskFor (command_view c) (name.now ∷ rest))
        (λ o. (o ≡ outcome.Usage) × AskForNothing (name.now ∷ rest)) }
{
    match name {
        "events" => Ok(Command::Events { language }),
        "tokens" => scanning(language),
        _ => Err(Outcome::Usage),
    }
}

/// The command `tokens`, which has no strict form.
fn scanning(language: Language) -> Result<Command, Outcome>
    ensures { (rest : List (List ℕ)) → AreWords (language_of language) false [] rest → MatchResult result
        (λ c. AskFor (command_view c) (codes "tokens" ∷ rest))
        (λ o. (o ≡ outcome.Usage) × AskForNothing (codes "tokens" ∷ rest)) }
{
    match language {
        Language::Plain => Ok(Command::Tokens { mode: Mode::Plain }),
        Language::Jsonc => Ok(Command::Tokens { mode: Mode::Jsonc }),
        Language::Strict => Err(Outcome::Usage),
    }
}

/// The words after the command's name, where they are the options, each once at most, and one other word at most.
fn words_after(words: &[String]) -> Option<Words<'_>>
    ensures { MatchOption result
        ((language : SpecLanguage) (pretty : Bool) (operands : List (List ℕ)) → length operands ≤ 1
        → ¬ AreWords language pretty operands (words_of words.now))
        (λ w. AreWords (language_of w.language) w.pretty (operands_of w.operand) (words_of words.now)) }
{
    let mut taken = Words {
        language: Language::Plain,
        pretty: false,
        operand: None,
    };
    for word in words {
        let Some(more) = taken.with(word.as_str()) else {
            return None;
        };
        taken = more;
    }
    Some(taken)
}
