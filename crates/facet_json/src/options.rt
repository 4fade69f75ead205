//! Typed reads by options: the language, what may be borrowed, and how deep the input may nest.

ghost use Rattle.std.specs.Prelude.{◌≡◌, false, true, Some, None, OnOk, OnErr, IfOk, IfErr, IsUtf8, MatchResult};
ghost use Rattle.facet_format.specs.Span.{Span as SpecSpan};
ghost use Rattle.facet_format.specs.Views.{refusal_of};
ghost use Rattle.facet_json_grammar.specs.UnreadLaws.{RefusalWithin};
ghost use Rattle.facet_json_tree.specs.Depth.{too_deep_at};
ghost use Rattle.facet_json_reader.specs.LanguageViews.{language_of};
ghost use Rattle.facet_json.specs.Allowed.{IsTooDeep, ReadIn};

use crate::nesting::first_beyond;
use facet_format::{DeserializeError, DeserializeErrorKind};
use facet_json_facet::{Facet, first_value, whole_value};
use facet_json_parser::JsonParser;
use facet_json_reader::Language;
use facet_json_token::Trust;
use std::alloc::Global;

/// What a typed read allows.
///
/// ```text
/// ReadOptions::new().strict().borrowed().depth(64)
/// ```
#[derive(Debug, Clone, Copy, PartialEq, Eq)]
pub struct ReadOptions {
    /// Which texts are documents.
    pub language: Language,
    /// Whether the value may borrow of the input.
    pub borrows: bool,
    /// How many lists and objects may stand within one another (RFC 8259, section 9); any number, where it is `None`.
    pub depth: Option<usize>,
}

impl ReadOptions {
    /// What `from_slice` allows: no comments, nothing borrowed, any depth.
    pub fn new() -> ReadOptions
        ensures { result ≡ record { language = Language.Plain; borrows = false; depth = None } }
    {
        ReadOptions {
            language: Language::Plain,
            borrows: false,
            depth: None,
        }
    }

    /// Comments are allowed wherever white space is.
    pub fn jsonc(self) -> ReadOptions
        ensures { result ≡ record { language = Language.Jsonc; borrows = self.borrows; depth = self.depth } }
    {
        ReadOptions {
            language: Language::Jsonc,
            ..self
        }
    }

    /// The input has to be RFC 8259 alone, from its start to its end.
    pub fn strict(self) -> ReadOptions
        ensures { result ≡ record { language = Language.Strict; borrows = self.borrows; depth = self.depth } }
    {
        ReadOptions {
            language: Language::Strict,
            ..self
        }
    }

    /// The value may borrow of the input.
    pub fn borrowed(self) -> ReadOptions
        ensures { result ≡ record { language = self.language; borrows = true; depth = self.depth } }
    {
        ReadOptions {
            borrows: true,
            ..self
        }
    }

    /// At most so many lists and objects may stand within one another.
    pub fn depth(self, most: usize) -> ReadOptions
        ensures { result ≡ record { language = self.language; borrows = self.borrows; depth = Some most } }
    {
        ReadOptions {
            depth: Some(most),
            ..self
        }
    }

    /// Checks that the input's value nests no deeper.
    fn check_depth<'t>(&self, input: &[u8]) -> Result<(), DeserializeError<'t>>
        ensures shallow { OnOk result ((span : SpecSpan) → IsTooDeep self.now input.now span → ⊥) }
        ensures deeper { (span : SpecSpan) → IsTooDeep self.now input.now span
            → MatchResult result (λ _. ⊥) (λ e. refusal_of e ≡ too_deep_at span) }
        ensures only { OnErr result ((span : SpecSpan) × IsTooDeep self.now input.now span) }
        ensures within { IfErr result (λ e. RefusalWithin input.now (refusal_of e)) }
    {
        let Some(limit) = self.depth else {
            return Ok(());
        };
        match first_beyond(input, self.language.mode(), limit) {
            None => Ok(()),
            Some(bracket) => Err(DeserializeError {
                kind: DeserializeErrorKind::InvalidValue {
                    message: "nested too deeply",
                },
                span: Some(bracket),
            }),
        }
    }
}

impl Default for ReadOptions {
    /// What `from_slice` allows: no comments, nothing borrowed, any depth.
    fn default() -> ReadOptions
        ensures { result ≡ record { language = Language.Plain; borrows = false; depth = None } }
    {
        ReadOptions::new()
    }
}

/// Reads a value as the options say.
///
/// Where a depth is set, the input's tokens are passed once before anything is read, so that no type recurses deeper; a bracket in what the
/// type would skip counts too.
///
/// ```text
/// let options = ReadOptions::new().strict().depth(1);
/// from_slice_with_options::<Vec<u8>>(alloc, b"[1]", options)          Ok: [1]
/// from_slice_with_options::<Vec<u8>>(alloc, b"[1,]", options)         Err: UnexpectedToken, span 3+1
/// from_slice_with_options::<Vec<Vec<u8>>>(alloc, b"[[1]]", options)   Err: InvalidValue { message: "nested too deeply" }, span 1+1
/// ```
///
/// # Errors
///
/// At the first opening bracket with `depth` others around it in the input's value: kind 5, its span the bracket's, whatever stands
/// after it. Else as `from_slice`, or as `from_slice_strict`.
pub fn from_slice_with_options<'t, 'de, T: Facet<'de>>(
    alloc: Global,
    input: &'de [u8],
    options: ReadOptions,
) -> Result<T, DeserializeError<'t>>
    ensures shallow { OnOk result ((span : SpecSpan) → IsTooDeep options input.now span → ⊥) }
    ensures deeper { (span : SpecSpan) → IsTooDeep options input.now span
        → MatchResult result (λ _. ⊥) (λ e. refusal_of e ≡ too_deep_at span) }
    ensures value { ((span : SpecSpan) → IsTooDeep options input.now span → ⊥)
        → ReadIn (language_of options.language) options.borrows T.shape.reading_borrowed T.shape.reading T.whole T.view input.now
        result }
    ensures owned { options.borrows ≡ false → IfOk result T.owned }
    ensures within { IfErr result (λ e. RefusalWithin input.now (refusal_of e)) }
{
    read_allowed(alloc, input, options, Trust::Nothing)
}

/// Reads a value as `from_slice_with_options`, from a text, which is known to be UTF-8.
///
/// ```text
/// from_str_with_options::<&str>(alloc, "\"ab\"", ReadOptions::new().strict().borrowed())    Ok: ab
/// ```
///
/// # Errors
///
/// As `from_slice_with_options`.
pub fn from_str_with_options<'t, 'de, T: Facet<'de>>(
    alloc: Global,
    input: &'de str,
    options: ReadOptions,
) -> Result<T, DeserializeError<'t>>
    ensures shallow { OnOk result ((span : SpecSpan) → IsTooDeep options input.now span → ⊥) }
    ensures deeper { (span : SpecSpan) → IsTooDeep options input.now span
        → MatchResult result (λ _. ⊥) (λ e. refusal_of e ≡ too_deep_at span) }
    ensures value { ((span : SpecSpan) → IsTooDeep options input.now span → ⊥)
        → ReadIn (language_of options.language) options.borrows T.shape.reading_borrowed T.shape.reading T.whole T.view input.now
        result }
    ensures owned { options.borrows ≡ false → IfOk result T.owned }
    ensures within { IfErr result (λ e. RefusalWithin input.now (refusal_of e)) }
{
    read_allowed(alloc, input.as_bytes(), options, Trust::Utf8)
}

/// Reads a value as the options say, of an input that is trusted to be UTF-8 or not.
#[inline(always)]
fn read_allowed<'t, 'de, T: Facet<'de>>(
    alloc: Global,
    input: &'de [u8],
    options: ReadOptions,
    trust: Trust,
) -> Result<T, DeserializeError<'t>>
    requires utf8 { trust ≡ Trust.Utf8 → IsUtf8 input.now }
    ensures shallow { OnOk result ((span : SpecSpan) → IsTooDeep options input.now span → ⊥) }
    ensures deeper { (span : SpecSpan) → IsTooDeep options input.now span
        → MatchResult result (λ _. ⊥) (λ e. refusal_of e ≡ too_deep_at span) }
    ensures value { ((span : SpecSpan) → IsTooDeep options input.now span → ⊥)
        → ReadIn (language_of options.language) options.borrows T.shape.reading_borrowed T.shape.reading T.whole T.view input.now
        result }
    ensures owned { options.borrows ≡ false → IfOk result T.owned }
    ensures within { IfErr result (λ e. RefusalWithin input.now (refusal_of e)) }
{
    options.check_depth(input)?;
    let mut parser = JsonParser::in_language(alloc, input, options.language, trust);
    match options.language {
        Language::Plain | Language::Jsonc => first_value(alloc, &mut parser, options.borrows),
        Language::Strict => whole_value(alloc, &mut parser, options.borrows),
    }
}
