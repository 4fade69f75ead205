//! A text laid out anew: its tokens, but for trailing commas, and its comments.

ghost use Rattle.std.specs.Prelude.{◌≡◌, ◌⊎◌, true, OnOk, IfOk, IfErr};
ghost use Rattle.facet_format.specs.Views.{refusal_of};
ghost use Rattle.facet_json_token.specs.Gap.{plain};
ghost use Rattle.facet_json_token.specs.Views.{mode_of};
ghost use Rattle.facet_json_document.specs.Pieces.{pieces, without_trailing_commas};
ghost use Rattle.facet_json_document.specs.Formatted.{HasOneDocument, HaveOneTree, LacksOrGetsStuck, LacksOrRefusesOne};
ghost use Rattle.facet_json_grammar.specs.StrictDocument.{IsStrict};
ghost use Rattle.facet_json_grammar.specs.UnreadLaws.{RefusalWithin};
ghost use Rattle.facet_json_core.specs.Reading.{LacksMemory};
ghost use Rattle.facet_json_document.specs.Inner.Layout.{all_tokens};

use crate::checking::{check_strict, check_whole};
use crate::layout::Layout;
use crate::spacing::Indent;
use facet_format::DeserializeError;
use facet_json_token::Mode;
use std::alloc::Global;

/// How a text is laid out.
///
/// ```text
/// FormatOptions::new()                        two spaces for each container
/// FormatOptions { indent: Indent::Tab }       a tab
/// ```
#[derive(Debug, Clone, Copy, PartialEq, Eq)]
pub struct FormatOptions {
    /// How its lines are indented.
    pub indent: Indent,
}

impl FormatOptions {
    /// Two spaces for each container.
    pub fn new() -> FormatOptions
        ensures { result ≡ record { indent = Indent.Spaces 2 } }
    {
        FormatOptions {
            indent: Indent::Spaces(2),
        }
    }
}

impl Default for FormatOptions {
    /// Two spaces for each container.
    fn default() -> FormatOptions
        ensures { result ≡ record { indent = Indent.Spaces 2 } }
    {
        FormatOptions::new()
    }
}

/// Lays out a text anew that is one document, with nothing but a gap after it: each item and each member in a line of its own, and an empty
/// line where some stood. Its tokens stay as they are written, and so do its comments, each in its own line or at the end of one, as it
/// stood, without white space at a line's end. A comma that trails goes. The last line ends with a line feed.
///
/// ```text
/// format_text(alloc, b"{\"a\":1,// one\n\"b\":[2,],}", Mode::Jsonc, FormatOptions::new())
///
///     Ok: {
///       "a": 1, // one
///       "b": [
///         2
///       ]
///     }
/// ```
///
/// It does not recurse.
///
/// # Errors
///
/// As `check_whole`.
pub fn format_text<'t>(
    alloc: Global,
    text: &[u8],
    mode: Mode,
    options: FormatOptions,
) -> Result<Vec<u8>, DeserializeError<'t>>
    ensures pieces { IfOk result (λ v. pieces (mode_of mode) v.items ≡ without_trailing_commas (pieces (mode_of mode) text.now)) }
    ensures tree { IfOk result (λ v. HaveOneTree text.now v.items (mode_of mode)) }
    ensures document { OnOk result (HasOneDocument text.now (mode_of mode)) }
    ensures only { HasOneDocument text.now (mode_of mode) → IfErr result (λ e. LacksMemory (refusal_of e)) }
    ensures refused { IfErr result (λ e. LacksOrRefusesOne text.now (mode_of mode) (refusal_of e)) }
    ensures within { IfErr result (λ e. RefusalWithin text.now (refusal_of e)) }
{
    check_whole(alloc, text, mode)?;
    lay_out(alloc, text, mode, options)
}

/// Lays out a text of RFC 8259 alone, as `format_text` does.
///
/// # Errors
///
/// As `check_strict`.
pub fn format_text_strict<'t>(
    alloc: Global,
    text: &[u8],
    options: FormatOptions,
) -> Result<Vec<u8>, DeserializeError<'t>>
    ensures pieces { IfOk result (λ v. pieces plain v.items ≡ without_trailing_commas (pieces plain text.now)) }
    ensures tree { IfOk result (λ v. HaveOneTree text.now v.items plain) }
    ensures document { OnOk result (IsStrict text.now) }
    ensures only { IsStrict text.now → IfErr result (λ e. LacksMemory (refusal_of e)) }
    ensures refused { IfErr result (λ e. LacksOrGetsStuck text.now (refusal_of e)) }
    ensures within { IfErr result (λ e. RefusalWithin text.now (refusal_of e)) }
{
    check_strict(alloc, text)?;
    lay_out(alloc, text, Mode::Plain, options)
}

/// The text laid out, each of whose tokens is one.
fn lay_out<'t>(
    alloc: Global,
    text: &[u8],
    mode: Mode,
    options: FormatOptions,
) -> Result<Vec<u8>, DeserializeError<'t>>
    requires { all_tokens (pieces (mode_of mode) text.now) ≡ true }
    ensures pieces { IfOk result (λ v. pieces (mode_of mode) v.items ≡ without_trailing_commas (pieces (mode_of mode) text.now)) }
    ensures tree { IfOk result (λ v. HaveOneTree text.now v.items (mode_of mode)) }
    ensures refused { IfErr result (λ e. LacksMemory (refusal_of e)) }
    ensures within { IfErr result (λ e. RefusalWithin text.now (refusal_of e)) }
{
    let layout = Layout {
        text,
        mode,
        indent: options.indent,
    };
    match layout.lay_out(alloc) {
        Ok(laid_out) => Ok(laid_out),
        Err(error) => Err(DeserializeError::from(error)),
    }
}
