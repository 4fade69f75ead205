//! How a source is shown on a terminal: so that nothing in it garbles the terminal, and that the columns which it takes are known.

ghost use Rattle.std.specs.Prelude.{◌≡◌, ◌≢◌, ◌≤◌, true, OnOk, IfOk, string_bytes};
ghost use Rattle.facet_json_lint.specs.Columns.{columns as width};
ghost use Rattle.facet_json_lint.specs.Shown.{IsHarmless};

use std::alloc::{AllocError, Global};
use unicode_width::UnicodeWidthStr;

/// What stands for what can't be shown.
const REPLACEMENT: char = '\u{FFFD}';

/// What stands for a tab, which is as wide as the terminal likes.
const TAB: &str = "    ";

/// Whether a terminal shows the character where it stands. It acts on control characters, and sets text after those that turn its direction
/// (Unicode Standard Annex 9) elsewhere.
fn is_shown(character: char) -> bool
    ensures { result ≡ true → (0x20 ≤ character) × (character ≢ 0x7F) }
{
    match character {
        '\0'..='\x1F' | '\x7F'..='\u{9F}' => false,
        '\u{2028}'..='\u{202E}' | '\u{2066}'..='\u{2069}' => false,
        _ => true,
    }
}

/// Appends the character as it is shown.
fn push_shown(shown: &mut String, character: char) -> Result<(), AllocError>
    ensures { IsHarmless (string_bytes shown.old) → OnOk result (IsHarmless (string_bytes shown.new)) }
{
    match character {
        '\t' => shown.push_str(TAB),
        _ if is_shown(character) => shown.push(character),
        _ => shown.push(REPLACEMENT),
    }
}

/// Appends the text as it is shown.
fn push_text(shown: &mut String, text: &str) -> Result<(), AllocError>
    ensures { IsHarmless (string_bytes shown.old) → OnOk result (IsHarmless (string_bytes shown.new)) }
{
    for character in text.chars() {
        push_shown(shown, character)?;
    }
    Ok(())
}

/// The bytes as they are shown: a tab as four spaces, and what is no text, or is text that a terminal acts on, as a replacement character.
///
/// ```text
/// shown(alloc, b"\t\"a\x1b\xff\"")?     "    \"a\u{FFFD}\u{FFFD}\""
/// ```
pub fn shown(alloc: Global, bytes: &[u8]) -> Result<String, AllocError>
    ensures { IfOk result (λ text. IsHarmless (string_bytes text)) }
{
    let mut text = String::new(alloc);
    for chunk in bytes.utf8_chunks() {
        push_text(&mut text, chunk.valid())?;
        if !chunk.invalid().is_empty() {
            push_shown(&mut text, REPLACEMENT)?;
        }
    }
    Ok(text)
}

/// How many columns the text takes on a terminal (Unicode Standard Annex 11): of most characters one, of wide ones and emoji two, and of
/// those that stand on the one before none.
pub fn columns(text: &str) -> usize
    ensures { result ≡ width text.now }
{
    text.width()
}

/// An end of a text.
#[derive(Clone, Copy)]
pub enum Side {
    /// Where it begins.
    Front,
    /// Where it ends.
    Back,
}

/// The text without as many characters at this side that what is left takes so many columns at most.
pub fn cut_to(text: &str, most: usize, side: Side) -> &str
    ensures { width result.now ≤ most }
{
    let mut kept = text.chars();
    while columns(kept.as_str()) > most {
        let dropped = match side {
            Side::Front => kept.next(),
            Side::Back => kept.next_back(),
        };
        if dropped.is_none() {
            return "";
        }
    }
    kept.as_str()
}
