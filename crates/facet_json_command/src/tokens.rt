//! What `tokens` prints: all tokens of what a reader has, read and scanned in pieces.

ghost use Rattle.std.specs.Prelude.{◌≡◌, ℕ, true, false, List, length, None, IfOk, IfErr, IfSome, IfNone, MatchResult};
ghost use Rattle.std.specs.List.{flat_map};
ghost use Rattle.facet_format.specs.Views.{hint_of};
ghost use Rattle.facet_json_token.specs.Gap.{Mode as SpecMode};
ghost use Rattle.facet_json_token.specs.Views.{mode_of};
ghost use Rattle.facet_json_scan.specs.Listed.{mode_with, AreTokensOf, ScanRefusalWithin};
ghost use Rattle.facet_json_command.specs.declared.run.Outcome.TheVariants as outcome;
ghost use Rattle.facet_json_command.specs.TokenLines.{hint_name};
ghost use Rattle.facet_json_command.specs.TokenViews.{text_of_token, code_of_kind};
ghost use Rattle.facet_json_command.specs.Run.{OutcomeWithin, Prints, ListsTokens};
ghost use Rattle.facet_json_command.specs.Session.{Marks, outcome_of};
ghost use Rattle.facet_json_command.specs.Outcome.{IsFaultOfRun, IsToldAs};

use crate::input::Input;
use crate::lines::{write_place, write_value};
use crate::run::{OUT_OF_MEMORY, Outcome, Session};
use facet_format::Span;
use facet_format::numeral::NumberHint;
use facet_json_scan::{ScanReadError, Scanned, scan_reader};
use facet_json_token::{Mode, ScanErrorKind, SpannedToken, Token};
use std::io::{Read, Write};

/// How many bytes are read at a time.
const STEP: usize = 4096;

/// All tokens of what the input has.
///
/// A lack of memory is told as such, also one that a failed read tells of; each other read that failed is `Outcome::Io`.
pub fn scan_all<R: Read>(
    session: &mut Session,
    mode: Mode,
    input: &mut Input<'_, R>,
) -> Result<Scanned, Outcome>
    ensures scanned { IfOk result (λ s. IfSome (R.remaining input.old.source.reader.now) (λ bytes. AreTokensOf bytes (mode_of mode) s)) }
    ensures so_far { IfOk result (λ s. AreTokensOf s.buf.items (mode_of mode) s) }
    ensures whole { IfOk result (λ s. IfNone s.refusal (IfSome (R.remaining input.old.source.reader.now) (λ bytes. s.buf.items ≡ bytes))) }
    ensures within { IfOk result
        (λ s. IfSome (R.remaining input.old.source.reader.now) (λ bytes. ScanRefusalWithin (length bytes) s.refusal)) }
    ensures memory { input.new.source.failed ≡ false → IfErr result (λ o. o ≡ outcome.Refused 9 None) }
    ensures unread { input.old.source.failed ≡ false → input.new.source.failed ≡ true
        → MatchResult result (λ _. ⊥) (IsToldAs input.new.kind) }
    ensures fault { IfErr result IsFaultOfRun }
    ensures marks { Marks session.old.failed session.new.failed (outcome_of result) }
{
    match scan_reader(session.alloc, input, STEP, has_comments(mode)) {
        Ok(scanned) => Ok(scanned),
        Err(ScanReadError::Io) => Err(session.unread(input.kind)),
        Err(ScanReadError::Memory) => Err(OUT_OF_MEMORY),
    }
}

/// Whether the input may have comments.
fn has_comments(mode: Mode) -> bool
    ensures { mode_with result ≡ mode_of mode }
{
    match mode {
        Mode::Plain => false,
        Mode::Jsonc => true,
    }
}

/// Writes the line of each token, and then that of the end; a refusal in its place ends the run.
pub fn write_scanned<W: Write>(
    session: &mut Session,
    scanned: &Scanned,
    writer: &mut W,
) -> Result<(), Outcome>
    ensures listed { (mode : SpecMode) (input : List ℕ) → AreTokensOf input mode scanned.now
        → IfNone scanned.now.refusal (scanned.now.buf.items ≡ input)
        → ListsTokens mode input (W.contents writer.old) (W.contents writer.new) (outcome_of result) }
    ensures marks { Marks session.old.failed session.new.failed (outcome_of result) }
    ensures within { (len : ℕ) → ScanRefusalWithin len scanned.now.refusal → OutcomeWithin len (outcome_of result) }
{
    match write_tokens(session, scanned.tokens.as_slice(), writer) {
        Ok(()) => match &scanned.refusal {
            Some(refusal) => Err(Outcome::Refused(code(&refusal.kind), Some(refusal.span))),
            None => write_place(session, writer, "Eof", Span::new(scanned.buf.len(), 0)),
        },
        Err(outcome) => Err(outcome),
    }
}

/// The number of a refusal.
fn code(kind: &ScanErrorKind) -> u8
    ensures { result ≡ code_of_kind kind.now }
{
    match kind {
        ScanErrorKind::UnexpectedChar(_) => 1,
        ScanErrorKind::UnexpectedEof(_) => 2,
        ScanErrorKind::InvalidUtf8 => 4,
    }
}

/// Writes the line of each token.
fn write_tokens<W: Write>(
    session: &mut Session,
    tokens: &[SpannedToken],
    writer: &mut W,
) -> Result<(), Outcome>
    ensures printed { Prints (W.contents writer.old) (W.contents writer.new) (flat_map text_of_token tokens.now) result }
    ensures marks { Marks session.old.failed session.new.failed (outcome_of result) }
{
    for token in tokens {
        write_token(session, token, writer)?;
    }
    Ok(())
}

/// Writes the line of a token.
fn write_token<W: Write>(
    session: &mut Session,
    token: &SpannedToken,
    writer: &mut W,
) -> Result<(), Outcome>
    ensures printed { Prints (W.contents writer.old) (W.contents writer.new) (text_of_token token.now) result }
    ensures marks { Marks session.old.failed session.new.failed (outcome_of result) }
{
    let span = token.span;
    match token.token {
        Token::ObjectStart => write_place(session, writer, "ObjectStart", span),
        Token::ObjectEnd => write_place(session, writer, "ObjectEnd", span),
        Token::ArrayStart => write_place(session, writer, "ArrayStart", span),
        Token::ArrayEnd => write_place(session, writer, "ArrayEnd", span),
        Token::Colon => write_place(session, writer, "Colon", span),
        Token::Comma => write_place(session, writer, "Comma", span),
        Token::Null => write_place(session, writer, "Null", span),
        Token::True => write_place(session, writer, "True", span),
        Token::False => write_place(session, writer, "False", span),
        Token::String { .. } => write_place(session, writer, "String", span),
        Token::Number { hint, .. } => write_value(session, writer, "Number", span, name_of(hint)),
        Token::Eof | Token::NeedMore { .. } => Ok(()),
    }
}

/// What stands in a number.
fn name_of(hint: NumberHint) -> &'static str
    ensures { result.now ≡ hint_name (hint_of hint) }
{
    match hint {
        NumberHint::Unsigned => "Unsigned",
        NumberHint::Signed => "Signed",
        NumberHint::Float => "Float",
    }
}
