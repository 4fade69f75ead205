//! What the program does, over any reader and writer, and how a run ends: its outcome, the line on standard error and the status.

ghost use Rattle.std.specs.Prelude.{◌≡◌, ◌≢◌, ◌⊎◌, ℕ, Bool, [], List, Option, None, Some, map, length, IfOk, IfErr, IfSome, OnOk, Ok};
ghost use Rattle.std.specs.Prelude.{false, MatchResult};
ghost use Rattle.std.specs.List.{flat_map};
ghost use Rattle.std.specs.Vec.Iter.{into_iter_items};
ghost use Rattle.std.specs.Io.KnownBytes.{Appends, Keeps};
ghost use Rattle.facet_format.specs.declared.event.Span.{Span as TheSpan};
ghost use Rattle.facet_format.specs.Cursor.{Call as SpecCall};
ghost use Rattle.facet_json_token.specs.Gap.{Mode as SpecMode, plain};
ghost use Rattle.facet_json_token.specs.Views.{mode_of};
ghost use Rattle.facet_json_grammar.specs.Language.{Language as SpecLanguage, lenient, strict};
ghost use Rattle.facet_json_grammar.specs.Node.{Node};
ghost use Rattle.facet_json_grammar.specs.StrictDocument.{IsStrict};
ghost use Rattle.facet_json_grammar.specs.Tree.{Tree as SpecTree};
ghost use Rattle.facet_json_reader.specs.declared.place.Language.{Language as TheLanguage};
ghost use Rattle.facet_json_grammar.specs.Now.{Now, fresh, fresh_in};
ghost use Rattle.facet_json_grammar.specs.Move.{MovesAll};
ghost use Rattle.facet_json_reader.specs.PlaceViews.{language_of};
ghost use Rattle.facet_json_core.specs.ScriptViews.{call_of, answer_of};
ghost use Rattle.facet_json_serializer.specs.Serializer.{Writing as SpecWriting};
ghost use Rattle.facet_json_serializer.specs.TreeCalls.{with_tree};
ghost use Rattle.facet_json_core.specs.TranscodeViews.{IsTranscodeRefused, TranscodeLacksMemory, ErrorWithin as RefusesWithin};
ghost use Rattle.facet_json_command.specs.Arguments.{Command as SpecCommand, AskFor, AskForNothing, fmt, drive as drives};
ghost use Rattle.facet_json_command.specs.OutcomeViews.{words_of, command_view};
ghost use Rattle.facet_json_command.specs.Lines.{answer_lines};
ghost use Rattle.facet_json_command.specs.Run.{IsDocumentIn, HasDocumentIn, layout, IsReformatted, IsRefusal, OutcomeWithin, Formats};
ghost use Rattle.facet_json_command.specs.Run.{OnlyGrows, Prints, Lists, ListsTokens, Drives, AnswersInput, ForFmt, ForDrive};
ghost use Rattle.facet_json_command.specs.Outcome.{IsFailure, IsFaultOfRun, IsToldAs};
ghost use Rattle.facet_json_command.specs.Session.{Marks, outcome_of};
ghost use Rattle.std.specs.IoError.{error_kind};
ghost use Rattle.facet_json_command.specs.Report.{line_of, status_of};
ghost use Rattle.facet_json_command.specs.declared.run.Outcome.TheVariants as outcome;

use crate::arguments::{Command, command_of};
use crate::input::Input;
use crate::lines::{write_answer, write_event};
use crate::tokens::{scan_all, write_scanned};
use facet_format::{FormatParser, Span};
use facet_json_core::{Answer, Call, TranscodeError, drive, pass_end, transcode};
use facet_json_parser::JsonParser;
use facet_json_reader::Language;
use facet_json_serializer::{JsonSerializer, SerializeOptions};
use facet_json_token::{Mode, Trust};
use std::alloc::{AllocError, Global};
use std::io;
use std::io::{ErrorKind, Read, Write};
use std::vec::IntoIter;

/// Does what the arguments after the program's name ask for. It writes in small pieces.
pub fn run<R: Read, W: Write>(
    alloc: Global,
    args: &[String],
    reader: &mut R,
    writer: &mut W,
) -> Outcome
    ensures usage { result ≡ outcome.Usage → AskForNothing (words_of args.now) }
    ensures told { AskForNothing (words_of args.now) → (result ≡ outcome.Usage) ⊎ (result ≡ outcome.Refused 9 None) }
    ensures untouched { AskForNothing (words_of args.now) → (reader.new ≡ reader.old) × (writer.new ≡ writer.old) }
    ensures answer { (command : SpecCommand) → AskFor command (words_of args.now) → IfSome (R.remaining reader.old) (λ input.
        AnswersInput command input (W.contents writer.old) (W.contents writer.new) result) }
    ensures refused { (language : SpecLanguage) (pretty : Bool) (code : ℕ) (span : Option TheSpan)
        → AskFor (fmt language pretty) (words_of args.now)
        → result ≡ outcome.Refused code span → writer.new ≡ writer.old }
    ensures only { (language : SpecLanguage) (pretty : Bool) → AskFor (fmt language pretty) (words_of args.now)
        → IfSome (R.remaining reader.old) (λ input. HasDocumentIn language input → (result ≡ outcome.Done) ⊎ IsFailure result) }
    ensures driven { (language : SpecLanguage) (calls : List SpecCall) → AskFor (drives language calls) (words_of args.now)
        → (result ≡ outcome.Done) ⊎ IsFaultOfRun result }
    ensures within { IfSome (R.remaining reader.old) (λ input. OutcomeWithin (length input) result) }
    ensures grows { result ≢ outcome.Io → OnlyGrows (W.contents writer.old) (W.contents writer.new) }
{
    let mut session = Session::new(alloc);
    match command_of(alloc, args) {
        Ok(command) => obey(&mut session, command, reader, writer),
        Err(unasked) => unasked,
    }
}

/// Does what it is asked to do.
fn obey<R: Read, W: Write>(
    session: &mut Session,
    command: Command,
    reader: &mut R,
    writer: &mut W,
) -> Outcome
    ensures ends { result ≢ outcome.Usage }
    ensures answer { IfSome (R.remaining reader.old) (λ input.
        AnswersInput (command_view command) input (W.contents writer.old) (W.contents writer.new) result) }
    ensures refused { ForFmt (command_view command) (λ language. (code : ℕ) (span : Option TheSpan)
        → result ≡ outcome.Refused code span → writer.new ≡ writer.old) }
    ensures only { ForFmt (command_view command) (λ language. IfSome (R.remaining reader.old) (λ input.
        HasDocumentIn language input → (result ≡ outcome.Done) ⊎ IsFailure result)) }
    ensures driven { ForDrive (command_view command) ((result ≡ outcome.Done) ⊎ IsFaultOfRun result) }
    ensures grows { result ≢ outcome.Io → OnlyGrows (W.contents writer.old) (W.contents writer.new) }
    ensures within { IfSome (R.remaining reader.old) (λ input. OutcomeWithin (length input) result) }
    ensures marks { Marks session.old.failed session.new.failed result }
{
    match command {
        Command::Fmt { language, pretty } => format(session, language, pretty, reader, writer),
        Command::Events { language } => print_events(session, language, reader, writer),
        Command::Tokens { mode } => print_tokens(session, mode, reader, writer),
        Command::Drive { language, calls } => {
            print_answers(session, language, calls.as_slice(), reader, writer)
        }
    }
}

/// Reads all there is, and writes the document in it anew and nothing else.
fn format<R: Read, W: Write>(
    session: &mut Session,
    language: Language,
    pretty: bool,
    reader: &mut R,
    writer: &mut W,
) -> Outcome
    ensures ends { result ≢ outcome.Usage }
    ensures refused { (code : ℕ) (span : Option TheSpan) → result ≡ outcome.Refused code span
        → writer.new ≡ writer.old }
    ensures answer { IfSome (R.remaining reader.old) (λ input. IfSome (W.contents writer.old)
        (λ before. Formats (language_of language) pretty input before (W.contents writer.new) result)) }
    ensures only { IfSome (R.remaining reader.old) (λ input. HasDocumentIn (language_of language) input
        → (result ≡ outcome.Done) ⊎ IsFailure result) }
    ensures grows { result ≢ outcome.Io → OnlyGrows (W.contents writer.old) (W.contents writer.new) }
    ensures within { IfSome (R.remaining reader.old) (λ input. OutcomeWithin (length input) result) }
    ensures marks { Marks session.old.failed session.new.failed result }
{
    match formatted(session, language, pretty, reader) {
        Ok(text) => write_text(session, writer, text.as_slice()),
        Err(refusal) => refusal,
    }
}

/// The document in all that the reader has, written anew.
fn formatted<R: Read>(
    session: &mut Session,
    language: Language,
    pretty: bool,
    reader: &mut R,
) -> Result<Vec<u8>, Outcome>
    ensures ends { IfErr result (λ o. o ≢ outcome.Usage) }
    ensures text { IfSome (R.remaining reader.old) (λ input. IfOk result (λ v. IsReformatted (language_of language) pretty input v.items)) }
    ensures refused { IfSome (R.remaining reader.old)
        (λ input. IfErr result (λ o. (o ≡ outcome.Io) ⊎ IsRefusal (language_of language) input o)) }
    ensures only { IfSome (R.remaining reader.old) (λ input. HasDocumentIn (language_of language) input → IfErr result IsFailure) }
    ensures within { IfSome (R.remaining reader.old) (λ input. IfErr result (OutcomeWithin (length input))) }
    ensures marks { Marks session.old.failed session.new.failed (outcome_of result) }
{
    let input = read_all(session, reader)?;
    reformatted(session.alloc, language, pretty, input.as_slice())
}

/// All that the reader has.
fn read_all<R: Read>(session: &mut Session, reader: &mut R) -> Result<Vec<u8>, Outcome>
    ensures bytes { IfSome (R.remaining reader.old) (λ input. IfOk result (λ v. v.items ≡ input)) }
    ensures fault { IfErr result IsFaultOfRun }
    ensures marks { Marks session.old.failed session.new.failed (outcome_of result) }
{
    let mut input = Vec::new(session.alloc);
    match reader.read_to_end(&mut input) {
        Ok(_) => Ok(input),
        Err(error) => Err(session.unread(error.kind())),
    }
}

/// The document of the input, written anew: event by event, without a tree.
fn reformatted(
    alloc: Global,
    language: Language,
    pretty: bool,
    input: &[u8],
) -> Result<Vec<u8>, Outcome>
    ensures text { IfOk result (λ v. IsReformatted (language_of language) pretty input.now v.items) }
    ensures refused { IfErr result (λ o. IsRefusal (language_of language) input.now o) }
    ensures only { HasDocumentIn (language_of language) input.now → IfErr result IsFailure }
    ensures within { IfErr result (OutcomeWithin (length input.now)) }
{
    let mut parser = JsonParser::in_language(alloc, input, language, Trust::Nothing);
    let mut serializer = serializer_of(alloc, pretty);
    match pass_document(&mut parser, &mut serializer) {
        Ok(()) => text_of(serializer),
        Err(error) => Err(refused(error)),
    }
}

/// Passes the document of the input from the parser to the serializer, and its end.
fn pass_document<'t>(
    parser: &mut JsonParser<'_>,
    serializer: &mut JsonSerializer<'_>,
) -> Result<(), TranscodeError<'t>>
    ensures document { (input : List ℕ) (language : TheLanguage) (w : SpecWriting) → parser.old ≡ fresh_in input (language_of language)
        → serializer.old ≡ Some w → OnOk result ((root : Node) × (value : SpecTree)
        × IsDocumentIn (language_of language) input root value × (serializer.new ≡ Some (with_tree w value))) }
    ensures refused { (input : List ℕ) (mode : SpecMode) (w : SpecWriting) → parser.old ≡ fresh input mode → serializer.old ≡ Some w
        → IfErr result (λ e. IsTranscodeRefused input mode e) }
    ensures only { (input : List ℕ) (language : TheLanguage) (w : SpecWriting) → parser.old ≡ fresh_in input (language_of language)
        → serializer.old ≡ Some w → HasDocumentIn (language_of language) input → IfErr result (λ e. TranscodeLacksMemory e) }
    ensures within { IfErr result (λ e. RefusesWithin (length parser.old.buffer) e) }
{
    transcode(parser, serializer)?;
    match pass_end(parser) {
        Ok(()) => Ok(()),
        Err(error) => Err(TranscodeError::Read(error)),
    }
}

/// A serializer of a text so laid out, which has written nothing.
fn serializer_of<'i>(alloc: Global, pretty: bool) -> JsonSerializer<'i>
    ensures { result ≡ Some (record { options = layout pretty; stack = []; written = [] }) }
{
    let options = SerializeOptions::new();
    if pretty {
        JsonSerializer::with_options(alloc, options.pretty())
    } else {
        JsonSerializer::with_options(alloc, options)
    }
}

/// What the serializer has written.
fn text_of(serializer: JsonSerializer<'_>) -> Result<Vec<u8>, Outcome>
    ensures written { (w : SpecWriting) → serializer.entry ≡ Some w → IfOk result (λ v. v.items ≡ w.written) }
    ensures refused { IfErr result (λ o. o ≡ outcome.Refused 9 None) }
{
    match serializer.finish() {
        Ok(text) => Ok(text),
        Err(_) => Err(OUT_OF_MEMORY),
    }
}

/// How it ends the run that the document was not passed.
fn refused(error: TranscodeError<'_>) -> Outcome
    ensures refused { (mode : SpecMode) (input : List ℕ) → IsTranscodeRefused input mode error.entry
        → IsRefusal (lenient mode) input result }
    ensures strictly { (input : List ℕ) → (IsStrict input → TranscodeLacksMemory error.entry) → IsRefusal (strict plain) input result }
    ensures failed { TranscodeLacksMemory error.entry → IsFailure result }
    ensures within { (len : ℕ) → RefusesWithin len error.entry → OutcomeWithin len result }
{
    match error {
        TranscodeError::Read(error) => Outcome::Refused(error.kind.code(), error.span),
        TranscodeError::Write(_) => OUT_OF_MEMORY,
    }
}

/// Writes the text in one piece.
fn write_text<W: Write>(session: &mut Session, writer: &mut W, text: &[u8]) -> Outcome
    ensures ends { (result ≡ outcome.Done) ⊎ (result ≡ outcome.Io) }
    ensures written { result ≡ outcome.Done → Appends (W.contents writer.old) (W.contents writer.new) text.now }
    ensures marks { Marks session.old.failed session.new.failed result }
{
    let written = session.told(writer.write_all(text));
    finish(session, written, writer)
}

/// Reads all there is, and prints the events of the document in it.
fn print_events<R: Read, W: Write>(
    session: &mut Session,
    language: Language,
    reader: &mut R,
    writer: &mut W,
) -> Outcome
    ensures ends { result ≢ outcome.Usage }
    ensures listed { IfSome (R.remaining reader.old) (λ input.
        Lists (language_of language) input (W.contents writer.old) (W.contents writer.new) result) }
    ensures grows { result ≢ outcome.Io → OnlyGrows (W.contents writer.old) (W.contents writer.new) }
    ensures within { IfSome (R.remaining reader.old) (λ input. OutcomeWithin (length input) result) }
    ensures marks { Marks session.old.failed session.new.failed result }
{
    match read_all(session, reader) {
        Ok(input) => {
            let written = list_events(session, language, input.as_slice(), writer);
            finish(session, written, writer)
        }
        Err(outcome) => outcome,
    }
}

/// Writes a line for each event of the input.
fn list_events<W: Write>(
    session: &mut Session,
    language: Language,
    input: &[u8],
    writer: &mut W,
) -> Result<(), Outcome>
    ensures listed { Lists (language_of language) input.now (W.contents writer.old) (W.contents writer.new) (outcome_of result) }
    ensures within { IfErr result (OutcomeWithin (length input.now)) }
    ensures marks { Marks session.old.failed session.new.failed (outcome_of result) }
{
    let mut parser = JsonParser::in_language(session.alloc, input, language, Trust::Nothing);
    list_ahead(session, &mut parser, writer)
}

/// Writes a line for each event that the parser still has to give.
fn list_ahead<W: Write>(
    session: &mut Session,
    parser: &mut JsonParser<'_>,
    writer: &mut W,
) -> Result<(), Outcome>
    ensures listed { (language : SpecLanguage) (input : List ℕ) → parser.old ≡ fresh_in input language
        → Lists language input (W.contents writer.old) (W.contents writer.new) (outcome_of result) }
    ensures within { IfErr result (OutcomeWithin (length parser.old.buffer)) }
    ensures marks { Marks session.old.failed session.new.failed (outcome_of result) }
{
    loop {
        match parser.next_event() {
            Ok(Some(event)) => write_event(session, event, writer)?,
            Ok(None) => return Ok(()),
            Err(error) => return Err(Outcome::Refused(error.kind.code(), Some(error.span))),
        }
    }
}

/// Reads and scans all there is, and prints its tokens.
fn print_tokens<R: Read, W: Write>(
    session: &mut Session,
    mode: Mode,
    reader: &mut R,
    writer: &mut W,
) -> Outcome
    ensures ends { result ≢ outcome.Usage }
    ensures listed { IfSome (R.remaining reader.old) (λ input.
        ListsTokens (mode_of mode) input (W.contents writer.old) (W.contents writer.new) result) }
    ensures grows { result ≢ outcome.Io → OnlyGrows (W.contents writer.old) (W.contents writer.new) }
    ensures within { IfSome (R.remaining reader.old) (λ input. OutcomeWithin (length input) result) }
    ensures marks { Marks session.old.failed session.new.failed result }
{
    let mut input = Input::new(reader);
    match scan_all(session, mode, &mut input) {
        Ok(scanned) => {
            let written = write_scanned(session, &scanned, writer);
            finish(session, written, writer)
        }
        Err(outcome) => outcome,
    }
}

/// Reads all there is, makes the calls of a parser of it, and prints their answers.
fn print_answers<R: Read, W: Write>(
    session: &mut Session,
    language: Language,
    calls: &[Call],
    reader: &mut R,
    writer: &mut W,
) -> Outcome
    ensures ends { (result ≡ outcome.Done) ⊎ IsFaultOfRun result }
    ensures answers { IfSome (R.remaining reader.old) (λ input. IfSome (W.contents writer.old) (λ before.
        Drives (language_of language) (map call_of calls.now) input before (W.contents writer.new) result)) }
    ensures grows { result ≢ outcome.Io → OnlyGrows (W.contents writer.old) (W.contents writer.new) }
    ensures within { IfSome (R.remaining reader.old) (λ input. OutcomeWithin (length input) result) }
    ensures marks { Marks session.old.failed session.new.failed result }
{
    match read_all(session, reader) {
        Ok(input) => match answers_of(session.alloc, language, input.as_slice(), calls) {
            Ok(answers) => {
                let written = write_answers(session, answers, writer);
                finish(session, written, writer)
            },
            Err(_) => OUT_OF_MEMORY,
        },
        Err(outcome) => outcome,
    }
}

/// What a parser of the input answers to the calls.
fn answers_of<'de>(
    alloc: Global,
    language: Language,
    input: &'de [u8],
    calls: &[Call],
) -> Result<Vec<Answer<'de>>, AllocError>
    ensures { IfOk result (λ answers. (parser : Now)
        × MovesAll (fresh_in input.now (language_of language)) (map call_of calls.now) (map answer_of answers.items) parser) }
{
    let mut parser = JsonParser::in_language(alloc, input, language, Trust::Nothing);
    drive(alloc, &mut parser, calls)
}

/// Writes the lines of the answers, in order.
fn write_answers<W: Write>(
    session: &mut Session,
    answers: Vec<Answer<'_>>,
    writer: &mut W,
) -> Result<(), Outcome>
    ensures printed { Prints (W.contents writer.old) (W.contents writer.new)
        (flat_map answer_lines (map answer_of answers.entry.items)) result }
    ensures marks { Marks session.old.failed session.new.failed (outcome_of result) }
{
    write_ahead(session, &mut answers.into_iter(), writer)
}

/// Writes the lines of the answers that are left, in order.
fn write_ahead<W: Write>(
    session: &mut Session,
    answers: &mut IntoIter<Answer<'_>>,
    writer: &mut W,
) -> Result<(), Outcome>
    ensures printed { Prints (W.contents writer.old) (W.contents writer.new)
        (flat_map answer_lines (map answer_of (into_iter_items answers.old))) result }
    ensures marks { Marks session.old.failed session.new.failed (outcome_of result) }
{
    while let Some(answer) = answers.next() {
        write_answer(session, answer, writer)?;
    }
    Ok(())
}

/// Sends what is written on its way, where no write failed: also the lines before a refusal.
fn finish<W: Write>(session: &mut Session, written: Result<(), Outcome>, writer: &mut W) -> Outcome
    ensures ends { (result ≡ outcome.Io) ⊎ ((result ≡ outcome_of written) × Keeps (W.contents writer.old) (W.contents writer.new)) }
    ensures marks { (before : Bool) → Marks before session.old.failed (outcome_of written) → Marks before session.new.failed result }
{
    match written {
        Err(Outcome::Io) => Outcome::Io,
        Ok(()) => flushed(session, writer, Outcome::Done),
        Err(outcome) => flushed(session, writer, outcome),
    }
}

/// The outcome, once what is written is on its way.
fn flushed<W: Write>(session: &mut Session, writer: &mut W, ended: Outcome) -> Outcome
    ensures ends { (result ≡ outcome.Io) ⊎ ((result ≡ ended) × Keeps (W.contents writer.old) (W.contents writer.new)) }
    ensures marks { (before : Bool) → Marks before session.old.failed ended → Marks before session.new.failed result }
{
    match session.told(writer.flush()) {
        Ok(()) => ended,
        Err(failed) => failed,
    }
}

/// How a run of the program ended.
#[derive(Debug, Clone, Copy, PartialEq, Eq)]
pub enum Outcome {
    /// All of the answer is written.
    Done,
    /// The input was refused, or an allocation failed: the code of the refusal, and the bytes of the input that it is about,
    /// where they are known.
    Refused(u8, Option<Span>),
    /// A read or a write failed.
    Io,
    /// The program has no command for these arguments.
    Usage,
}

/// An allocation failed, which has no place in the input.
pub const OUT_OF_MEMORY: Outcome = Outcome::Refused(9, None);

/// How a call of the system that failed is answered. An allocation that failed in the midst of it is out of memory.
pub fn failure(error: &io::Error) -> Outcome
    ensures told { IsToldAs (error_kind error.now) result }
    ensures fault { IsFaultOfRun result }
{
    failure_of(error.kind())
}

/// How a call of the system that failed with an error of this kind is answered.
pub fn failure_of(kind: ErrorKind) -> Outcome
    ensures told { IsToldAs kind result }
    ensures fault { IsFaultOfRun result }
{
    if kind == ErrorKind::OutOfMemory {
        OUT_OF_MEMORY
    } else {
        Outcome::Io
    }
}

/// How it is answered that the arguments can't be had. One that is not text is wrong usage, and out of memory is none.
pub fn without_arguments(error: &io::Error) -> Outcome
    ensures usage { error_kind error.now ≡ ErrorKind.InvalidData → result ≡ outcome.Usage }
    ensures memory { error_kind error.now ≡ ErrorKind.OutOfMemory → result ≡ outcome.Refused 9 None }
    ensures ends { (result ≡ outcome.Usage) ⊎ IsFaultOfRun result }
{
    match error.kind() {
        ErrorKind::InvalidData => Outcome::Usage,
        _ => failure(error),
    }
}

/// The line for wrong arguments.
const USAGE: &str =
    "usage: facet_json_tool fmt [--pretty] [--jsonc | --strict] | events [--jsonc | --strict] \
    | tokens [--jsonc] | drive [--jsonc | --strict] SCRIPT";

/// Writes the line for the standard error, if there is one. This does not allocate.
pub fn write_line<W: Write>(outcome: Outcome, errors: &mut W) -> io::Result<()>
    ensures { OnOk result (Appends (W.contents errors.old) (W.contents errors.new) (line_of outcome)) }
{
    match outcome {
        Outcome::Done => Ok(()),
        Outcome::Refused(code, None) => writeln!(errors, "error: {code}"),
        Outcome::Refused(code, Some(span)) => {
            let offset = span.offset;
            let len = span.len;
            writeln!(errors, "error: {code} at {offset}+{len}")
        }
        Outcome::Io => writeln!(errors, "error: io"),
        Outcome::Usage => writeln!(errors, "{USAGE}"),
    }
}

/// The exit status.
pub fn status(outcome: Outcome) -> u8
    ensures { result ≡ status_of outcome }
{
    match outcome {
        Outcome::Done => 0,
        Outcome::Refused(_, _) | Outcome::Io => 1,
        Outcome::Usage => 2,
    }
}

/// One run: where its memory comes from, and whether a read or a write has failed in it. A contract holds `Outcome::Io` to this
/// mark: a function that ends with it has seen a call of the reader or the writer fail, and wants no memory.
#[derive(Drop)]
pub struct Session {
    /// Where memory comes from.
    pub alloc: Global,
    /// Whether a read or a write has failed.
    pub failed: bool,
}

impl Session {
    /// A run in which nothing has failed.
    pub fn new(alloc: Global) -> Session
        ensures { result.failed ≡ false }
    {
        Session {
            alloc,
            failed: false,
        }
    }

    /// How a write went. One that failed is never told as out of memory, whatever its error says: what the writer took of it
    /// is not known.
    pub fn told(&mut self, write: io::Result<()>) -> Result<(), Outcome>
        ensures told { MatchResult result (λ u. write ≡ Ok u) (λ o. o ≡ outcome.Io) }
        ensures marks { Marks self.old.failed self.new.failed (outcome_of result) }
    {
        match write {
            Ok(()) => Ok(()),
            Err(_) => {
                self.failed = true;
                Err(Outcome::Io)
            }
        }
    }

    /// How it ends the run that a read failed with an error of this kind.
    pub fn unread(&mut self, kind: ErrorKind) -> Outcome
        ensures told { IsToldAs kind result }
        ensures fault { IsFaultOfRun result }
        ensures marks { Marks self.old.failed self.new.failed result }
    {
        match failure_of(kind) {
            Outcome::Io => {
                self.failed = true;
                Outcome::Io
            }
            memory => memory,
        }
    }
}
