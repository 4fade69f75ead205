//! Rows, and the commands in them.

ghost use Rattle.std.specs.Prelude.{◌≤◌, IfSome};

use crate::blocks::answer_blocks;
use crate::checked::answer_check;
use crate::compared::{Way, compare};
use crate::counted::answer_count;
use crate::cuts::answer_cuts;
use crate::decoded::{answer_decode, answer_decoders, answer_repeated};
use crate::derived::answer_derived;
use crate::long::answer_long;
use crate::marked::answer_marked;
use crate::numbers::answer_number;
use crate::pieces::answer_short_texts;
use crate::printf::is_printed;
use crate::program::{answer_ended, answer_failed, answer_program};
use crate::scans::answer_pieces;
use crate::tokens::{answer_scanner, answer_tokens};
use crate::unread::Unread;
use facet_json::Language;
use facet_json_command::script::parse_script;
use facet_json_row_values::changed::answer_change;
use facet_json_row_values::contents::answer_content;
use facet_json_row_values::documents::answer_document;
use facet_json_row_values::forgotten::answer_forget;
use facet_json_row_values::found::answer_find;
use facet_json_row_values::readings::answer_read_tree;
use facet_json_row_values::told::Told;
use facet_json_row_values::trees::{answer_equal, answer_write};
use facet_json_row_values::types::{answer_own, answer_read};
use facet_json_row_values::words::{first_word, languages};
use std::alloc::Global;
use std::io::ErrorKind;

/// Tells what the row's command prints of the text between the quotes: `printf 'TEXT' | COMMAND`.
pub fn answer(alloc: Global, row: &str, told: &mut Told) {
    let mut input = Vec::new(alloc);
    match parts(row) {
        Some((text, command)) if is_printed(text, &mut input) => {
            let input = input.as_slice();
            match command.strip_prefix("repeat ") {
                Some(words) => answer_long(alloc, words, text_of(input), told),
                None => answer_command(alloc, command, input, told),
            }
        }
        Some(_) => told.line("NO TEXT"),
        None => told.line("NO ROW"),
    }
}

/// The text that the row prints, and the command that reads it. A text that begins with `-` stands behind `--`, as a shell's `printf` takes
/// it for an option else.
fn parts(row: &str) -> Option<(&str, &str)> {
    let (begun, is_marked) = match row.strip_prefix("printf -- '") {
        Some(begun) => (begun, true),
        None => (row.strip_prefix("printf '")?, false),
    };
    if begun.starts_with('-') == is_marked {
        begun.split_once("' | ")
    } else {
        None
    }
}

/// Tells what the command prints.
fn answer_command(alloc: Global, command: &str, input: &[u8], told: &mut Told) {
    let (name, rest) = first_word(command);
    match name {
        "facet_json_tool" => answer_program(alloc, rest, input, told),
        "broken_pipe" => answer_failed(alloc, ErrorKind::BrokenPipe, rest, input, told),
        "out_of_memory" => answer_failed(alloc, ErrorKind::OutOfMemory, rest, input, told),
        "ended" => answer_ended(alloc, rest, told),
        "parser" => answer_parser(alloc, rest, input, told),
        "tree" => compare(alloc, languages(rest), &[Way::Tree], input, told),
        _ => answer_part(alloc, name, rest, input, told),
    }
}

/// Tells what a command prints that asks a part of the library.
fn answer_part(alloc: Global, name: &str, words: &str, input: &[u8], told: &mut Told) {
    match name {
        "tokens" => answer_tokens(words, input, told),
        "pieces" => answer_pieces(alloc, input, told),
        "short_texts" => answer_short_texts(input, told),
        "decode" => answer_decode(alloc, words, input, told),
        "decoders" => answer_decoders(alloc, input, told),
        "number" => answer_number(words, input, told),
        "check" => answer_check(words, input, told),
        "count" => answer_count(alloc, input, told),
        "marked" => answer_marked(alloc, words, input, told),
        "forget" => answer_forget(alloc, words, input, told),
        "read_tree" => answer_read_tree(alloc, words, input, told),
        "derived" => answer_derived(alloc, words, told),
        "document" => answer_document(alloc, words, input, told),
        _ => answer_text(alloc, name, words, text_of(input), told),
    }
}

/// The input as a text; the empty one where it is none.
pub fn text_of(input: &[u8]) -> &str {
    str::from_utf8(input).unwrap_or("")
}

/// Tells what a command prints that reads a text.
fn answer_text(alloc: Global, name: &str, words: &str, text: &str, told: &mut Told) {
    match name {
        "scanner" => answer_scanner(words, text, told),
        "decode_repeated" => answer_repeated(alloc, words, text, told),
        "blocks" => answer_blocks(alloc, languages(words), text, told),
        "equal" => answer_equal(alloc, text, told),
        "write" => answer_write(alloc, words, text, told),
        "read" => answer_read(alloc, words, text, told),
        "own" => answer_own(alloc, words, text, told),
        "change" => answer_change(alloc, words, text, told),
        "content" => answer_content(alloc, text, told),
        "find" => answer_find(alloc, text, told),
        _ => told.line("NO COMMAND"),
    }
}

/// The range that the words name, `START..END`, where it lies within so many bytes; where there are no words, all of these.
pub fn range(words: &str, len: usize) -> Option<(usize, usize)>
    ensures { IfSome result (λ r. (r.0 ≤ r.1) × (r.1 ≤ len)) }
{
    let (start, end): (usize, usize) = match words.split_once("..") {
        Some((start, end)) => (start.parse().ok()?, end.parse().ok()?),
        None => (0, len),
    };
    if start <= end && end <= len {
        Some((start, end))
    } else {
        None
    }
}

/// Tells what parsers of the input tell: `LANGUAGE all`, `LANGUAGE skips`, `LANGUAGE captures`, `LANGUAGE cuts`,
/// `LANGUAGE first COUNT` or `LANGUAGE SCRIPT`.
pub fn answer_parser(alloc: Global, words: &str, input: &[u8], told: &mut Told) {
    let (word, asked) = first_word(words);
    let languages = languages(word);
    match asked {
        "all" => compare(alloc, languages, &ALL_EVENTS, input, told),
        "skips" => compare(alloc, languages, &ALL_SKIPS, input, told),
        "captures" => compare(alloc, languages, &ALL_CAPTURES, input, told),
        "cuts" => answer_cuts(alloc, languages, input, told),
        _ => match asked.strip_prefix("first ") {
            Some(count) => answer_first(alloc, languages, count, input, told),
            None => answer_script(alloc, languages, asked, input, told),
        },
    }
}

/// Tells how many of the first events come, and what comes then.
fn answer_first(alloc: Global, languages: &[Language], count: &str, input: &[u8], told: &mut Told) {
    let count = count.parse().unwrap_or(0);
    let ways = [Way::FirstByNext(count), Way::FirstByEvents(count)];
    compare(alloc, languages, &ways, input, told);
}

/// The ways to ask for all events.
pub static ALL_EVENTS: [Way<'static>; 3] = [Way::ByNext, Way::ByPeekAndNext, Way::ByEvents];

/// The ways to skip each part, and to capture it.
static ALL_SKIPS: [Way<'static>; 2] = [
    Way::ByUnread(Unread::Skip, false),
    Way::ByUnread(Unread::Skip, true),
];

static ALL_CAPTURES: [Way<'static>; 2] = [
    Way::ByUnread(Unread::Capture, false),
    Way::ByUnread(Unread::Capture, true),
];

/// Tells what parsers of the input answer to the script's calls.
fn answer_script(
    alloc: Global,
    languages: &[Language],
    script: &str,
    input: &[u8],
    told: &mut Told,
) {
    match parse_script(alloc, script) {
        Ok(calls) => compare(
            alloc,
            languages,
            &[Way::ByCalls(calls.as_slice())],
            input,
            told,
        ),
        Err(_) => told.line("NO SCRIPT"),
    }
}
