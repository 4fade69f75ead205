//! The types of which values are read, each by its name.

use crate::entries::{by_of, entry_of};
use crate::own::{LentPerson, Named, Percent};
use crate::told::Told;
use crate::typed::{Asked, How, tell};
use crate::words::first_word;
use facet_json::{RawJson, Tree};
use facet_json_examples::accounts::Account;
use facet_json_examples::records::{Config, Person, Response};
use std::alloc::Global;
use std::collections::BTreeMap;

/// Types that read different kinds of values, a line of each of which the name `all` gives.
static ALL: [&str; 19] = [
    "bool",
    "u8",
    "u16",
    "u32",
    "u64",
    "usize",
    "u128",
    "i8",
    "i16",
    "i32",
    "i64",
    "isize",
    "i128",
    "String",
    "&str",
    "Option<u8>",
    "Vec<u8>",
    "BTreeMap<String,u8>",
    "Tree",
];

/// Tells what entries read: `BY TYPE`, or `BY:DEPTH TYPE`.
pub fn answer_read(alloc: Global, words: &str, text: &str, told: &mut Told) {
    let (by, name) = first_word(words);
    match entries_of(by) {
        Some(how) => answer_types(name, Asked { alloc, how, text }, told),
        None => told.line("NO ENTRIES"),
    }
}

/// Which entries the word names, with a depth or without one.
fn entries_of(word: &str) -> Option<How<'_>> {
    match word.split_once(':') {
        Some((by, depth)) => Some(How::Entries(by_of(by)?, Some(depth.parse().ok()?))),
        None => Some(How::Entries(by_of(word)?, None)),
    }
}

/// Tells what a type's own readers read among the calls of a parser: `CALLS TYPE`.
pub fn answer_own(alloc: Global, words: &str, text: &str, told: &mut Told) {
    let (calls, name) = first_word(words);
    let how = How::Calls(calls);
    answer_types(name, Asked { alloc, how, text }, told);
}

/// Tells what an entry reads, whose requests are marked: `ENTRY TYPE`.
pub fn answer_marked_read(alloc: Global, words: &str, text: &str, told: &mut Told) {
    let (entry, name) = first_word(words);
    match entry_of(entry) {
        Some(entry) => {
            let how = How::Marked(entry);
            answer_type(name, Asked { alloc, how, text }, told);
        }
        None => told.line("NO ENTRY"),
    }
}

/// Tells what the type of this name reads, or in a line each what those types read.
fn answer_types(name: &str, asked: Asked<'_>, told: &mut Told) {
    if name != "all" {
        return answer_type(name, asked, told);
    }
    for name in &ALL {
        told.say(name);
        told.say(": ");
        answer_type(name, asked, told);
    }
}

/// Tells what the type of this name reads.
fn answer_type(name: &str, asked: Asked<'_>, told: &mut Told) {
    let is_known = answer_unsigned(name, asked, told)
        || answer_signed(name, asked, told)
        || answer_text(name, asked, told)
        || answer_optional(name, asked, told)
        || answer_list(name, asked, told)
        || answer_map(name, asked, told)
        || answer_struct(name, asked, told);
    if !is_known {
        told.line("NO TYPE");
    }
}

/// Tells what a truth value or a whole number without a sign reads, where it is of this name.
fn answer_unsigned(name: &str, asked: Asked<'_>, told: &mut Told) -> bool {
    match name {
        "bool" => tell::<bool>(asked, told),
        "u8" => tell::<u8>(asked, told),
        "u16" => tell::<u16>(asked, told),
        "u32" => tell::<u32>(asked, told),
        "u64" => tell::<u64>(asked, told),
        "usize" => tell::<usize>(asked, told),
        "u128" => tell::<u128>(asked, told),
        _ => return false,
    }
    true
}

/// Tells what a whole number with a sign reads, where it is of this name.
fn answer_signed(name: &str, asked: Asked<'_>, told: &mut Told) -> bool {
    match name {
        "i8" => tell::<i8>(asked, told),
        "i16" => tell::<i16>(asked, told),
        "i32" => tell::<i32>(asked, told),
        "i64" => tell::<i64>(asked, told),
        "isize" => tell::<isize>(asked, told),
        "i128" => tell::<i128>(asked, told),
        _ => return false,
    }
    true
}

/// Tells what a text, a raw text or any value reads, where it is of this name.
fn answer_text(name: &str, asked: Asked<'_>, told: &mut Told) -> bool {
    match name {
        "String" => tell::<String>(asked, told),
        "&str" => tell::<&str>(asked, told),
        "RawJson" => tell::<RawJson<'_>>(asked, told),
        "Tree" => tell::<Tree>(asked, told),
        _ => return false,
    }
    true
}

/// Tells what a value that may be null reads, where it is of this name.
fn answer_optional(name: &str, asked: Asked<'_>, told: &mut Told) -> bool {
    match name {
        "Option<u8>" => tell::<Option<u8>>(asked, told),
        "Option<String>" => tell::<Option<String>>(asked, told),
        "Option<&str>" => tell::<Option<&str>>(asked, told),
        "Option<RawJson>" => tell::<Option<RawJson<'_>>>(asked, told),
        "Option<Tree>" => tell::<Option<Tree>>(asked, told),
        "Option<Vec<u8>>" => tell::<Option<Vec<u8>>>(asked, told),
        _ => return false,
    }
    true
}

/// Tells what a list reads, where it is of this name.
fn answer_list(name: &str, asked: Asked<'_>, told: &mut Told) -> bool {
    match name {
        "Vec<u8>" => tell::<Vec<u8>>(asked, told),
        "Vec<bool>" => tell::<Vec<bool>>(asked, told),
        "Vec<String>" => tell::<Vec<String>>(asked, told),
        "Vec<&str>" => tell::<Vec<&str>>(asked, told),
        "Vec<Option<u8>>" => tell::<Vec<Option<u8>>>(asked, told),
        "Vec<Vec<u8>>" => tell::<Vec<Vec<u8>>>(asked, told),
        "Vec<Vec<bool>>" => tell::<Vec<Vec<bool>>>(asked, told),
        "Vec<Vec<Option<u8>>>" => tell::<Vec<Vec<Option<u8>>>>(asked, told),
        _ => return false,
    }
    true
}

/// Tells what a map reads, where it is of this name.
fn answer_map(name: &str, asked: Asked<'_>, told: &mut Told) -> bool {
    match name {
        "BTreeMap<String,u8>" => tell::<BTreeMap<String, u8>>(asked, told),
        "BTreeMap<String,String>" => tell::<BTreeMap<String, String>>(asked, told),
        "BTreeMap<String,&str>" => tell::<BTreeMap<String, &str>>(asked, told),
        "BTreeMap<String,Tree>" => tell::<BTreeMap<String, Tree>>(asked, told),
        _ => return false,
    }
    true
}

/// Tells what a type of a user's own reads, where it is of this name.
fn answer_struct(name: &str, asked: Asked<'_>, told: &mut Told) -> bool {
    match name {
        "Account" => tell::<Account>(asked, told),
        "Person" => tell::<Person>(asked, told),
        "LentPerson" => tell::<LentPerson<'_>>(asked, told),
        "Config" => tell::<Config>(asked, told),
        "Response<RawJson>" => tell::<Response<RawJson<'_>>>(asked, told),
        "Named<i16>" => tell::<Named<i16>>(asked, told),
        "Percent" => tell::<Percent>(asked, told),
        _ => return false,
    }
    true
}
