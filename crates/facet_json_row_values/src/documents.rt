//! Documents of nodes: what the value is, by each call, to which a pointer or steps lead.

use crate::contents::push_some;
use crate::told::Told;
use crate::typed::{tell_difference, tell_refusal};
use crate::words::{first_word, languages};
use facet_json::{
    DeserializeError, Document, JsonSerializeError, JsonSerializer, Language, PointerError, Value,
    to_string,
};
use std::alloc::Global;

/// Tells what the value of the document is: `MODES PLACE`, or `MODES:DEPTH PLACE`, where it is read within that depth.
pub fn answer_document(alloc: Global, words: &str, input: &[u8], told: &mut Told) {
    let (read, place) = first_word(words);
    let place = unquoted(place);
    let (language, depth) = match read.split_once(':') {
        Some((language, depth)) => (language, Some(depth.parse().unwrap_or(0))),
        None => (read, None),
    };
    let [first, ..] = languages(language) else {
        return told.line("NO MODE");
    };
    let expected = told_at(alloc, parsed(alloc, *first, depth, input), place);
    told.line(expected.as_str());
    for language in languages(language) {
        let read = told_at(alloc, parsed(alloc, *language, depth, input), place);
        if read.as_str() != expected.as_str() {
            tell_difference(name_of(*language), read.as_str(), told);
        }
    }
}

/// The word without the single quotes that stand around it where a shell would take a part of it for something else.
fn unquoted(word: &str) -> &str {
    match word.strip_prefix('\'') {
        Some(rest) => rest.strip_suffix('\'').unwrap_or(word),
        None => word,
    }
}

/// What the language is called.
fn name_of(language: Language) -> &'static str {
    match language {
        Language::Plain => "plain",
        Language::Jsonc => "jsonc",
        Language::Strict => "strict",
    }
}

/// The input as a document, within a depth where there is one.
fn parsed<'i>(
    alloc: Global,
    language: Language,
    depth: Option<usize>,
    input: &'i [u8],
) -> Result<Document<'i>, DeserializeError<'static>> {
    match (language, depth) {
        (Language::Plain, None) => Document::parse(alloc, input),
        (Language::Jsonc, None) => Document::parse_jsonc(alloc, input),
        (Language::Strict, None) => Document::parse_strict(alloc, input),
        (Language::Plain, Some(depth)) => Document::parse_within(alloc, input, depth),
        (Language::Jsonc, Some(depth)) => Document::parse_within_jsonc(alloc, input, depth),
        (Language::Strict, Some(depth)) => Document::parse_within_strict(alloc, input, depth),
    }
}

/// What is told of a place in a document, or of its refusal.
fn told_at(alloc: Global, parsed: Result<Document<'_>, DeserializeError<'_>>, place: &str) -> Told {
    let mut told = Told::new(alloc);
    match parsed {
        Ok(document) => match reached(document.root(), place) {
            Ok(Some(value)) => tell_value(alloc, &value, &mut told),
            Ok(None) => told.say("nothing"),
            Err(error) => told.show(&error),
        },
        Err(error) => tell_refusal(&error, &mut told),
    }
    told
}

/// The value to which the pointer leads, or behind `by` the steps.
fn reached<'d, 'i>(
    root: Value<'d, 'i>,
    place: &str,
) -> Result<Option<Value<'d, 'i>>, PointerError> {
    match place.strip_prefix("by ") {
        Some(steps) => Ok(stepped(root, steps)),
        None => root.pointer(place),
    }
}

/// The value to which the steps lead that blanks part: `get:NAME` to a member, and `item:INDEX` to an item.
fn stepped<'d, 'i>(root: Value<'d, 'i>, steps: &str) -> Option<Value<'d, 'i>> {
    let mut value = root;
    for step in steps.split(' ') {
        value = match step.split_once(':')? {
            ("get", name) => value.get(name)?,
            ("item", index) => value.item(index.parse().ok()?)?,
            _ => return None,
        };
    }
    Some(value)
}

/// Tells the value's kind and bytes, what it is by each call that answers something, and the text as which it is written.
fn tell_value(alloc: Global, value: &Value<'_, '_>, told: &mut Told) {
    told.show(&value.kind());
    told.say(" ");
    told.say(str::from_utf8(value.raw()).unwrap_or("NO TEXT"));
    if value.is_null() {
        told.say("; null");
    }
    push_some("bool", &value.as_bool(), told);
    push_some("u64", &value.as_u64(), told);
    push_some("i64", &value.as_i64(), told);
    if let Some(decimal) = value.as_decimal() {
        push_some("decimal", &Some(decimal.as_str()), told);
    }
    push_some("str", &value.as_str(), told);
    push_some("len", &value.len(), told);
    tell_members(value, told);
    tell_items(value, told);
    tell_written(alloc, value, told);
    if !stands_alone(alloc, value) {
        told.say("; ALONE IT IS ANOTHER");
    }
}

/// Tells the names of an object's members, and their bytes.
fn tell_members(value: &Value<'_, '_>, told: &mut Told) {
    if let Some(members) = value.members() {
        told.say("; members");
        for (name, member) in members {
            told.say(" ");
            told.show(&name);
            told.say(":");
            told.say(str::from_utf8(member.raw()).unwrap_or("NO TEXT"));
        }
    }
}

/// Tells the bytes of a list's items.
fn tell_items(value: &Value<'_, '_>, told: &mut Told) {
    if let Some(items) = value.items() {
        told.say("; items");
        for item in items {
            told.say(" ");
            told.say(str::from_utf8(item.raw()).unwrap_or("NO TEXT"));
        }
    }
}

/// Tells the text of the value's tree. The value itself is written so, too.
fn tell_written(alloc: Global, value: &Value<'_, '_>, told: &mut Told) {
    match &tree_text(alloc, value) {
        Some(text) if is_written(alloc, value, text.as_bytes()) => {
            told.say("; written ");
            told.say(text.as_str());
        }
        _ => told.say("; TREE AND VALUE ARE WRITTEN OTHERWISE"),
    }
}

/// The text of the value's tree.
fn tree_text(alloc: Global, value: &Value<'_, '_>) -> Option<String> {
    to_string(alloc, &value.to_tree(alloc).ok()?).ok()
}

/// Whether these are the bytes as which the value is written.
fn is_written(alloc: Global, value: &Value<'_, '_>, text: &[u8]) -> bool {
    match written(alloc, value) {
        Ok(bytes) => bytes.as_slice() == text,
        Err(_) => false,
    }
}

/// The value, as it is written.
fn written(alloc: Global, value: &Value<'_, '_>) -> Result<Vec<u8>, JsonSerializeError> {
    let mut serializer = JsonSerializer::new(alloc);
    value.write(&mut serializer)?;
    serializer.finish()
}

/// Whether the value's bytes by themselves are read as a value of these bytes and this kind.
fn stands_alone(alloc: Global, value: &Value<'_, '_>) -> bool {
    match Document::parse_jsonc(alloc, value.raw()) {
        Ok(alone) => alone.root().raw() == value.raw() && alone.root().kind() == value.kind(),
        Err(_) => false,
    }
}
