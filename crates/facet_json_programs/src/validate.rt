//! Checks a document by its events, and tells the first place where it isn't as it should be.

use crate::input::{name_of, text_of};
use crate::rules::{Checked, KINDS, Limits, Rule, check_limits, check_rule};
use facet_json::{JsonError, Report, Tree};
use std::io;

/// No limits.
const NONE: Limits = Limits {
    depth: usize::MAX,
    items: usize::MAX,
    length: usize::MAX,
};

/// The rule that is written as `/listen/port=number`, where it has a JSON pointer and a kind.
fn rule_of(text: &str) -> Option<Rule<'_>> {
    let (pointer, name) = text.rsplit_once('=')?;
    Tree::Null.pointer(pointer).ok()?;
    for kind in &KINDS {
        if *kind == name {
            return Some(Rule {
                pointer,
                kind: *kind,
            });
        }
    }
    None
}

/// Sets the limit that an option says, where it and its value are such, or where they are a rule.
fn set(limits: &mut Limits, option: &str, value: &str) -> Option<()> {
    match option {
        "--depth" => limits.depth = value.parse().ok()?,
        "--items" => limits.items = value.parse().ok()?,
        "--length" => limits.length = value.parse().ok()?,
        "--require" => {
            rule_of(value)?;
        }
        _ => return None,
    }
    Some(())
}

/// The limits that the options set, and the file that stands after them, where they are options of this program.
fn limits_of(args: &[String]) -> Option<(Limits, Option<&str>)> {
    let mut limits = NONE;
    let mut left = args;
    while let [option, value, rest @ ..] = left {
        set(&mut limits, option.as_str(), value.as_str())?;
        left = rest;
    }
    match left {
        [file, ..] => Some((limits, Some(file.as_str()))),
        [] => Some((limits, None)),
    }
}

/// Prints what is wrong with a text, and where. It returns whether nothing is.
fn tell(rt: &HostRuntime, name: &str, text: &str, checked: Checked) -> io::Result<bool> {
    let Err(refused) = checked else {
        return Ok(true);
    };
    let error = JsonError::from(refused);
    let report = Report {
        error: &error,
        source: text,
    };
    eprintln!(rt; "{name}: {report}")?;
    Ok(false)
}

/// Checks a text against the rules among the options, in their order, and prints the first that it doesn't meet.
fn meets_rules(rt: &HostRuntime, name: &str, text: &str, options: &[String]) -> io::Result<bool> {
    let mut left = options;
    while let [option, value, rest @ ..] = left {
        if option.as_str() == "--require"
            && let Some(rule) = rule_of(value.as_str())
        {
            let name = format!(in rt.alloc(); "{name}: {}", rule.pointer)?;
            let checked = check_rule(rt.alloc(), text.as_bytes(), rule);
            if !tell(rt, name.as_str(), text, checked)? {
                return Ok(false);
            }
        }
        left = rest;
    }
    Ok(true)
}

/// Checks a text, and prints the first that is wrong.
fn check(
    rt: &HostRuntime,
    name: &str,
    text: &str,
    limits: Limits,
    options: &[String],
) -> io::Result<u8> {
    let checked = check_limits(rt.alloc(), text.as_bytes(), limits);
    let is_fine = tell(rt, name, text, checked)? && meets_rules(rt, name, text, options)?;
    Ok(if is_fine { 0 } else { 1 })
}

/// Checks the file that is named, or the standard input. It returns the status: 0 where all is as it should be, 1 where something
/// isn't, 2 where the file can't be read; or `None` where the arguments are none of this program.
pub fn run(rt: &HostRuntime, args: &[String]) -> io::Result<Option<u8>> {
    let Some((limits, file)) = limits_of(args) else {
        return Ok(None);
    };
    match text_of(rt, file)? {
        Some(text) => Ok(Some(check(rt, name_of(file), text.as_str(), limits, args)?)),
        None => Ok(Some(2)),
    }
}
