//! Reads the configuration file of a server, JSON with comments, and prints the settings with what was left out filled in. Where something
//! is wrong with the file, it says what, and shows the place. `config [FILE]`: without a file it reads the standard input.

use crate::input::{name_of, text_of};
use crate::settings::{Settings, read_settings};
use facet_json_serde::{Error, to_string_pretty};
use std::io;

/// Prints the settings, with what was left out.
fn show(rt: &HostRuntime, settings: &Settings) -> io::Result<u8> {
    match to_string_pretty(rt.alloc(), settings) {
        Ok(text) => {
            println!(rt; "{text}")?;
            Ok(0)
        }
        Err(error) => {
            eprintln!(rt; "{error}")?;
            Ok(1)
        }
    }
}

/// Prints what is wrong with a file of this name and text, and where.
fn tell(rt: &HostRuntime, name: &str, text: &str, error: &Error<'static>) -> io::Result<u8> {
    eprintln!(rt; "{name}: {}", error.report(text))?;
    Ok(1)
}

/// Prints the settings that the text of a file of this name has, or what is wrong with it.
fn answer(rt: &HostRuntime, name: &str, text: &str) -> io::Result<u8> {
    match read_settings(rt.alloc(), text) {
        Ok(settings) => show(rt, &settings),
        Err(error) => tell(rt, name, text, &error),
    }
}

/// Reads the file, and prints its settings or what is wrong with it. It returns the status: 0 where the settings are printed, 1
/// where something is wrong with them, and 2 where the file can't be read.
pub fn run(rt: &HostRuntime, file: Option<&str>) -> io::Result<u8> {
    match text_of(rt, file)? {
        Some(text) => answer(rt, name_of(file), text.as_str()),
        None => Ok(2),
    }
}
