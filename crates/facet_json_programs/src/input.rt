//! The text that a program is called for.

use std::{fs, io};

/// What the input is called in messages.
pub fn name_of(file: Option<&str>) -> &str {
    file.unwrap_or("<stdin>")
}

/// The text of the file of this name, or of the standard input.
fn read(rt: &HostRuntime, file: Option<&str>) -> io::Result<String> {
    match file {
        Some(name) => fs::read_to_string(rt, name),
        None => io::read_to_string(rt.alloc(), rt.stdin()),
    }
}

/// The text of the file of this name, or of the standard input, or `None` where it can't be read, which is told.
pub fn text_of(rt: &HostRuntime, file: Option<&str>) -> io::Result<Option<String>> {
    match read(rt, file) {
        Ok(text) => Ok(Some(text)),
        Err(error) => {
            eprintln!(rt; "{}: {error}", name_of(file))?;
            Ok(None)
        }
    }
}
