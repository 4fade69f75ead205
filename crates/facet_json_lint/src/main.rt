//! Checks JSON files for a person, reports what is wrong with each in its place, and lays files out.
//!
//! Reports go to the standard output; with `--format`, which may write a text there, to the standard error. The status is 0 where all is
//! fine, 1 where something is reported, and 2 where the arguments are wrong, or a file can't be read or written.
#![tactic(auto)]

mod advice;
mod arguments;
mod check;
mod excerpt;
mod files;
mod lint;
mod repeats;
mod report;
mod shown;
mod tally;

use crate::arguments::{Layout, Misuse, Options, Request, request_of};
use crate::lint::Lint;
use crate::report::Colours;
use std::io::{BufWriter, ErrorKind, IsTerminal};
use std::process::ExitCode;
use std::{env, io};

/// How the program is called.
const USAGE: &str =
    "usage: facet_json_lint [--strict | --jsonc] [--repeated-keys] [--format | --check] [--quiet] [FILE..]";

/// What it does.
const HELP: &str = "
Checks that each file is one JSON document, and reports where and why it isn't. Without a file, or where it is -, the standard
input is checked.

  --strict         read RFC 8259 alone; else commas may trail, and some more is let pass
  --jsonc          read comments, too
  --repeated-keys  report the keys that come twice in an object, too
  --format         lay each file out, in place; the standard input to the standard output
  --check          report the files that --format would change, and change none
  --quiet          report nothing: the status tells
  --help           print this
  --version        print the version

The status is 0 where all is fine, 1 where something is reported, 2 where the arguments are wrong or a file can't be read.";

/// Which program it is.
const VERSION: &str = "facet_json_lint 0.50";

/// Whether what goes to a terminal is coloured: where NO_COLOR is not set (no-color.org).
fn allows_colour(rt: &HostRuntime) -> bool {
    match env::var(rt, "NO_COLOR") {
        Ok(value) => value.is_empty(),
        Err(_) => true,
    }
}

/// Checks the files, and returns the status.
fn check_all(rt: &HostRuntime, options: Options, names: &[&str]) -> io::Result<u8> {
    let is_text_written = matches!(options.layout, Layout::Made);
    let is_terminal = if is_text_written {
        rt.stderr().is_terminal()
    } else {
        rt.stdout().is_terminal()
    };
    let lint = Lint {
        rt,
        options,
        colours: Colours::new(is_terminal && allows_colour(rt)),
    };
    if is_text_written {
        lint.all(names, &mut BufWriter::new(rt.alloc(), rt.stderr())?)
    } else {
        lint.all(names, &mut BufWriter::new(rt.alloc(), rt.stdout())?)
    }
}

/// Tells that the arguments are wrong.
fn refuse(rt: &HostRuntime, misuse: Misuse<'_>) -> io::Result<u8> {
    eprintln!(rt; "facet_json_lint: {misuse}\n{USAGE}")?;
    Ok(2)
}

/// Does what the program was called for, and returns the status.
fn run(rt: &HostRuntime) -> io::Result<u8> {
    let args: Vec<String> = match env::args(rt) {
        Ok(args) => args.skip(1).collect(rt.alloc())?,
        Err(error) if error.kind() == ErrorKind::InvalidData => return refuse(rt, Misuse::NoText),
        Err(error) => return Err(error),
    };
    answer(rt, args.as_slice())
}

/// Does what the arguments ask for, and returns the status.
fn answer(rt: &HostRuntime, args: &[String]) -> io::Result<u8> {
    match request_of(rt.alloc(), args) {
        Ok(Request::Lint(options, names)) => check_all(rt, options, names.as_slice()),
        Ok(Request::Help) => {
            println!(rt; "{USAGE}\n{HELP}")?;
            Ok(0)
        }
        Ok(Request::Version) => {
            println!(rt; "{VERSION}")?;
            Ok(0)
        }
        Err(misuse) => refuse(rt, misuse),
    }
}

fn main(rt: HostRuntime) -> ExitCode {
    match run(&rt) {
        Ok(status) => ExitCode::from(status),
        // Whoever read the reports has seen enough.
        Err(error) if error.kind() == ErrorKind::BrokenPipe => ExitCode::from(1),
        Err(error) => {
            // Where the line can't be written, the status still tells.
            let _ = eprintln!(rt; "facet_json_lint: {error}");
            ExitCode::from(2)
        }
    }
}
