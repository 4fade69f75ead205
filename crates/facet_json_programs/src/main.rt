//! Programs that stand on the library, each named by the first argument:
//!
//! - `config [FILE]` reads a configuration file, JSON with comments, and prints its settings, or what is wrong with a line and a caret.
//! - `log_filter --where NAME=VALUE [FILE..]` copies the records of logs whose member of that name has that value.
//! - `message_core` answers requests of JSON-RPC 2.0, a request a line: `sum` and `length`, and `echo` with its parameters verbatim.
//! - `validate [OPTION VALUE].. [FILE]` checks a document by its events. `--depth`, `--items` and `--length` set limits of how deep its
//!   containers nest, how many values one of them has, and how many bytes a key or a scalar. `--require POINTER=KIND` says what has to be
//!   there, as `/listen/port=number`; kinds are `null`, `bool`, `number`, `string`, `array`, `object`.
//!
//! The status is 0 where all is fine, 1 where something is wrong with what was read, and 2 where a file can't be read, also where it is not
//! UTF-8, or the arguments are others. A wrong request is answered as such, with status 0.
#![tactic(auto)]

mod config;
mod fault;
mod filter;
mod input;
mod log_filter;
mod members;
mod message_core;
mod methods;
mod requests;
mod rules;
mod settings;
mod validate;

use crate::filter::Criterion;
use std::process::ExitCode;
use std::{env, io};

/// How the programs are called.
const USAGE: &str = "usage: facet_json_programs config [FILE]
       facet_json_programs log_filter --where NAME=VALUE [FILE..]
       facet_json_programs message_core
       facet_json_programs validate [--depth N | --items N | --length N | --require POINTER=KIND].. [FILE]";

/// Runs the configuration reader, where its arguments are such.
fn run_config(rt: &HostRuntime, args: &[String]) -> io::Result<Option<u8>> {
    match args {
        [] => Ok(Some(config::run(rt, None)?)),
        [file] => Ok(Some(config::run(rt, Some(file.as_str()))?)),
        _ => Ok(None),
    }
}

/// Runs the filter of logs, where its arguments are such.
fn run_log_filter(rt: &HostRuntime, args: &[String]) -> io::Result<Option<u8>> {
    match args {
        [option, condition, files @ ..] if option.as_str() == "--where" => {
            match condition.as_str().split_once('=') {
                Some((name, value)) => {
                    Ok(Some(log_filter::run(rt, Criterion { name, value }, files)?))
                }
                None => Ok(None),
            }
        }
        _ => Ok(None),
    }
}

/// Runs the message core, where it has no arguments.
fn run_message_core(rt: &HostRuntime, args: &[String]) -> io::Result<Option<u8>> {
    match args {
        [] => Ok(Some(message_core::run(rt)?)),
        _ => Ok(None),
    }
}

/// Runs the program that the arguments name. It returns its status, or `None` where they name none.
fn run(rt: &HostRuntime, args: &[String]) -> io::Result<Option<u8>> {
    match args {
        [name, args @ ..] if name.as_str() == "config" => run_config(rt, args),
        [name, args @ ..] if name.as_str() == "log_filter" => run_log_filter(rt, args),
        [name, args @ ..] if name.as_str() == "message_core" => run_message_core(rt, args),
        [name, args @ ..] if name.as_str() == "validate" => validate::run(rt, args),
        _ => Ok(None),
    }
}

/// Does what the program was called for. It returns the status.
fn called(rt: &HostRuntime) -> io::Result<u8> {
    let args: Vec<String> = env::args(rt)?.skip(1).collect(rt.alloc())?;
    match run(rt, args.as_slice())? {
        Some(status) => Ok(status),
        None => {
            eprintln!(rt; "{USAGE}")?;
            Ok(2)
        }
    }
}

fn main(rt: HostRuntime) -> ExitCode {
    match called(&rt) {
        Ok(status) => ExitCode::from(status),
        Err(error) => {
            // Where the line can't be written, the status still tells.
            let _ = eprintln!(rt; "{error}");
            ExitCode::from(2)
        }
    }
}
