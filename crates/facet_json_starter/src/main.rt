//! Reads the settings of a server from the standard input, JSON with comments, and prints them with what was left out. Where something is
//! wrong with them, it says what and where. The status is 0 for settings, 1 where something is wrong with them, and 2 where reading or
//! printing fails.
#![tactic(auto)]

use facet_json_serde::{Error, from_str_jsonc, to_string_pretty};
use serde::{Deserialize, Serialize};
use std::alloc::Global;
use std::io;
use std::process::ExitCode;

/// The settings of a server.
#[derive(Drop, Serialize, Deserialize)]
#[serde(deny_unknown_fields)]
struct Settings {
    /// What it calls itself.
    name: String,
    /// The port that it listens at, 80 where it is left out.
    #[serde(default = "http")]
    port: u16,
    /// Whom it serves: anyone, where there are none.
    #[serde(default)]
    hosts: Vec<String>,
}

/// The port of HTTP.
fn http() -> u16 {
    80
}

/// The settings with what was left out, as a text.
fn completed(alloc: Global, text: &str) -> Result<String, Error<'static>> {
    let settings: Settings = from_str_jsonc(alloc, text)?;
    to_string_pretty(alloc, &settings)
}

/// Prints the completed settings, or what is wrong with them.
fn run(rt: &HostRuntime) -> io::Result<ExitCode> {
    let text = io::read_to_string(rt.alloc(), rt.stdin())?;
    match completed(rt.alloc(), text.as_str()) {
        Ok(settings) => {
            println!(rt; "{settings}")?;
            Ok(ExitCode::SUCCESS)
        }
        Err(error) => {
            eprintln!(rt; "{}", error.report(text.as_str()))?;
            Ok(ExitCode::FAILURE)
        }
    }
}

fn main(rt: HostRuntime) -> ExitCode {
    match run(&rt) {
        Ok(status) => status,
        Err(error) => {
            // Where this can't be written either, the status still tells.
            let _ = eprintln!(rt; "{error}");
            ExitCode::from(2)
        }
    }
}
