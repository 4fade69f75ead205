//! What a server is told by its configuration file.

use facet_json_serde::{Error, from_str_jsonc};
use serde::{Deserialize, Serialize};
use std::alloc::Global;

/// The settings of a server.
#[derive(Drop, Serialize, Deserialize)]
#[serde(deny_unknown_fields)]
pub struct Settings {
    /// What it calls itself.
    pub name: String,
    /// Where it listens.
    pub listen: Listen,
    /// What it writes down, if anything.
    pub log: Option<Log>,
}

/// Reads them from a text in which comments may stand.
pub fn read_settings(alloc: Global, text: &str) -> Result<Settings, Error<'static>> {
    from_str_jsonc(alloc, text)
}

/// Where a server listens.
#[derive(Drop, Serialize, Deserialize)]
#[serde(deny_unknown_fields)]
pub struct Listen {
    /// The host's name or address.
    pub host: String,
    /// The port, 80 where it is left out.
    #[serde(default = "http")]
    pub port: u16,
}

/// The port of HTTP.
fn http() -> u16 {
    80
}

/// What a server writes down.
#[derive(Drop, Serialize, Deserialize)]
#[serde(deny_unknown_fields)]
pub struct Log {
    /// From which level on.
    pub level: Level,
    /// Into which file; to the standard error, where this is left out.
    pub file: Option<String>,
}

/// How much a message matters.
#[derive(Drop, Serialize, Deserialize)]
#[serde(rename_all = "lowercase")]
pub enum Level {
    /// What went wrong.
    Error,
    /// What may go wrong.
    Warn,
    /// What happens.
    Info,
}
