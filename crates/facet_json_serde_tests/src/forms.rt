//! Values of each form that serde's documents name, read and written again.

pub(crate) mod again;
pub(crate) mod enums;
mod plain;
pub(crate) mod structs;
