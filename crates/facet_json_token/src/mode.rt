//! What may stand in the gaps between tokens, and what is known of the bytes that are read.

/// What may stand in the gaps between tokens.
#[derive(Debug, Clone, Copy, PartialEq, Eq)]
pub enum Mode {
    /// JSON without comments.
    Plain,
    /// JSON with comments wherever white space may stand.
    Jsonc,
}

/// What is known of the bytes that are read.
#[derive(Debug, Clone, Copy, PartialEq, Eq)]
pub enum Trust {
    /// Nothing: each text is checked.
    Nothing,
    /// They are UTF-8.
    Utf8,
}
