use lists::{List, Text};

/// A key of a block, and its values.
#[derive(Debug, Drop)]
pub struct Entry {
    /// The key's line, counted from 1.
    pub line: u32,
    /// The key without its colon.
    pub key: Text,
    pub values: List<Text>,
}

/// What a text says at its top: a key with its values, or a block.
#[derive(Debug, Drop)]
pub struct Statement {
    /// The line of the first word, counted from 1.
    pub line: u32,
    /// The key without its colon; for a block its words, with one blank between them.
    pub key: Text,
    /// None for a block.
    pub values: List<Text>,
    /// The entries of a block.
    pub block: Option<List<Entry>>,
}
