//! The lines of the list.
use std::alloc::{AllocError, Global};

/// A run of the program, and what it is to give.
#[derive(Drop)]
pub struct Case {
    /// The status that it is to end with.
    pub status: u8,
    pub name: String,
    /// The words behind the program's name.
    pub words: Vec<String>,
    /// What standard error is to have: nothing, or a line.
    pub error: String,
}

impl Case {
    /// Whether its words are `replay` alone.
    pub fn is_replay(&self) -> bool {
        match self.words.as_slice() {
            [word] => word.as_str() == "replay",
            _ => false,
        }
    }
}

fn words_of(alloc: Global, text: &str) -> Result<Vec<String>, AllocError> {
    let mut words = Vec::new(alloc);
    for word in text.split(' ') {
        words.push(String::from_str(alloc, word)?)?;
    }
    Ok(words)
}

/// A line `STATUS NAME WORD ..`, behind which ` | ` and the line of standard error may stand. Another line has no case.
pub fn read_case(alloc: Global, line: &str) -> Result<Option<Case>, AllocError> {
    let (run, error) = match line.split_once(" | ") {
        Some((run, error)) => (run, format!(in alloc; "{error}\n")?),
        None => (line, String::new(alloc)),
    };
    let Some((status, rest)) = run.split_once(' ') else {
        return Ok(None);
    };
    let Ok(status) = status.parse::<u8>() else {
        return Ok(None);
    };
    let (name, words) = match rest.split_once(' ') {
        Some((name, words)) => (name, words_of(alloc, words)?),
        None => (rest, Vec::new(alloc)),
    };
    Ok(Some(Case {
        status,
        name: String::from_str(alloc, name)?,
        words,
        error,
    }))
}
