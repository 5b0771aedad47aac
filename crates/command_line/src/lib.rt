//! The words of the command line.
#![tactic(auto)]

mod asked;
mod destination;
mod read;
mod table;

pub use asked::Invocation;
pub use read::read_words;

#[cfg(test)]
mod tests;
