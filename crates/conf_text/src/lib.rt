//! The statements of a configuration's text.
#![tactic(auto)]

mod cursor;
mod fault;
mod laws;
mod statement;
mod statements;
mod token;
mod words;

pub use fault::TextFault;
pub use laws::{faultless_text, one_fault, one_reading};
pub use statement::{Entry, Statement};
pub use statements::{joined, read_statements};

#[cfg(test)]
mod tests;
