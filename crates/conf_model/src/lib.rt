//! The text of a configuration: it is read as a configuration, and a configuration is written as its canonical text.
#![tactic(auto)]

mod blocks;
mod entries;
mod fault;
mod given;
mod keys;
mod read;
mod setting;
mod statement;
mod values;
mod write;

pub use fault::{ConfFault, ConfKind};
pub use read::read_config;
pub use write::write_config;

#[cfg(test)]
mod tests;
