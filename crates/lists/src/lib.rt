//! Lists and texts that contracts see as lists of their items, and out of memory as an error.
#![tactic(auto)]

mod list;
mod memory;

pub use list::{List, Text};
pub use memory::Memory;

#[cfg(test)]
mod tests;
