//! The way out to a target: one dial and one lookup, each failure with its cause. Neither takes memory.
#![tactic(auto)]

mod dial;
mod lookup;

pub use dial::{Reached, reach};
pub use lookup::find;

#[cfg(test)]
mod tests;
