//! The text that a replay writes: its lines, and the causes in them.
#![tactic(auto)]

mod address;
mod cause;
mod ending;
mod event;
mod hex;
mod number;
mod turn;

pub use cause::add_cause;
pub use ending::{add_end, add_ends};
pub use event::{add_close, add_open, add_publish, add_see};
pub use hex::add_bytes;
pub use number::add_number;
pub use turn::add_turn;

#[cfg(test)]
mod tests;
