//! What becomes of a datagram of a UDP association (RFC 1928, section 7): where it goes to, or why it is dropped. Nothing of it
//! takes memory.
#![tactic(auto)]

mod client;
mod judging;
mod outcome;
mod remote;
mod sides;

pub use outcome::{DropReason, Outcome};
pub use sides::{Sides, learned, outcome_of};

#[cfg(test)]
mod tests;
