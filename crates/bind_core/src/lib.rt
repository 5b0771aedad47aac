//! The way in for a peer that a request names (BIND of SOCKS): one opening of a door, and the first peer that comes to it, with its
//! address compared. Neither takes memory.
#![tactic(auto)]

mod door;
mod peer;

pub use door::open;
pub use peer::{Waited, wait};

#[cfg(test)]
mod tests;
