//! The two directions of a relayed TCP association, each of which ends by itself: a side is shut once the other has ended
//! and all its bytes were sent.
#![tactic(auto)]

mod direction;
mod halt;
mod per_side;
mod pumped;
mod relay;
mod sending;

pub use pumped::{Pumped, Side};
pub use relay::Relay;

#[cfg(test)]
mod tests;
