//! Slots that hold units, each held by at most one pass, on single atomic steps. No call waits.
#![tactic(auto)]

mod answer;
mod calls;
mod mark;
mod pass;
mod steps;
mod turnstile;

pub use answer::{Claimed, Parked, Placed, Woke};
pub use pass::Pass;
pub use turnstile::Turnstile;

#[cfg(test)]
mod tests;
