//! The desk that all associations ask: who may open, what is granted under which limit, and what ends.
#![tactic(auto)]

mod call;
mod desk;
mod entry;

pub use call::DeskCall;
pub use desk::Desk;

#[cfg(test)]
mod tests;
