//! The configurations that were published, numbered from 1, and who sees which.
#![tactic(auto)]

mod gens;
mod list;
mod snap;

pub use gens::Gens;
pub use list::ListGens;
pub use snap::Snap;

#[cfg(test)]
mod tests;
