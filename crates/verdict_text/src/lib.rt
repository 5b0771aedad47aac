//! The verdict of a configuration on a question, as text.
#![tactic(auto)]

mod question;
mod text;

pub use question::Question;
pub use text::decide;

#[cfg(test)]
mod tests;
