//! An index of a configuration's socks rules by their destinations, which judges as `rule_list::judge` does.
#![tactic(auto)]

mod class;
mod index;
mod links;
mod rule;

pub use index::RuleIndex;

#[cfg(test)]
mod tests;
