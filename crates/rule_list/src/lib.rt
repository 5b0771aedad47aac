//! What rules are asked about, and what they say.
#![tactic(auto)]

mod facts;
mod rule;
mod search;
mod verdict;

pub use facts::Facts;
pub use search::{
    client_max, client_passes, first_client, first_route, first_socks, judge, socks_max,
};
pub use verdict::Verdict;

#[cfg(test)]
mod tests;
