//! A configuration: its entries, and the value that keeps them within what a text can say.
#![tactic(auto)]

mod config;
mod copy;
mod entries;
mod route;
mod rule;

pub use config::Config;
pub use entries::Entries;
pub use route::{Route, Via};
pub use rule::{ClientRule, SocksRule};
