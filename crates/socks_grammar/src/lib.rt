//! The words of SOCKS: commands, methods, versions and users, and the byte grammars of its messages as definitions.
#![tactic(auto)]

pub mod laws;
mod login;
mod protocol;
mod stop;
mod user;

pub use login::Login;
pub use protocol::{Command, Method, Stage, Version};
pub use stop::Stop;
pub use user::User;

#[cfg(test)]
mod tests;
