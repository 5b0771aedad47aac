//! The username login of SOCKS 5 (RFC 1929), and the file of the users who may log in.
#![tactic(auto)]

mod digest;
mod fault;
pub mod laws;
mod login;
mod text;
mod users;

pub use fault::{UsersFault, UsersKind};
pub use login::{LoginAt, read_login, read_status, write_login, write_status};
pub use users::Users;

#[cfg(test)]
mod tests;
