//! What a client sends before its payload, its prelude: greeting, login and request, in any pieces.
#![tactic(auto)]

mod asked;
mod fed;
mod handshake;
mod hear;
pub mod laws;
mod length;
mod refuse;
mod request;
mod run;
mod split;
mod state;
mod take;
mod taken;

pub use fed::Fed;
pub use handshake::Handshake;
pub use length::{greeting_length, has_login, prelude_ends, prelude_length};
pub use refuse::failing_reply;
pub use request::Request;
pub use split::{is_served_input, whole_request};
pub use taken::Taken;

#[cfg(test)]
mod tests;
