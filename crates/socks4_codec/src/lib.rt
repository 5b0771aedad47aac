//! SOCKS 4 and 4A: requests and replies, read and written.
#![tactic(auto)]

pub mod laws;
mod read_name;
mod read_reply;
mod read_request;
mod reply;
mod request;
mod write;

pub use read_reply::read_reply4;
pub use read_request::read_request4;
pub use reply::Reply4;
pub use request::Request4;
pub use write::{write_reply4, write_request4};

#[cfg(test)]
mod tests;
