//! SOCKS 5: greetings, requests, replies and the headers of datagrams, read and written.
#![tactic(auto)]

mod destination;
mod greeting;
mod host;
pub mod laws;
mod message;
mod reply;
mod request;
mod udp;
mod write;

pub use greeting::{read_greeting, read_method};
pub use message::{Greeting, HostAt, Reply5, Request5, UdpHead};
pub use reply::read_reply5;
pub use request::read_request5;
pub use udp::{read_udp_head, write_udp_head};
pub use write::{write_greeting, write_method, write_reply5, write_request5};

#[cfg(test)]
mod tests;
