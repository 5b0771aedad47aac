//! Addresses, endpoints, names, hosts and the patterns that match them.
#![tactic(auto)]

mod addr;
mod addr_text;
mod blanks;
mod cut;
mod endpoint;
mod endpoint_text;
mod fault;
mod fold;
mod front;
mod groups;
mod host;
mod host_text;
mod ipv4;
mod ipv6;
mod ipv6_text;
pub mod laws;
mod name;
mod number;
mod pattern;
mod pattern_text;
mod port_text;
mod short;

pub use addr::Addr;
pub use blanks::is_word;
pub use cut::{cut_first, cut_last};
pub use endpoint::Endpoint;
pub use fault::AddrFault;
pub use front::{BadAt, BadKind, Front, Span};
pub use host::Host;
pub use name::{Name, is_name_byte};
pub use number::{read_number, write_number};
pub use pattern::{HostPattern, Pattern, PortTest};
pub use port_text::read_port_part;
pub use short::Short;

#[cfg(test)]
mod tests;
