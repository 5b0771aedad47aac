use addr_pattern::{Addr, Span};
use socks_grammar::Command;

/// The methods that a client offers, by their place in the bytes: none to 255 of them, a byte each.
#[derive(Clone, Copy, PartialEq, Eq, Debug)]
pub struct Greeting {
    pub methods: Span,
}

/// A host in the bytes: an address, or the place of a name of 1 to 255 bytes that print.
#[derive(Clone, Copy, PartialEq, Eq, Debug)]
pub enum HostAt {
    Addr(Addr),
    Name(Span),
}

/// A request: the command is Connect, Bind or UdpAssociate.
#[derive(Clone, Copy, PartialEq, Eq, Debug)]
pub struct Request5 {
    pub command: Command,
    pub host: HostAt,
    pub port: u16,
}

/// A reply: 0 is success, any other code is a failure (RFC 1928, section 6).
#[derive(Clone, Copy, PartialEq, Eq, Debug)]
pub struct Reply5 {
    pub code: u8,
    pub host: HostAt,
    pub port: u16,
}

/// The header of a datagram. The number of the fragment is 0 where the datagram stands alone, else its place from 1 to 127,
/// with the highest bit set in the last (RFC 1928, section 7).
#[derive(Clone, Copy, PartialEq, Eq, Debug)]
pub struct UdpHead {
    pub frag: u8,
    pub host: HostAt,
    pub port: u16,
}
