use addr_pattern::{Host, Name};
use socks_grammar::{Command, Method, Version};

/// What a client asks for, and how it logged in.
#[derive(Drop)]
pub struct Request {
    pub version: Version,
    /// Connect or Bind, or UdpAssociate in version 5.
    pub command: Command,
    pub method: Method,
    /// The user that logged in, with `Method::Username` and no other.
    pub user: Option<Name>,
    /// A name that is the text of an address is that address.
    pub host: Host,
    pub port: u16,
    /// How many bytes the whole prelude has.
    pub len: u64,
}
