use addr_pattern::{Endpoint, Name};
use socks_grammar::{Command, Method, Version};

/// What the rules are asked about.
#[derive(Drop)]
pub struct Facts {
    pub peer: Endpoint,
    pub local: Endpoint,
    pub command: Command,
    pub version: Version,
    pub method: Method,
    pub user: Option<Name>,
    pub from: Endpoint,
    pub to: Endpoint,
    pub name: Option<Name>,
}
