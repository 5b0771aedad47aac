use addr_pattern::{Addr, Endpoint};
use rule_list::Facts;
use socks_grammar::{Command, Method, Version};

/// A port of 127.0.0.1.
fn local(port: u16) -> Endpoint {
    Endpoint {
        addr: Addr::V4(0x7f00_0001),
        port,
    }
}

/// A CONNECT to port 80 of a client on the same host.
pub fn request() -> Facts {
    Facts {
        peer: local(50_000),
        local: local(1080),
        command: Command::Connect,
        version: Version::V5,
        method: Method::NoAuth,
        user: None,
        from: local(50_000),
        to: local(80),
        name: None,
    }
}
