use addr_pattern::{Name, Pattern};
use lists::List;

/// A rule on who may connect to the server.
#[derive(Drop)]
pub struct ClientRule {
    pub pass: bool,
    pub from: Pattern,
    pub to: Pattern,
    pub max: Option<u32>,
}

/// A rule on what may be asked for.
#[derive(Drop)]
pub struct SocksRule {
    pub pass: bool,
    pub from: Pattern,
    pub to: Pattern,
    pub connect: bool,
    pub bind: bool,
    pub udpassociate: bool,
    pub bindreply: bool,
    pub udpreply: bool,
    pub tcp: bool,
    pub udp: bool,
    pub noauth: bool,
    pub username: bool,
    pub v4: bool,
    pub v5: bool,
    pub users: List<Name>,
    pub max: Option<u32>,
}
