//! What the entries of a block say.
use addr_pattern::{Endpoint, Name, Pattern};
use lists::List;
use socks_grammar::Login;

/// The commands that a rule or a route names.
#[derive(Clone, Copy)]
pub struct Commands {
    pub connect: bool,
    pub bind: bool,
    pub udpassociate: bool,
    pub bindreply: bool,
    pub udpreply: bool,
}

/// The protocols that a rule or a route names.
#[derive(Clone, Copy)]
pub struct Protocols {
    pub tcp: bool,
    pub udp: bool,
}

/// The methods that a rule names.
#[derive(Clone, Copy)]
pub struct Methods {
    pub noauth: bool,
    pub username: bool,
}

/// The versions of SOCKS that a rule or a route names.
#[derive(Clone, Copy)]
pub struct Versions {
    pub v4: bool,
    pub v5: bool,
}

/// Where a route leads.
#[derive(Clone, Copy)]
pub enum Hop {
    Direct,
    /// To the proxy that listens there.
    At(Endpoint),
}

/// What the entries of a block said so far. Each is there at most once.
#[derive(Drop)]
pub struct Given {
    pub from: Option<Pattern>,
    pub to: Option<Pattern>,
    pub log: bool,
    pub clientmethod: bool,
    pub max: Option<u32>,
    pub commands: Option<Commands>,
    pub protocols: Option<Protocols>,
    pub methods: Option<Methods>,
    pub users: Option<List<Name>>,
    pub versions: Option<Versions>,
    pub via: Option<Hop>,
    pub login: Option<Login>,
}
