use addr_pattern::{Endpoint, Pattern};
use socks_grammar::{Login, Version};

/// How a destination is reached.
#[derive(Drop)]
pub enum Via {
    Direct,
    Proxy {
        at: Endpoint,
        version: Version,
        login: Option<Login>,
    },
}

/// A way to destinations.
#[derive(Drop)]
pub struct Route {
    pub from: Pattern,
    pub to: Pattern,
    pub via: Via,
}
