use crate::route::Route;
use crate::rule::{ClientRule, SocksRule};
use addr_pattern::{Addr, Endpoint};
use lists::List;
use socks_grammar::Method;

/// What a configuration says, entry by entry, whatever the values.
///
/// `negotiate` and `io` are limits of time in seconds; 0 is none.
#[derive(Drop)]
pub struct Entries {
    pub internals: List<Endpoint>,
    pub externals: List<Addr>,
    pub control: Option<Endpoint>,
    pub methods: List<Method>,
    pub negotiate: u32,
    pub io: u32,
    pub client: List<ClientRule>,
    pub socks: List<SocksRule>,
    pub routes: List<Route>,
}
