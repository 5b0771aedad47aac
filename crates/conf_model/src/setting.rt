use addr_pattern::{Addr, Endpoint};
use conf_types::{ClientRule, Route, SocksRule};
use lists::List;
use socks_grammar::Method;

/// What one statement says.
#[derive(Drop)]
pub enum Setting {
    Internal(Endpoint),
    External(Addr),
    Control(Endpoint),
    Methods(List<Method>),
    /// Seconds for a prelude; 0 is no limit.
    Negotiate(u32),
    /// Seconds without a byte in a relay; 0 is no limit.
    Io(u32),
    Client(ClientRule),
    Socks(SocksRule),
    Route(Route),
    /// It is read and changes nothing.
    NoEffect,
}
