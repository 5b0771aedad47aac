use crate::addr::Addr;

/// An address and a port.
#[derive(Clone, Copy, PartialEq, Eq, Debug)]
pub struct Endpoint {
    pub addr: Addr,
    pub port: u16,
}
