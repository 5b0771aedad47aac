use addr_pattern::Endpoint;
use lists::Text;

/// A datagram, with the endpoint that it came from or goes to.
#[derive(Drop)]
pub struct Datagram {
    pub peer: Endpoint,
    pub bytes: Text,
}

/// Where a datagram goes to, and how many bytes it has.
#[derive(Clone, Copy)]
pub struct Addressed {
    pub to: Endpoint,
    pub len: usize,
}
