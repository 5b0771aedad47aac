/// What is wrong with the text of an address, an endpoint, a name or a pattern.
#[derive(Clone, Copy, PartialEq, Eq, Debug)]
pub enum AddrFault {
    Empty,
    BadOctet,
    BadGroup,
    BadMask,
    HostBits,
    BadName,
    BadPort,
}
