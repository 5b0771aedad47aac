/// A reply of SOCKS 4: its code, 90 for a request that is granted and 91 to 93 for one that is refused, and an endpoint.
#[derive(Clone, Copy, PartialEq, Eq, Debug)]
pub struct Reply4 {
    pub code: u8,
    pub port: u16,
    pub addr: u32,
}
