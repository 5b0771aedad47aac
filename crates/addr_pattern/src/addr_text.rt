ghost use Rattle.std.specs.Prelude.{◌≡◌, ◌≤◌, ◌+◌, ◌++◌, length};
ghost use Rattle.addr_pattern.specs.AddressText.{addr_text};
ghost use Rattle.addr_pattern.specs.Reading.{addr_read, ipv4_read, ipv6_read};

use crate::addr::Addr;
use crate::fault::AddrFault;
use crate::ipv4::{add_ipv4, read_ipv4};
use crate::ipv6::read_ipv6;
use crate::ipv6_text::add_ipv6;
use crate::short::Short;

impl Addr {
    /// `Empty` for no bytes. A text with a `:` is an address of IPv6 (RFC 4291, section 2.2), or `BadGroup`; any
    /// other is one of IPv4, or `BadOctet`.
    pub fn read(text: &[u8]) -> Result<Addr, AddrFault>
        ensures { result ≡ addr_read text.now }
    {
        if text.contains(&b':') {
            read_v6(text)
        } else {
            read_v4(text)
        }
    }

    /// IPv4 as four numbers with dots between them; IPv6 after RFC 5952, section 4, without a dotted tail.
    pub fn write(&self) -> Short
        ensures { result ≡ addr_text self.now }
    {
        let mut text = Short::empty();
        match self {
            Addr::V4(addr) => add_ipv4(&mut text, *addr),
            Addr::V6(addr) => add_ipv6(&mut text, *addr),
        }
        text
    }
}

pub fn read_v4(text: &[u8]) -> Result<Addr, AddrFault>
    ensures { result ≡ ipv4_read text.now }
{
    if text.is_empty() {
        return Err(AddrFault::Empty);
    }
    match read_ipv4(text) {
        None => Err(AddrFault::BadOctet),
        Some(addr) => Ok(Addr::V4(addr)),
    }
}

pub fn read_v6(text: &[u8]) -> Result<Addr, AddrFault>
    ensures { result ≡ ipv6_read text.now }
{
    if text.is_empty() {
        return Err(AddrFault::Empty);
    }
    match read_ipv6(text) {
        None => Err(AddrFault::BadGroup),
        Some(addr) => Ok(Addr::V6(addr)),
    }
}
