ghost use Rattle.std.specs.Prelude.{◌≡◌, ◌≤◌, ◌+◌, ◌++◌, Some, None, MatchOption, length};
ghost use Rattle.addr_pattern.specs.AddressText.{bracketed, endpoint_text};
ghost use Rattle.addr_pattern.specs.Cuts.{between};
ghost use Rattle.addr_pattern.specs.Reading.{bracketed_read, endpoint_read};

use crate::addr::Addr;
use crate::addr_text::{read_v4, read_v6};
use crate::cut::cut_last;
use crate::endpoint::Endpoint;
use crate::fault::AddrFault;
use crate::ipv4::add_ipv4;
use crate::ipv6_text::add_ipv6;
use crate::number::{add_number, read_number};
use crate::short::Short;

impl Endpoint {
    /// An address, `:` and a port 0 to 65535 without leading zeros. The text is cut at its last `:`, and `BadPort`
    /// is found first, also for no `:`. Before it stands an address of IPv6 in brackets, or one of IPv4.
    pub fn read(text: &[u8]) -> Result<Endpoint, AddrFault>
        ensures { result ≡ endpoint_read text.now }
    {
        let Some((host, digits)) = cut_last(text, b':') else {
            return Err(AddrFault::BadPort);
        };
        let Some(port) = read_number(digits, 65535) else {
            return Err(AddrFault::BadPort);
        };
        match read_bracketed(host) {
            Err(fault) => Err(fault),
            Ok(addr) => Ok(Endpoint {
                addr,
                port: port as u16,
            }),
        }
    }

    pub fn write(&self) -> Short
        ensures { result ≡ endpoint_text self.now }
    {
        let mut text = Short::empty();
        add_bracketed(&mut text, self.addr);
        text.add(b":");
        add_number(&mut text, self.port);
        text
    }
}

fn read_bracketed(host: &[u8]) -> Result<Addr, AddrFault>
    ensures { result ≡ bracketed_read host.now }
{
    match inside_brackets(host) {
        Some(inside) => read_v6(inside),
        None => read_v4(host),
    }
}

/// What stands between brackets that are the first byte and the last.
fn inside_brackets(text: &[u8]) -> Option<&[u8]>
    ensures { MatchOption result (between 91 93 text.now ≡ None) (λ t. between 91 93 text.now ≡ Some t.now) }
{
    let (first, rest) = text.split_first()?;
    if *first != b'[' {
        return None;
    }
    let (last, inside) = rest.split_last()?;
    if *last == b']' { Some(inside) } else { None }
}

fn add_bracketed(out: &mut Short, addr: Addr)
    requires { length out.old ≤ 100 }
    ensures added { out.new ≡ out.old ++ bracketed addr }
    ensures short { length out.new ≤ length out.old + 84 }
{
    match addr {
        Addr::V4(addr) => add_ipv4(out, addr),
        Addr::V6(addr) => {
            out.add(b"[");
            add_ipv6(out, addr);
            out.add(b"]");
        }
    }
}
