ghost use Rattle.std.specs.Prelude.{◌≤◌, length};
ghost use Rattle.socks5_codec.specs.Steps.{OnTowards};

use crate::host::read_host;
use crate::message::HostAt;
use socks_grammar::Stop;

/// A host and a port, and the place behind them.
#[derive(Clone, Copy, PartialEq, Eq, Debug)]
pub struct Towards {
    pub host: HostAt,
    pub port: u16,
    pub end: usize,
}

/// A host behind its type, and a port (RFC 1928, section 4).
pub fn read_towards(bytes: &[u8], at: usize) -> Result<Towards, Stop>
    requires { at ≤ length bytes.now }
    ensures { OnTowards bytes.now at result }
{
    let (host, behind_host) = read_host(bytes, at)?;
    match &bytes[behind_host..] {
        [high, low, ..] => Ok(Towards {
            host,
            port: u16::from_be_bytes([*high, *low]),
            end: behind_host + 2,
        }),
        _ => Err(Stop::More),
    }
}
