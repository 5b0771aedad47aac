ghost use Rattle.std.specs.Prelude.{◌≡◌};
ghost use Rattle.socks_grammar.specs.Grammar.{spelled_udp_header};
ghost use Rattle.socks5_codec.specs.Reads.{OnUdpHead};
ghost use Rattle.socks5_codec.specs.Steps.{OnHeader};

use crate::destination::{Towards, read_towards};
use crate::message::UdpHead;
use crate::write::add_endpoint;
use addr_pattern::{Endpoint, Front, Short};
use socks_grammar::Stop;

fn read_whole(bytes: &[u8]) -> Result<(UdpHead, usize), Stop>
    ensures { OnHeader bytes.now result }
{
    let frag = match bytes {
        [_, _, frag, ..] => *frag,
        _ => return Err(Stop::More),
    };
    let Towards { host, port, end } = read_towards(bytes, 3)?;
    Ok((UdpHead { frag, host, port }, end))
}

/// The header at the front of a datagram (RFC 1928, section 7).
///
/// A byte is bad where the type of the address isn't 1, 3 or 4, or a name is empty or has a byte outside 21 to 7E. The two
/// reserved bytes aren't looked at.
pub fn read_udp_head(bytes: &[u8]) -> Front<UdpHead>
    ensures { OnUdpHead bytes.now result }
{
    match read_whole(bytes) {
        Ok((value, len)) => Front::Whole { value, len },
        Err(Stop::More) => Front::More,
        Err(Stop::Bad(bad)) => Front::Bad(bad),
    }
}

/// The bytes of the header of a datagram that is no fragment (RFC 1928, section 7: FRAG is 00).
pub fn write_udp_head(at: &Endpoint) -> Short
    ensures { result ≡ spelled_udp_header at.now }
{
    let mut out = Short::empty();
    out.add(&[0, 0, 0]);
    add_endpoint(&mut out, at);
    out
}
