ghost use Rattle.socks5_codec.specs.Reads.{OnReply5};
ghost use Rattle.socks5_codec.specs.Steps.{OnReply};

use crate::destination::{Towards, read_towards};
use crate::message::Reply5;
use addr_pattern::{BadKind, Front};
use socks_grammar::Stop;

fn read_whole(bytes: &[u8]) -> Result<(Reply5, usize), Stop>
    ensures { OnReply bytes.now result }
{
    let code = match bytes {
        [5, code, _, ..] => *code,
        [] | [5] | [5, _] => return Err(Stop::More),
        [version, ..] => return Err(Stop::at(0, *version, BadKind::Version)),
    };
    let Towards { host, port, end } = read_towards(bytes, 3)?;
    Ok((Reply5 { code, host, port }, end))
}

/// The reply at the front of the bytes (RFC 1928, section 6).
///
/// A byte is bad where the version isn't 5, the type of the address isn't 1, 3 or 4, or a name is empty or has a byte
/// outside 21 to 7E. The reserved byte isn't looked at.
pub fn read_reply5(bytes: &[u8]) -> Front<Reply5>
    ensures { OnReply5 bytes.now result }
{
    match read_whole(bytes) {
        Ok((value, len)) => Front::Whole { value, len },
        Err(Stop::More) => Front::More,
        Err(Stop::Bad(bad)) => Front::Bad(bad),
    }
}
