ghost use Rattle.socks5_codec.specs.Reads.{OnRequest5};
ghost use Rattle.socks5_codec.specs.Steps.{OnHead, OnWhole};

use crate::destination::{Towards, read_towards};
use crate::message::Request5;
use addr_pattern::{BadKind, Front};
use socks_grammar::{Command, Stop};

/// Version, command and reserved byte (RFC 1928, section 4).
fn read_head(bytes: &[u8]) -> Result<Command, Stop>
    ensures { OnHead bytes.now result }
{
    match bytes {
        [5, 1, _, ..] => Ok(Command::Connect),
        [5, 2, _, ..] => Ok(Command::Bind),
        [5, 3, _, ..] => Ok(Command::UdpAssociate),
        [] | [5] | [5, 1..=3] => Err(Stop::More),
        [5, code, ..] => Err(Stop::at(1, *code, BadKind::Command)),
        [version, ..] => Err(Stop::at(0, *version, BadKind::Version)),
    }
}

fn read_whole(bytes: &[u8]) -> Result<(Request5, usize), Stop>
    ensures { OnWhole bytes.now result }
{
    let command = read_head(bytes)?;
    let Towards { host, port, end } = read_towards(bytes, 3)?;
    Ok((
        Request5 {
            command,
            host,
            port,
        },
        end,
    ))
}

/// The request at the front of the bytes (RFC 1928, section 4).
///
/// A byte is bad where the version isn't 5, the command isn't 1 to 3, the type of the address isn't 1, 3 or 4, or a name
/// is empty or has a byte outside 21 to 7E. The reserved byte isn't looked at.
pub fn read_request5(bytes: &[u8]) -> Front<Request5>
    ensures { OnRequest5 bytes.now result }
{
    match read_whole(bytes) {
        Ok((value, len)) => Front::Whole { value, len },
        Err(Stop::More) => Front::More,
        Err(Stop::Bad(bad)) => Front::Bad(bad),
    }
}
