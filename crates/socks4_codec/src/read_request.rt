ghost use Rattle.std.specs.Prelude.{◌≡◌};
ghost use Rattle.socks_grammar.specs.Grammar.{means_name as means_name_of};
ghost use Rattle.socks4_codec.specs.Reads.{OnFixed4, OnRequest4, OnWhole4};

use crate::read_name::{read_name, read_user};
use crate::request::Request4;
use addr_pattern::{BadKind, Front};
use socks_grammar::{Command, Stop};

/// The part of a request that always has 8 bytes.
#[derive(Clone, Copy, PartialEq, Eq, Debug)]
struct Fixed {
    command: Command,
    port: u16,
    addr: u32,
}

/// Version, command, port and address (the SOCKS 4 memo).
fn read_fixed(bytes: &[u8]) -> Result<Fixed, Stop>
    ensures { OnFixed4 bytes.now result }
{
    match bytes {
        [4, code @ 1..=2, p, q, a, b, c, d, ..] => Ok(Fixed {
            command: if *code == 1 {
                Command::Connect
            } else {
                Command::Bind
            },
            port: u16::from_be_bytes([*p, *q]),
            addr: u32::from_be_bytes([*a, *b, *c, *d]),
        }),
        [] | [4] | [4, 1..=2, ..] => Err(Stop::More),
        [4, code, ..] => Err(Stop::at(1, *code, BadKind::Command)),
        [version, ..] => Err(Stop::at(0, *version, BadKind::Version)),
    }
}

/// Whether the address is 0.0.0.x with x not 0: a name follows (the SOCKS 4A memo).
fn means_name(addr: u32) -> bool
    ensures { result ≡ means_name_of addr }
{
    0 < addr && addr < 256
}

/// A request, and the place behind it.
fn read_whole(bytes: &[u8]) -> Result<(Request4, usize), Stop>
    ensures { OnWhole4 bytes.now result }
{
    let fixed = read_fixed(bytes)?;
    let user = read_user(bytes, 8)?;
    let behind_user = 9 + user.len;
    let mut request = Request4 {
        command: fixed.command,
        port: fixed.port,
        addr: fixed.addr,
        user,
        name: None,
    };
    if !means_name(fixed.addr) {
        return Ok((request, behind_user));
    }
    let name = read_name(bytes, behind_user)?;
    request.name = Some(name);
    Ok((request, behind_user + name.len + 1))
}

/// The request at the front of the bytes (the SOCKS 4 and 4A memos).
///
/// A byte is bad where the version isn't 4, the command isn't 1 or 2, a user has no 00 among its first 256 bytes, or a
/// name is empty, has a byte outside 21 to 7E, or no 00 among its first 256 bytes.
pub fn read_request4(bytes: &[u8]) -> Front<Request4>
    ensures { OnRequest4 bytes.now result }
{
    match read_whole(bytes) {
        Ok((value, len)) => Front::Whole { value, len },
        Err(Stop::More) => Front::More,
        Err(Stop::Bad(bad)) => Front::Bad(bad),
    }
}
