ghost use Rattle.std.specs.Prelude.{◌≡◌, ◌≤◌, ◌+◌, ◌++◌, ◌∷◌, [], length};
ghost use Rattle.socks_grammar.specs.Grammar.{command_byte, spelled_host4, spelled_request4};
ghost use Rattle.socks4_codec.specs.Parts.{spelled_reply4};
ghost use Rattle.socks4_codec.specs.Writes.{IsCommand4, IsHost4, IsUser};

use crate::reply::Reply4;
use addr_pattern::{Addr, Host, Short};
use socks_grammar::Command;

/// The code of a command: 1 for Connect, 2 for Bind (the SOCKS 4 memo).
fn code_of(command: Command) -> u8
    requires { IsCommand4 command }
    ensures { result ≡ command_byte command }
{
    match command {
        Command::Connect => 1,
        Command::Bind => 2,
        _ => unreachable!(),
    }
}

/// Puts the destination's address, the user and, for a name, the name behind what stands.
fn add_host(out: &mut Short, host: &Host, user: &[u8])
    requires host_4 { IsHost4 host.now }
    requires fits { length out.old + length user.now ≤ 259 }
    ensures { out.new ≡ out.old ++ spelled_host4 host.now user.now }
{
    match host {
        Host::Addr(Addr::V4(addr)) => {
            out.add(&addr.to_be_bytes());
            add_ended(out, user);
        }
        Host::Addr(Addr::V6(_)) => unreachable!(),
        Host::Name(name) => {
            out.add(&[0, 0, 0, 1]);
            add_ended(out, user);
            add_ended(out, name.as_bytes());
        }
    }
}

/// Puts bytes and a 00 behind what stands.
fn add_ended(out: &mut Short, bytes: &[u8])
    requires { length out.old + length bytes.now + 1 ≤ 520 }
    ensures { out.new ≡ out.old ++ bytes.now ++ 0 ∷ [] }
{
    out.add(bytes);
    out.add(&[0]);
}

/// The bytes of a request (the SOCKS 4 and 4A memos). A name is written in the form of 4A, with the address 0.0.0.1.
///
/// An address 0.0.0.x with x not 0 is written as it is, and reads as the sign of a name.
pub fn write_request4(command: Command, host: &Host, port: u16, user: &[u8]) -> Short
    requires command_4 { IsCommand4 command }
    requires host_4 { IsHost4 host.now }
    requires user { IsUser user.now }
    ensures { result ≡ spelled_request4 command host.now port user.now }
{
    let mut out = Short::empty();
    out.add(&[4, code_of(command)]);
    out.add(&port.to_be_bytes());
    add_host(&mut out, host, user);
    out
}

/// The bytes of a reply (the SOCKS 4 memo).
pub fn write_reply4(reply: &Reply4) -> Short
    ensures { result ≡ spelled_reply4 reply.now }
{
    let mut out = Short::empty();
    out.add(&[0, reply.code]);
    out.add(&reply.port.to_be_bytes());
    out.add(&reply.addr.to_be_bytes());
    out
}
