//! Requests with their hosts.
ghost use Rattle.std.specs.Prelude.{◌≡◌, ◌+◌, option_map, slice_range};
ghost use Rattle.addr_pattern.specs.AddressText.{host_of};
ghost use Rattle.socks_grammar.specs.Fronts.{IsFront};
ghost use Rattle.socks_grammar.specs.Grammar.{request4, request5};
ghost use Rattle.socks4_codec.specs.Parts.{host_named};
ghost use Rattle.socks4_codec.specs.Placed.{bytes_in};
ghost use Rattle.socks5_codec.specs.Parts.{meant};
ghost use Rattle.socks5_codec.specs.Placed.{host_in};
ghost use Rattle.handshake_core.specs.Asking.{asked_in, IsNameAt, IsNameAt4, IsHostAt};

use addr_pattern::{Addr, Front, Host, Span};
use socks_grammar::Command;
use socks4_codec::read_request4;
use socks5_codec::{HostAt, read_request5};

/// What a request asks for.
#[derive(Drop)]
pub struct Asked {
    pub command: Command,
    pub host: Host,
    pub port: u16,
}

/// A name that is the text of an address is that address.
fn host_at(bytes: &[u8], name: Span) -> Host
    requires { IsNameAt bytes.now name }
    ensures { result ≡ host_of (slice_range bytes.now name.at (name.at + name.len)) }
{
    match Host::read(&bytes[name.at..name.at + name.len]) {
        Ok(host) => host,
        Err(_) => unreachable!(),
    }
}

/// The address is passed over where a name stands (the SOCKS 4A memo).
fn host4(bytes: &[u8], addr: u32, name: Option<Span>) -> Host
    requires { IsNameAt4 bytes.now name }
    ensures { result ≡ host_named addr (option_map (bytes_in bytes.now) name) }
{
    match name {
        None => Host::Addr(Addr::V4(addr)),
        Some(name) => host_at(bytes, name),
    }
}

/// The request of version 4 at the front of the bytes (the SOCKS 4 and 4A memos).
pub fn read_asked4(bytes: &[u8]) -> Front<Asked>
    ensures { IsFront asked_in result (request4 0 bytes.now) }
{
    match read_request4(bytes) {
        Front::Whole { value, len } => {
            let host = host4(bytes, value.addr, value.name);
            let value = Asked {
                command: value.command,
                host,
                port: value.port,
            };
            Front::Whole { value, len }
        }
        Front::More => Front::More,
        Front::Bad(bad) => Front::Bad(bad),
    }
}

/// An address is taken as it stands (RFC 1928, section 5).
fn host5(bytes: &[u8], host: HostAt) -> Host
    requires { IsHostAt bytes.now host }
    ensures { result ≡ meant (host_in bytes.now host) }
{
    match host {
        HostAt::Addr(addr) => Host::Addr(addr),
        HostAt::Name(name) => host_at(bytes, name),
    }
}

/// The request of version 5 at the front of the bytes (RFC 1928, section 4).
pub fn read_asked5(bytes: &[u8]) -> Front<Asked>
    ensures { IsFront asked_in result (request5 0 bytes.now) }
{
    match read_request5(bytes) {
        Front::Whole { value, len } => {
            let value = Asked {
                command: value.command,
                host: host5(bytes, value.host),
                port: value.port,
            };
            Front::Whole { value, len }
        }
        Front::More => Front::More,
        Front::Bad(bad) => Front::Bad(bad),
    }
}
