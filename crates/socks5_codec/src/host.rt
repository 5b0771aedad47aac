ghost use Rattle.std.specs.Prelude.{◌≡◌, ◌≤◌, ◌+◌, not, length, position};
ghost use Rattle.addr_pattern.specs.Names.{is_name_byte as is_name_byte_of};
ghost use Rattle.socks5_codec.specs.Parts.{ipv4_spelled, ipv6_spelled, name_spelled, typed_host};
ghost use Rattle.socks5_codec.specs.Steps.{OnHost};

use crate::message::HostAt;
use addr_pattern::{Addr, BadKind, Span, is_name_byte};
use socks_grammar::Stop;

fn first_unfit(bytes: &[u8]) -> Option<usize>
    ensures { result ≡ position (λ b. not (is_name_byte_of b)) bytes.now }
{
    bytes.iter().position(|byte| !is_name_byte(*byte))
}

fn read_ipv4(bytes: &[u8], at: usize) -> Result<(HostAt, usize), Stop>
    requires { at ≤ length bytes.now }
    ensures { OnHost ipv4_spelled bytes.now at at result }
{
    match bytes[at..].first_chunk() {
        Some(octets) => {
            let addr = u32::from_be_bytes(*octets);
            Ok((HostAt::Addr(Addr::V4(addr)), at + 4))
        }
        None => Err(Stop::More),
    }
}

fn read_ipv6(bytes: &[u8], at: usize) -> Result<(HostAt, usize), Stop>
    requires { at ≤ length bytes.now }
    ensures { OnHost ipv6_spelled bytes.now at at result }
{
    match bytes[at..].first_chunk() {
        Some(octets) => {
            let addr = u128::from_be_bytes(*octets);
            Ok((HostAt::Addr(Addr::V6(addr)), at + 16))
        }
        None => Err(Stop::More),
    }
}

/// A name behind its length.
fn read_name(bytes: &[u8], at: usize) -> Result<(HostAt, usize), Stop>
    requires { at ≤ length bytes.now }
    ensures { OnHost name_spelled bytes.now at (at + 1) result }
{
    match &bytes[at..] {
        [] => Err(Stop::More),
        [0, ..] => Err(Stop::at(at, 0, BadKind::Field)),
        [count, rest @ ..] => {
            let len = usize::from(*count);
            let name = &rest[..rest.len().min(len)];
            match first_unfit(name) {
                Some(place) => Err(Stop::at(at + 1 + place, name[place], BadKind::Field)),
                None if name.len() < len => Err(Stop::More),
                None => Ok((HostAt::Name(Span { at: at + 1, len }), at + 1 + len)),
            }
        }
    }
}

/// A host behind its type, and the place behind it (RFC 1928, section 5).
pub fn read_host(bytes: &[u8], at: usize) -> Result<(HostAt, usize), Stop>
    requires { at ≤ length bytes.now }
    ensures { OnHost typed_host bytes.now at (at + 2) result }
{
    match &bytes[at..] {
        [] => Err(Stop::More),
        [1, ..] => read_ipv4(bytes, at + 1),
        [3, ..] => read_name(bytes, at + 1),
        [4, ..] => read_ipv6(bytes, at + 1),
        [atyp, ..] => Err(Stop::at(at, *atyp, BadKind::Atyp)),
    }
}
