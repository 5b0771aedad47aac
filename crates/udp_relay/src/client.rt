ghost use Rattle.std.specs.Prelude.{◌≡◌, ℕ, Some};
ghost use Rattle.addr_pattern.specs.AddressText.{host_of};
ghost use Rattle.rule_index.specs.Index.{IsIndexOf};
ghost use Rattle.socks5_codec.specs.Parts.{meant};
ghost use Rattle.socks5_codec.specs.Placed.{host_in};
ghost use Rattle.socks_grammar.specs.Grammar.{udp_header};
ghost use Rattle.socks_machine.specs.Datagrams.{out_with};
ghost use Rattle.udp_relay.specs.Outcomes.{IsInside, addr_in, grant_with, is_of_other_family as is_of_other_family_in, shown};

use crate::judging::allows;
use crate::outcome::{DropReason, Outcome};
use addr_pattern::{Addr, Endpoint, Front};
use conf_types::Config;
use rule_index::RuleIndex;
use rule_list::Facts;
use socks_grammar::Command;
use socks5_codec::{HostAt, read_udp_head};

/// The address that a name is the text of.
fn named_addr(name: &[u8]) -> Option<Addr>
    ensures { result ≡ addr_in (host_of name.now) }
{
    match Addr::read(name) {
        Ok(addr) => Some(addr),
        Err(_) => None,
    }
}

/// The address of a host (RFC 1928, section 5). A name that is the text of an address stands for it; any other has none.
fn addr_of(bytes: &[u8], host: HostAt) -> Option<Addr>
    requires { IsInside bytes.now host }
    ensures { result ≡ addr_in (meant (host_in bytes.now host)) }
{
    match host {
        HostAt::Addr(addr) => Some(addr),
        HostAt::Name(name) => named_addr(&bytes[name.at..name.at + name.len]),
    }
}

/// Whether there is an address, and it is of another family than the port.
fn is_of_other_family(addr: Option<Addr>, port: Addr) -> bool
    ensures { result ≡ is_of_other_family_in addr port }
{
    match (addr, port) {
        (Some(Addr::V4(_)), Addr::V6(_)) | (Some(Addr::V6(_)), Addr::V4(_)) => true,
        _ => false,
    }
}

/// What becomes of a datagram that the client sent to the port (RFC 1928, section 7).
pub fn from_client(
    port: Endpoint,
    from: Endpoint,
    bytes: &[u8],
    config: &Config,
    index: &RuleIndex,
    facts: &Facts,
) -> Outcome
    requires { IsIndexOf config.now index.now }
    ensures { (g : ℕ) → shown g bytes.now result ≡ out_with (Some config.now) (grant_with facts.now) port (record { peer = from; bytes = bytes.now; generation = g }) (udp_header 0 bytes.now) }
{
    let Front::Whole { value: head, len } = read_udp_head(bytes) else {
        return Outcome::Dropped(DropReason::Header);
    };
    let addr = addr_of(bytes, head.host);
    if is_of_other_family(addr, port.addr) {
        return Outcome::Dropped(DropReason::Header);
    }
    if head.frag != 0 {
        return Outcome::Dropped(DropReason::Fragment);
    }
    let Some(addr) = addr else {
        return Outcome::Dropped(DropReason::Name);
    };
    let to = Endpoint {
        addr,
        port: head.port,
    };
    if !allows(config, index, facts, Command::UdpAssociate, from, to) {
        return Outcome::Dropped(DropReason::Rule);
    }
    Outcome::ToRemote { to, at: len }
}
