ghost use Rattle.std.specs.Prelude.{◌≡◌, Some};
ghost use Rattle.addr_pattern.specs.Equal.{addr_eq, endpoint_eq};
ghost use Rattle.rule_index.specs.Index.{IsIndexOf};
ghost use Rattle.socks_machine.specs.Datagrams.{fate, learned as learned_of};
ghost use Rattle.socks_machine.specs.declared.record.Gram.{Gram};
ghost use Rattle.socks_machine.specs.Decisions.{Grant};
ghost use Rattle.udp_relay.specs.Outcomes.{shown};

use crate::client::from_client;
use crate::outcome::{DropReason, Outcome};
use crate::remote::from_remote;
use addr_pattern::{Addr, Endpoint};
use conf_types::Config;
use rule_index::RuleIndex;
use rule_list::Facts;

/// The sides of a UDP association: the port's own endpoint, the address of the client's TCP peer, and the client's UDP port as far
/// as it is known.
#[derive(Clone, Copy, Debug, PartialEq, Eq)]
pub struct Sides {
    pub local: Endpoint,
    pub client: Addr,
    pub port: Option<u16>,
}

fn is_same_addr(a: Addr, b: Addr) -> bool
    ensures { result ≡ addr_eq a b }
{
    match (a, b) {
        (Addr::V4(a), Addr::V4(b)) => a == b,
        (Addr::V6(a), Addr::V6(b)) => a == b,
        _ => false,
    }
}

fn is_same(a: Endpoint, b: Endpoint) -> bool
    ensures { result ≡ endpoint_eq a b }
{
    is_same_addr(a.addr, b.addr) && a.port == b.port
}

/// The client's UDP port as it is known from a datagram on: the one that is known already, or that of the first datagram from the
/// client's address.
pub fn learned(client: Addr, known: Option<u16>, from: Endpoint) -> Option<u16>
    ensures { (d : Gram) → d.peer ≡ from → result ≡ learned_of client known d }
{
    if known.is_none() && is_same_addr(from.addr, client) {
        return Some(from.port);
    }
    known
}

/// What becomes of a datagram (RFC 1928, section 7), judged by both lists of a configuration. `facts` are those of the grant, and
/// `sides.port` is the client's port as it is known from this datagram on.
///
/// From the client's endpoint it is dropped as `Header`, `Fragment`, `Name` or `Rule`, tested in this order; from any other as
/// `Source`, `Rule` or `Length`.
pub fn outcome_of(
    sides: &Sides,
    from: Endpoint,
    bytes: &[u8],
    config: &Config,
    index: &RuleIndex,
    facts: &Facts,
) -> Outcome
    requires { IsIndexOf config.now index.now }
    ensures { (grant : Grant) (d : Gram) → grant.facts ≡ facts.now → d.peer ≡ from → d.bytes ≡ bytes.now → shown d.generation bytes.now result ≡ fate (Some config.now) grant sides.now.local sides.now.client sides.now.port d }
{
    let Some(port) = sides.port else {
        return Outcome::Dropped(DropReason::Source);
    };
    let client = Endpoint {
        addr: sides.client,
        port,
    };
    if is_same(from, client) {
        from_client(sides.local, from, bytes, config, index, facts)
    } else {
        from_remote(client, from, bytes, config, index, facts)
    }
}
