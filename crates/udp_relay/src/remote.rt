ghost use Rattle.std.specs.Prelude.{◌≡◌, ℕ, Some};
ghost use Rattle.rule_index.specs.Index.{IsIndexOf};
ghost use Rattle.socks_machine.specs.Datagrams.{in_to};
ghost use Rattle.udp_relay.specs.Outcomes.{grant_with, shown};

use crate::judging::allows;
use crate::outcome::{DropReason, Outcome};
use addr_pattern::Endpoint;
use conf_types::Config;
use rule_index::RuleIndex;
use rule_list::Facts;
use socks_grammar::Command;
use socks5_codec::write_udp_head;

/// The most bytes that a datagram can carry over IPv4: 65,535 without the headers of IP and UDP.
const MOST: usize = 65507;

/// What becomes of a datagram that a remote host sent, where the client's endpoint is known (RFC 1928, section 7).
pub fn from_remote(
    client: Endpoint,
    from: Endpoint,
    bytes: &[u8],
    config: &Config,
    index: &RuleIndex,
    facts: &Facts,
) -> Outcome
    requires { IsIndexOf config.now index.now }
    ensures { (g : ℕ) → shown g bytes.now result ≡ in_to (Some config.now) (grant_with facts.now) (record { peer = from; bytes = bytes.now; generation = g }) client }
{
    if !allows(config, index, facts, Command::UdpReply, from, client) {
        return Outcome::Dropped(DropReason::Rule);
    }
    let head = write_udp_head(&from);
    if head.as_slice().len() + bytes.len() > MOST {
        return Outcome::Dropped(DropReason::Length);
    }
    Outcome::ToClient { to: client, head }
}
