ghost use Rattle.std.specs.Prelude.{◌<◌};

use crate::request::request;
use crate::size::RULES;
use addr_pattern::{Addr, Endpoint};
use conf_model::read_config;
use conf_types::Config;
use lists::Text;
use rule_list::Facts;
use std::alloc::Global;

/// The address of this number in the network of a rule: 10.A.B.0/24, where A and B are the number of the rule, from 0, divided by 256, and
/// what is left.
fn address_in(rule: u32, number: u8) -> Addr
    requires { rule < 4096 }
{
    Addr::V4(0x0a00_0000 + rule * 256 + number as u32)
}

/// A configuration of this many socks rules, each for a network of its own. `None` where memory is refused.
pub fn nets_of(alloc: Global, rules: u32) -> Option<Config> {
    let mut text = Text::make(alloc);
    text.add(b"internal: 127.0.0.1\nclient pass { }\n").ok()?;
    for rule in 0..rules.min(RULES) {
        text.add(b"socks pass { from: 0/0 to: ").ok()?;
        text.add(address_in(rule, 0).write().as_slice()).ok()?;
        text.add(b"/24 }\n").ok()?;
    }
    read_config(alloc, text.as_slice()).ok()
}

/// A CONNECT to an address of the last of these networks.
pub fn last_request(rules: u32) -> Facts {
    let last = rules.min(RULES).saturating_sub(1);
    Facts {
        to: Endpoint {
            addr: address_in(last, 9),
            port: 80,
        },
        ..request()
    }
}
