use conf_model::read_config;
use conf_types::Config;
use lists::Text;
use std::alloc::Global;

/// A configuration of this many socks rules, one where none are asked for, of which the last alone is for port 80. `None` where
/// memory is refused, or where these are more than a configuration has.
pub fn config_of(alloc: Global, rules: u32) -> Option<Config> {
    let mut text = Text::make(alloc);
    text.add(b"internal: 127.0.0.1\nclient pass { }\n").ok()?;
    for _ in 1..rules {
        text.add(b"socks pass { to: 0/0 port = 81 }\n").ok()?;
    }
    text.add(b"socks pass { to: 0/0 port = 80 }\n").ok()?;
    read_config(alloc, text.as_slice()).ok()
}
