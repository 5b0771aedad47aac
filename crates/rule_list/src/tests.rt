ghost use Rattle.std.specs.Prelude.{◌<◌};
ghost use Rattle.conf_types.specs.Kept.{IsListener};

use super::*;
use addr_pattern::{Addr, Endpoint};
use conf_types::Config;
use socks_grammar::{Command, Method, Version};
use std::test::*;

/// A port of 127.0.0.1.
fn at(port: u16) -> Endpoint
    requires { 0 < port }
    ensures { IsListener result }
{
    Endpoint {
        addr: Addr::V4(0x7F00_0001),
        port,
    }
}

/// A configuration without rules lets nobody in.
#[test]
fn no_rules(rt: HostRuntime) -> Result<(), Fail> {
    let config = Config::closed(rt.alloc(), at(1080))?;
    let facts = Facts {
        peer: at(5000),
        local: at(1080),
        command: Command::Connect,
        version: Version::V5,
        method: Method::NoAuth,
        user: None,
        from: at(5000),
        to: at(80),
        name: None,
    };
    assert_eq!(rt; judge(&config, &facts), Verdict::ClientNone);
    assert_eq!(rt; first_client(&config, &at(5000), &at(1080)), None);
    assert_eq!(rt; first_socks(&config, &facts), None);
    assert_eq!(rt; first_route(&config, &facts), None);
    assert!(rt; !client_passes(&config, Some(1)));
    assert_eq!(rt; client_max(&config, Some(1)), None);
    assert_eq!(rt; socks_max(&config, Some(1)), None);
    Ok(())
}
