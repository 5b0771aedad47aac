//! What rules say of requests.
use addr_pattern::{Addr, Endpoint, Name};
use conf_model::read_config;
use conf_types::Config;
use rule_list::{Facts, Verdict, first_route, judge};
use socks_grammar::{Command, Method, Version};
use std::alloc::Global;
use std::test::*;

/// What is asked for; a user or a name of no bytes is none.
#[derive(Clone, Copy)]
struct Asked {
    command: Command,
    version: Version,
    method: Method,
    user: &'static str,
    to: &'static str,
    name: &'static str,
}

/// A CONNECT of SOCKS 5 without a login.
const USUAL: Asked = Asked {
    command: Command::Connect,
    version: Version::V5,
    method: Method::NoAuth,
    user: "",
    to: "198.51.100.10:80",
    name: "",
};

fn endpoint(text: &str) -> Option<Endpoint> {
    Endpoint::read(text.as_bytes()).ok()
}

fn name(text: &str) -> Option<Name> {
    Name::read(text.as_bytes()).ok()
}

/// The facts of a client at 10.0.0.5:5000, which came at 127.0.0.1:1080.
fn facts_of(asked: &Asked) -> Option<Facts> {
    Some(Facts {
        peer: endpoint("10.0.0.5:5000")?,
        local: endpoint("127.0.0.1:1080")?,
        command: asked.command,
        version: asked.version,
        method: asked.method,
        user: name(asked.user),
        from: endpoint("10.0.0.5:5000")?,
        to: endpoint(asked.to)?,
        name: name(asked.name),
    })
}

/// The verdict of these rules, behind an endpoint to listen on and both methods.
fn verdict(alloc: Global, rules: &str, asked: &Asked) -> Option<Verdict> {
    let mut text = String::new(alloc);
    text.push_str("internal: 127.0.0.1\nsocksmethod: none username\n")
        .ok()?;
    text.push_str(rules).ok()?;
    let config = read_config(alloc, text.as_bytes()).ok()?;
    let facts = facts_of(asked)?;
    Some(judge(&config, &facts))
}

/// One entry of the only socks rule, what is asked for, and whether the rule takes it.
const ENTRIES: &[(&str, Asked, bool)] = &[
    ("", USUAL, true),
    ("command: connect bind", USUAL, true),
    (
        "command: bind udpassociate bindreply udpreply",
        USUAL,
        false,
    ),
    (
        "command: bind",
        Asked {
            command: Command::Bind,
            ..USUAL
        },
        true,
    ),
    ("protocol: tcp", USUAL, true),
    ("protocol: udp", USUAL, false),
    (
        "protocol: udp",
        Asked {
            command: Command::UdpReply,
            ..USUAL
        },
        true,
    ),
    ("socksmethod: none", USUAL, true),
    ("socksmethod: username", USUAL, false),
    (
        "socksmethod: username",
        Asked {
            method: Method::Username,
            user: "amy",
            ..USUAL
        },
        true,
    ),
    ("proxyprotocol: socks_v5", USUAL, true),
    ("proxyprotocol: socks_v4", USUAL, false),
    (
        "proxyprotocol: socks_v4",
        Asked {
            version: Version::V4,
            ..USUAL
        },
        true,
    ),
    (
        "user: bob amy",
        Asked {
            method: Method::Username,
            user: "amy",
            ..USUAL
        },
        true,
    ),
    (
        "user: bob",
        Asked {
            method: Method::Username,
            user: "amy",
            ..USUAL
        },
        false,
    ),
    (
        "user: Amy",
        Asked {
            method: Method::Username,
            user: "amy",
            ..USUAL
        },
        false,
    ),
    ("user: amy", USUAL, false),
    ("from: 10.0.0.0/24", USUAL, true),
    ("from: 10.0.1.0/24", USUAL, false),
    ("from: 0/0 port = 5000", USUAL, true),
    ("from: 0/0 port = 80", USUAL, false),
    ("to: 198.51.100.0/24", USUAL, true),
    ("to: 192.0.2.0/24", USUAL, false),
    ("to: 0/0 port = 80", USUAL, true),
    ("to: 0/0 port = 5000", USUAL, false),
    (
        "to: .example.com",
        Asked {
            name: "www.EXAMPLE.com.",
            ..USUAL
        },
        true,
    ),
    (
        "to: .example.com",
        Asked {
            name: "badexample.com",
            ..USUAL
        },
        false,
    ),
    ("to: .example.com", USUAL, false),
    (
        "to: 198.51.100.0/24",
        Asked {
            name: "www.example.com",
            ..USUAL
        },
        true,
    ),
];

/// Each entry of a rule decides, for and against.
#[test]
fn each_entry(rt: HostRuntime) -> Result<(), Fail> {
    for (entry, asked, takes) in ENTRIES {
        let mut rules = String::new(rt.alloc());
        write!(&mut rules, "client pass {{ }}\nsocks pass {{ {entry} }}\n")?;
        let answer = if *takes {
            Verdict::Pass {
                client: 1,
                socks: 1,
            }
        } else {
            Verdict::SocksNone { client: 1 }
        };
        assert_eq!(rt;
            verdict(rt.alloc(), rules.as_str(), asked),
            Some(answer),
            "at {entry}"
        );
    }
    Ok(())
}

/// The route of these routes for a destination.
fn route(alloc: Global, routes: &str, asked: &Asked) -> Option<Option<u32>> {
    let mut text = String::new(alloc);
    text.push_str("internal: 127.0.0.1\n").ok()?;
    text.push_str(routes).ok()?;
    let config = read_config(alloc, text.as_bytes()).ok()?;
    let facts = facts_of(asked)?;
    Some(first_route(&config, &facts))
}

/// A proxy of SOCKS 4 can't be asked for IPv6, and routes serve CONNECT alone.
#[test]
fn routes(rt: HostRuntime) {
    let four = "route { via: 192.0.2.1 proxyprotocol: socks_v4 }";
    let near = "route { to: 192.0.2.0/24 via: direct }\nroute { via: 192.0.2.1 }";
    let six = Asked {
        to: "[2001:db8::1]:80",
        ..USUAL
    };
    let bind = Asked {
        command: Command::Bind,
        ..USUAL
    };
    for (text, asked, answer) in [
        (four, USUAL, Some(1)),
        (four, six, None),
        (near, USUAL, Some(2)),
        (near, six, Some(2)),
        (near, bind, None),
        ("", USUAL, None),
    ] {
        assert_eq!(rt; route(rt.alloc(), text, &asked), Some(answer), "at {text}");
    }
}
