ghost use Rattle.std.specs.Prelude.{◌≡◌, ◌≤◌, ◌<◌, length, All, IfOk};
ghost use Rattle.addr_pattern.specs.ReadAgain.{IsPattern};
ghost use Rattle.conf_types.specs.Kept.{IsListener, IsSocksRule};

use super::*;
use addr_pattern::{Addr, Endpoint, HostPattern, Pattern, PortTest};
use conf_types::{ClientRule, Config, Entries, SocksRule};
use lists::List;
use rule_index::RuleIndex;
use rule_list::Facts;
use socks_grammar::{Command, Method, Version};
use std::alloc::{AllocError, Global};
use std::test::*;

const CLIENT: Endpoint = Endpoint {
    addr: Addr::V4(0x0a00_0005),
    port: 6000,
};

const REMOTE: Endpoint = Endpoint {
    addr: Addr::V4(0xc633_640a),
    port: 53,
};

const LOCAL: Endpoint = Endpoint {
    addr: Addr::V4(0xc000_0209),
    port: 40002,
};

fn any() -> Pattern
    ensures { IsPattern result }
{
    Pattern {
        host: HostPattern::Any,
        port: PortTest::Any,
    }
}

/// A rule that passes datagrams alone.
fn pass_datagrams(alloc: Global) -> SocksRule
    ensures { IsSocksRule result }
{
    SocksRule {
        pass: true,
        from: any(),
        to: any(),
        connect: false,
        bind: false,
        udpassociate: true,
        bindreply: false,
        udpreply: true,
        tcp: false,
        udp: true,
        noauth: true,
        username: true,
        v4: true,
        v5: true,
        users: List::make(alloc),
        max: None,
    }
}

fn listener() -> Endpoint
    ensures { IsListener result }
{
    Endpoint {
        addr: Addr::V4(0x7f00_0001),
        port: 1080,
    }
}

/// A configuration with one client rule and one socks rule.
fn config_of(alloc: Global) -> Result<Config, AllocError> {
    let mut internals = List::make(alloc);
    internals.push(listener())?;
    let mut methods = List::make(alloc);
    methods.push(Method::NoAuth)?;
    let mut client = List::make(alloc);
    client.push(ClientRule {
        pass: true,
        from: any(),
        to: any(),
        max: None,
    })?;
    let mut socks = List::make(alloc);
    socks.push(pass_datagrams(alloc))?;
    Ok(Config::of_entries(Entries {
        internals,
        externals: List::make(alloc),
        control: None,
        methods,
        negotiate: 30,
        io: 0,
        client,
        socks,
        routes: List::make(alloc),
    }))
}

fn facts() -> Facts {
    Facts {
        peer: CLIENT,
        local: LOCAL,
        command: Command::UdpAssociate,
        version: Version::V5,
        method: Method::NoAuth,
        user: None,
        from: CLIENT,
        to: LOCAL,
        name: None,
    }
}

/// Where the datagram goes to, or why it is dropped.
fn shown(outcome: &Outcome) -> Result<Endpoint, DropReason> {
    match outcome {
        Outcome::ToRemote { to, .. } | Outcome::ToClient { to, .. } => Ok(*to),
        Outcome::Dropped(reason) => Err(*reason),
    }
}

#[test]
fn each_datagram_has_its_outcome(rt: HostRuntime) -> Result<(), Fail> {
    let config = config_of(rt.alloc())?;
    let Ok(index) = RuleIndex::build(rt.alloc(), &config) else {
        return Err(Fail::new("out of memory"));
    };
    let sides = Sides {
        local: LOCAL,
        client: CLIENT.addr,
        port: learned(CLIENT.addr, None, CLIENT),
    };
    let rows = [
        (
            CLIENT,
            b"\0\0\0\x01\xc6\x33\x64\x0a\0\x35c".as_slice(),
            Ok(REMOTE),
        ),
        (
            CLIENT,
            b"\0\0\0\x03\x0d198.51.100.10\0\x35c".as_slice(),
            Ok(REMOTE),
        ),
        (
            CLIENT,
            b"\0\0\0\x03\x06a.test\0\x35d".as_slice(),
            Err(DropReason::Name),
        ),
        (
            CLIENT,
            b"\0\0\x01\x01\xc6\x33\x64\x0a\0\x35a".as_slice(),
            Err(DropReason::Fragment),
        ),
        (CLIENT, b"\0\0\0\x05".as_slice(), Err(DropReason::Header)),
        (REMOTE, b"d".as_slice(), Ok(CLIENT)),
    ];
    for (from, bytes, wanted) in &rows {
        let outcome = outcome_of(&sides, *from, *bytes, &config, &index, &facts());
        assert_eq!(rt; shown(&outcome), *wanted);
    }
    Ok(())
}
