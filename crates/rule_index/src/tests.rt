ghost use Rattle.std.specs.Prelude.{◌≡◌, ◌≤◌, ◌<◌, length, All, IfOk};
ghost use Rattle.addr_pattern.specs.ReadAgain.{IsPattern};
ghost use Rattle.conf_types.specs.Kept.{IsListener, IsSocksRule};

use crate::RuleIndex;
use addr_pattern::{Addr, Endpoint, HostPattern, Pattern, PortTest};
use conf_types::{ClientRule, Config, Entries, SocksRule};
use lists::List;
use rule_list::{Facts, Verdict};
use socks_grammar::{Command, Method, Version};
use std::alloc::{AllocError, Global};
use std::test::*;

fn at(addr: u32, port: u16) -> Endpoint
    requires { 0 < port }
    ensures { IsListener result }
{
    Endpoint {
        addr: Addr::V4(addr),
        port,
    }
}

fn any() -> Pattern
    ensures { IsPattern result }
{
    Pattern {
        host: HostPattern::Any,
        port: PortTest::Any,
    }
}

/// A rule that passes whatever is asked for, to these destinations.
fn pass_to(alloc: Global, to: Pattern) -> SocksRule
    requires { IsPattern to }
    ensures { IsSocksRule result }
{
    SocksRule {
        pass: true,
        from: any(),
        to,
        connect: true,
        bind: true,
        udpassociate: true,
        bindreply: true,
        udpreply: true,
        tcp: true,
        udp: true,
        noauth: true,
        username: true,
        v4: true,
        v5: true,
        users: List::make(alloc),
        max: None,
    }
}

/// The network 10.A.B.0/24, where A and B are the number divided by 256, and what is left.
fn net(number: u32) -> Pattern
    requires { number < 4096 }
    ensures { IsPattern result }
{
    Pattern {
        host: HostPattern::Net {
            addr: Addr::V4(0x0a00_0000 + number * 256),
            bits: 24,
        },
        port: PortTest::Any,
    }
}

fn nets(alloc: Global) -> Result<List<SocksRule>, AllocError>
    ensures rules { IfOk result (λ rules. All IsSocksRule rules) }
    ensures few { IfOk result (λ rules. length rules ≤ 4096) }
{
    let mut rules = List::make(alloc);
    for number in 0..4096 {
        rules.push(pass_to(alloc, net(number)))?;
    }
    Ok(rules)
}

/// A configuration of these socks rules, and of one client rule.
fn config_of(alloc: Global, socks: List<SocksRule>) -> Result<Config, AllocError>
    requires rules { All IsSocksRule socks }
    requires few { length socks ≤ 4096 }
{
    let mut internals = List::make(alloc);
    internals.push(at(0x7f00_0001, 1080))?;
    let mut methods = List::make(alloc);
    methods.push(Method::NoAuth)?;
    let mut client = List::make(alloc);
    client.push(ClientRule {
        pass: true,
        from: any(),
        to: any(),
        max: None,
    })?;
    Ok(Config::of_entries(Entries {
        internals,
        externals: List::make(alloc),
        control: None,
        methods,
        negotiate: 30,
        io: 0,
        client,
        socks,
        routes: List::make(alloc),
    }))
}

fn facts(to: u32) -> Facts {
    Facts {
        peer: at(0x7f00_0001, 5000),
        local: at(0x7f00_0001, 1080),
        command: Command::Connect,
        version: Version::V5,
        method: Method::NoAuth,
        user: None,
        from: at(0x7f00_0001, 5000),
        to: at(to, 80),
        name: None,
    }
}

/// 4,096 rules, each for a network of its own.
#[test]
fn each_network_has_its_rule(rt: HostRuntime) -> Result<(), Fail> {
    let config = config_of(rt.alloc(), nets(rt.alloc())?)?;
    let Ok(index) = RuleIndex::build(rt.alloc(), &config) else {
        return Err(Fail::new("out of memory"));
    };
    let client = 1;
    assert_eq!(rt;
        index.judge(&config, &facts(0x0a0f_ff09)),
        Verdict::Pass {
            client,
            socks: 4096
        }
    );
    assert_eq!(rt;
        index.judge(&config, &facts(0x0a00_0001)),
        Verdict::Pass { client, socks: 1 }
    );
    assert_eq!(rt;
        index.judge(&config, &facts(0x0a10_0001)),
        Verdict::SocksNone { client }
    );
    Ok(())
}
