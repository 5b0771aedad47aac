ghost use Rattle.std.specs.Prelude.{◌<◌};

use super::*;
use addr_pattern::{Addr, Endpoint};
use conf_types::Config;
use std::alloc::Global;

/// A configuration that listens at this port.
fn config_at(alloc: Global, port: u16) -> Option<Config>
    requires { 0 < port }
{
    let at = Endpoint {
        addr: Addr::V4(0x7F00_0001),
        port,
    };
    Config::closed(alloc, at).ok()
}

/// Two are published: each has its number, the last is seen, and both can be looked up and shared.
fn sees_the_last(alloc: Global) -> Option<bool> {
    let mut gens = ListGens::make(alloc);
    let first = config_at(alloc, 1080)?;
    let second = config_at(alloc, 1081)?;
    if gens.push(first).ok()? != 1 {
        return Some(false);
    }
    let early = gens.see();
    if gens.push(second).ok()? != 2 {
        return Some(false);
    }
    let kept = gens.snap().share().ok()?;
    let late = gens.see();
    Some(
        early == 1
            && late == 2
            && kept.number == 1
            && port_of(&kept) == Some(1080)
            && port_of(gens.snap()) == Some(1081)
            && gens.at(1).number == 1
            && port_of(gens.at(1)) == Some(1080)
            && port_of(gens.at(2)) == Some(1081),
    )
}

/// The port of the first endpoint that a configuration listens on.
fn port_of(snap: &Snap) -> Option<u16> {
    let config: &Config = &snap.config;
    Some(config.entries().internals.get(0)?.port)
}

/// Sees over any `Gens`, and answers the number of what it then holds.
fn number_seen<G: Gens>(gens: &mut G) -> Option<u64>
    requires { G.begun gens.old }
{
    let number = gens.see();
    if number == 0 {
        return None;
    }
    Some(gens.snap().number)
}

#[test]
fn two_are_published(rt: HostRuntime) {
    assert!(rt; sees_the_last(rt.alloc()) == Some(true));
}

#[test]
fn one_is_seen_over_any_gens(rt: HostRuntime) {
    let mut gens = ListGens::make(rt.alloc());
    let config = config_at(rt.alloc(), 1080).expect(&rt, "memory");
    let number = gens.push(config).ok().expect(&rt, "memory");
    assert!(rt; number == 1);
    assert!(rt; number_seen(&mut gens) == Some(1));
}
