ghost use Rattle.std.specs.Prelude.{◌<◌, length, All};
ghost use Rattle.published.specs.Ends.{name_of, IsNew};
ghost use Rattle.conf_types.specs.declared.entries.Entries.{Entries};
ghost use Rattle.conf_types.specs.Kept.{IsListener};

use super::*;
use addr_pattern::{Addr, Endpoint};
use conf_types::Config;
use generation::Gens;
use lists::List;
use std::alloc::Global;
use std::sync::Wait;

/// A port of 127.0.0.1.
fn at(port: u16) -> Endpoint
    requires { 0 < port }
    ensures { IsListener result }
{
    Endpoint {
        addr: Addr::V4(0x7F00_0001),
        port,
    }
}

/// The port of the first endpoint that a reader's configuration listens on.
fn port_of(reader: &Reader) -> Option<u16> {
    let config: &Config = &reader.snap().config;
    Some(config.entries().internals.get(0)?.port)
}

/// Both see the first. Once the second is published, the first reader sees it without having learned; the other one learns.
fn sees<R: Wait>(
    rt: &R,
    publisher: &mut Publisher,
    readers: List<Reader>,
    config: Config,
) -> Option<bool>
    requires { (first : Entries) × All (IsNew (name_of publisher.old) first) readers }
{
    let mut readers = readers.into_vec();
    let mut two = readers.pop()?;
    let mut one = readers.pop()?;
    let early = (one.see(), two.see());
    let Ok(tolds) = publisher.publish(rt, config) else {
        return None;
    };
    let mut tolds = tolds.into_vec();
    let told_two = tolds.pop()?;
    let told_one = tolds.pop()?;
    let numbers = (told_one.number(), told_two.number());
    let unlearned = one.see();
    two.learn(told_two);
    let learned = (two.see(), two.see());
    one.learn(told_one);
    Some(
        early == (1, 1)
            && numbers == (2, 2)
            && unlearned == 2
            && learned == (2, 2)
            && one.see() == 2
            && port_of(&one) == Some(1081)
            && port_of(&two) == Some(1081),
    )
}

/// The same from the start.
fn published_twice<R: Wait>(rt: &R, alloc: Global, first: Config, second: Config) -> Option<bool> {
    let Ok((mut publisher, readers)) = Publisher::make(rt, alloc, first, 2) else {
        return None;
    };
    let seen = sees(rt, &mut publisher, readers, second);
    publisher.end(rt);
    seen
}

#[test]
fn two_readers_see_what_is_published(rt: HostRuntime) {
    let first = Config::closed(rt.alloc(), at(1080)).ok().expect(&rt, "one");
    let second = Config::closed(rt.alloc(), at(1081)).ok().expect(&rt, "two");
    assert!(rt; published_twice(&rt, rt.alloc(), first, second) == Some(true));
}
