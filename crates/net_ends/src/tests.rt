ghost use Rattle.std.specs.Prelude.{◌≡◌, length};

use super::*;
use addr_pattern::{Addr, Endpoint, Name};
use std::alloc::Global;
use std::test::*;

const TARGET: Endpoint = Endpoint {
    addr: Addr::V4(1),
    port: 80,
};

const LOCAL: Endpoint = Endpoint {
    addr: Addr::V4(2),
    port: 4000,
};

/// What a link of memory answers to two reads, two writes and a shut.
fn use_link<L: Link>(link: &mut L) -> (Reading, Reading, Writing, Writing, Shutting) {
    let mut buffer = [0; 4];
    (
        link.read(&mut buffer),
        link.read(&mut buffer),
        link.write(b"hello"),
        link.write(b"o"),
        link.shut(),
    )
}

/// A link to which `abc` arrives, and which then ends.
fn ended_link(alloc: Global) -> Option<MemLink> {
    let mut link = MemLink::make(alloc, 4).ok()?;
    link.arrive(b"abc").ok()?;
    link.end();
    Some(link)
}

#[test]
fn link_gives_and_takes(rt: HostRuntime) {
    match ended_link(rt.alloc()) {
        Some(mut link) => {
            let answers = use_link(&mut link);
            let wanted = (
                Reading::Got(3),
                Reading::End,
                Writing::Took(4),
                Writing::NotYet,
                Shutting::Done,
            );
            assert!(rt; answers == wanted && link.has_ended() && link.was_shut());
            assert_eq!(rt; link.taken(), b"hell".as_slice());
        }
        None => assert!(rt; false),
    }
}

/// A link that has room for more, takes two bytes in a write, and fails its second call.
fn narrow_link(alloc: Global) -> Option<MemLink> {
    let mut link = MemLink::make(alloc, 1).ok()?;
    link.spare(4).ok()?;
    link.set_room(2);
    link.fail_at(2).ok()?;
    link.fail_next(Kind::Shut);
    Some(link)
}

#[test]
fn link_fails_as_planned(rt: HostRuntime) {
    match narrow_link(rt.alloc()) {
        Some(mut link) => {
            let wanted = (
                Reading::NotYet,
                Reading::Failed,
                Writing::Took(2),
                Writing::Took(1),
                Shutting::Failed,
            );
            assert!(rt; use_link(&mut link) == wanted);
        }
        None => assert!(rt; false),
    }
}

/// Dials, and reads and writes once what came up.
fn dial_once<N: Net>(net: &mut N) -> Option<(Endpoint, Reading, Writing)>
where
    N::Link: Drop,
{
    match net.dial(TARGET) {
        Dialing::Up { mut link, local } => {
            Some((local, link.read(&mut [0; 4]), link.write(b"seven")))
        }
        _ => None,
    }
}

fn planned_net(alloc: Global) -> Option<MemNet> {
    let mut net = MemNet::make(alloc, 1).ok()?;
    net.arrive(b"hi").ok()?;
    net.end();
    net.spare(4).ok()?;
    net.set_room(3);
    net.fail_next(Kind::Shut);
    net.plan(DialPlan::Up(LOCAL));
    Some(net)
}

#[test]
fn net_gives_its_link_once(rt: HostRuntime) {
    match planned_net(rt.alloc()) {
        Some(mut net) => {
            let first = dial_once(&mut net);
            assert!(rt; first == Some((LOCAL, Reading::Got(2), Writing::Took(3))));
            assert!(rt; dial_once(&mut net).is_none() && net.last_dial() == Some(TARGET));
        }
        None => assert!(rt; false),
    }
}

/// Looks a name up, and `None` where that is no name.
fn look_up<N: Net>(net: &mut N, name: &str) -> Option<Lookup> {
    match Name::read(name.as_bytes()) {
        Ok(name) => Some(net.lookup(&name)),
        Err(_) => None,
    }
}

#[test]
fn net_finds_as_planned(rt: HostRuntime) {
    match MemNet::make(rt.alloc(), 0) {
        Ok(mut net) => {
            net.plan_lookup(Lookup::Found(Addr::V4(7)));
            let found = look_up(&mut net, "b.test");
            assert!(rt; found == Some(Lookup::Found(Addr::V4(7))) && net.last_lookup().is_some());
        }
        Err(_) => assert!(rt; false),
    }
}

fn planned_source(alloc: Global) -> Option<MemSource> {
    let mut source = MemSource::make(alloc, 2).ok()?;
    source.put(b"abc").ok()?;
    source.fail_at(2).ok()?;
    Some(source)
}

fn read_thrice<S: Source>(source: &mut S) -> (Taking, Taking, Taking) {
    let mut buffer = [0; 2];
    (
        source.read(&mut buffer),
        source.read(&mut buffer),
        source.read(&mut buffer),
    )
}

#[test]
fn source_gives_and_ends(rt: HostRuntime) {
    match planned_source(rt.alloc()) {
        Some(mut source) => {
            let wanted = (Taking::Got(2), Taking::Failed, Taking::Got(1));
            assert!(rt; read_thrice(&mut source) == wanted);
        }
        None => assert!(rt; false),
    }
}

fn planned_sink(alloc: Global) -> Option<MemSink> {
    let mut sink = MemSink::make(alloc, 3).ok()?;
    sink.fail_at(1).ok()?;
    Some(sink)
}

#[test]
fn sink_takes_into_its_room(rt: HostRuntime) {
    match planned_sink(rt.alloc()) {
        Some(mut sink) => {
            let answers = (sink.write(b"ab"), sink.write(b"abcd"));
            assert!(rt; answers == (Giving::Failed, Giving::Took(3)));
            assert_eq!(rt; sink.taken(), b"abc".as_slice());
        }
        None => assert!(rt; false),
    }
}

fn planned_store(alloc: Global) -> Option<MemStore> {
    let mut store = MemStore::make(alloc, 1).ok()?;
    store.put("a", b"abcdef").ok()?;
    store.fail_at(2).ok()?;
    Some(store)
}

/// How many bytes of the file `a` are read, three at most.
fn read_length<S: Store>(store: &mut S, alloc: Global) -> Option<usize> {
    match store.read_file(alloc, "a", 3) {
        Stored::Read(text) => Some(text.len()),
        _ => None,
    }
}

#[test]
fn store_reads_the_first_bytes_of_a_file(rt: HostRuntime) {
    match planned_store(rt.alloc()) {
        Some(mut store) => {
            let read = read_length(&mut store, rt.alloc());
            assert!(rt; read == Some(4) && read_length(&mut store, rt.alloc()).is_none());
        }
        None => assert!(rt; false),
    }
}

fn planned_wire(alloc: Global) -> Option<MemWire> {
    let mut wire = MemWire::make(alloc, 0).ok()?;
    wire.spare(1).ok()?;
    wire.set_room(1);
    wire.arrive(b"abc").ok()?;
    wire.end();
    wire.fail_at(2).ok()?;
    Some(wire)
}

fn use_wire<W: Wire>(wire: &mut W) -> (Taking, Reading, Giving, Shutting) {
    let mut buffer = [0; 2];
    (
        wire.read(&mut buffer),
        wire.glance(&mut buffer),
        wire.write(b"ab"),
        wire.shut(),
    )
}

#[test]
fn wire_answers_in_turn(rt: HostRuntime) {
    match planned_wire(rt.alloc()) {
        Some(mut wire) => {
            let wanted = (
                Taking::Got(2),
                Reading::Failed,
                Giving::Took(1),
                Shutting::Done,
            );
            assert!(rt; use_wire(&mut wire) == wanted && wire.was_shut() && !wire.has_ended());
            assert_eq!(rt; wire.taken(), b"a".as_slice());
        }
        None => assert!(rt; false),
    }
}

fn planned_caller(alloc: Global) -> Option<MemCaller> {
    let mut caller = MemCaller::make(alloc, 1).ok()?;
    caller.offer(MemWire::make(alloc, 1).ok()?);
    caller.plan(CallPlan::Up);
    Some(caller)
}

/// Whether a call comes up; its wire goes back.
fn calls<C: Caller>(caller: &mut C) -> bool {
    match caller.call(TARGET) {
        Calling::Up(wire) => {
            caller.back(wire);
            true
        }
        _ => false,
    }
}

#[test]
fn caller_answers_as_planned(rt: HostRuntime) {
    match planned_caller(rt.alloc()) {
        Some(mut caller) => {
            assert!(rt; calls(&mut caller) && caller.last_call() == Some(TARGET));
            assert!(rt; caller.returned().is_some());
        }
        None => assert!(rt; false),
    }
}

fn planned_door(alloc: Global) -> Option<MemDoor> {
    let mut door = MemDoor::make(alloc, LOCAL, 1).ok()?;
    door.come(TARGET);
    door.arrive(b"hi").ok()?;
    door.end();
    door.spare(2).ok()?;
    door.set_room(5);
    door.fail_next(Kind::Write);
    door.fail_next_accept();
    Some(door)
}

/// Who came to the door, and what a read of the link then gives.
fn meet<D: Door>(door: &mut D) -> Option<(Endpoint, Reading)>
where
    D::Link: Drop,
{
    match door.accept() {
        Accepting::Got(mut link, peer) => Some((peer, link.read(&mut [0; 4]))),
        Accepting::NotYet | Accepting::Failed => None,
    }
}

#[test]
fn door_gives_its_peer_once(rt: HostRuntime) {
    match planned_door(rt.alloc()) {
        Some(mut door) => {
            let answers = (meet(&mut door), meet(&mut door), meet(&mut door));
            assert!(rt; answers == (None, Some((TARGET, Reading::Got(2))), None));
            assert_eq!(rt; door.local(), LOCAL);
        }
        None => assert!(rt; false),
    }
}

fn planned_port(alloc: Global) -> Option<MemPort> {
    let mut port = MemPort::make(alloc, LOCAL, 0, 0).ok()?;
    port.reserve(1, 2).ok()?;
    port.arrive(alloc, TARGET, b"abc").ok()?;
    port.fail_next_send();
    Some(port)
}

/// Receives once and sends two bytes back to `TARGET`.
fn exchange<P: Port>(port: &mut P, buffer: &mut [u8]) -> (Receiving, Sending)
    requires { length buffer.old ≡ 65535 }
    ensures { length buffer.new ≡ 65535 }
{
    (port.recv(buffer), port.send(TARGET, b"ok"))
}

#[test]
fn port_gives_and_takes_whole_datagrams(rt: HostRuntime) -> Result<(), Fail> {
    let mut buffer = vec![in rt.alloc(); 0; DATAGRAM]?;
    match planned_port(rt.alloc()) {
        Some(mut port) => {
            let first = exchange(&mut port, &mut buffer);
            let second = exchange(&mut port, &mut buffer);
            let got = Receiving::Got {
                len: 3,
                from: TARGET,
            };
            assert!(rt; first == (got, Sending::Failed));
            assert!(rt; second == (Receiving::NotYet, Sending::Took) && port.taken_count() == 1);
        }
        None => assert!(rt; false),
    }
    Ok(())
}

/// Where a door and a port open.
fn open_both<N: Net>(net: &mut N, at: Addr) -> (Option<Endpoint>, Option<Endpoint>)
where
    N::Door: Drop,
    N::Port: Drop,
{
    let door = match net.open_door(at) {
        Opening::Open(door) => Some(door.local()),
        Opening::Failed => None,
    };
    let port = match net.open_port(at) {
        Opening::Open(port) => Some(port.local()),
        Opening::Failed => None,
    };
    (door, port)
}

fn net_with_doors(alloc: Global) -> Option<MemNet> {
    let mut net = MemNet::make(alloc, 0).ok()?;
    let door = net.take_door();
    net.offer_door(door);
    let port = net.take_port();
    net.offer_port(port);
    net.plan_door(OpenPlan::Open(LOCAL));
    net.plan_port(OpenPlan::Open(TARGET));
    Some(net)
}

#[test]
fn net_opens_its_door_and_its_port(rt: HostRuntime) {
    match net_with_doors(rt.alloc()) {
        Some(mut net) => {
            let opened = open_both(&mut net, TARGET.addr);
            assert!(rt; opened == (Some(LOCAL), Some(TARGET)));
            assert_eq!(rt; net.last_opening(), Some(TARGET.addr));
        }
        None => assert!(rt; false),
    }
}
