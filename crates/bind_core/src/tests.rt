use super::*;
use addr_pattern::{Addr, Endpoint};
use net_ends::{Door, MemDoor, MemNet, Net, OpenPlan};
use socks_machine::Cause;
use std::test::*;

const LOCAL: Endpoint = Endpoint {
    addr: Addr::V4(2),
    port: 4000,
};

/// The local endpoint of the door that opened at `at`, or the cause.
fn opened<N: Net>(net: &mut N, at: Addr) -> Result<Endpoint, Cause>
where
    N::Door: Drop,
{
    Ok(open(net, at)?.local())
}

#[test]
fn each_opening_has_its_answer(rt: HostRuntime) -> Result<(), Fail> {
    let rows = [
        (OpenPlan::Failed, Err(Cause::NetFault)),
        (OpenPlan::Open(LOCAL), Ok(LOCAL)),
    ];
    for (plan, wanted) in &rows {
        let mut net = MemNet::make(rt.alloc(), 0).ok().ok_or("memory")?;
        net.plan_door(*plan);
        assert_eq!(rt; opened(&mut net, LOCAL.addr), *wanted);
        assert_eq!(rt; net.last_opening(), Some(LOCAL.addr));
    }
    Ok(())
}

/// Who came, and whether that is the peer that was asked for.
#[derive(Clone, Copy, Debug, PartialEq, Eq)]
enum Came {
    Asked(Endpoint),
    Other(Endpoint),
    Nobody,
    Fault,
}

fn meet<D: Door>(door: &mut D, asked: Addr) -> Came
where
    D::Link: Drop,
{
    match wait(door, asked) {
        Waited::Peer(_, peer) => Came::Asked(peer),
        Waited::Wrong(peer) => Came::Other(peer),
        Waited::NotYet => Came::Nobody,
        Waited::Failed => Came::Fault,
    }
}

#[test]
fn the_first_peer_is_compared(rt: HostRuntime) -> Result<(), Fail> {
    let peer = Endpoint {
        addr: Addr::V4(7),
        port: 9000,
    };
    let rows = [
        (Addr::V4(7), Came::Asked(peer)),
        (Addr::V4(0), Came::Asked(peer)),
        (Addr::V6(0), Came::Asked(peer)),
        (Addr::V4(8), Came::Other(peer)),
        (Addr::V6(7), Came::Other(peer)),
    ];
    for (asked, wanted) in &rows {
        let mut door = MemDoor::empty(rt.alloc(), LOCAL);
        door.fail_next_accept();
        door.come(peer);
        assert_eq!(rt; meet(&mut door, *asked), Came::Fault);
        assert_eq!(rt; meet(&mut door, *asked), *wanted);
        assert_eq!(rt; meet(&mut door, *asked), Came::Nobody);
    }
    Ok(())
}
