use super::*;
use addr_pattern::{Addr, Endpoint, Name};
use net_ends::{DialPlan, Lookup, MemNet, Net};
use socks_machine::Cause;
use std::test::*;

const TARGET: Endpoint = Endpoint {
    addr: Addr::V4(1),
    port: 80,
};

const LOCAL: Endpoint = Endpoint {
    addr: Addr::V6(2),
    port: 4000,
};

/// The local endpoint of the link that `to` was reached by, or the cause.
fn reached<N: Net>(net: &mut N, to: Endpoint) -> Result<Endpoint, Cause>
where
    N::Link: Drop,
{
    match reach(net, to) {
        Reached::Up { local, .. } => Ok(local),
        Reached::Failed(cause) => Err(cause),
    }
}

/// The address of the name `text`, or the cause; `None` where that is no name.
fn found<N: Net>(net: &mut N, text: &str) -> Option<Result<Addr, Cause>> {
    match Name::read(text.as_bytes()) {
        Ok(name) => Some(find(net, &name)),
        Err(_) => None,
    }
}

#[test]
fn each_dial_has_its_answer(rt: HostRuntime) -> Result<(), Fail> {
    let rows = [
        (DialPlan::Refused, Err(Cause::Refused)),
        (DialPlan::HostUnreachable, Err(Cause::HostUnreachable)),
        (DialPlan::NetUnreachable, Err(Cause::NetUnreachable)),
        (DialPlan::Failed, Err(Cause::NetFault)),
        (DialPlan::Up(LOCAL), Ok(LOCAL)),
    ];
    for (plan, wanted) in &rows {
        let mut net = MemNet::make(rt.alloc(), 0).ok().ok_or("memory")?;
        net.plan(*plan);
        assert_eq!(rt; reached(&mut net, TARGET), *wanted);
        assert_eq!(rt; net.last_dial(), Some(TARGET));
        assert!(rt; net.last_lookup().is_none());
    }
    Ok(())
}

#[test]
fn each_lookup_has_its_answer(rt: HostRuntime) -> Result<(), Fail> {
    let rows = [
        (Lookup::Found(Addr::V4(7)), Ok(Addr::V4(7))),
        (Lookup::Found(Addr::V6(7)), Ok(Addr::V6(7))),
        (Lookup::NotFound, Err(Cause::NotFound)),
        (Lookup::Failed, Err(Cause::NetFault)),
    ];
    for (plan, wanted) in &rows {
        let mut net = MemNet::make(rt.alloc(), 0).ok().ok_or("memory")?;
        net.plan_lookup(*plan);
        assert_eq!(rt; found(&mut net, "a.test"), Some(*wanted));
        let Some(name) = net.last_lookup() else {
            return Err("the name was looked up".into());
        };
        assert_eq!(rt; name.as_bytes(), b"a.test".as_slice());
        assert_eq!(rt; net.last_dial(), None);
    }
    Ok(())
}
