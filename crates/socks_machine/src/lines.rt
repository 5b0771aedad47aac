use crate::cause::{Cause, ListKind, Standing, StopBy};
use addr_pattern::Endpoint;
use rule_list::{Facts, Verdict};

/// A client came.
#[derive(Drop)]
pub struct OpenLine {
    pub number: u64,
    pub generation: u64,
    pub rule: Option<u32>,
    pub pass: bool,
    pub peer: Endpoint,
    pub local: Endpoint,
}

/// A request was judged.
#[derive(Drop)]
pub struct GrantLine {
    pub number: u64,
    pub generation: u64,
    pub facts: Facts,
    pub verdict: Verdict,
    pub client_max: Option<u32>,
    pub socks_max: Option<u32>,
}

/// A peer came to a door.
#[derive(Drop)]
pub struct PeerLine {
    pub number: u64,
    pub generation: u64,
    pub verdict: Verdict,
    pub from: Endpoint,
    pub to: Endpoint,
}

/// An association ended.
#[derive(Drop)]
pub struct CloseLine {
    pub number: u64,
    pub cause: Cause,
    pub took: (u64, u64),
    pub sent: (u64, u64),
}

/// What the desk answers to an open, a grant and a peer.
#[derive(Clone, Copy, PartialEq, Eq, Debug)]
pub enum Said {
    Done(u64),
    Full {
        list: ListKind,
        rule: u32,
        held: u32,
        limit: u32,
    },
    Crowded {
        live: u32,
        cap: u32,
    },
    OutOfTurn(Standing),
    Stopped(StopBy),
    LogFault,
}

/// What the desk answers to a close.
#[derive(Clone, Copy, PartialEq, Eq, Debug)]
pub enum Shut {
    Done(u64),
    Unlogged,
    OutOfTurn(Standing),
    LogFault,
}

/// A line of the decision history.
#[derive(Drop)]
pub enum Line {
    Open(OpenLine),
    Grant(GrantLine, Said),
    Peer(PeerLine),
    Close(CloseLine),
}
