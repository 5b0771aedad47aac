use crate::cause::StopBy;
use crate::world::Object;
use addr_pattern::{Addr, Endpoint};
use conf_types::Config;
use lists::{List, Text};
use socks_grammar::User;

/// One call on a link, a door, a port or the net, with its outcome.
#[derive(Drop)]
pub enum Act {
    Read { of: Object, bytes: Text },
    End { of: Object },
    Idle { of: Object, write: bool },
    Fault { of: Object, write: bool },
    Wrote { to: Object, len: u64 },
    Shut { of: Object },
    Came { peer: Endpoint },
    Gram { from: Endpoint, bytes: Text },
    SentGram,
    Looked(Option<Addr>),
    Up(Endpoint),
    Refused,
    HostUnreachable,
    NetUnreachable,
    Failed,
    Memory,
}

/// An atomic step.
#[derive(Drop)]
pub enum FineStep {
    Start {
        users: List<User>,
        cap: u32,
        workers: u32,
        slots: u32,
    },
    Publish(Config),
    Stop(StopBy),
    Place {
        slot: u32,
        peer: Endpoint,
        local: Endpoint,
        now: u64,
    },
    Wake {
        slot: u32,
    },
    Claim {
        worker: u32,
        slot: u32,
    },
    See {
        worker: u32,
        generation: u64,
        now: u64,
        stop: Option<StopBy>,
    },
    Link {
        worker: u32,
        act: Act,
    },
    Desk {
        worker: u32,
        logged: bool,
    },
    Park {
        worker: u32,
    },
    Clear {
        worker: u32,
    },
    Free {
        worker: u32,
    },
}
