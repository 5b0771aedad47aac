use addr_pattern::{Addr, Endpoint};
use rule_list::Verdict;
use socks_grammar::Stage;

/// One of the two lists of rules.
#[derive(Clone, Copy, PartialEq, Eq, Debug)]
pub enum ListKind {
    Client,
    Socks,
}

/// Who set the stop mark.
#[derive(Clone, Copy, PartialEq, Eq, Debug)]
pub enum StopBy {
    Control,
    Log,
    Sessions,
}

/// How a number stands at the desk.
#[derive(Clone, Copy, PartialEq, Eq, Debug)]
pub enum Standing {
    Absent,
    Opened,
    Granted,
}

/// Why an association ends.
#[derive(Clone, Copy, PartialEq, Eq, Debug)]
pub enum Cause {
    Finished,
    ClientBlocked {
        generation: u64,
        rule: Option<u32>,
    },
    Denied {
        generation: u64,
        verdict: Verdict,
    },
    Full {
        generation: u64,
        list: ListKind,
        rule: u32,
        held: u32,
        limit: u32,
    },
    Crowded {
        live: u32,
        cap: u32,
    },
    OutOfTurn(Standing),
    BadVersion {
        at: u64,
        byte: u8,
    },
    BadRequest {
        at: u64,
        byte: u8,
    },
    CommandUnsupported {
        at: u64,
        byte: u8,
    },
    AtypUnsupported {
        at: u64,
        byte: u8,
    },
    NoMethod,
    LoginFailed,
    ClientGone {
        at: u64,
    },
    NotFound,
    Refused,
    HostUnreachable,
    NetUnreachable,
    Upstream {
        stage: Stage,
        code: u8,
    },
    UpstreamBad {
        at: u64,
        byte: Option<u8>,
    },
    NetFault,
    ClientFault,
    TargetFault,
    DoorFault,
    PortFault,
    LogFault,
    WrongPeer {
        peer: Endpoint,
        asked: Addr,
    },
    TimedOut {
        since: u64,
        now: u64,
        limit: u32,
    },
    Stopped {
        by: StopBy,
    },
    Memory,
}
