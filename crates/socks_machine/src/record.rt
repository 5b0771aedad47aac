use crate::cause::Cause;
use addr_pattern::{Addr, Endpoint, Name};
use lists::{List, Text};
use rule_list::{Facts, Verdict};

/// The method that was answered to the greeting.
#[derive(Clone, Copy, PartialEq, Eq, Debug)]
pub struct Chosen {
    pub generation: u64,
    pub method: u8,
}

/// A datagram.
#[derive(Drop)]
pub struct Gram {
    pub peer: Endpoint,
    pub bytes: Text,
    pub generation: u64,
}

/// What was decided.
#[derive(Drop)]
pub enum Decision {
    Opened {
        generation: u64,
        rule: Option<u32>,
        refused: Option<Cause>,
    },
    Looked {
        host: Name,
        found: Option<Addr>,
    },
    Granted {
        generation: u64,
        facts: Facts,
        verdict: Verdict,
        route: Option<u32>,
        refused: Option<Cause>,
    },
    Reached {
        to: Endpoint,
        at: Option<Endpoint>,
    },
    Came {
        generation: u64,
        peer: Endpoint,
        verdict: Verdict,
        refused: Option<Cause>,
    },
}

/// One association, whole.
#[derive(Drop)]
pub struct Record {
    pub number: u64,
    pub peer: Endpoint,
    pub local: Endpoint,
    pub since: u64,
    pub c: Text,
    pub t: Text,
    pub sent_c: Text,
    pub sent_t: Text,
    pub end_c: bool,
    pub end_t: bool,
    pub shut_c: bool,
    pub shut_t: bool,
    pub chosen: Option<Chosen>,
    pub decisions: List<Decision>,
    pub grams: List<Gram>,
    pub sent_u: List<Gram>,
    pub cause: Option<Cause>,
    pub at_close: Option<Cause>,
    pub done: bool,
}
