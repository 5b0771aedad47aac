ghost use Rattle.std.specs.Prelude.{◌≡◌, None, IfErr, IfOk};
ghost use Rattle.socks_machine.specs.Step.{fresh};
ghost use Rattle.assoc_core.specs.declared.assoc.OpenFault.TheVariants.{Memory};

use addr_pattern::Endpoint;
use lists::{List, Text};
use net_ends::Link;
use socks_machine::Record;
use std::alloc::Global;

/// An association between two turns: all that happened on it so far, and its links.
#[derive(Drop)]
pub struct Assoc<L> {
    pub state: Record,
    pub client: L,
    pub target: Option<L>,
}

/// An association that has ended, with the links that it held.
#[derive(Drop)]
pub struct Ended<L> {
    pub state: Record,
    pub client: L,
    pub target: Option<L>,
}

/// How a turn is answered.
#[derive(Drop)]
pub enum Next<L> {
    /// Nothing more can be done before the outside changes.
    Wait(Assoc<L>),
    /// There may be more to do at once.
    Again(Assoc<L>),
    Done(Ended<L>),
}

/// Why an association isn't opened, with the link of its client.
#[derive(Drop)]
pub enum OpenFault<L> {
    Memory(L),
}

/// How many decisions a CONNECT comes to at most: an open, a lookup, a grant and a dial.
const DECISIONS: usize = 4;

impl<L: Link> Assoc<L> {
    /// An association on which nothing has happened yet. `now` is in seconds. It takes the memory of its decisions; where that
    /// is refused it gives the link back.
    pub fn open(
        alloc: Global,
        number: u64,
        client: L,
        peer: Endpoint,
        local: Endpoint,
        now: u64,
    ) -> Result<Assoc<L>, OpenFault<L>>
        ensures opened { IfOk result (λ assoc. assoc ≡ record { state = fresh number peer local now; client = client; target = None }) }
        ensures refused { IfErr result (λ fault. fault ≡ Memory client) }
    {
        let decisions = match Vec::with_capacity(alloc, DECISIONS) {
            Ok(decisions) => List::from_vec(decisions),
            Err(_) => return Err(OpenFault::Memory(client)),
        };
        let state = Record {
            number,
            peer,
            local,
            since: now,
            c: Text::make(alloc),
            t: Text::make(alloc),
            sent_c: Text::make(alloc),
            sent_t: Text::make(alloc),
            end_c: false,
            end_t: false,
            shut_c: false,
            shut_t: false,
            chosen: None,
            decisions,
            grams: List::make(alloc),
            sent_u: List::make(alloc),
            cause: None,
            at_close: None,
            done: false,
        };
        Ok(Assoc {
            state,
            client,
            target: None,
        })
    }

    /// The association at its end.
    pub(crate) fn end(self) -> Ended<L>
        ensures { result ≡ record { state = self.state; client = self.client; target = self.target } }
    {
        Ended {
            state: self.state,
            client: self.client,
            target: self.target,
        }
    }
}
