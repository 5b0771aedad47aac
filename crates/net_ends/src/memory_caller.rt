ghost use Rattle.std.specs.Prelude.{◌≡◌, IfOk, option_copied};

use crate::caller::{Caller, Calling};
use crate::memory_wire::MemWire;
use addr_pattern::Endpoint;
use lists::Memory;
use std::alloc::Global;
use std::marker::Model;
use std::mem;

/// How a call of a caller of memory is to come out.
#[derive(Clone, Copy, Debug, PartialEq, Eq)]
pub enum CallPlan {
    Up,
    Refused,
    HostUnreachable,
    NetUnreachable,
    Failed,
}

/// A caller that holds the wire of its next call, and the wire that came back last. The call is refused unless another outcome
/// is planned; once a wire was given, the next call is refused again.
#[derive(Drop)]
pub struct MemCaller {
    alloc: Global,
    outcome: CallPlan,
    wire: MemWire,
    last: Option<Endpoint>,
    returned: Option<MemWire>,
    refused: u64,
    no_host: u64,
    no_net: u64,
    faults: u64,
}

impl Model for MemCaller {
    ghost use Rattle.net_ends.specs.InMemory.{CallerInMemory, IsUnusedWire};
    ghost use Rattle.net_ends.specs.Plans.{planned_call};

    ghost Value = { CallerInMemory };

    ghost view = { λ c. record {
      outcome = planned_call c.outcome;
      wire = c.wire;
      last = c.last;
      returned = c.returned;
      counts = record { refused = c.refused; no_host = c.no_host; no_net = c.no_net; faults = c.faults };
    } };

    ghost invariant = { λ c. IsUnusedWire c.wire };
}

impl MemCaller {
    ghost use Rattle.net_ends.specs.InMemory.{fresh_caller, IsUnusedWire};
    ghost use Rattle.net_ends.specs.Plans.{planned_call};

    /// A caller whose next call is refused. The wire that waits in it has room for that many bytes that it takes.
    pub fn make(alloc: Global, cap: usize) -> Result<MemCaller, Memory>
        ensures { IfOk result (λ caller. caller ≡ fresh_caller cap) }
    {
        match MemWire::make(alloc, cap) {
            Ok(wire) => Ok(MemCaller {
                alloc,
                outcome: CallPlan::Refused,
                wire,
                last: None,
                returned: None,
                refused: 0,
                no_host: 0,
                no_net: 0,
                faults: 0,
            }),
            Err(memory) => Err(memory),
        }
    }

    /// The next call comes out so.
    pub fn plan(&mut self, outcome: CallPlan)
        ensures { self.new ≡ record self.old { outcome = planned_call outcome } }
    {
        self.outcome = outcome;
    }

    /// This wire is the one that waits.
    pub fn offer(&mut self, wire: MemWire)
        requires { IsUnusedWire wire }
        ensures { self.new ≡ record self.old { wire = wire } }
    {
        self.wire = wire;
    }

    /// Where the last call went.
    pub fn last_call(&self) -> Option<Endpoint>
        ensures { result ≡ self.now.last }
    {
        self.last
    }

    /// The wire that came back last.
    pub fn returned(&self) -> Option<&MemWire>
        ensures { option_copied result ≡ self.now.returned }
    {
        self.returned.as_ref()
    }
}

impl Caller for MemCaller {
    ghost use Rattle.std.specs.Prelude.{◌≡◌, Some};
    ghost use Rattle.net_ends.specs.InMemory.{told_of_caller, told_of_link, call_left, wire_left};
    ghost use Rattle.net_ends.specs.Callers.{PlannedCall, CallsLater, CallCause, IfCalled, IsNewWire, CallsAsPlanned, KeepsPlannedCall, called, outcome_of_call, returned_of};

    type Wire = MemWire;

    ghost told = { told_of_caller };

    ghost counts = { λ caller. caller.counts };

    fn call(&mut self, to: Endpoint) -> Calling<MemWire>
        ensures told { (told_of_caller self.new).calls ≡ called (told_of_caller self.old).calls (record { to = to; outcome = outcome_of_call result }) }
        ensures planned { (plan : PlannedCall) → (told_of_caller self.old).plan ≡ Some plan → CallsAsPlanned told_of_link plan result }
        ensures kept { KeepsPlannedCall result (told_of_caller self.old).plan (told_of_caller self.new).plan }
        ensures returned { (told_of_caller self.new).returned ≡ (told_of_caller self.old).returned }
        ensures fresh { IfCalled result (λ wire. IsNewWire (told_of_link wire) wire.counts) }
        ensures later { CallsLater self.old.counts self.new.counts }
        ensures cause { CallCause self.old.counts self.new.counts (outcome_of_call result) }

        // Beside the clauses of the trait: the wire is given once, and the last call is kept.
        ensures outcome { self.new.outcome ≡ call_left self.old.outcome }
        ensures wire { self.new.wire ≡ wire_left self.old.outcome self.old.wire }
        ensures last { self.new.last ≡ Some to }
        ensures same { self.new.returned ≡ self.old.returned }
    {
        self.last = Some(to);
        match self.outcome {
            CallPlan::Up => {
                self.outcome = CallPlan::Refused;
                let next = MemWire::empty(self.alloc);
                Calling::Up(mem::replace(&mut self.wire, next))
            }
            CallPlan::Refused => {
                self.refused = self.refused.saturating_add(1);
                Calling::Refused
            }
            CallPlan::HostUnreachable => {
                self.no_host = self.no_host.saturating_add(1);
                Calling::HostUnreachable
            }
            CallPlan::NetUnreachable => {
                self.no_net = self.no_net.saturating_add(1);
                Calling::NetUnreachable
            }
            CallPlan::Failed => {
                self.faults = self.faults.saturating_add(1);
                Calling::Failed
            }
        }
    }

    fn back(&mut self, wire: MemWire)
        ensures told { told_of_caller self.new ≡ record (told_of_caller self.old) { returned = Some (returned_of (told_of_link wire) wire.counts) } }
        ensures counts { self.new.counts ≡ self.old.counts }

        // Beside the clauses of the trait: the wire itself is kept, and nothing else changes.
        ensures kept { self.new ≡ record self.old { returned = Some wire } }
    {
        self.returned = Some(wire);
    }
}
