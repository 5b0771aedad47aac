ghost use Rattle.std.specs.Prelude.{◌≡◌, Some};
ghost use Rattle.net_ends.specs.Callers.{CallerTold, PlannedCall, CallCounts, CallsLater, CallCause, IfCalled, IsNewWire, CallsAsPlanned, KeepsPlannedCall, called, outcome_of_call, returned_of};

use crate::wire::Wire;
use addr_pattern::Endpoint;

/// What a call came to.
#[derive(Drop)]
pub enum Calling<W> {
    Up(W),
    Refused,
    HostUnreachable,
    NetUnreachable,
    Failed,
}

/// What opens wires, and takes them back. A call waits until it has an outcome.
pub trait Caller {
    type Wire: Wire;

    /// The calls so far and the plan of the next, where it tells, and the wire that came back last.
    ghost told: { Self → CallerTold };

    /// How often each failure was answered.
    ghost counts: { Self → CallCounts };

    fn call(&mut self, to: Endpoint) -> Calling<Self::Wire>
        ensures told { (told self.new).calls ≡ called (told self.old).calls (record { to = to; outcome = outcome_of_call result }) }
        ensures planned { (plan : PlannedCall) → (told self.old).plan ≡ Some plan → CallsAsPlanned Self.Wire.told plan result }
        ensures kept { KeepsPlannedCall result (told self.old).plan (told self.new).plan }
        ensures returned { (told self.new).returned ≡ (told self.old).returned }
        ensures fresh { IfCalled result (λ wire. IsNewWire (Self.Wire.told wire) (Self.Wire.counts wire)) }
        ensures later { CallsLater (counts self.old) (counts self.new) }
        ensures cause { CallCause (counts self.old) (counts self.new) (outcome_of_call result) };

    /// Takes a wire back, whether it came from here or not.
    fn back(&mut self, wire: Self::Wire)
        ensures told { told self.new ≡ record (told self.old) { returned = Some (returned_of (Self.Wire.told wire) (Self.Wire.counts wire)) } }
        ensures counts { counts self.new ≡ counts self.old };
}
