ghost use Rattle.std.specs.Prelude.{◌≡◌, ◌≤◌, Some, List, ℕ, Option};
ghost use Rattle.net_ends.specs.declared.net.Lookup.{Lookup};
ghost use Rattle.net_ends.specs.Doors.{IsFreshDoor, with_one};
ghost use Rattle.net_ends.specs.Nets.{NetTold, Plan, NetLater, LookupCause, DialCause, IfUp, AsPlanned, KeepsPlan, SameLookups, SameOpenings, looked_up, dialled, outcome_of};
ghost use Rattle.net_ends.specs.Openings.{IfOpened, KeepsOpening, OpeningCause, PlannedDoor, PlannedPort, local_of, opened_door, opened_port};
ghost use Rattle.net_ends.specs.Ports.{IsFreshPort};
ghost use Rattle.net_ends.specs.Told.{IsFresh};

use crate::door::Door;
use crate::link::Link;
use crate::opening::Opening;
use crate::port::Port;
use addr_pattern::{Addr, Endpoint, Name};

/// What a lookup of a name came to.
#[derive(Clone, Copy, Debug, PartialEq, Eq)]
pub enum Lookup {
    /// The first address that the name has.
    Found(Addr),
    NotFound,
    Failed,
}

/// What a dial came to.
#[derive(Drop)]
pub enum Dialing<L> {
    /// A link is there, and this is its local endpoint.
    Up { link: L, local: Endpoint },
    Refused,
    HostUnreachable,
    NetUnreachable,
    Failed,
}

/// What looks names up, and opens links, doors and ports. A lookup and a dial hold their caller until they have an outcome.
pub trait Net {
    type Link: Link;

    type Door: Door<Link = Self::Link>;

    type Port: Port;

    /// The lookups, the dials and the openings so far, where it tells, and how the next of each comes out; how often each failure was
    /// answered.
    ghost told: { Self → NetTold };

    fn lookup(&mut self, name: &Name) -> Lookup
        ensures told { told self.new ≡ record (told self.old) { lookups = looked_up (told self.old).lookups (record { name = name.now; outcome = result }); counts = (told self.new).counts } }
        ensures planned { (plan : Lookup) → (told self.old).lookup_plan ≡ Some plan → result ≡ plan }
        ensures later { NetLater (told self.old).counts (told self.new).counts }
        ensures cause { LookupCause (told self.old).counts (told self.new).counts result };

    fn dial(&mut self, to: Endpoint) -> Dialing<Self::Link>
        ensures told { (told self.new).dials ≡ dialled (told self.old).dials (record { to = to; outcome = outcome_of result }) }
        ensures planned { (plan : Plan) → (told self.old).plan ≡ Some plan → AsPlanned Self.Link.told Self.Link.counts plan result }
        ensures kept { KeepsPlan result (told self.old).plan (told self.new).plan }
        ensures lookups { SameLookups (told self.old) (told self.new) }
        ensures openings { SameOpenings (told self.old) (told self.new) }
        ensures fresh { IfUp result (λ link. IsFresh (Self.Link.told link)) }
        ensures later { NetLater (told self.old).counts (told self.new).counts }
        ensures cause { DialCause (told self.old).counts (told self.new).counts (outcome_of result) };

    /// Opens a door at this address, at a port of the net's choice.
    fn open_door(&mut self, at: Addr) -> Opening<Self::Door>
        ensures told { told self.new ≡ record (told self.old) { doors = with_one (told self.old).doors (record { at = at; local = local_of (λ door. (Self.Door.told door).local) result }); door_plan = (told self.new).door_plan; counts = (told self.new).counts } }
        ensures planned { (plan : Option PlannedDoor) → (told self.old).door_plan ≡ Some plan → opened_door Self.Door.told Self.Door.counts result ≡ plan }
        ensures kept { KeepsOpening result (told self.old).door_plan (told self.new).door_plan }
        ensures fresh { IfOpened result (λ door. IsFreshDoor (Self.Door.told door)) }
        ensures later { NetLater (told self.old).counts (told self.new).counts }
        ensures cause { OpeningCause (told self.old).counts.faults (told self.new).counts.faults result };

    /// Opens a port at this address, at a port number of the net's choice.
    fn open_port(&mut self, at: Addr) -> Opening<Self::Port>
        ensures told { told self.new ≡ record (told self.old) { ports = with_one (told self.old).ports (record { at = at; local = local_of (λ port. (Self.Port.told port).local) result }); port_plan = (told self.new).port_plan; counts = (told self.new).counts } }
        ensures planned { (plan : Option PlannedPort) → (told self.old).port_plan ≡ Some plan → opened_port Self.Port.told Self.Port.counts result ≡ plan }
        ensures kept { KeepsOpening result (told self.old).port_plan (told self.new).port_plan }
        ensures fresh { IfOpened result (λ port. IsFreshPort (Self.Port.told port)) }
        ensures later { NetLater (told self.old).counts (told self.new).counts }
        ensures cause { OpeningCause (told self.old).counts.faults (told self.new).counts.faults result };
}
