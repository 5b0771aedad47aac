ghost use Rattle.std.specs.Prelude.{◌≡◌, ◌++◌, ◌+◌, true, false, Some, IfOk, OnOk, OnErr, option_copied};

use crate::kinds::Kind;
use crate::memory_door::MemDoor;
use crate::memory_link::MemLink;
use crate::memory_port::MemPort;
use crate::net::{Dialing, Lookup, Net};
use crate::opening::{OpenPlan, Opening};
use addr_pattern::{Addr, Endpoint, Name};
use lists::Memory;
use std::alloc::Global;
use std::marker::Model;
use std::mem;

/// How a dial of a net of memory is to come out.
#[derive(Clone, Copy, Debug, PartialEq, Eq)]
pub enum DialPlan {
    /// A link is there, and this is its local endpoint.
    Up(Endpoint),
    Refused,
    HostUnreachable,
    NetUnreachable,
    Failed,
}

/// A net that holds the link of its next dial, at which bytes can arrive before the dial. The dial is refused unless another
/// outcome is planned; once a link was given, the next dial is refused again. No name is found unless another outcome is
/// planned, which each lookup then has. A door and a port wait likewise; the next opening of each fails unless it is planned to open,
/// and once it did the next one fails again.
#[derive(Drop)]
pub struct MemNet {
    alloc: Global,
    lookup: Lookup,
    outcome: DialPlan,
    link: MemLink,
    door_plan: OpenPlan,
    door: MemDoor,
    port_plan: OpenPlan,
    port: MemPort,
    last_lookup: Option<Name>,
    last: Option<Endpoint>,
    last_opening: Option<Addr>,
    not_found: u64,
    refused: u64,
    no_host: u64,
    no_net: u64,
    faults: u64,
}

impl Model for MemNet {
    ghost use Rattle.net_ends.specs.InMemory.{NetInMemory, IsUnused, IsUnusedPort};
    ghost use Rattle.net_ends.specs.Plans.{planned};

    ghost Value = { NetInMemory };

    ghost view = { λ n. record {
      lookup = n.lookup;
      outcome = planned n.outcome;
      link = n.link;
      door_plan = n.door_plan;
      door = n.door;
      port_plan = n.port_plan;
      port = n.port;
      last_lookup = n.last_lookup;
      last = n.last;
      last_opening = n.last_opening;
      counts = record { not_found = n.not_found; refused = n.refused; no_host = n.no_host; no_net = n.no_net; faults = n.faults };
    } };

    ghost invariant = { λ n. IsUnused n.link × IsUnusedPort n.port };
}

/// Where a door or a port stands that isn't open yet.
const NOWHERE: Endpoint = Endpoint {
    addr: Addr::V4(0),
    port: 0,
};

impl MemNet {
    ghost use Rattle.net_ends.specs.InMemory.{IsUnusedPort, fresh_door, fresh_net, fresh_port, no_room, nowhere, with_next};
    ghost use Rattle.net_ends.specs.Plans.{planned};

    /// A net that finds no name, whose next dial is refused and whose next openings fail. The link that waits in it has room for that many bytes that it takes.
    pub fn make(alloc: Global, cap: usize) -> Result<MemNet, Memory>
        ensures { IfOk result (λ net. net ≡ fresh_net cap) }
    {
        match MemLink::make(alloc, cap) {
            Ok(link) => Ok(MemNet {
                alloc,
                lookup: Lookup::NotFound,
                outcome: DialPlan::Refused,
                link,
                door_plan: OpenPlan::Failed,
                door: MemDoor::empty(alloc, NOWHERE),
                port_plan: OpenPlan::Failed,
                port: MemPort::empty(alloc, NOWHERE),
                last_lookup: None,
                last: None,
                last_opening: None,
                not_found: 0,
                refused: 0,
                no_host: 0,
                no_net: 0,
                faults: 0,
            }),
            Err(memory) => Err(memory),
        }
    }

    /// Each lookup comes out so from here on.
    pub fn plan_lookup(&mut self, outcome: Lookup)
        ensures { self.new ≡ record self.old { lookup = outcome } }
    {
        self.lookup = outcome;
    }

    /// The next dial comes out so.
    pub fn plan(&mut self, outcome: DialPlan)
        ensures { self.new ≡ record self.old { outcome = planned outcome } }
    {
        self.outcome = outcome;
    }

    /// Bytes arrive at the link that waits, behind those that arrived before.
    pub fn arrive(&mut self, bytes: &[u8]) -> Result<(), Memory>
        requires { self.old.link.ends ≡ false }
        ensures ok { OnOk result (self.new ≡ record self.old { link = record self.old.link { arrived = self.old.link.arrived ++ bytes.now } }) }
        ensures err { OnErr result (self.new ≡ self.old) }
    {
        self.link.arrive(bytes)
    }

    /// The end stands behind what arrived at the link that waits.
    pub fn end(&mut self)
        ensures { self.new ≡ record self.old { link = record self.old.link { ends = true } } }
    {
        self.link.end()
    }

    /// Makes room for that many further bytes in the link that waits.
    pub fn spare(&mut self, further: usize) -> Result<(), Memory>
        ensures ok { OnOk result (self.new ≡ record self.old { link = record self.old.link { cap = self.old.link.cap + further } }) }
        ensures err { OnErr result (self.new ≡ self.old) }
    {
        self.link.spare(further)
    }

    /// Each write to the link that waits takes at most that many bytes from here on.
    pub fn set_room(&mut self, most: usize)
        ensures { self.new ≡ record self.old { link = record self.old.link { room = Some most } } }
    {
        self.link.set_room(most)
    }

    /// The next call of this kind on the link that waits is to fail.
    pub fn fail_next(&mut self, kind: Kind)
        ensures { self.new ≡ record self.old { link = with_next self.old.link kind } }
    {
        self.link.fail_next(kind)
    }

    /// The next opening of a door comes out so.
    pub fn plan_door(&mut self, outcome: OpenPlan)
        ensures { self.new ≡ record self.old { door_plan = outcome } }
    {
        self.door_plan = outcome;
    }

    /// The next opening of a port comes out so.
    pub fn plan_port(&mut self, outcome: OpenPlan)
        ensures { self.new ≡ record self.old { port_plan = outcome } }
    {
        self.port_plan = outcome;
    }

    /// This door is the one that waits. Its local endpoint is that of the plan once it opens.
    pub fn offer_door(&mut self, door: MemDoor)
        ensures { self.new ≡ record self.old { door = door } }
    {
        self.door = door;
    }

    /// This port is the one that waits, likewise.
    pub fn offer_port(&mut self, port: MemPort)
        requires { IsUnusedPort port }
        ensures { self.new ≡ record self.old { port = port } }
    {
        self.port = port;
    }

    /// Takes the door that waits, to be changed and offered again. One to which nobody comes waits in its place.
    pub fn take_door(&mut self) -> MemDoor
        ensures taken { result ≡ self.old.door }
        ensures left { self.new ≡ record self.old { door = fresh_door nowhere 0 } }
    {
        let next = MemDoor::empty(self.alloc, NOWHERE);
        mem::replace(&mut self.door, next)
    }

    /// Takes the port that waits, likewise.
    pub fn take_port(&mut self) -> MemPort
        ensures taken { result ≡ self.old.port }
        ensures unused { IsUnusedPort result }
        ensures left { self.new ≡ record self.old { port = fresh_port nowhere no_room } }
    {
        let next = MemPort::empty(self.alloc, NOWHERE);
        mem::replace(&mut self.port, next)
    }

    /// Which name was looked up last.
    pub fn last_lookup(&self) -> Option<&Name>
        ensures { option_copied result ≡ self.now.last_lookup }
    {
        self.last_lookup.as_ref()
    }

    /// Where the last dial went.
    pub fn last_dial(&self) -> Option<Endpoint>
        ensures { result ≡ self.now.last }
    {
        self.last
    }

    /// At which address a door or a port was opened last, or was to be.
    pub fn last_opening(&self) -> Option<Addr>
        ensures { result ≡ self.now.last_opening }
    {
        self.last_opening
    }
}

impl Net for MemNet {
    ghost use Rattle.std.specs.Prelude.{◌≡◌, Option, Some};
    ghost use Rattle.net_ends.specs.InMemory.{door_left, link_left, outcome_left, port_left, told_of_door, told_of_link, told_of_net, told_of_port};
    ghost use Rattle.net_ends.specs.declared.net.Lookup.{Lookup};
    ghost use Rattle.net_ends.specs.declared.opening.OpenPlan.{OpenPlan};
    ghost use Rattle.net_ends.specs.Doors.{IsFreshDoor, with_one};
    ghost use Rattle.net_ends.specs.Nets.{Plan, AsPlanned, KeepsPlan, SameLookups, SameOpenings, IfUp, NetLater, LookupCause, DialCause, looked_up, dialled, outcome_of};
    ghost use Rattle.net_ends.specs.Openings.{IfOpened, KeepsOpening, OpeningCause, PlannedDoor, PlannedPort, local_of, opened_door, opened_port};
    ghost use Rattle.net_ends.specs.Ports.{IsFreshPort};
    ghost use Rattle.net_ends.specs.Told.{IsFresh};

    type Link = MemLink;

    type Door = MemDoor;

    type Port = MemPort;

    ghost told = { told_of_net };

    fn lookup(&mut self, name: &Name) -> Lookup
        ensures told { told_of_net self.new ≡ record (told_of_net self.old) { lookups = looked_up (told_of_net self.old).lookups (record { name = name.now; outcome = result }); counts = self.new.counts } }
        ensures planned { (plan : Lookup) → (told_of_net self.old).lookup_plan ≡ Some plan → result ≡ plan }
        ensures later { NetLater self.old.counts self.new.counts }
        ensures cause { LookupCause self.old.counts self.new.counts result }

        // Beside the clauses of the trait: the name is kept, and nothing else changes but the counts.
        ensures rest { self.new ≡ record self.old { last_lookup = Some name.now; counts = self.new.counts } }
    {
        self.last_lookup = Some(name.copy());
        match self.lookup {
            Lookup::Found(_) => {}
            Lookup::NotFound => self.not_found = self.not_found.saturating_add(1),
            Lookup::Failed => self.faults = self.faults.saturating_add(1),
        }
        self.lookup
    }

    fn dial(&mut self, to: Endpoint) -> Dialing<MemLink>
        ensures told { (told_of_net self.new).dials ≡ dialled (told_of_net self.old).dials (record { to = to; outcome = outcome_of result }) }
        ensures planned { (plan : Plan) → (told_of_net self.old).plan ≡ Some plan → AsPlanned told_of_link (λ link. link.counts) plan result }
        ensures kept { KeepsPlan result (told_of_net self.old).plan (told_of_net self.new).plan }
        ensures lookups { SameLookups (told_of_net self.old) (told_of_net self.new) }
        ensures openings { SameOpenings (told_of_net self.old) (told_of_net self.new) }
        ensures fresh { IfUp result (λ link. IsFresh (told_of_link link)) }
        ensures later { NetLater self.old.counts self.new.counts }
        ensures cause { DialCause self.old.counts self.new.counts (outcome_of result) }

        // Beside the clauses of the trait: the link is given once, and the last dial is kept.
        ensures outcome { self.new.outcome ≡ outcome_left self.old.outcome }
        ensures link { self.new.link ≡ link_left self.old.outcome self.old.link }
        ensures last { self.new.last ≡ Some to }
        ensures last_lookup { self.new.last_lookup ≡ self.old.last_lookup }
        ensures door { self.new.door ≡ self.old.door }
        ensures port { self.new.port ≡ self.old.port }
        ensures last_opening { self.new.last_opening ≡ self.old.last_opening }
    {
        self.last = Some(to);
        match self.outcome {
            DialPlan::Up(local) => {
                self.outcome = DialPlan::Refused;
                let next = MemLink::empty(self.alloc);
                let link = mem::replace(&mut self.link, next);
                Dialing::Up { link, local }
            }
            DialPlan::Refused => {
                self.refused = self.refused.saturating_add(1);
                Dialing::Refused
            }
            DialPlan::HostUnreachable => {
                self.no_host = self.no_host.saturating_add(1);
                Dialing::HostUnreachable
            }
            DialPlan::NetUnreachable => {
                self.no_net = self.no_net.saturating_add(1);
                Dialing::NetUnreachable
            }
            DialPlan::Failed => {
                self.faults = self.faults.saturating_add(1);
                Dialing::Failed
            }
        }
    }

    fn open_door(&mut self, at: Addr) -> Opening<MemDoor>
        ensures told { told_of_net self.new ≡ record (told_of_net self.old) { doors = with_one (told_of_net self.old).doors (record { at = at; local = local_of (λ door. (told_of_door door).local) result }); door_plan = (told_of_net self.new).door_plan; counts = self.new.counts } }
        ensures planned { (plan : Option PlannedDoor) → (told_of_net self.old).door_plan ≡ Some plan → opened_door told_of_door (λ door. door.counts) result ≡ plan }
        ensures kept { KeepsOpening result (told_of_net self.old).door_plan (told_of_net self.new).door_plan }
        ensures fresh { IfOpened result (λ door. IsFreshDoor (told_of_door door)) }
        ensures later { NetLater self.old.counts self.new.counts }
        ensures cause { OpeningCause self.old.counts.faults self.new.counts.faults result }

        // Beside the clauses of the trait: the door is given once, the address is kept, and nothing else changes but the counts.
        ensures rest { self.new ≡ record self.old { door_plan = OpenPlan.Failed; door = door_left self.old.door_plan self.old.door; last_opening = Some at; counts = self.new.counts } }
    {
        self.last_opening = Some(at);
        match self.door_plan {
            OpenPlan::Open(local) => {
                self.door_plan = OpenPlan::Failed;
                let mut door = self.take_door();
                door.stand_at(local);
                Opening::Open(door)
            }
            OpenPlan::Failed => {
                self.faults = self.faults.saturating_add(1);
                Opening::Failed
            }
        }
    }

    fn open_port(&mut self, at: Addr) -> Opening<MemPort>
        ensures told { told_of_net self.new ≡ record (told_of_net self.old) { ports = with_one (told_of_net self.old).ports (record { at = at; local = local_of (λ port. (told_of_port port).local) result }); port_plan = (told_of_net self.new).port_plan; counts = self.new.counts } }
        ensures planned { (plan : Option PlannedPort) → (told_of_net self.old).port_plan ≡ Some plan → opened_port told_of_port (λ port. port.counts) result ≡ plan }
        ensures kept { KeepsOpening result (told_of_net self.old).port_plan (told_of_net self.new).port_plan }
        ensures fresh { IfOpened result (λ port. IsFreshPort (told_of_port port)) }
        ensures later { NetLater self.old.counts self.new.counts }
        ensures cause { OpeningCause self.old.counts.faults self.new.counts.faults result }

        // Beside the clauses of the trait: the port is given once, the address is kept, and nothing else changes but the counts.
        ensures rest { self.new ≡ record self.old { port_plan = OpenPlan.Failed; port = port_left self.old.port_plan self.old.port; last_opening = Some at; counts = self.new.counts } }
    {
        self.last_opening = Some(at);
        match self.port_plan {
            OpenPlan::Open(local) => {
                self.port_plan = OpenPlan::Failed;
                let mut port = self.take_port();
                port.stand_at(local);
                Opening::Open(port)
            }
            OpenPlan::Failed => {
                self.faults = self.faults.saturating_add(1);
                Opening::Failed
            }
        }
    }
}
