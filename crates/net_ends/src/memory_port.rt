ghost use Rattle.std.specs.Prelude.{◌≡◌, ◌≤◌, ◌||◌, ◌++◌, ◌∷◌, ◌+◌, [], true, false, Some, None, IfOk, OnOk, OnErr, length};
ghost use Rattle.std.specs.List.{list_all};
ghost use Rattle.net_ends.specs.InMemory.{IsReceived, is_datagram};
ghost use Rattle.net_ends.specs.Ports.{has_room, room_behind};

use crate::datagram::{Addressed, Datagram};
use crate::failing::FailingCalls;
use crate::kinds::{Kind, Kinds};
use crate::pieces::copy_front;
use crate::port::{Port, Receiving, Sending};
use addr_pattern::Endpoint;
use lists::{List, Memory, Text};
use std::alloc::Global;
use std::marker::Model;

/// A port that gives the datagrams that arrived at it, and keeps those that it took. It takes datagrams only into the room that was
/// made for them.
#[derive(Drop)]
pub struct MemPort {
    local: Endpoint,
    arrived: List<Datagram>,
    given: usize,
    heads: Vec<Addressed>,
    bytes: Vec<u8>,
    most: usize,
    cap: usize,
    failing: FailingCalls,
    next_fail: Kinds,
    may_fail: bool,
    faults: u64,
    idle_reads: u64,
    idle_writes: u64,
}

impl Model for MemPort {
    ghost use Rattle.std.specs.Prelude.{◌≡◌, ◌≤◌, ◌-◌, ℕ, [], true, false, not, length, take, vec_len, vec_capacity};
    ghost use Rattle.std.specs.List.{list_all};
    ghost use Rattle.net_ends.specs.Faults.{no_kind};
    ghost use Rattle.net_ends.specs.InMemory.{due_of};
    ghost use Rattle.net_ends.specs.InMemory.{PortInMemory, cut, is_datagram, total};

    ghost Value = { PortInMemory };

    ghost view = { λ m. record {
      local = m.local;
      arrived = m.arrived;
      given = take m.given m.arrived;
      taken = cut m.heads.items m.bytes.items;
      room = record { datagrams = m.most - length m.heads.items; bytes = m.cap - length m.bytes.items };
      unfailing = not m.may_fail;
      failing = m.failing;
      next_fail = m.next_fail;
      counts = record { faults = m.faults; idle_reads = m.idle_reads; idle_writes = m.idle_writes; due = due_of m.failing.numbers m.next_fail };
    } };

    ghost invariant = { λ m. (m.given ≤ length m.arrived) × (list_all is_datagram m.arrived ≡ true) × (total m.heads.items ≡ length m.bytes.items) × (vec_len m.heads ≤ m.most) × (m.most ≤ vec_capacity m.heads) × (vec_len m.bytes ≤ m.cap) × (m.cap ≤ vec_capacity m.bytes) × (m.may_fail ≡ false → m.failing.numbers ≡ []) × (m.may_fail ≡ false → m.next_fail ≡ no_kind) };
}

/// Copies the datagram at a place to the front of a buffer: its length, and where it came from.
fn receive_from(arrived: &[Datagram], at: usize, into: &mut [u8]) -> Option<(usize, Endpoint)>
    requires datagrams { list_all is_datagram arrived.now ≡ true }
    requires buffer { length into.old ≡ 65535 }
    ensures { IsReceived arrived.now at into.new result }
{
    let datagram = arrived.get(at)?;
    let len = copy_front(into, datagram.bytes.as_slice());
    Some((len, datagram.peer))
}

impl MemPort {
    ghost use Rattle.net_ends.specs.declared.kinds.Kind.{Kind};
    ghost use Rattle.net_ends.specs.Failing.{with_failure};
    ghost use Rattle.net_ends.specs.InMemory.{fresh_port, with_next_call};

    /// A port at which nothing has arrived yet, with room for that many datagrams that it takes, and that many bytes in all of them.
    pub fn make(alloc: Global, local: Endpoint, most: usize, cap: usize) -> Result<MemPort, Memory>
        ensures { IfOk result (λ port. port ≡ fresh_port local (record { datagrams = most; bytes = cap })) }
    {
        let mut port = MemPort::empty(alloc, local);
        port.reserve(most, cap)?;
        Ok(port)
    }

    /// A port at which nothing has arrived, and that can take nothing. It needs no memory.
    pub fn empty(alloc: Global, local: Endpoint) -> MemPort
        ensures { result ≡ fresh_port local (record { datagrams = 0; bytes = 0 }) }
    {
        MemPort {
            local,
            arrived: List::make(alloc),
            given: 0,
            heads: Vec::new(alloc),
            bytes: Vec::new(alloc),
            most: 0,
            cap: 0,
            failing: FailingCalls::none(alloc),
            next_fail: Kinds::none(),
            may_fail: false,
            faults: 0,
            idle_reads: 0,
            idle_writes: 0,
        }
    }

    /// The port stands at this endpoint.
    pub(crate) fn stand_at(&mut self, local: Endpoint)
        ensures { self.new ≡ record self.old { local = local } }
    {
        self.local = local;
    }

    /// Makes room for that many further datagrams, and that many further bytes in all of them.
    pub fn reserve(&mut self, datagrams: usize, bytes: usize) -> Result<(), Memory>
        ensures ok { OnOk result (self.new ≡ record self.old { room = record { datagrams = self.old.room.datagrams + datagrams; bytes = self.old.room.bytes + bytes } }) }
        ensures err { OnErr result (self.new ≡ self.old) }
    {
        let (Some(most), Some(cap)) = (
            self.most.checked_add(datagrams),
            self.cap.checked_add(bytes),
        ) else {
            return Err(Memory);
        };
        if self.heads.reserve(most - self.heads.len()).is_err() {
            return Err(Memory);
        }
        if self.bytes.reserve(cap - self.bytes.len()).is_err() {
            return Err(Memory);
        }
        self.most = most;
        self.cap = cap;
        Ok(())
    }

    /// A datagram arrives behind those that arrived before, with 65,535 bytes at most.
    pub fn arrive(&mut self, alloc: Global, from: Endpoint, bytes: &[u8]) -> Result<(), Memory>
        requires { length bytes.now ≤ 65535 }
        ensures ok { OnOk result (self.new ≡ record self.old { arrived = self.old.arrived ++ record { peer = from; bytes = bytes.now } ∷ [] }) }
        ensures err { OnErr result (self.new ≡ self.old) }
    {
        let Ok(bytes) = Text::from_slice(alloc, bytes) else {
            return Err(Memory);
        };
        let datagram = Datagram { peer: from, bytes };
        match self.arrived.push(datagram) {
            Ok(()) => Ok(()),
            Err(_) => Err(Memory),
        }
    }

    /// The call of this number, counted from 1 over all calls, is to fail.
    pub fn fail_at(&mut self, number: u64) -> Result<(), Memory>
        ensures ok { OnOk result (self.new ≡ record self.old { unfailing = false; failing = with_failure self.old.failing number; counts = record self.old.counts { due = None } }) }
        ensures err { OnErr result (self.new ≡ self.old) }
    {
        self.failing.add(number)?;
        self.may_fail = true;
        Ok(())
    }

    /// The next receive is to fail.
    pub fn fail_next_receive(&mut self)
        ensures { self.new ≡ with_next_call self.old Kind.Read }
    {
        self.next_fail = self.next_fail.with(Kind::Read);
        self.may_fail = true;
    }

    /// The next send is to fail.
    pub fn fail_next_send(&mut self)
        ensures { self.new ≡ with_next_call self.old Kind.Write }
    {
        self.next_fail = self.next_fail.with(Kind::Write);
        self.may_fail = true;
    }

    /// How many datagrams it took.
    pub fn taken_count(&self) -> usize
        ensures { result ≡ length self.now.taken }
    {
        self.heads.len()
    }

    /// Keeps a datagram behind those that it took.
    fn keep(&mut self, to: Endpoint, from: &[u8])
        requires { has_room self.old.room (length from.now) ≡ true }
        ensures { self.new ≡ record self.old { taken = self.old.taken ++ record { peer = to; bytes = from.now } ∷ []; room = room_behind (length from.now) self.old.room } }
    {
        let head = Addressed {
            to,
            len: from.len(),
        };
        if self.heads.push(head).is_err() || self.bytes.extend_from_slice(from).is_err() {
            unreachable!();
        }
    }
}

impl Port for MemPort {
    ghost use Rattle.net_ends.specs.declared.kinds.Kind.{Kind};
    ghost use Rattle.net_ends.specs.Counts.{Later, ReadCause, WriteCause};
    ghost use Rattle.net_ends.specs.Failing.{after_call, is_failed_reading, is_failed_writing, is_to_fail};
    ghost use Rattle.net_ends.specs.Faults.{ReadTried, WriteTried, is_among, without_kind};
    ghost use Rattle.net_ends.specs.InMemory.{told_of_port};
    ghost use Rattle.net_ends.specs.Ports.{GivesDatagrams, MayReceive, MaySend, after_receive, after_send, as_read, as_write};

    ghost told = { told_of_port };

    ghost counts = { λ port. port.counts };

    fn local(&self) -> Endpoint
        ensures { result ≡ self.now.local }
    {
        self.local
    }

    fn recv(&mut self, into: &mut [u8]) -> Receiving
        requires { length into.old ≡ 65535 }
        ensures answer { MayReceive (told_of_port self.old) result }
        ensures told { told_of_port self.new ≡ after_receive (told_of_port self.old) result into.new }
        ensures arrived { GivesDatagrams (told_of_port self.new) result }
        ensures later { Later self.old.counts self.new.counts }
        ensures cause { ReadCause self.old.counts self.new.counts (as_read result) }
        ensures tried { ReadTried self.old.counts self.new.counts (as_read result) }

        // Beside the clauses of the trait: it fails at the numbered calls, at the next that is to fail, and nowhere else.
        ensures counted { self.new.failing ≡ after_call self.old.failing }
        ensures failed { is_failed_reading (as_read result) ≡ is_to_fail self.new.failing || is_among self.old.next_fail Kind.Read }
        ensures next { self.new.next_fail ≡ without_kind self.old.next_fail Kind.Read }
    {
        let numbered = self.failing.next_fails();
        if self.next_fail.take_out(Kind::Read) || numbered {
            self.faults = self.faults.saturating_add(1);
            return Receiving::Failed;
        }
        match receive_from(self.arrived.as_slice(), self.given, into) {
            None => {
                self.idle_reads = self.idle_reads.saturating_add(1);
                Receiving::NotYet
            }
            Some((len, from)) => {
                self.given += 1;
                Receiving::Got { len, from }
            }
        }
    }

    fn send(&mut self, to: Endpoint, from: &[u8]) -> Sending
        ensures answer { MaySend (told_of_port self.old) (length from.now) result }
        ensures told { told_of_port self.new ≡ after_send (told_of_port self.old) result to from.now }
        ensures later { Later self.old.counts self.new.counts }
        ensures cause { WriteCause self.old.counts self.new.counts (as_write result) }
        ensures tried { WriteTried self.old.counts self.new.counts (as_write result) }

        // Beside the clauses of the trait, as for a receive.
        ensures counted { self.new.failing ≡ after_call self.old.failing }
        ensures failed { is_failed_writing (as_write result) ≡ is_to_fail self.new.failing || is_among self.old.next_fail Kind.Write }
        ensures next { self.new.next_fail ≡ without_kind self.old.next_fail Kind.Write }
    {
        let numbered = self.failing.next_fails();
        if self.next_fail.take_out(Kind::Write) || numbered {
            self.faults = self.faults.saturating_add(1);
            return Sending::Failed;
        }
        if self.heads.len() == self.most || self.cap - self.bytes.len() < from.len() {
            self.idle_writes = self.idle_writes.saturating_add(1);
            return Sending::NotYet;
        }
        self.keep(to, from);
        Sending::Took
    }
}
