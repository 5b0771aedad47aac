ghost use Rattle.std.specs.Prelude.{◌≡◌, ◌||◌, ◌++◌, ◌+◌, true, false, Some, None, IfOk, OnOk, OnErr};

use crate::door::{Accepting, Door};
use crate::failing::FailingCalls;
use crate::kinds::{Kind, Kinds};
use crate::memory_link::MemLink;
use addr_pattern::{Addr, Endpoint};
use lists::Memory;
use std::alloc::Global;
use std::marker::Model;
use std::mem;

/// A door that holds the peer that comes next, and the link that it then gives, at which bytes can arrive before. Once a peer was
/// given, nobody comes until another does.
#[derive(Drop)]
pub struct MemDoor {
    alloc: Global,
    local: Endpoint,
    peer: Option<Endpoint>,
    link: MemLink,
    failing: FailingCalls,
    next_fail: Kinds,
    may_fail: bool,
    faults: u64,
    idle: u64,
}

impl Model for MemDoor {
    ghost use Rattle.std.specs.Prelude.{◌≡◌, [], false, not};
    ghost use Rattle.net_ends.specs.Faults.{no_kind};
    ghost use Rattle.net_ends.specs.InMemory.{IsUnused, due_of};
    ghost use Rattle.net_ends.specs.InMemory.{DoorInMemory};

    ghost Value = { DoorInMemory };

    ghost view = { λ m. record {
      local = m.local;
      peer = m.peer;
      link = m.link;
      unfailing = not m.may_fail;
      failing = m.failing;
      next_fail = m.next_fail;
      counts = record { faults = m.faults; idle_reads = m.idle; idle_writes = 0; due = due_of m.failing.numbers m.next_fail };
    } };

    ghost invariant = { λ m. IsUnused m.link × (m.may_fail ≡ false → m.failing.numbers ≡ []) × (m.may_fail ≡ false → m.next_fail ≡ no_kind) };
}

impl MemDoor {
    ghost use Rattle.net_ends.specs.declared.kinds.Kind.{Kind};
    ghost use Rattle.net_ends.specs.Failing.{with_failure};
    ghost use Rattle.net_ends.specs.InMemory.{with_next};
    ghost use Rattle.net_ends.specs.InMemory.{fresh_door, with_next_accept};

    /// A door to which nobody comes yet. The link that waits in it has room for that many bytes that it takes.
    pub fn make(alloc: Global, local: Endpoint, cap: usize) -> Result<MemDoor, Memory>
        ensures { IfOk result (λ door. door ≡ fresh_door local cap) }
    {
        let link = MemLink::make(alloc, cap)?;
        Ok(MemDoor {
            link,
            ..MemDoor::empty(alloc, local)
        })
    }

    /// A door to which nobody comes yet, and whose link can take nothing. It needs no memory.
    pub fn empty(alloc: Global, local: Endpoint) -> MemDoor
        ensures { result ≡ fresh_door local 0 }
    {
        MemDoor {
            alloc,
            local,
            peer: None,
            link: MemLink::empty(alloc),
            failing: FailingCalls::none(alloc),
            next_fail: Kinds::none(),
            may_fail: false,
            faults: 0,
            idle: 0,
        }
    }

    /// The door stands at this endpoint.
    pub(crate) fn stand_at(&mut self, local: Endpoint)
        ensures { self.new ≡ record self.old { local = local } }
    {
        self.local = local;
    }

    /// This peer comes next.
    pub fn come(&mut self, peer: Endpoint)
        ensures { self.new ≡ record self.old { peer = Some peer } }
    {
        self.peer = Some(peer);
    }

    /// Bytes arrive at the link that waits, behind those that arrived before.
    pub fn arrive(&mut self, bytes: &[u8]) -> Result<(), Memory>
        requires { self.old.link.ends ≡ false }
        ensures ok { OnOk result (self.new ≡ record self.old { link = record self.old.link { arrived = self.old.link.arrived ++ bytes.now } }) }
        ensures err { OnErr result (self.new ≡ self.old) }
    {
        self.link.arrive(bytes)
    }

    /// The end stands behind what arrived at the link that waits.
    pub fn end(&mut self)
        ensures { self.new ≡ record self.old { link = record self.old.link { ends = true } } }
    {
        self.link.end()
    }

    /// Makes room for that many further bytes in the link that waits.
    pub fn spare(&mut self, further: usize) -> Result<(), Memory>
        ensures ok { OnOk result (self.new ≡ record self.old { link = record self.old.link { cap = self.old.link.cap + further } }) }
        ensures err { OnErr result (self.new ≡ self.old) }
    {
        self.link.spare(further)
    }

    /// Each write to the link that waits takes at most that many bytes from here on.
    pub fn set_room(&mut self, most: usize)
        ensures { self.new ≡ record self.old { link = record self.old.link { room = Some most } } }
    {
        self.link.set_room(most)
    }

    /// The next call of this kind on the link that waits is to fail.
    pub fn fail_next(&mut self, kind: Kind)
        ensures { self.new ≡ record self.old { link = with_next self.old.link kind } }
    {
        self.link.fail_next(kind)
    }

    /// The accept of this number, counted from 1, is to fail.
    pub fn fail_at(&mut self, number: u64) -> Result<(), Memory>
        ensures ok { OnOk result (self.new ≡ record self.old { unfailing = false; failing = with_failure self.old.failing number; counts = record self.old.counts { due = None } }) }
        ensures err { OnErr result (self.new ≡ self.old) }
    {
        self.failing.add(number)?;
        self.may_fail = true;
        Ok(())
    }

    /// The next accept is to fail.
    pub fn fail_next_accept(&mut self)
        ensures { self.new ≡ with_next_accept self.old }
    {
        self.next_fail = self.next_fail.with(Kind::Read);
        self.may_fail = true;
    }
}

impl Door for MemDoor {
    ghost use Rattle.net_ends.specs.declared.kinds.Kind.{Kind};
    ghost use Rattle.net_ends.specs.Counts.{Later, ReadCause};
    ghost use Rattle.net_ends.specs.Doors.{IfCame, MayAccept, after_accept, as_read};
    ghost use Rattle.net_ends.specs.Failing.{after_call, is_failed_reading, is_to_fail};
    ghost use Rattle.net_ends.specs.Faults.{ReadTried, is_among, without_kind};
    ghost use Rattle.net_ends.specs.InMemory.{told_of_link};
    ghost use Rattle.net_ends.specs.InMemory.{told_of_door};
    ghost use Rattle.net_ends.specs.Told.{IsFresh};

    type Link = MemLink;

    ghost told = { told_of_door };

    ghost counts = { λ door. door.counts };

    fn local(&self) -> Endpoint
        ensures { result ≡ self.now.local }
    {
        self.local
    }

    fn accept(&mut self) -> Accepting<MemLink>
        ensures answer { MayAccept told_of_link (λ link. link.counts) (told_of_door self.old) result }
        ensures told { told_of_door self.new ≡ after_accept (told_of_door self.old) result (told_of_door self.new).next }
        ensures fresh { IfCame result (λ link. IsFresh (told_of_link link)) }
        ensures later { Later self.old.counts self.new.counts }
        ensures cause { ReadCause self.old.counts self.new.counts (as_read result) }
        ensures tried { ReadTried self.old.counts self.new.counts (as_read result) }

        // Beside the clauses of the trait: it fails at the numbered accepts, at the next that is to fail, and nowhere else; a peer is given
        // once.
        ensures counted { self.new.failing ≡ after_call self.old.failing }
        ensures failed { is_failed_reading (as_read result) ≡ is_to_fail self.new.failing || is_among self.old.next_fail Kind.Read }
        ensures next { self.new.next_fail ≡ without_kind self.old.next_fail Kind.Read }
        ensures once { IfCame result (λ _. self.new.peer ≡ None) }
    {
        let numbered = self.failing.next_fails();
        if self.next_fail.take_out(Kind::Read) || numbered {
            self.faults = self.faults.saturating_add(1);
            return Accepting::Failed;
        }
        match self.peer {
            None => {
                self.idle = self.idle.saturating_add(1);
                Accepting::NotYet
            }
            Some(peer) => {
                self.peer = None;
                let next = MemLink::empty(self.alloc);
                Accepting::Got(mem::replace(&mut self.link, next), peer)
            }
        }
    }
}
