ghost use Rattle.std.specs.Prelude.{ℕ, ◌≡◌, ◌≢◌, ◌<◌, ◌≤◌, ◌+◌, ◌-◌, ◌++◌, true, false, Some, IfOk, OnOk, OnErr, length};

use crate::failing::FailingCalls;
use crate::kinds::{Kind, Kinds};
use crate::link::{Link, Reading, Shutting, Writing};
use crate::pieces::{copy_front, rest_of};
use lists::{Memory, Text};
use std::alloc::Global;
use std::marker::Model;

/// A link that gives what arrived at it, and keeps what it took. It takes bytes only into the room that was made for them, and
/// in one write no more than was set.
#[derive(Drop)]
pub struct MemLink {
    arrived: Text,
    given: usize,
    ends: bool,
    taken: Vec<u8>,
    cap: usize,
    room: Option<usize>,
    ended: bool,
    shut: bool,
    failing: FailingCalls,
    next_fail: Kinds,
    may_fail: bool,
    faults: u64,
    idle_reads: u64,
    idle_writes: u64,
}

impl Model for MemLink {
    ghost use Rattle.std.specs.Prelude.{◌≡◌, ◌≤◌, ℕ, [], true, false, not, length, take, vec_len, vec_capacity};
    ghost use Rattle.net_ends.specs.Faults.{no_kind};
    ghost use Rattle.net_ends.specs.InMemory.{LinkInMemory, due_of};

    ghost Value = { LinkInMemory };

    ghost view = { λ m. record {
      arrived = m.arrived;
      ends = m.ends;
      given = take m.given m.arrived;
      taken = m.taken.items;
      cap = m.cap;
      room = m.room;
      ended = m.ended;
      shut = m.shut;
      unfailing = not m.may_fail;
      failing = m.failing;
      next_fail = m.next_fail;
      counts = record { faults = m.faults; idle_reads = m.idle_reads; idle_writes = m.idle_writes; due = due_of m.failing.numbers m.next_fail };
    } };

    ghost invariant = { λ m. (m.given ≤ length m.arrived) × (vec_len m.taken ≤ m.cap) × (m.cap ≤ vec_capacity m.taken) × (m.ended ≡ true → m.ends ≡ true) × (m.ended ≡ true → m.given ≡ length m.arrived) × (m.may_fail ≡ false → m.failing.numbers ≡ []) × (m.may_fail ≡ false → m.next_fail ≡ no_kind) };
}

impl MemLink {
    ghost use Rattle.net_ends.specs.Failing.{with_failure};
    ghost use Rattle.net_ends.specs.InMemory.{fresh_link, with_next};

    /// A link at which nothing has arrived yet, with room for that many bytes that it takes.
    pub fn make(alloc: Global, cap: usize) -> Result<MemLink, Memory>
        ensures { IfOk result (λ link. link ≡ fresh_link cap) }
    {
        match Vec::with_capacity(alloc, cap) {
            Ok(taken) => Ok(MemLink {
                arrived: Text::make(alloc),
                given: 0,
                ends: false,
                taken,
                cap,
                room: None,
                ended: false,
                shut: false,
                failing: FailingCalls::none(alloc),
                next_fail: Kinds::none(),
                may_fail: false,
                faults: 0,
                idle_reads: 0,
                idle_writes: 0,
            }),
            Err(_) => Err(Memory),
        }
    }

    /// A link at which nothing has arrived, and that can take nothing. It needs no memory.
    pub(crate) fn empty(alloc: Global) -> MemLink
        ensures { result ≡ fresh_link 0 }
    {
        MemLink {
            arrived: Text::make(alloc),
            given: 0,
            ends: false,
            taken: Vec::new(alloc),
            cap: 0,
            room: None,
            ended: false,
            shut: false,
            failing: FailingCalls::none(alloc),
            next_fail: Kinds::none(),
            may_fail: false,
            faults: 0,
            idle_reads: 0,
            idle_writes: 0,
        }
    }

    /// Bytes arrive behind those that arrived before.
    pub fn arrive(&mut self, bytes: &[u8]) -> Result<(), Memory>
        requires { self.old.ends ≡ false }
        ensures ok { OnOk result (self.new ≡ record self.old { arrived = self.old.arrived ++ bytes.now }) }
        ensures err { OnErr result (self.new ≡ self.old) }
    {
        match self.arrived.add(bytes) {
            Ok(()) => Ok(()),
            Err(_) => Err(Memory),
        }
    }

    /// The end stands behind what arrived.
    pub fn end(&mut self)
        ensures { self.new ≡ record self.old { ends = true } }
    {
        self.ends = true;
    }

    /// Makes room for that many further bytes.
    pub fn spare(&mut self, further: usize) -> Result<(), Memory>
        ensures ok { OnOk result (self.new ≡ record self.old { cap = self.old.cap + further }) }
        ensures err { OnErr result (self.new ≡ self.old) }
    {
        let Some(cap) = self.cap.checked_add(further) else {
            return Err(Memory);
        };
        match self.taken.reserve(cap - self.taken.len()) {
            Ok(()) => {
                self.cap = cap;
                Ok(())
            }
            Err(_) => Err(Memory),
        }
    }

    /// Each write takes at most that many bytes from here on; none where that is 0.
    pub fn set_room(&mut self, most: usize)
        ensures { self.new ≡ record self.old { room = Some most } }
    {
        self.room = Some(most);
    }

    /// The call of this number, counted from 1 over all calls, is to fail.
    pub fn fail_at(&mut self, number: u64) -> Result<(), Memory>
        ensures ok { OnOk result (self.new ≡ record self.old { unfailing = false; failing = with_failure self.old.failing number; counts = record self.old.counts { due = None } }) }
        ensures err { OnErr result (self.new ≡ self.old) }
    {
        self.failing.add(number)?;
        self.may_fail = true;
        Ok(())
    }

    /// The next call of this kind is to fail.
    pub fn fail_next(&mut self, kind: Kind)
        ensures { self.new ≡ with_next self.old kind }
    {
        self.next_fail = self.next_fail.with(kind);
        self.may_fail = true;
    }

    /// How many bytes a write can take now.
    fn spare_of_write(&self) -> usize
        ensures within { result ≤ self.now.cap - length self.now.taken }
        ensures room { (room : ℕ) → self.now.room ≡ Some room → result ≤ room }
        ensures full { self.now.room ≢ Some 0 → result ≡ 0 → self.now.cap ≤ length self.now.taken }
    {
        let spare = self.cap - self.taken.len();
        match self.room {
            None => spare,
            Some(room) => spare.min(room),
        }
    }

    /// What it took.
    pub fn taken(&self) -> &[u8]
        ensures { result.now ≡ self.now.taken }
    {
        self.taken.as_slice()
    }

    /// Whether it has answered its end.
    pub fn has_ended(&self) -> bool
        ensures { result ≡ self.now.ended }
    {
        self.ended
    }

    /// Whether a shut of it was done.
    pub fn was_shut(&self) -> bool
        ensures { result ≡ self.now.shut }
    {
        self.shut
    }
}

impl Link for MemLink {
    ghost use Rattle.net_ends.specs.Told.{after_read, after_write, after_shut, MayRead, MayWrite, MayShut, GivesArrived};
    ghost use Rattle.net_ends.specs.Counts.{Later, ReadCause, WriteCause, ShutCause};
    ghost use Rattle.std.specs.Prelude.{◌||◌};
    ghost use Rattle.net_ends.specs.Faults.{ReadTried, WriteTried, ShutTried, is_among, without_kind};
    ghost use Rattle.net_ends.specs.declared.kinds.Kind.{Kind};
    ghost use Rattle.net_ends.specs.Failing.{after_call, is_to_fail, is_failed_reading, is_failed_writing, is_failed_shutting};
    ghost use Rattle.net_ends.specs.InMemory.{told_of_link};

    ghost told = { told_of_link };

    ghost counts = { λ link. link.counts };

    fn read(&mut self, into: &mut [u8]) -> Reading
        requires { 0 < length into.old }
        ensures answer { MayRead (told_of_link self.old) (length into.old) result }
        ensures told { told_of_link self.new ≡ after_read (told_of_link self.old) result into.new }
        ensures arrived { GivesArrived (told_of_link self.new) result }
        ensures later { Later self.old.counts self.new.counts }
        ensures cause { ReadCause self.old.counts self.new.counts result }
        ensures tried { ReadTried self.old.counts self.new.counts result }

        // Beside the clauses of the trait: it fails at the numbered calls, at the next call of a kind that is to fail, and nowhere else.
        ensures counted { self.new.failing ≡ after_call self.old.failing }
        ensures failed { is_failed_reading result ≡ is_to_fail self.new.failing || is_among self.old.next_fail Kind.Read }
        ensures next { self.new.next_fail ≡ without_kind self.old.next_fail Kind.Read }
    {
        let numbered = self.failing.next_fails();
        if self.next_fail.take_out(Kind::Read) || numbered {
            self.faults = self.faults.saturating_add(1);
            return Reading::Failed;
        }
        let rest = rest_of(self.arrived.as_slice(), self.given);
        if rest.is_empty() {
            if self.ends {
                self.ended = true;
                return Reading::End;
            }
            self.idle_reads = self.idle_reads.saturating_add(1);
            return Reading::NotYet;
        }
        let n = copy_front(into, rest);
        self.given += n;
        Reading::Got(n)
    }

    fn write(&mut self, from: &[u8]) -> Writing
        requires { 0 < length from.now }
        ensures answer { MayWrite (told_of_link self.old) (length from.now) result }
        ensures told { told_of_link self.new ≡ after_write (told_of_link self.old) result from.now }
        ensures later { Later self.old.counts self.new.counts }
        ensures cause { WriteCause self.old.counts self.new.counts result }
        ensures tried { WriteTried self.old.counts self.new.counts result }

        // Beside the clauses of the trait, as for a read.
        ensures counted { self.new.failing ≡ after_call self.old.failing }
        ensures failed { is_failed_writing result ≡ is_to_fail self.new.failing || is_among self.old.next_fail Kind.Write }
        ensures next { self.new.next_fail ≡ without_kind self.old.next_fail Kind.Write }
    {
        let numbered = self.failing.next_fails();
        if self.next_fail.take_out(Kind::Write) || numbered {
            self.faults = self.faults.saturating_add(1);
            return Writing::Failed;
        }
        let n = from.len().min(self.spare_of_write());
        if n == 0 {
            self.idle_writes = self.idle_writes.saturating_add(1);
            return Writing::NotYet;
        }
        match self.taken.extend_from_slice(&from[..n]) {
            Ok(()) => Writing::Took(n),
            Err(_) => unreachable!(),
        }
    }

    fn shut(&mut self) -> Shutting
        ensures answer { MayShut (told_of_link self.old) result }
        ensures told { told_of_link self.new ≡ after_shut (told_of_link self.old) result }
        ensures later { Later self.old.counts self.new.counts }
        ensures cause { ShutCause self.old.counts self.new.counts result }
        ensures tried { ShutTried self.old.counts self.new.counts result }

        // Beside the clauses of the trait, as for a read.
        ensures counted { self.new.failing ≡ after_call self.old.failing }
        ensures failed { is_failed_shutting result ≡ is_to_fail self.new.failing || is_among self.old.next_fail Kind.Shut }
        ensures next { self.new.next_fail ≡ without_kind self.old.next_fail Kind.Shut }
    {
        let numbered = self.failing.next_fails();
        if self.next_fail.take_out(Kind::Shut) || numbered {
            self.faults = self.faults.saturating_add(1);
            return Shutting::Failed;
        }
        self.shut = true;
        Shutting::Done
    }
}
