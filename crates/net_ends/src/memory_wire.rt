ghost use Rattle.std.specs.Prelude.{◌≡◌, ◌+◌, ◌++◌, true, false, Some, None, IfOk, OnOk, OnErr};

use crate::link::{Link, Reading, Shutting, Writing};
use crate::memory_link::MemLink;
use crate::stream::{Giving, Taking};
use crate::wire::Wire;
use lists::Memory;
use std::alloc::Global;
use std::marker::Model;

/// A wire that gives what arrived at it, and keeps what it took. Nothing arrives while it waits, so where it would wait for
/// good, it fails: a read where nothing is left and no end stands, and a write where it is full.
#[derive(Drop)]
pub struct MemWire {
    link: MemLink,
    faults: u64,
    idle: u64,
}

impl Model for MemWire {
    ghost use Rattle.std.specs.Prelude.{◌≡◌};
    ghost use Rattle.net_ends.specs.Faults.{no_kind};
    ghost use Rattle.net_ends.specs.InMemory.{LinkInMemory};

    ghost Value = { LinkInMemory };

    ghost view = { λ m. record m.link { counts = record { faults = m.faults; idle_reads = m.idle; idle_writes = 0; due = m.link.counts.due } } };

    // it fails at no call but the numbered ones
    ghost invariant = { λ m. m.link.next_fail ≡ no_kind };
}

impl MemWire {
    ghost use Rattle.net_ends.specs.Failing.{with_failure};
    ghost use Rattle.net_ends.specs.InMemory.{fresh_link};

    /// A wire at which nothing has arrived yet, with room for that many bytes that it takes.
    pub fn make(alloc: Global, cap: usize) -> Result<MemWire, Memory>
        ensures { IfOk result (λ wire. wire ≡ fresh_link cap) }
    {
        match MemLink::make(alloc, cap) {
            Ok(link) => Ok(MemWire {
                link,
                faults: 0,
                idle: 0,
            }),
            Err(memory) => Err(memory),
        }
    }

    /// A wire at which nothing has arrived, and that can take nothing. It needs no memory.
    pub(crate) fn empty(alloc: Global) -> MemWire
        ensures { result ≡ fresh_link 0 }
    {
        MemWire {
            link: MemLink::empty(alloc),
            faults: 0,
            idle: 0,
        }
    }

    /// Bytes arrive behind those that arrived before.
    pub fn arrive(&mut self, bytes: &[u8]) -> Result<(), Memory>
        requires { self.old.ends ≡ false }
        ensures ok { OnOk result (self.new ≡ record self.old { arrived = self.old.arrived ++ bytes.now }) }
        ensures err { OnErr result (self.new ≡ self.old) }
    {
        self.link.arrive(bytes)
    }

    /// The end stands behind what arrived.
    pub fn end(&mut self)
        ensures { self.new ≡ record self.old { ends = true } }
    {
        self.link.end()
    }

    /// Makes room for that many further bytes.
    pub fn spare(&mut self, further: usize) -> Result<(), Memory>
        ensures ok { OnOk result (self.new ≡ record self.old { cap = self.old.cap + further }) }
        ensures err { OnErr result (self.new ≡ self.old) }
    {
        self.link.spare(further)
    }

    /// Each write takes at most that many bytes from here on; where that is 0, each fails.
    pub fn set_room(&mut self, most: usize)
        ensures { self.new ≡ record self.old { room = Some most } }
    {
        self.link.set_room(most)
    }

    /// The call of this number, counted from 1 over all calls, is to fail.
    pub fn fail_at(&mut self, number: u64) -> Result<(), Memory>
        ensures ok { OnOk result (self.new ≡ record self.old { unfailing = false; failing = with_failure self.old.failing number; counts = record self.old.counts { due = None } }) }
        ensures err { OnErr result (self.new ≡ self.old) }
    {
        self.link.fail_at(number)
    }

    /// What it took.
    pub fn taken(&self) -> &[u8]
        ensures { result.now ≡ self.now.taken }
    {
        self.link.taken()
    }

    /// Whether it has answered its end.
    pub fn has_ended(&self) -> bool
        ensures { result ≡ self.now.ended }
    {
        self.link.has_ended()
    }

    /// Whether a shut of it was done.
    pub fn was_shut(&self) -> bool
        ensures { result ≡ self.now.shut }
    {
        self.link.was_shut()
    }
}

impl Wire for MemWire {
    ghost use Rattle.std.specs.Prelude.{◌<◌, length};
    ghost use Rattle.net_ends.specs.declared.link.Reading.{Reading};
    ghost use Rattle.net_ends.specs.declared.link.Writing.{Writing};
    ghost use Rattle.net_ends.specs.Told.{after_read, after_write, after_shut, MayRead, MayWrite, MayShut, GivesArrived};
    ghost use Rattle.net_ends.specs.Counts.{Later, ReadCause, WriteCause, ShutCause};
    ghost use Rattle.net_ends.specs.Failing.{after_call, is_to_fail, is_failed_taking, is_failed_reading, is_failed_giving, is_failed_shutting};
    ghost use Rattle.net_ends.specs.Wires.{WireMayRead, WireMayWrite, as_reading, as_writing};
    ghost use Rattle.net_ends.specs.InMemory.{told_of_link};

    ghost told = { told_of_link };

    ghost counts = { λ wire. wire.counts };

    fn read(&mut self, into: &mut [u8]) -> Taking
        requires { 0 < length into.old }
        ensures answer { WireMayRead (told_of_link self.old) (length into.old) result }
        ensures told { told_of_link self.new ≡ after_read (told_of_link self.old) (as_reading result) into.new }
        ensures arrived { GivesArrived (told_of_link self.new) (as_reading result) }
        ensures later { Later self.old.counts self.new.counts }
        ensures cause { ReadCause self.old.counts self.new.counts (as_reading result) }

        // Beside the clauses of the trait: it fails at the numbered calls, and else only where it would wait for good.
        ensures counted { self.new.failing ≡ after_call self.old.failing }
        ensures failed { is_to_fail self.new.failing ≡ true → is_failed_taking result ≡ true }
        ensures waits { is_to_fail self.new.failing ≡ false → is_failed_taking result ≡ true → GivesArrived (told_of_link self.old) Reading.NotYet }
    {
        match self.link.read(into) {
            Reading::Got(n) => Taking::Got(n),
            Reading::End => Taking::End,
            Reading::NotYet | Reading::Failed => {
                self.faults = self.faults.saturating_add(1);
                Taking::Failed
            }
        }
    }

    fn glance(&mut self, into: &mut [u8]) -> Reading
        requires { 0 < length into.old }
        ensures answer { MayRead (told_of_link self.old) (length into.old) result }
        ensures told { told_of_link self.new ≡ after_read (told_of_link self.old) result into.new }
        ensures arrived { GivesArrived (told_of_link self.new) result }
        ensures later { Later self.old.counts self.new.counts }
        ensures cause { ReadCause self.old.counts self.new.counts result }

        // Beside the clauses of the trait: it fails at the numbered calls and nowhere else.
        ensures counted { self.new.failing ≡ after_call self.old.failing }
        ensures failed { is_failed_reading result ≡ is_to_fail self.new.failing }
    {
        let answer = self.link.read(into);
        match answer {
            Reading::Got(_) | Reading::End => {}
            Reading::NotYet => self.idle = self.idle.saturating_add(1),
            Reading::Failed => self.faults = self.faults.saturating_add(1),
        }
        answer
    }

    fn write(&mut self, from: &[u8]) -> Giving
        requires { 0 < length from.now }
        ensures answer { WireMayWrite (told_of_link self.old) (length from.now) result }
        ensures told { told_of_link self.new ≡ after_write (told_of_link self.old) (as_writing result) from.now }
        ensures later { Later self.old.counts self.new.counts }
        ensures cause { WriteCause self.old.counts self.new.counts (as_writing result) }

        // Beside the clauses of the trait, as for a read.
        ensures counted { self.new.failing ≡ after_call self.old.failing }
        ensures failed { is_to_fail self.new.failing ≡ true → is_failed_giving result ≡ true }
        ensures waits { is_to_fail self.new.failing ≡ false → is_failed_giving result ≡ true → MayWrite (told_of_link self.old) (length from.now) Writing.NotYet }
    {
        match self.link.write(from) {
            Writing::Took(n) => Giving::Took(n),
            Writing::NotYet | Writing::Failed => {
                self.faults = self.faults.saturating_add(1);
                Giving::Failed
            }
        }
    }

    fn shut(&mut self) -> Shutting
        ensures answer { MayShut (told_of_link self.old) result }
        ensures told { told_of_link self.new ≡ after_shut (told_of_link self.old) result }
        ensures later { Later self.old.counts self.new.counts }
        ensures cause { ShutCause self.old.counts self.new.counts result }

        // Beside the clauses of the trait, as for a glance.
        ensures counted { self.new.failing ≡ after_call self.old.failing }
        ensures failed { is_failed_shutting result ≡ is_to_fail self.new.failing }
    {
        let answer = self.link.shut();
        if answer == Shutting::Failed {
            self.faults = self.faults.saturating_add(1);
        }
        answer
    }
}
