ghost use Rattle.std.specs.Prelude.{◌≡◌, IfOk, OnOk, OnErr};

use crate::failing::FailingCalls;
use crate::stream::{Giving, Sink};
use lists::Memory;
use std::alloc::Global;
use std::marker::Model;

/// A sink that keeps what it took, up to its room, and fails where it is full.
#[derive(Drop)]
pub struct MemSink {
    taken: Vec<u8>,
    cap: usize,
    failing: FailingCalls,
    faults: u64,
}

impl Model for MemSink {
    ghost use Rattle.std.specs.Prelude.{◌≤◌, vec_len, vec_capacity};
    ghost use Rattle.net_ends.specs.InMemory.{SinkInMemory};

    ghost Value = { SinkInMemory };

    ghost view = { λ m. record { taken = m.taken.items; cap = m.cap; failing = m.failing; faults = m.faults } };

    ghost invariant = { λ m. (vec_len m.taken ≤ m.cap) × (m.cap ≤ vec_capacity m.taken) };
}

impl MemSink {
    ghost use Rattle.net_ends.specs.Failing.{with_failure};
    ghost use Rattle.net_ends.specs.InMemory.{fresh_sink};

    /// A sink that took nothing yet, with room for that many bytes.
    pub fn make(alloc: Global, cap: usize) -> Result<MemSink, Memory>
        ensures { IfOk result (λ sink. sink ≡ fresh_sink cap) }
    {
        match Vec::with_capacity(alloc, cap) {
            Ok(taken) => Ok(MemSink {
                taken,
                cap,
                failing: FailingCalls::none(alloc),
                faults: 0,
            }),
            Err(_) => Err(Memory),
        }
    }

    /// The write of this number, counted from 1, is to fail.
    pub fn fail_at(&mut self, number: u64) -> Result<(), Memory>
        ensures ok { OnOk result (self.new ≡ record self.old { failing = with_failure self.old.failing number }) }
        ensures err { OnErr result (self.new ≡ self.old) }
    {
        self.failing.add(number)
    }

    /// What it took.
    pub fn taken(&self) -> &[u8]
        ensures { result.now ≡ self.now.taken }
    {
        self.taken.as_slice()
    }
}

impl Sink for MemSink {
    ghost use Rattle.std.specs.Prelude.{◌<◌, ◌≤◌, ◌||◌, length, nat_le};
    ghost use Rattle.net_ends.specs.Failing.{after_call, is_to_fail, is_failed_giving};
    ghost use Rattle.net_ends.specs.InMemory.{told_of_sink};
    ghost use Rattle.net_ends.specs.Streams.{MayTake, GivingCause, after_giving};

    ghost told = { told_of_sink };

    ghost faults = { λ sink. sink.faults };

    fn write(&mut self, from: &[u8]) -> Giving
        requires { 0 < length from.now }
        ensures answer { MayTake (length from.now) result }
        ensures told { told_of_sink self.new ≡ after_giving (told_of_sink self.old) result from.now }
        ensures later { self.old.faults ≤ self.new.faults }
        ensures cause { GivingCause self.old.faults self.new.faults result }

        // Beside the clauses of the trait: it fails at the numbered writes and where it is full, and nowhere else.
        ensures counted { self.new.failing ≡ after_call self.old.failing }
        ensures failed { is_failed_giving result ≡ (is_to_fail self.new.failing || nat_le self.old.cap (length self.old.taken)) }
    {
        let room = self.cap - self.taken.len();
        if self.failing.next_fails() || room == 0 {
            self.faults = self.faults.saturating_add(1);
            return Giving::Failed;
        }
        let n = from.len().min(room);
        match self.taken.extend_from_slice(&from[..n]) {
            Ok(()) => Giving::Took(n),
            Err(_) => unreachable!(),
        }
    }
}
