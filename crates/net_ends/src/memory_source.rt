ghost use Rattle.std.specs.Prelude.{◌≡◌, ◌++◌, IfOk, OnOk, OnErr};

use crate::failing::FailingCalls;
use crate::pieces::{copy_front, rest_of};
use crate::stream::{Source, Taking};
use lists::{Memory, Text};
use std::alloc::Global;
use std::marker::Model;

/// A source that gives the bytes that were put into it, and then its end.
#[derive(Drop)]
pub struct MemSource {
    whole: Text,
    given: usize,
    failing: FailingCalls,
    faults: u64,
}

impl Model for MemSource {
    ghost use Rattle.std.specs.Prelude.{◌≤◌, length, take};
    ghost use Rattle.net_ends.specs.InMemory.{SourceInMemory};

    ghost Value = { SourceInMemory };

    ghost view = { λ m. record { whole = m.whole; given = take m.given m.whole; failing = m.failing; faults = m.faults } };

    ghost invariant = { λ m. m.given ≤ length m.whole };
}

impl MemSource {
    ghost use Rattle.net_ends.specs.Failing.{with_failure};
    ghost use Rattle.net_ends.specs.InMemory.{fresh_source};

    /// A source that has nothing to give yet, with room for that many bytes.
    pub fn make(alloc: Global, cap: usize) -> Result<MemSource, Memory>
        ensures { IfOk result (λ source. source ≡ fresh_source) }
    {
        match Vec::with_capacity(alloc, cap) {
            Ok(room) => Ok(MemSource {
                whole: Text::from_vec(room),
                given: 0,
                failing: FailingCalls::none(alloc),
                faults: 0,
            }),
            Err(_) => Err(Memory),
        }
    }

    /// Puts bytes behind those that it has to give.
    pub fn put(&mut self, bytes: &[u8]) -> Result<(), Memory>
        ensures ok { OnOk result (self.new ≡ record self.old { whole = self.old.whole ++ bytes.now }) }
        ensures err { OnErr result (self.new ≡ self.old) }
    {
        match self.whole.add(bytes) {
            Ok(()) => Ok(()),
            Err(_) => Err(Memory),
        }
    }

    /// The read of this number, counted from 1, is to fail.
    pub fn fail_at(&mut self, number: u64) -> Result<(), Memory>
        ensures ok { OnOk result (self.new ≡ record self.old { failing = with_failure self.old.failing number }) }
        ensures err { OnErr result (self.new ≡ self.old) }
    {
        self.failing.add(number)
    }
}

impl Source for MemSource {
    ghost use Rattle.std.specs.Prelude.{◌<◌, ◌≤◌, length};
    ghost use Rattle.net_ends.specs.Failing.{after_call, is_to_fail, is_failed_taking};
    ghost use Rattle.net_ends.specs.InMemory.{told_of_source};
    ghost use Rattle.net_ends.specs.Streams.{GivesTold, MayGive, TakingCause};

    ghost told = { told_of_source };

    ghost faults = { λ source. source.faults };

    fn read(&mut self, into: &mut [u8]) -> Taking
        requires { 0 < length into.old }
        ensures answer { MayGive (length into.old) result }
        ensures told { GivesTold (told_of_source self.old) (told_of_source self.new) result into.new }
        ensures later { self.old.faults ≤ self.new.faults }
        ensures cause { TakingCause self.old.faults self.new.faults result }

        // Beside the clauses of the trait: it fails at the numbered reads and nowhere else.
        ensures counted { self.new.failing ≡ after_call self.old.failing }
        ensures failed { is_failed_taking result ≡ is_to_fail self.new.failing }
    {
        if self.failing.next_fails() {
            self.faults = self.faults.saturating_add(1);
            return Taking::Failed;
        }
        let rest = rest_of(self.whole.as_slice(), self.given);
        if rest.is_empty() {
            return Taking::End;
        }
        let n = copy_front(into, rest);
        self.given += n;
        Taking::Got(n)
    }
}
