ghost use Rattle.std.specs.Prelude.{◌≡◌, ◌==◌, false, true, length, OnOk, OnErr};
ghost use Rattle.net_ends.specs.Failing.{none_failing, with_failure, after_call, is_to_fail};

use lists::{List, Memory};
use std::alloc::Global;
use std::marker::Model;

/// The numbers of the calls that are to fail, counted from 1, and how many calls there were.
#[derive(Drop)]
pub struct FailingCalls {
    numbers: List<u64>,
    calls: u64,
}

impl Model for FailingCalls {
    ghost use Rattle.net_ends.specs.Failing.{Failing};

    ghost Value = { Failing };

    ghost view = { λ f. record { numbers = f.numbers; calls = f.calls } };
}

impl FailingCalls {
    /// No call is to fail.
    pub fn none(alloc: Global) -> FailingCalls
        ensures { result ≡ none_failing }
    {
        FailingCalls {
            numbers: List::make(alloc),
            calls: 0,
        }
    }

    /// The call of this number is to fail too.
    pub fn add(&mut self, number: u64) -> Result<(), Memory>
        ensures ok { OnOk result (self.new ≡ with_failure self.old number) }
        ensures listed { OnOk result ((length self.new.numbers == 0) ≡ false) }
        ensures err { OnErr result (self.new ≡ self.old) }
    {
        match self.numbers.push(number) {
            Ok(()) => Ok(()),
            Err(_) => Err(Memory),
        }
    }

    /// Counts a call, and says whether it is to fail.
    pub fn next_fails(&mut self) -> bool
        ensures counted { self.new ≡ after_call self.old }
        ensures planned { result ≡ is_to_fail self.new }
        ensures listed { result ≡ true → (length self.old.numbers == 0) ≡ false }
    {
        self.calls = self.calls.saturating_add(1);
        self.numbers.as_slice().contains(&self.calls)
    }
}
