ghost use Rattle.std.specs.Prelude.{◌≡◌, ◌<◌, ◌≤◌, ℕ, List, Option, length};
ghost use Rattle.net_ends.specs.Streams.{SourceTold, GivesTold, MayGive, TakingCause, after_giving, MayTake, GivingCause};

/// What a read from a source came to.
#[derive(Clone, Copy, Debug, PartialEq, Eq)]
pub enum Taking {
    /// That many bytes stand at the front of the buffer, at least one.
    Got(usize),
    End,
    Failed,
}

/// What a write to a sink came to.
#[derive(Clone, Copy, Debug, PartialEq, Eq)]
pub enum Giving {
    /// That many of the bytes were taken, at least one.
    Took(usize),
    Failed,
}

/// Bytes that come in. A read waits until bytes are there.
pub trait Source {
    /// What it has given, and all that it has to give, where it tells.
    ghost told: { Self → Option SourceTold };

    /// How often it failed.
    ghost faults: { Self → ℕ };

    fn read(&mut self, into: &mut [u8]) -> Taking
        requires { 0 < length into.old }
        ensures answer { MayGive (length into.old) result }
        ensures told { GivesTold (told self.old) (told self.new) result into.new }
        ensures later { faults self.old ≤ faults self.new }
        ensures cause { TakingCause (faults self.old) (faults self.new) result };
}

/// Where bytes go. A write waits until some of its bytes are taken.
pub trait Sink {
    /// What it has taken, where it tells.
    ghost told: { Self → Option (List ℕ) };

    /// How often it failed.
    ghost faults: { Self → ℕ };

    fn write(&mut self, from: &[u8]) -> Giving
        requires { 0 < length from.now }
        ensures answer { MayTake (length from.now) result }
        ensures told { told self.new ≡ after_giving (told self.old) result from.now }
        ensures later { faults self.old ≤ faults self.new }
        ensures cause { GivingCause (faults self.old) (faults self.new) result };
}
