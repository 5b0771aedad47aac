ghost use Rattle.std.specs.Prelude.{◌≡◌, ◌<◌, ◌≤◌, length};
ghost use Rattle.net_ends.specs.Told.{Told, after_read, after_write, after_shut, MayRead, MayWrite, MayShut, GivesArrived};
ghost use Rattle.net_ends.specs.Counts.{Counts, Later, ReadCause, WriteCause, ShutCause};
ghost use Rattle.net_ends.specs.Faults.{ReadTried, WriteTried, ShutTried};

/// The most bytes that one read of a link asks for, and that wait in one direction of a relay.
pub const PIECE: usize = 16384;

/// What a read came to.
#[derive(Clone, Copy, Debug, PartialEq, Eq)]
pub enum Reading {
    /// That many bytes stand at the front of the buffer, at least one.
    Got(usize),
    End,
    NotYet,
    Failed,
}

/// What a write came to.
#[derive(Clone, Copy, Debug, PartialEq, Eq)]
pub enum Writing {
    /// That many of the bytes were taken, at least one.
    Took(usize),
    NotYet,
    Failed,
}

/// What shutting the sending side came to.
#[derive(Clone, Copy, Debug, PartialEq, Eq)]
pub enum Shutting {
    Done,
    Failed,
}

/// One end of a stream of bytes in each direction. No call of it waits. Behind its end it gives nothing more; a write
/// behind `shut` is allowed and may fail.
pub trait Link {
    /// What it has given and taken, where it tells; whether it has ended, and was shut.
    ghost told: { Self → Told };

    /// How often it failed, and answered `NotYet` to a read and to a write; and which kinds of calls are due to fail, where it tells.
    ghost counts: { Self → Counts };

    fn read(&mut self, into: &mut [u8]) -> Reading
        requires { 0 < length into.old }
        ensures answer { MayRead (told self.old) (length into.old) result }
        ensures told { told self.new ≡ after_read (told self.old) result into.new }
        ensures arrived { GivesArrived (told self.new) result }
        ensures later { Later (counts self.old) (counts self.new) }
        ensures cause { ReadCause (counts self.old) (counts self.new) result }
        ensures tried { ReadTried (counts self.old) (counts self.new) result };

    fn write(&mut self, from: &[u8]) -> Writing
        requires { 0 < length from.now }
        ensures answer { MayWrite (told self.old) (length from.now) result }
        ensures told { told self.new ≡ after_write (told self.old) result from.now }
        ensures later { Later (counts self.old) (counts self.new) }
        ensures cause { WriteCause (counts self.old) (counts self.new) result }
        ensures tried { WriteTried (counts self.old) (counts self.new) result };

    /// Ends the sending side.
    fn shut(&mut self) -> Shutting
        ensures answer { MayShut (told self.old) result }
        ensures told { told self.new ≡ after_shut (told self.old) result }
        ensures later { Later (counts self.old) (counts self.new) }
        ensures cause { ShutCause (counts self.old) (counts self.new) result }
        ensures tried { ShutTried (counts self.old) (counts self.new) result };
}
