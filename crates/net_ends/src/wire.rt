ghost use Rattle.std.specs.Prelude.{◌≡◌, ◌<◌, length};
ghost use Rattle.net_ends.specs.Told.{Told, after_read, after_write, after_shut, MayRead, MayShut, GivesArrived};
ghost use Rattle.net_ends.specs.Counts.{Counts, Later, ReadCause, WriteCause, ShutCause};
ghost use Rattle.net_ends.specs.Wires.{WireMayRead, WireMayWrite, as_reading, as_writing};

use crate::link::{Reading, Shutting};
use crate::stream::{Giving, Taking};

/// One end of a stream of bytes in each direction, for one that can wait. Behind its end it gives nothing more; a write
/// behind `shut` is allowed and may fail.
pub trait Wire {
    /// What it has given and taken, where it tells; whether it has ended, and was shut.
    ghost told: { Self → Told };

    /// How often it failed, and a glance answered `NotYet`. A write never answers that.
    ghost counts: { Self → Counts };

    /// Waits until bytes are there, or the end.
    fn read(&mut self, into: &mut [u8]) -> Taking
        requires { 0 < length into.old }
        ensures answer { WireMayRead (told self.old) (length into.old) result }
        ensures told { told self.new ≡ after_read (told self.old) (as_reading result) into.new }
        ensures arrived { GivesArrived (told self.new) (as_reading result) }
        ensures later { Later (counts self.old) (counts self.new) }
        ensures cause { ReadCause (counts self.old) (counts self.new) (as_reading result) };

    /// Reads what is there, and doesn't wait.
    fn glance(&mut self, into: &mut [u8]) -> Reading
        requires { 0 < length into.old }
        ensures answer { MayRead (told self.old) (length into.old) result }
        ensures told { told self.new ≡ after_read (told self.old) result into.new }
        ensures arrived { GivesArrived (told self.new) result }
        ensures later { Later (counts self.old) (counts self.new) }
        ensures cause { ReadCause (counts self.old) (counts self.new) result };

    /// Waits until some of the bytes are taken.
    fn write(&mut self, from: &[u8]) -> Giving
        requires { 0 < length from.now }
        ensures answer { WireMayWrite (told self.old) (length from.now) result }
        ensures told { told self.new ≡ after_write (told self.old) (as_writing result) from.now }
        ensures later { Later (counts self.old) (counts self.new) }
        ensures cause { WriteCause (counts self.old) (counts self.new) (as_writing result) };

    /// Ends the sending side.
    fn shut(&mut self) -> Shutting
        ensures answer { MayShut (told self.old) result }
        ensures told { told self.new ≡ after_shut (told self.old) result }
        ensures later { Later (counts self.old) (counts self.new) }
        ensures cause { ShutCause (counts self.old) (counts self.new) result };
}
