ghost use Rattle.std.specs.Prelude.{◌≡◌};
ghost use Rattle.net_ends.specs.Counts.{Counts, Later, ReadCause};
ghost use Rattle.net_ends.specs.Doors.{DoorTold, IfCame, MayAccept, after_accept, as_read};
ghost use Rattle.net_ends.specs.Faults.{ReadTried};
ghost use Rattle.net_ends.specs.Told.{IsFresh};

use crate::link::Link;
use addr_pattern::Endpoint;

/// What an accept came to.
#[derive(Drop)]
pub enum Accepting<L> {
    /// The link to a peer that came, and the peer's endpoint.
    Got(L, Endpoint),
    NotYet,
    Failed,
}

/// What peers come to at one local endpoint. No call of it waits.
pub trait Door {
    type Link: Link;

    /// Its local endpoint, and the peers that it has given, where it tells.
    ghost told: { Self → DoorTold };

    /// How often an accept failed, and answered `NotYet`, which is counted as a read's; and whether an accept, as a read, is due to
    /// fail, where it tells.
    ghost counts: { Self → Counts };

    /// The endpoint at which peers come. It is always the same.
    fn local(&self) -> Endpoint
        ensures { result ≡ (told self.now).local };

    /// Takes the next peer that came.
    fn accept(&mut self) -> Accepting<Self::Link>
        ensures answer { MayAccept Self.Link.told Self.Link.counts (told self.old) result }
        ensures told { told self.new ≡ after_accept (told self.old) result (told self.new).next }
        ensures fresh { IfCame result (λ link. IsFresh (Self.Link.told link)) }
        ensures later { Later (counts self.old) (counts self.new) }
        ensures cause { ReadCause (counts self.old) (counts self.new) (as_read result) }
        ensures tried { ReadTried (counts self.old) (counts self.new) (as_read result) };
}
