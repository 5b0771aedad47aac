ghost use Rattle.std.specs.Prelude.{◌≡◌, length};
ghost use Rattle.net_ends.specs.Counts.{Counts, Later, ReadCause, WriteCause};
ghost use Rattle.net_ends.specs.Faults.{ReadTried, WriteTried};
ghost use Rattle.net_ends.specs.Ports.{GivesDatagrams, MayReceive, MaySend, PortTold, after_receive, after_send, as_read, as_write};

use addr_pattern::Endpoint;

/// The most bytes that a datagram can have, and the length of the buffer that one is received into.
pub const DATAGRAM: usize = 65535;

/// What receiving came to.
#[derive(Clone, Copy, Debug, PartialEq, Eq)]
pub enum Receiving {
    /// A datagram of that many bytes, which stand at the front of the buffer, and where it came from.
    Got { len: usize, from: Endpoint },
    NotYet,
    Failed,
}

/// What sending came to.
#[derive(Clone, Copy, Debug, PartialEq, Eq)]
pub enum Sending {
    /// The datagram was taken whole.
    Took,
    NotYet,
    Failed,
}

/// What datagrams come to and are sent from at one local endpoint. No call of it waits.
pub trait Port {
    /// Its local endpoint, and the datagrams that it has given and taken, where it tells.
    ghost told: { Self → PortTold };

    /// How often it failed, and answered `NotYet` to a receive, counted as a read, and to a send, counted as a write; and which of
    /// the two are due to fail, where it tells.
    ghost counts: { Self → Counts };

    /// The endpoint at which datagrams come. It is always the same.
    fn local(&self) -> Endpoint
        ensures { result ≡ (told self.now).local };

    /// Takes the next datagram that came.
    fn recv(&mut self, into: &mut [u8]) -> Receiving
        requires { length into.old ≡ 65535 }
        ensures answer { MayReceive (told self.old) result }
        ensures told { told self.new ≡ after_receive (told self.old) result into.new }
        ensures arrived { GivesDatagrams (told self.new) result }
        ensures later { Later (counts self.old) (counts self.new) }
        ensures cause { ReadCause (counts self.old) (counts self.new) (as_read result) }
        ensures tried { ReadTried (counts self.old) (counts self.new) (as_read result) };

    /// Sends one datagram, whole.
    fn send(&mut self, to: Endpoint, from: &[u8]) -> Sending
        ensures answer { MaySend (told self.old) (length from.now) result }
        ensures told { told self.new ≡ after_send (told self.old) result to from.now }
        ensures later { Later (counts self.old) (counts self.new) }
        ensures cause { WriteCause (counts self.old) (counts self.new) (as_write result) }
        ensures tried { WriteTried (counts self.old) (counts self.new) (as_write result) };
}
