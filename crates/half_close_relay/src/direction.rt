ghost use Rattle.std.specs.Prelude.{◌≡◌, IfOk, OnOk, OnErr, true, false, [], ◌++◌, ◌<◌};
ghost use Rattle.half_close_relay.specs.Ways.{seen};

use crate::halt::Halt;
use crate::sending::{Sent, drop_front, send_all};
use lists::Memory;
use net_ends::{Link, PIECE, Reading, Shutting};
use std::alloc::Global;
use std::marker::Model;

/// One direction of a relay, from the link that gives, its source, to the link that takes, its sink.
#[derive(Drop)]
pub struct Direction {
    waiting: Vec<u8>,
    ended: bool,
    shut: bool,
    took: u64,
    sent: u64,
}

impl Model for Direction {
    ghost use Rattle.std.specs.Prelude.{◌≡◌, true, []};
    ghost use Rattle.half_close_relay.specs.Ways.{Way};

    ghost Value = { Way };

    ghost view = { λ d. record { waiting = d.waiting.items; ended = d.ended; shut = d.shut; took = d.took; sent = d.sent } };

    ghost invariant = { λ d. d.shut ≡ true → (d.ended ≡ true) × (d.waiting.items ≡ []) };
}

impl Direction {
    ghost use Rattle.half_close_relay.specs.Ways.{fresh_way, TakesPiece, SendsOn, Carries};
    ghost use Rattle.half_close_relay.specs.Pumping.{waits_for};

    /// A direction in which nothing waits, with room for a piece.
    pub fn make(alloc: Global) -> Result<Direction, Memory>
        ensures { IfOk result (λ direction. direction ≡ fresh_way) }
    {
        match Vec::with_capacity(alloc, PIECE) {
            Ok(waiting) => Ok(Direction {
                waiting,
                ended: false,
                shut: false,
                took: 0,
                sent: 0,
            }),
            Err(_) => Err(Memory),
        }
    }

    /// Bytes that are to be sent before what the source gives.
    pub fn hold(&mut self, bytes: &[u8]) -> Result<(), Memory>
        requires { self.old.ended ≡ false }
        ensures ok { OnOk result (self.new ≡ record self.old { waiting = self.old.waiting ++ bytes.now }) }
        ensures err { OnErr result (self.new ≡ self.old) }
    {
        match self.waiting.extend_from_slice(bytes) {
            Ok(()) => Ok(()),
            Err(_) => Err(Memory),
        }
    }

    /// Whether bytes wait for the sink.
    pub fn waits(&self) -> bool
        ensures { result ≡ waits_for self.now.waiting }
    {
        !self.waiting.is_empty()
    }

    /// Whether the sink was shut.
    pub fn is_shut(&self) -> bool
        ensures { result ≡ self.now.shut }
    {
        self.shut
    }

    /// How many bytes were taken of the source, and how many were sent to the sink.
    pub fn totals(&self) -> (u64, u64)
        ensures { result ≡ (self.now.took, self.now.sent) }
    {
        (self.took, self.sent)
    }

    /// Reads a piece of at most that many bytes, and answers how many came. It makes room first, so that no byte is lost
    /// where memory is refused.
    fn take<L: Link>(&mut self, source: &mut L, left: usize) -> Result<usize, Halt>
        ensures { TakesPiece left self.old self.new (seen (L.told source.old) (L.counts source.old)) (seen (L.told source.new) (L.counts source.new)) result }
    {
        if self.ended || left == 0 {
            return Ok(0);
        }
        let len = left.min(PIECE);
        if self.waiting.reserve(len).is_err() {
            return Err(Halt::Memory);
        }
        let mut piece = [0; PIECE];
        match source.read(&mut piece[..len]) {
            Reading::Got(n) => {
                match self.waiting.extend_from_slice(&piece[..n]) {
                    Ok(()) => {}
                    Err(_) => unreachable!(),
                }
                self.took = self.took.saturating_add(n as u64);
                Ok(n)
            }
            Reading::End => {
                self.ended = true;
                Ok(0)
            }
            Reading::NotYet => Ok(0),
            Reading::Failed => Err(Halt::Source),
        }
    }

    /// Shuts the sink of a direction in which nothing waits, where its source has ended and it wasn't shut yet.
    fn close<L: Link>(&mut self, sink: &mut L) -> Result<(), Halt>
        requires { self.old.waiting ≡ [] }
        ensures { SendsOn self.old self.new (seen (L.told sink.old) (L.counts sink.old)) (seen (L.told sink.new) (L.counts sink.new)) result }
    {
        if !self.ended || self.shut {
            return Ok(());
        }
        match sink.shut() {
            Shutting::Done => {
                self.shut = true;
                Ok(())
            }
            Shutting::Failed => Err(Halt::Sink),
        }
    }

    /// Sends what waits, and shuts the sink where that is due.
    fn give<L: Link>(&mut self, sink: &mut L) -> Result<(), Halt>
        ensures { SendsOn self.old self.new (seen (L.told sink.old) (L.counts sink.old)) (seen (L.told sink.new) (L.counts sink.new)) result }
    {
        let (n, outcome) = send_all(sink, self.waiting.as_slice());
        drop_front(&mut self.waiting, n);
        self.sent = self.sent.saturating_add(n as u64);
        match outcome {
            Sent::All => self.close(sink),
            Sent::Full => Ok(()),
            Sent::Failed => Err(Halt::Sink),
        }
    }

    /// Takes a piece of at most that many bytes, and sends what waits. It answers how many bytes were taken.
    pub fn carry<L: Link>(
        &mut self,
        source: &mut L,
        sink: &mut L,
        left: usize,
    ) -> Result<usize, Halt>
        ensures { Carries left self.old self.new (seen (L.told source.old) (L.counts source.old)) (seen (L.told source.new) (L.counts source.new)) (seen (L.told sink.old) (L.counts sink.old)) (seen (L.told sink.new) (L.counts sink.new)) result }
    {
        let took = self.take(source, left)?;
        self.give(sink)?;
        Ok(took)
    }
}
