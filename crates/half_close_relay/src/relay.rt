ghost use Rattle.std.specs.Prelude.{◌≡◌, ◌<◌, ◌↔◌, ◌^◌, ◌-◌, IfOk, OnOk, OnErr, ◌++◌, IsTrue};
ghost use Rattle.half_close_relay.specs.declared.pumped.Pumped.{Pumped};
ghost use Rattle.half_close_relay.specs.Ways.{seen};

use crate::direction::Direction;
use crate::per_side::PerSide;
use crate::pumped::{Pumped, Side};
use lists::Memory;
use net_ends::Link;
use std::alloc::Global;
use std::marker::Model;

/// How many bytes are taken of a side in one turn at most.
const QUANTUM: usize = 65536;

/// The two directions of a relayed association. Bytes that a side gave and the other hasn't taken wait here.
#[derive(Drop)]
pub struct Relay {
    /// From the client to the target.
    up: Direction,
    /// From the target to the client.
    down: Direction,
}

impl Model for Relay {
    ghost use Rattle.half_close_relay.specs.Pumping.{Relaying};

    ghost Value = { Relaying };

    ghost view = { λ r. record { up = r.up; down = r.down } };
}

impl Relay {
    ghost use Rattle.half_close_relay.specs.Pumping.{BothShut, IsUnread, Pumps, Flushes, Rounds, fresh_relay, waits_for};

    /// A relay of which no side has given anything yet.
    pub fn make(alloc: Global) -> Result<Relay, Memory>
        ensures { IfOk result (λ relay. relay ≡ fresh_relay) }
    {
        let up = Direction::make(alloc)?;
        let down = Direction::make(alloc)?;
        Ok(Relay { up, down })
    }

    /// How many bytes it can hold beside those that wait: any number, as far as there is memory.
    pub fn spare(&self) -> usize
        ensures { result ≡ 2 ^ 64 - 1 }
    {
        usize::MAX
    }

    /// Takes payload of the client that came before the relay began. It goes to the target before what the client gives.
    pub fn hold(&mut self, bytes: &[u8]) -> Result<(), Memory>
        requires { IsUnread self.old.up }
        ensures ok { OnOk result (self.new ≡ record self.old { up = record self.old.up { waiting = self.old.up.waiting ++ bytes.now } }) }
        ensures err { OnErr result (self.new ≡ self.old) }
    {
        self.up.hold(bytes)
    }

    /// Whether bytes wait for the client and for the target.
    pub fn waits(&self) -> (bool, bool)
        ensures { result ≡ (waits_for self.now.down.waiting, waits_for self.now.up.waiting) }
    {
        (self.down.waits(), self.up.waits())
    }

    /// How many bytes `pump` took of the client and of the target, and how many `pump` and `flush` sent to the client and
    /// to the target.
    pub fn totals(&self) -> ((u64, u64), (u64, u64))
        ensures { result ≡ ((self.now.up.took, self.now.down.took), (self.now.down.sent, self.now.up.sent)) }
    {
        let (took_client, sent_target) = self.up.totals();
        let (took_target, sent_client) = self.down.totals();
        ((took_client, took_target), (sent_client, sent_target))
    }

    fn is_through(&self) -> bool
        ensures { IsTrue result ↔ BothShut self.now }
    {
        self.up.is_shut() && self.down.is_shut()
    }

    /// Carries the one direction and then the other, each by a piece. It answers how many bytes were taken.
    fn round<L: Link>(
        &mut self,
        client: &mut L,
        target: &mut L,
        left: PerSide,
    ) -> Result<PerSide, Pumped>
        ensures { Rounds left.client left.target self.old self.new (seen (L.told client.old) (L.counts client.old)) (seen (L.told client.new) (L.counts client.new)) (seen (L.told target.old) (L.counts target.old)) (seen (L.told target.new) (L.counts target.new)) result }
    {
        let up = match self.up.carry(client, target, left.client) {
            Ok(took) => took,
            Err(halt) => return Err(halt.answer(Side::Client, Side::Target)),
        };
        let down = match self.down.carry(target, client, left.target) {
            Ok(took) => took,
            Err(halt) => return Err(halt.answer(Side::Target, Side::Client)),
        };
        Ok(PerSide {
            client: up,
            target: down,
        })
    }

    /// Reads, writes and shuts both sides until nothing is left to do now. `taken` is what this turn took of the target
    /// before, which counts for the target's quantum. A direction is carried by pieces, the client's first.
    pub fn pump<L: Link>(&mut self, client: &mut L, target: &mut L, taken: u64) -> Pumped
        requires { taken < 65536 }
        ensures pumps { Pumps taken self.old self.new (seen (L.told client.old) (L.counts client.old)) (seen (L.told client.new) (L.counts client.new)) (seen (L.told target.old) (L.counts target.old)) (seen (L.told target.new) (L.counts target.new)) result }
        ensures ended { (result ≡ Pumped.Ended) ↔ BothShut self.new }
    {
        let mut left = PerSide {
            client: QUANTUM,
            target: QUANTUM - taken as usize,
        };
        loop {
            let took = match self.round(client, target, left) {
                Ok(took) => took,
                Err(answer) => return answer,
            };
            if took.client == 0 && took.target == 0 {
                break;
            }
            left = PerSide {
                client: left.client - took.client,
                target: left.target - took.target,
            };
        }
        if self.is_through() {
            return Pumped::Ended;
        }
        if left.client == 0 || left.target == 0 {
            return Pumped::Moved;
        }
        Pumped::Idle
    }

    /// Writes what waits and shuts where that is due, and reads nothing. It answers `Idle`, `Ended` or `Fault`.
    pub fn flush<L: Link>(&mut self, client: &mut L, target: &mut L) -> Pumped
        ensures flushes { Flushes self.old self.new (seen (L.told client.old) (L.counts client.old)) (seen (L.told client.new) (L.counts client.new)) (seen (L.told target.old) (L.counts target.old)) (seen (L.told target.new) (L.counts target.new)) result }
        ensures ended { (result ≡ Pumped.Ended) ↔ BothShut self.new }
    {
        let nothing = PerSide {
            client: 0,
            target: 0,
        };
        if let Err(answer) = self.round(client, target, nothing) {
            return answer;
        }
        if self.is_through() {
            return Pumped::Ended;
        }
        Pumped::Idle
    }
}
