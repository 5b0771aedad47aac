ghost use Rattle.std.specs.Prelude.{◌≡◌, ◌<◌, ◌≤◌, length, IfOk, slice_get};
ghost use Rattle.replay_run.specs.AtTurn.{TurnsAt};
ghost use Rattle.replay_run.specs.Mirrors.{HasSeen};

use crate::slot::Slot;
use crate::state::Replay;
use crate::totals::Totals;
use crate::turns::{make_turn, to_slot, write_turn};
use generation::Gens;
use std::alloc::{AllocError, Global};
use user_login::Users;

impl Replay {
    /// A turn on the association at this place, in the generation that was seen last and at the moment of the replay, with its
    /// line; and whether nothing came of it. One that has ended stays as it is.
    pub fn turn_at(&mut self, alloc: Global, users: &Users, at: usize) -> Result<bool, AllocError>
        requires seen { HasSeen self.old.gens }
        requires below { self.old.gens.seen ≤ length self.old.gens.configs }
        requires within { at < length self.old.slots }
        ensures kept { IfOk result (λ _. length self.new.slots ≡ length self.old.slots) }
        ensures gens { IfOk result (λ _. self.new.gens ≡ self.old.gens) }
        ensures turned { IfOk result (λ still. TurnsAt users.now at self.old self.new still (slice_get self.old.slots at)) }
    {
        let slot = self.slots.replace(at, Slot::Away);
        match slot {
            Slot::Going { assoc, mut net } => {
                let snap = self.gens.snap();
                let before = Totals::of(&assoc.state);
                let next = make_turn(
                    alloc,
                    snap,
                    users,
                    &mut self.desk,
                    assoc,
                    &mut net,
                    self.moment,
                )?;
                let still = write_turn(alloc, &mut self.out, snap.number, before, &next)?;
                self.slots.set(at, to_slot(next, net));
                Ok(still)
            }
            Slot::Over(ended) => {
                self.slots.set(at, Slot::Over(ended));
                Ok(true)
            }
            Slot::Away => Ok(true),
        }
    }
}
