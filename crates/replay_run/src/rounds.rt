ghost use Rattle.std.specs.Prelude.{◌≡◌, ◌≤◌, IfOk, List as Items, true, All, length};
ghost use Rattle.socks_machine.specs.declared.script.ScriptLine.{ScriptLine};
ghost use Rattle.replay_script.specs.declared.state.State.{State};
ghost use Rattle.replay_run.specs.Behind.{IsBehind, IsInRound, IsPlayedOut, OnRound};
ghost use Rattle.replay_run.specs.Mirrors.{HasSeen};
ghost use Rattle.conf_types.specs.Plain.{IsPlain};

use crate::lines::{show_close, show_see};
use crate::state::Replay;
use generation::Gens;
use std::alloc::{AllocError, Global};
use user_login::Users;

impl Replay {
    /// A turn on each association that hasn't ended; and whether nothing came of any.
    fn round(&mut self, alloc: Global, users: &Users) -> Result<bool, AllocError>
        requires seen { HasSeen self.old.gens }
        requires below { self.old.gens.seen ≤ length self.old.gens.configs }
        ensures gens { IfOk result (λ _. self.new.gens ≡ self.old.gens) }
        ensures round { IfOk result (λ still. (script : Items ScriptLine) → IsInRound users.now script 0 true self.old → OnRound users.now script still self.new) }
    {
        let mut still = true;
        'turning: for at in 0..self.slots.len() {
            let quiet = self.turn_at(alloc, users, at)?;
            still = still && quiet;
        }
        Ok(still)
    }

    /// Round after round, until nothing comes of a whole one.
    fn rounds(&mut self, alloc: Global, users: &Users) -> Result<(), AllocError>
        requires seen { HasSeen self.old.gens }
        requires below { self.old.gens.seen ≤ length self.old.gens.configs }
        ensures { IfOk result (λ _. (script : Items ScriptLine) → IsInRound users.now script 0 true self.old → IsPlayedOut users.now script self.new) }
    {
        'rounds: for _ in 0..u64::MAX {
            if self.round(alloc, users)? {
                return Ok(());
            }
        }
        Err(AllocError)
    }

    /// The closing rounds: worker 1 sees what was published last.
    pub fn close(&mut self, alloc: Global, users: &Users) -> Result<(), AllocError>
        requires { All IsPlain self.old.gens.configs }
        ensures { IfOk result (λ _. (script : Items ScriptLine) (state : State) → IsBehind users.now script script state self.old → IsPlayedOut users.now script self.new) }
    {
        show_close(&mut self.out)?;
        if self.gens.last() == 0 {
            return Ok(());
        }
        let number = self.gens.see();
        show_see(alloc, &mut self.out, number)?;
        self.rounds(alloc, users)
    }
}
