ghost use Rattle.std.specs.Prelude.{◌≡◌, [], IfOk, List as Items};
ghost use Rattle.socks_machine.specs.declared.script.ScriptLine.{ScriptLine as SomeLine};
ghost use Rattle.socks_machine.specs.declared.script.ScriptLine.TheVariants.{Turn};
ghost use Rattle.socks_machine.specs.declared.world.World.{World};
ghost use Rattle.socks_machine.specs.Follows.{IsReplay, opens_of as opens_in, users_of as users_in};
ghost use Rattle.replay_script.specs.Conditions.{IsServed, start};
ghost use Rattle.replay_run.specs.Behind.{GoesBehind, IsBehind, IsDue};

use crate::ends::write_ends;
use crate::state::Replay;
use generation::ListGens;
use lists::{List, Text};
use session_desk::Desk;
use socks_machine::ScriptLine;
use std::alloc::{AllocError, Global};
use user_login::Users;

/// How many associations a script opens.
fn opens_of(lines: &[ScriptLine]) -> usize
    ensures { result ≡ opens_in lines.now }
{
    let mut opens = 0;
    'counting: for line in lines {
        match line {
            ScriptLine::Open(_, _, _, _) => opens += 1,
            _ => {}
        }
    }
    opens
}

/// Who may log in where a script is played: the users that its line `users` gives, and nobody where there is no such line.
fn users_of(alloc: Global, lines: &[ScriptLine]) -> Result<Users, AllocError>
    requires served { IsServed lines.now }
    ensures { IfOk result (λ users. users ≡ users_in lines.now) }
{
    'looking: for line in lines {
        match line {
            ScriptLine::UsersAre(users) => return Users::from_slice(alloc, users.as_slice()),
            _ => {}
        }
    }
    Ok(Users::empty())
}

impl Replay {
    fn make(alloc: Global, opens: usize) -> Result<Replay, AllocError>
        ensures { IfOk result (λ replay. (script : Items SomeLine) → IsServed script → opens ≡ opens_in script → IsBehind (users_in script) script [] start replay) }
    {
        if opens > u32::MAX as usize {
            return Err(AllocError);
        }
        match Desk::make(alloc, opens as u32) {
            Err(_) => Err(AllocError),
            Ok(desk) => Ok(Replay {
                desk,
                gens: ListGens::make(alloc),
                moment: 0,
                slots: List::make(alloc),
                out: Text::make(alloc),
            }),
        }
    }

    /// The line `turn`, which says nothing where the association has ended.
    fn turn(&mut self, alloc: Global, users: &Users, number: u64) -> Result<(), AllocError>
        requires due { IsDue (Turn 1 number) self.old }
        ensures { IfOk result (λ _. GoesBehind users.now (Turn 1 number) self.old self.new) }
    {
        self.turn_at(alloc, users, (number - 1) as usize)?;
        Ok(())
    }

    /// A line of the script.
    fn line(&mut self, alloc: Global, users: &Users, line: &ScriptLine) -> Result<(), AllocError>
        requires due { IsDue line.now self.old }
        ensures { IfOk result (λ _. GoesBehind users.now line.now self.old self.new) }
    {
        match line {
            ScriptLine::UsersAre(_) => {}
            ScriptLine::Publish(config) => self.publish(alloc, config)?,
            ScriptLine::See(_) => self.see(alloc)?,
            ScriptLine::Open(_, number, peer, local) => self.open(alloc, *number, *peer, *local)?,
            ScriptLine::Client(number, bytes) => self.client(*number, bytes.as_slice())?,
            ScriptLine::Target(number, bytes) => self.target(*number, bytes.as_slice())?,
            ScriptLine::ClientEnd(number) => self.client_end(*number),
            ScriptLine::TargetEnd(number) => self.target_end(*number),
            ScriptLine::Room(number, side, most) => self.room(*number, *side, *most),
            ScriptLine::Fault(number, side, call) => self.fault(*number, *side, *call),
            ScriptLine::Lookup(number, outer) => self.lookup(*number, *outer),
            ScriptLine::Dial(number, outer) => self.dial(*number, *outer),
            ScriptLine::Now(now) => self.now(*now),
            ScriptLine::Turn(_, number) => self.turn(alloc, users, *number)?,
            _ => {}
        }
        Ok(())
    }

    /// All lines in their order, then the closing rounds, and what became of each association.
    fn play(&mut self, alloc: Global, users: &Users, lines: &[ScriptLine]) -> Result<(), AllocError>
        requires served { IsServed lines.now }
        requires users { users.now ≡ users_in lines.now }
        requires first { IsBehind users.now lines.now [] start self.old }
        ensures { IfOk result (λ _. (world : World) × IsReplay lines.now world self.new.out) }
    {
        'playing: for line in lines {
            self.line(alloc, users, line)?;
        }
        self.close(alloc, users)?;
        write_ends(alloc, &mut self.out, self.slots.as_slice())
    }
}

/// Plays a script: its lines in order, then the closing rounds. It answers the transcript.
pub fn replay(alloc: Global, script: &List<ScriptLine>) -> Result<Text, AllocError>
    requires served { IsServed script.now }
    ensures played { IfOk result (λ out. (world : World) × IsReplay script.now world out) }
{
    let users = users_of(alloc, script.as_slice())?;
    let mut replay = Replay::make(alloc, opens_of(script.as_slice()))?;
    match replay.play(alloc, &users, script.as_slice()) {
        Err(e) => Err(e),
        Ok(()) => {
            let Replay {
                desk,
                gens,
                moment,
                slots,
                out,
            } = replay;
            Ok(out)
        }
    }
}
