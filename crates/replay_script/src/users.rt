ghost use Rattle.std.specs.Prelude.{◌≢◌, IfErr, IfOk, MatchOption};
ghost use Rattle.replay_script.specs.Script.{RefusesText};
ghost use Rattle.replay_script.specs.Users.{Gives, Ungiven};

use crate::counted::counted;
use crate::fault::ScriptKind;
use lists::List;
use socks_grammar::User;
use std::alloc::Global;
use user_login::Users;

/// The users that a text gives, its count of lines with the `users` line, and the text behind it.
pub fn give(alloc: Global, text: &[u8]) -> Result<Option<(List<User>, u64, &[u8])>, ScriptKind>
    ensures read { IfOk result (λ found. MatchOption found (Ungiven text.now) (λ p. Gives text.now p.0 p.1 p.2.now)) }
    ensures refused { IfErr result (λ kind. kind ≢ ScriptKind.Memory → RefusesText text.now kind) }
{
    let Some((counted, lines, behind)) = counted(alloc, text, b"users ")? else {
        return Ok(None);
    };
    match Users::read(alloc, counted) {
        Err(fault) => Err(ScriptKind::from(fault)),
        Ok(users) => Ok(Some((users.into_list(alloc), lines, behind))),
    }
}
