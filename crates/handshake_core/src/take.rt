//! One byte of a prelude, at a cost that doesn't grow with the message.
ghost use Rattle.std.specs.Prelude.{◌≡◌, true};
ghost use Rattle.handshake_core.specs.Due.{IsOpen};
ghost use Rattle.handshake_core.specs.Runs.{StaysShort};
ghost use Rattle.handshake_core.specs.Standing.{HearsByte, client_of, stands};

use crate::fed::Fed;
use crate::hear::{are_bytes, hear};
use crate::run::Run;
use crate::state::State;
use socks_grammar::Method;
use user_login::Users;

/// Takes one more byte. The message is read from its front only where the byte is none of the run.
pub fn take(state: &mut State, run: &mut Run, methods: &[Method], users: &Users, byte: u8) -> Fed
    requires stands { stands state.old ≡ true }
    requires open { IsOpen users.now (client_of state.old) }
    requires run { StaysShort state.old.stage state.old.message run.old }
    ensures heard { HearsByte methods.now users.now state.old byte state.new result }
    ensures run { StaysShort state.new.stage state.new.message run.new }
{
    are_bytes(state.message.as_slice());
    if run.takes(byte) {
        state.message.add(&[byte]);
        return Fed::Need;
    }
    match hear(state, methods, users, byte) {
        Fed::Need => {
            *run = Run::behind(state);
            Fed::Need
        }
        fed => {
            *run = Run::none();
            fed
        }
    }
}
