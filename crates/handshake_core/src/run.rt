//! Bytes that leave a request too short, each told by a look at it alone, so that the names and users in requests aren't read
//! again at each of their bytes. No clause says which run is found; the shortest would cost time alone.
ghost use Rattle.std.specs.Prelude.{◌≡◌, ◌-◌, ◌==◌, ◌&&◌, nat_lt, if◌then◌else◌, position};
ghost use Rattle.handshake_core.specs.Runs.{StaysShort, WantsMore, passes as passes_of};

use crate::state::{Stage, State};

/// Which bytes.
#[derive(Clone, Copy, PartialEq, Eq, Debug)]
pub enum Kind {
    /// Any byte but 00 (the user of the SOCKS 4 memo).
    User,
    /// 21 to 7E.
    Name,
}

/// So many more bytes of this kind leave the message too short, whichever they are.
#[derive(Clone, Copy, PartialEq, Eq, Debug)]
pub struct Run {
    pub kind: Kind,
    pub left: usize,
}

fn passes(kind: Kind, byte: u8) -> bool
    ensures { result ≡ passes_of kind byte }
{
    match kind {
        Kind::User => byte != 0,
        Kind::Name => 33 <= byte && byte <= 126,
    }
}

fn first_zero(bytes: &[u8]) -> Option<usize>
    ensures { result ≡ position (λ b. b == 0) bytes.now }
{
    bytes.iter().position(|byte| *byte == 0)
}

/// The run behind a request of version 4: the rest of 255 bytes of the user, or of the name (the SOCKS 4 and 4A memos).
fn run4(message: &[u8]) -> Run
    requires { WantsMore Stage.First message.now }
    ensures { StaysShort Stage.First message.now result }
{
    if message.len() < 8 || message[0] != 4 {
        return Run::none();
    }
    let behind_addr = &message[8..];
    match first_zero(behind_addr) {
        None => Run {
            kind: Kind::User,
            left: 255 - behind_addr.len(),
        },
        Some(end) => Run {
            kind: Kind::Name,
            left: 255 - (behind_addr.len() - end - 1),
        },
    }
}

/// The run behind a request of version 5: the rest of the name (RFC 1928, section 5).
fn run5(message: &[u8]) -> Run
    requires { WantsMore Stage.Request message.now }
    ensures { StaysShort Stage.Request message.now result }
{
    if message.len() < 5 || message[3] != 3 {
        return Run::none();
    }
    Run {
        kind: Kind::Name,
        left: usize::from(message[4]).saturating_sub(message.len() - 5),
    }
}

impl Run {
    pub fn none() -> Run
        ensures { result ≡ record { kind = Kind.Name; left = 0 } }
    {
        Run {
            kind: Kind::Name,
            left: 0,
        }
    }

    /// The run behind a message that is too short. There is none behind greetings and logins: their readers look at the lengths
    /// alone.
    pub fn behind(state: &State) -> Run
        requires { WantsMore state.now.stage state.now.message }
        ensures { StaysShort state.now.stage state.now.message result }
    {
        let message = state.message.as_slice();
        match state.stage {
            Stage::First => run4(message),
            Stage::Request => run5(message),
            Stage::Login | Stage::Over => Run::none(),
        }
    }

    /// Whether the byte is one of the run, which then is one byte shorter.
    pub fn takes(&mut self, byte: u8) -> bool
        ensures taken { result ≡ (nat_lt 0 self.old.left && passes_of self.old.kind byte) }
        ensures after { self.new ≡ (if result then record self.old { left = self.old.left - 1 } else self.old) }
    {
        if self.left == 0 || !passes(self.kind, byte) {
            return false;
        }
        self.left -= 1;
        true
    }
}
