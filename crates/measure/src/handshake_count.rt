ghost use Rattle.std.specs.Prelude.{◌≡◌};
ghost use Rattle.measure.specs.Asks.{asks as asks_of, asked_of};

use handshake_core::{Handshake, Taken};
use socks_grammar::Method;
use user_login::Users;

/// Takes the bytes one by one, and tells whether a request came.
fn asks(methods: &[Method], users: &Users, bytes: &[u8]) -> bool
    ensures { result ≡ asks_of methods.now users.now bytes.now }
{
    let mut handshake = Handshake::start();
    for byte in bytes {
        match handshake.feed_all(methods, users, &[*byte]) {
            Taken::Open => {}
            Taken::Asked(_) => return true,
            Taken::Refused(_) => return false,
        }
    }
    false
}

/// How many of so many handshakes end with a request.
pub fn count_asks(methods: &[Method], users: &Users, bytes: &[u8], count: u32) -> u32
    ensures { result ≡ asked_of count methods.now users.now bytes.now }
{
    let mut asked = 0;
    for _ in 0..count {
        if asks(methods, users, bytes) {
            asked += 1;
        }
    }
    asked
}
