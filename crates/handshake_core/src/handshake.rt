ghost use Rattle.std.specs.Prelude.{◌≡◌, ◌≤◌, [], None, false, length, List as Items};
ghost use Rattle.socks_grammar.specs.declared.user.User.{User};
ghost use Rattle.handshake_core.specs.Answers.{Feeds};
ghost use Rattle.handshake_core.specs.Due.{IsOpen};
ghost use Rattle.handshake_core.specs.Taking.{Takes};

use crate::fed::Fed;
use crate::hear::are_bytes;
use crate::run::Run;
use crate::state::{Stage, State};
use crate::take::take;
use crate::taken::Taken;
use addr_pattern::Short;
use socks_grammar::Method;
use std::marker::Model;
use user_login::Users;

/// The prelude of one client, as far as it has come. It takes no memory: it keeps the messages in place. Contracts see all the
/// bytes that it was fed, and the method that was answered to the greeting.
#[derive(Drop)]
pub struct Handshake {
    state: State,
    run: Run,
}

impl Model for Handshake {
    ghost use Rattle.std.specs.Prelude.{◌≡◌, true};
    ghost use Rattle.handshake_core.specs.Due.{Client};
    ghost use Rattle.handshake_core.specs.Runs.{StaysShort};
    ghost use Rattle.handshake_core.specs.Standing.{client_of, stands};

    ghost Value = { Client };

    ghost view = { λ h. client_of h.state };

    ghost invariant = { λ h. (stands h.state ≡ true) × StaysShort h.state.stage h.state.message h.run };
}

impl Handshake {
    /// The handshake of a client that has sent nothing.
    pub fn start() -> Handshake
        ensures { result ≡ record { bytes = []; method = None; over = false } }
    {
        Handshake {
            state: State {
                stage: Stage::First,
                greeting: Short::empty(),
                login: Short::empty(),
                message: Short::empty(),
                method: None,
                user: None,
            },
            run: Run::none(),
        }
    }

    /// Takes bytes that the client sent, and says how many it took and what came of them. It takes none behind the byte
    /// that makes an answer due, and so none behind the request. The methods are the server's, the most wanted first, and the users have to
    /// be the same at each call.
    pub fn feed(&mut self, methods: &[Method], users: &Users, input: &[u8]) -> (usize, Fed)
        requires { IsOpen users.now self.old }
        ensures { Feeds methods.now users.now self.old input.now result.0 result.1 self.new }
    {
        for (i, byte) in input.iter().enumerate() {
            match take(&mut self.state, &mut self.run, methods, users, *byte) {
                Fed::Need => {}
                fed => return (i + 1, fed),
            }
        }
        (input.len(), Fed::Need)
    }

    /// Takes all of the bytes, and says what the whole input then is. Answers to the client that come due are passed over: they
    /// follow from the method that was answered and from the input.
    pub fn feed_all(&mut self, methods: &[Method], users: &Users, input: &[u8]) -> Taken
        requires { IsOpen users.now self.old }
        ensures { Takes methods.now users.now self.old input.now result self.new }
    {
        let _ = &self.state;
        let mut rest = input;
        'taking: while !rest.is_empty() {
            let (count, fed) = self.feed(methods, users, rest);
            rest = rest.split_at(count).1;
            match fed {
                Fed::Need => {}
                Fed::Say(_) => {}
                Fed::Ask(request) => return Taken::Asked(request),
                Fed::Bad { cause, .. } => return Taken::Refused(cause),
            }
        }
        Taken::Open
    }

    /// The method that was answered to the greeting; FF where none was agreed upon (RFC 1928, section 3).
    pub fn method(&self) -> Option<u8>
        ensures { result ≡ self.now.method }
    {
        self.state.method
    }

    /// A client that may send more has sent no whole prelude, and so less than the longest: 257 bytes of a greeting, 513 of a
    /// login and 262 of a request. It does nothing; its contract is the law.
    pub fn is_short(&self, users: &Users)
        requires { IsOpen users.now self.now }
        ensures { length self.now.bytes ≤ 1289 }
    {
        let _users = users.as_slice();
        are_bytes(self.state.greeting.as_slice());
        are_bytes(self.state.login.as_slice());
        are_bytes(self.state.message.as_slice());
    }
}
