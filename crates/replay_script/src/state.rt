ghost use Rattle.std.specs.Prelude.{◌≡◌, true, IfOk, MatchOption, None, ◌+◌, ◌<◌, length, ℕ, List as Items};
ghost use Rattle.addr_pattern.specs.declared.endpoint.Endpoint.{Endpoint as SomeEndpoint};
ghost use Rattle.socks_machine.specs.declared.world.Object.{Object as SomeObject};
ghost use Rattle.socks_machine.specs.declared.world.Outer.{Outer as SomeOuter};
ghost use Rattle.socks_machine.specs.declared.script.CallKind.{CallKind as SomeKind};
ghost use Rattle.socks_machine.specs.declared.script.ScriptLine.TheVariants.{UsersAre, Open, Client, Target, ClientEnd, TargetEnd, Dial, Turn, Lookup, Now, Room, Fault};
ghost use Rattle.replay_script.specs.Conditions.{start, fresh_side, side_of, may_give as may_give_of, Allowed, IsServedForm};
ghost use Rattle.replay_script.specs.Script.{is_looked_at};
ghost use Rattle.user_login.specs.UsersFile.{are_users};

use crate::fault::ScriptKind;
use handshake_core::is_served_input;
use lists::{List, Text};
use socks_grammar::User;
use socks_machine::ScriptLine;
use std::alloc::{AllocError, Global};
use user_login::Users;

/// What the lines so far say of one association.
#[derive(Drop)]
pub struct AssociationState {
    /// The bytes of the client.
    pub c: Text,
    /// Whether the client has ended.
    pub end_c: bool,
    /// Whether the target has ended.
    pub end_t: bool,
    /// Whether a line said how a lookup comes out.
    pub looked: bool,
    pub dialled: bool,
}

/// What the lines so far say.
#[derive(Drop)]
pub struct State {
    /// Who may log in; nobody before a line gives the users.
    pub users: Users,
    /// Whether a line gave the users.
    pub given: bool,
    pub published: bool,
    pub seen: bool,
    /// In seconds.
    pub moment: u64,
    /// The associations in their order.
    pub sides: List<AssociationState>,
}

impl AssociationState {
    fn fresh(alloc: Global) -> AssociationState
        ensures { result ≡ fresh_side }
    {
        AssociationState {
            c: Text::make(alloc),
            end_c: false,
            end_t: false,
            looked: false,
            dialled: false,
        }
    }
}

impl State {
    pub(crate) fn make(alloc: Global) -> State
        ensures { result ≡ start }
    {
        State {
            users: Users::empty(),
            given: false,
            published: false,
            seen: false,
            moment: 0,
            sides: List::make(alloc),
        }
    }

    /// Where an association stands.
    fn place(&self, number: u64) -> Option<usize>
        ensures { MatchOption result (side_of self.now number ≡ None) (λ at. (number ≡ at + 1) × (at < length self.now.sides)) }
    {
        if number == 0 {
            return None;
        }
        let at = (number - 1) as usize;
        if at < self.sides.len() {
            Some(at)
        } else {
            None
        }
    }

    fn client_end(&mut self, alloc: Global, number: u64) -> bool
        ensures { Allowed self.old self.new (ClientEnd number) result }
    {
        let Some(at) = self.place(number) else {
            return false;
        };
        let mut side = self.sides.replace(at, AssociationState::fresh(alloc));
        if side.end_c {
            return false;
        }
        side.end_c = true;
        self.sides.set(at, side);
        true
    }

    fn target_end(&mut self, alloc: Global, number: u64) -> bool
        ensures { Allowed self.old self.new (TargetEnd number) result }
    {
        let Some(at) = self.place(number) else {
            return false;
        };
        let mut side = self.sides.replace(at, AssociationState::fresh(alloc));
        if side.end_t {
            return false;
        }
        side.end_t = true;
        self.sides.set(at, side);
        true
    }

    fn looked_up(&mut self, alloc: Global, number: u64) -> bool
        ensures { (outer : SomeOuter) → Allowed self.old self.new (Lookup number outer) result }
    {
        let Some(at) = self.place(number) else {
            return false;
        };
        let mut side = self.sides.replace(at, AssociationState::fresh(alloc));
        if side.looked {
            return false;
        }
        side.looked = true;
        self.sides.set(at, side);
        true
    }

    fn dialled(&mut self, alloc: Global, number: u64) -> bool
        ensures { (outer : SomeOuter) → Allowed self.old self.new (Dial number outer) result }
    {
        let Some(at) = self.place(number) else {
            return false;
        };
        let mut side = self.sides.replace(at, AssociationState::fresh(alloc));
        if side.dialled {
            return false;
        }
        side.dialled = true;
        self.sides.set(at, side);
        true
    }

    fn client(&mut self, alloc: Global, number: u64, bytes: &[u8]) -> Result<bool, AllocError>
        ensures { IfOk result (λ done. Allowed self.old self.new (Client number bytes.now) done) }
    {
        let Some(at) = self.place(number) else {
            return Ok(false);
        };
        let mut side = self.sides.replace(at, AssociationState::fresh(alloc));
        if side.end_c {
            return Ok(false);
        }
        side.c.add(bytes)?;
        if !is_served_input(&self.users, side.c.as_slice()) {
            return Ok(false);
        }
        self.sides.set(at, side);
        Ok(true)
    }

    /// Whether bytes of the target may come here. They are kept nowhere, since no condition asks for them.
    fn target(&self, number: u64) -> bool
        ensures { (bytes : Items ℕ) → Allowed self.now self.now (Target number bytes) result }
    {
        let Some(at) = self.place(number) else {
            return false;
        };
        match self.sides.get(at) {
            None => false,
            Some(side) => !side.end_t,
        }
    }

    fn opened(&mut self, alloc: Global, number: u64) -> Result<bool, AllocError>
        ensures { IfOk result (λ done. (worker : ℕ) (peer local : SomeEndpoint) → Allowed self.old self.new (Open worker number peer local) done) }
    {
        if number == 0 || number - 1 != self.sides.len() as u64 {
            return Ok(false);
        }
        self.sides.push(AssociationState::fresh(alloc))?;
        Ok(true)
    }

    fn may_turn(&self, number: u64) -> bool
        ensures { (worker : ℕ) → Allowed self.now self.now (Turn worker number) result }
    {
        if !self.seen {
            return false;
        }
        self.place(number).is_some()
    }

    fn may_bound(&self, number: u64) -> bool
        ensures { (object : SomeObject) (most : ℕ) → Allowed self.now self.now (Room number object most) result }
    {
        self.place(number).is_some()
    }

    fn may_fail(&self, number: u64) -> bool
        ensures { (object : SomeObject) (kind : SomeKind) → Allowed self.now self.now (Fault number object kind) result }
    {
        self.place(number).is_some()
    }

    fn moved(&mut self, now: u64) -> bool
        ensures { Allowed self.old self.new (Now now) result }
    {
        if now < self.moment {
            return false;
        }
        self.moment = now;
        true
    }

    /// Whether the users may come here.
    fn may_give(&self) -> bool
        ensures { result ≡ may_give_of self.now }
    {
        !self.given && !self.published && self.sides.len() == 0
    }

    /// Whether a counted text with a fault of this kind is looked at here.
    pub(crate) fn looks_at(&self, kind: ScriptKind) -> bool
        ensures { result ≡ is_looked_at self.now kind }
    {
        match kind {
            ScriptKind::Users(_) => self.may_give(),
            _ => true,
        }
    }

    fn give(&mut self, alloc: Global, users: &[User]) -> Result<bool, AllocError>
        requires { are_users users.now ≡ true }
        ensures { IfOk result (λ done. Allowed self.old self.new (UsersAre users.now) done) }
    {
        if !self.may_give() {
            return Ok(false);
        }
        self.users = Users::from_slice(alloc, users)?;
        self.given = true;
        Ok(true)
    }

    /// Goes on behind a line of a served form, and says whether it keeps its condition.
    pub(crate) fn step(&mut self, alloc: Global, line: &ScriptLine) -> Result<bool, AllocError>
        requires { IsServedForm line.now }
        ensures { IfOk result (λ done. Allowed self.old self.new line.now done) }
    {
        match line {
            ScriptLine::UsersAre(users) => self.give(alloc, users.as_slice()),
            ScriptLine::Publish(_) => {
                self.published = true;
                Ok(true)
            }
            ScriptLine::See(_) => {
                if !self.published {
                    return Ok(false);
                }
                self.seen = true;
                Ok(true)
            }
            ScriptLine::Open(_, number, _, _) => self.opened(alloc, *number),
            ScriptLine::Client(number, bytes) => self.client(alloc, *number, bytes.as_slice()),
            ScriptLine::Target(number, _) => Ok(self.target(*number)),
            ScriptLine::ClientEnd(number) => Ok(self.client_end(alloc, *number)),
            ScriptLine::TargetEnd(number) => Ok(self.target_end(alloc, *number)),
            ScriptLine::Lookup(number, _) => Ok(self.looked_up(alloc, *number)),
            ScriptLine::Dial(number, _) => Ok(self.dialled(alloc, *number)),
            ScriptLine::Room(number, _, _) => Ok(self.may_bound(*number)),
            ScriptLine::Fault(number, _, _) => Ok(self.may_fail(*number)),
            ScriptLine::Now(now) => Ok(self.moved(*now)),
            ScriptLine::Turn(_, number) => Ok(self.may_turn(*number)),
            _ => Ok(false),
        }
    }
}
