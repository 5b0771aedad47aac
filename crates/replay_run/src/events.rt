ghost use Rattle.std.specs.Prelude.{◌≡◌, ◌<◌, IfOk, IfSome, List as Items, length};
ghost use Rattle.socks_grammar.specs.declared.user.User.{User as SomeUser};
ghost use Rattle.net_ends.specs.InMemory.{fresh_link, fresh_net};
ghost use Rattle.socks_machine.specs.declared.script.ScriptLine.TheVariants.{Publish, See, Open, Now};
ghost use Rattle.socks_machine.specs.Step.{fresh};
ghost use Rattle.replay_run.specs.Behind.{GoesBehind};
ghost use Rattle.replay_run.specs.Changes.{opened_slot, room_for_replies};

use crate::lines::{show_open, show_publish, show_see};
use crate::slot::Slot;
use crate::state::Replay;
use addr_pattern::Endpoint;
use assoc_core::Assoc;
use conf_types::Config;
use generation::Gens;
use net_ends::{MemLink, MemNet};
use std::alloc::{AllocError, Global};

/// Room at the client's link for all replies of the proxy, in bytes.
const REPLIES: usize = 64;

/// The net of an association for which nothing was planned yet.
fn unplanned_net(alloc: Global) -> Option<MemNet>
    ensures { IfSome result (λ net. net ≡ fresh_net 0) }
{
    MemNet::make(alloc, 0).ok()
}

/// The association of this number that is opened at this moment, on which nothing has happened yet.
fn new_association(
    alloc: Global,
    number: u64,
    peer: Endpoint,
    local: Endpoint,
    now: u64,
) -> Option<Assoc<MemLink>>
    ensures { IfSome result (λ assoc. assoc ≡ record { state = fresh number peer local now; client = fresh_link room_for_replies; target = None }) }
{
    let client = MemLink::make(alloc, REPLIES).ok()?;
    Assoc::open(alloc, number, client, peer, local, now).ok()
}

/// The place of such an association, with its net.
fn opened(alloc: Global, number: u64, peer: Endpoint, local: Endpoint, now: u64) -> Option<Slot>
    ensures { IfSome result (λ slot. slot ≡ opened_slot number peer local now) }
{
    let net = unplanned_net(alloc)?;
    let assoc = new_association(alloc, number, peer, local, now)?;
    Some(Slot::Going { assoc, net })
}

impl Replay {
    /// The line `publish`.
    pub fn publish(&mut self, alloc: Global, config: &Config) -> Result<(), AllocError>
        ensures { IfOk result (λ _. (users : Items SomeUser) → GoesBehind users (Publish config.now) self.old self.new) }
    {
        let copied = config.copy(alloc)?;
        match self.gens.push(copied) {
            Err(_) => Err(AllocError),
            Ok(number) => show_publish(alloc, &mut self.out, number),
        }
    }

    /// The line `see`.
    pub fn see(&mut self, alloc: Global) -> Result<(), AllocError>
        requires { 0 < length self.old.gens.configs }
        ensures { IfOk result (λ _. (users : Items SomeUser) → GoesBehind users (See 1) self.old self.new) }
    {
        let number = self.gens.see();
        show_see(alloc, &mut self.out, number)
    }

    /// The line `open`.
    pub fn open(
        &mut self,
        alloc: Global,
        number: u64,
        peer: Endpoint,
        local: Endpoint,
    ) -> Result<(), AllocError>
        ensures { IfOk result (λ _. (users : Items SomeUser) → GoesBehind users (Open 1 number peer local) self.old self.new) }
    {
        match opened(alloc, number, peer, local, self.moment) {
            None => Err(AllocError),
            Some(slot) => {
                self.slots.push(slot)?;
                show_open(alloc, &mut self.out, number)
            }
        }
    }

    /// The line `now`.
    pub fn now(&mut self, now: u64)
        ensures { (users : Items SomeUser) → GoesBehind users (Now now) self.old self.new }
    {
        self.moment = now;
    }
}
