ghost use Rattle.std.specs.Prelude.{◌≡◌, IfOk, List as Items};
ghost use Rattle.socks_grammar.specs.declared.user.User.{User as SomeUser};
ghost use Rattle.net_ends.specs.Plans.{planned};
ghost use Rattle.socks_machine.specs.declared.script.ScriptLine.TheVariants.{Client, Target, ClientEnd, TargetEnd, Room, Fault, Lookup as LookupLine, Dial};
ghost use Rattle.replay_script.specs.Conditions.{IsServedLookup, IsServedOutcome};
ghost use Rattle.assoc_core.specs.Turns.{looked_as, outer_of};
ghost use Rattle.replay_run.specs.Behind.{GoesBehind, IsDue};
ghost use Rattle.replay_run.specs.Changes.{kind_of as kind_of_call};

use crate::slot::Slot;
use crate::state::Replay;
use net_ends::{DialPlan, Kind, Lookup};
use socks_machine::{CallKind, Object, Outer};
use std::alloc::AllocError;

/// The plan of a dial that is to come out so.
fn plan_of(outer: Outer) -> DialPlan
    ensures { IsServedOutcome outer → outer_of (planned result) ≡ outer }
{
    match outer {
        Outer::Up(local) => DialPlan::Up(local),
        Outer::HostUnreachable => DialPlan::HostUnreachable,
        Outer::NetUnreachable => DialPlan::NetUnreachable,
        Outer::Failed => DialPlan::Failed,
        _ => DialPlan::Refused,
    }
}

/// The outcome of a lookup that is to come out so.
fn found_of(outer: Outer) -> Lookup
    ensures { IsServedLookup outer → looked_as result ≡ outer }
{
    match outer {
        Outer::Looked(Some(addr)) => Lookup::Found(addr),
        Outer::Failed => Lookup::Failed,
        _ => Lookup::NotFound,
    }
}

/// The kind of call on a link that a line names.
fn kind_of(call: CallKind) -> Kind
    ensures { result ≡ kind_of_call call }
{
    match call {
        CallKind::Reading => Kind::Read,
        CallKind::Writing => Kind::Write,
        CallKind::Shutting => Kind::Shut,
    }
}

impl Replay {
    /// The line `client`.
    pub fn client(&mut self, number: u64, bytes: &[u8]) -> Result<(), AllocError>
        requires due { IsDue (Client number bytes.now) self.old }
        ensures { IfOk result (λ _. (users : Items SomeUser) → GoesBehind users (Client number bytes.now) self.old self.new) }
    {
        let at = (number - 1) as usize;
        let mut slot = self.slots.replace(at, Slot::Away);
        let arrived = slot.arrive(bytes);
        self.slots.set(at, slot);
        arrived
    }

    /// The line `target`.
    pub fn target(&mut self, number: u64, bytes: &[u8]) -> Result<(), AllocError>
        requires due { IsDue (Target number bytes.now) self.old }
        ensures { IfOk result (λ _. (users : Items SomeUser) → GoesBehind users (Target number bytes.now) self.old self.new) }
    {
        let at = (number - 1) as usize;
        let mut slot = self.slots.replace(at, Slot::Away);
        let arrived = slot.arrive_from_target(bytes);
        self.slots.set(at, slot);
        arrived
    }

    /// The line `clientend`.
    pub fn client_end(&mut self, number: u64)
        requires due { IsDue (ClientEnd number) self.old }
        ensures { (users : Items SomeUser) → GoesBehind users (ClientEnd number) self.old self.new }
    {
        let at = (number - 1) as usize;
        let mut slot = self.slots.replace(at, Slot::Away);
        slot.end_client();
        self.slots.set(at, slot);
    }

    /// The line `targetend`.
    pub fn target_end(&mut self, number: u64)
        requires due { IsDue (TargetEnd number) self.old }
        ensures { (users : Items SomeUser) → GoesBehind users (TargetEnd number) self.old self.new }
    {
        let at = (number - 1) as usize;
        let mut slot = self.slots.replace(at, Slot::Away);
        slot.end_target();
        self.slots.set(at, slot);
    }

    /// The line `room`.
    pub fn room(&mut self, number: u64, side: Object, most: u64)
        requires due { IsDue (Room number side most) self.old }
        ensures { (users : Items SomeUser) → GoesBehind users (Room number side most) self.old self.new }
    {
        let at = (number - 1) as usize;
        let mut slot = self.slots.replace(at, Slot::Away);
        slot.narrow(side, most as usize);
        self.slots.set(at, slot);
    }

    /// The line `fault`.
    pub fn fault(&mut self, number: u64, side: Object, call: CallKind)
        requires due { IsDue (Fault number side call) self.old }
        ensures { (users : Items SomeUser) → GoesBehind users (Fault number side call) self.old self.new }
    {
        let at = (number - 1) as usize;
        let mut slot = self.slots.replace(at, Slot::Away);
        slot.fail(side, kind_of(call));
        self.slots.set(at, slot);
    }

    /// The line `lookup`.
    pub fn lookup(&mut self, number: u64, outer: Outer)
        requires due { IsDue (LookupLine number outer) self.old }
        ensures { (users : Items SomeUser) → GoesBehind users (LookupLine number outer) self.old self.new }
    {
        let at = (number - 1) as usize;
        let mut slot = self.slots.replace(at, Slot::Away);
        slot.plan_lookup(found_of(outer));
        self.slots.set(at, slot);
    }

    /// The line `dial`.
    pub fn dial(&mut self, number: u64, outer: Outer)
        requires due { IsDue (Dial number outer) self.old }
        ensures { (users : Items SomeUser) → GoesBehind users (Dial number outer) self.old self.new }
    {
        let at = (number - 1) as usize;
        let mut slot = self.slots.replace(at, Slot::Away);
        slot.plan(plan_of(outer));
        self.slots.set(at, slot);
    }
}
