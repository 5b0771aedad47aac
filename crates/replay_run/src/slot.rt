ghost use Rattle.std.specs.Prelude.{◌≡◌, IfOk};
ghost use Rattle.net_ends.specs.Plans.{planned};
ghost use Rattle.replay_run.specs.Changes.{IsUnended, MayArrive, MayArriveAtTarget, change_net, change_target, with_arrival, with_bytes, with_client_end, with_client_failure, with_client_narrow, with_lookup, with_plan, with_room, with_side_failure, with_side_narrow, with_target_arrival, with_target_end, with_target_failure, with_target_narrow};

use assoc_core::{Assoc, Ended};
use net_ends::{DialPlan, Kind, Lookup, MemLink, MemNet};
use socks_machine::Object;
use std::alloc::AllocError;

/// An association of a replay, with the net that it dials.
#[derive(Drop)]
pub enum Slot {
    Going { assoc: Assoc<MemLink>, net: MemNet },
    Over(Ended<MemLink>),
    /// Its turn is being made.
    Away,
}

/// Room for so many further bytes in the target's link, where it is there, and else in the one that waits in the net.
fn spare(target: &mut Option<MemLink>, net: &mut MemNet, further: usize) -> Result<(), AllocError>
    ensures target { IfOk result (λ _. target.new ≡ change_target (with_room further) target.old) }
    ensures net { IfOk result (λ _. net.new ≡ change_net (with_room further) target.old net.old) }
{
    let spared = match target {
        None => net.spare(further),
        Some(link) => link.spare(further),
    };
    match spared {
        Ok(()) => Ok(()),
        Err(_) => Err(AllocError),
    }
}

/// Bytes arrive at the target's link, where it is there, and else at the one that waits in the net.
fn arrive_there(
    target: &mut Option<MemLink>,
    net: &mut MemNet,
    bytes: &[u8],
) -> Result<(), AllocError>
    requires { IsUnended target.old net.old }
    ensures target { IfOk result (λ _. target.new ≡ change_target (with_bytes bytes.now) target.old) }
    ensures net { IfOk result (λ _. net.new ≡ change_net (with_bytes bytes.now) target.old net.old) }
{
    let arrived = match target {
        None => net.arrive(bytes),
        Some(link) => link.arrive(bytes),
    };
    match arrived {
        Ok(()) => Ok(()),
        Err(_) => Err(AllocError),
    }
}

impl Slot {
    /// Bytes of the client arrive, and the target's link gets room for them.
    pub fn arrive(&mut self, bytes: &[u8]) -> Result<(), AllocError>
        requires { MayArrive self.old }
        ensures { IfOk result (λ _. self.new ≡ with_arrival bytes.now self.old) }
    {
        match self {
            Slot::Going { assoc, net } => match assoc.client.arrive(bytes) {
                Ok(()) => spare(&mut assoc.target, net, bytes.len()),
                Err(_) => Err(AllocError),
            },
            _ => Ok(()),
        }
    }

    /// Bytes of the target arrive, and the client's link gets room for them.
    pub fn arrive_from_target(&mut self, bytes: &[u8]) -> Result<(), AllocError>
        requires { MayArriveAtTarget self.old }
        ensures { IfOk result (λ _. self.new ≡ with_target_arrival bytes.now self.old) }
    {
        match self {
            Slot::Going { assoc, net } => match assoc.client.spare(bytes.len()) {
                Ok(()) => arrive_there(&mut assoc.target, net, bytes),
                Err(_) => Err(AllocError),
            },
            _ => Ok(()),
        }
    }

    /// The client's end stands behind what arrived.
    pub fn end_client(&mut self)
        ensures { self.new ≡ with_client_end self.old }
    {
        match self {
            Slot::Going { assoc, net } => assoc.client.end(),
            _ => {}
        }
    }

    /// The target's end stands behind what arrives from it.
    pub fn end_target(&mut self)
        ensures { self.new ≡ with_target_end self.old }
    {
        match self {
            Slot::Going { assoc, net } => match &mut assoc.target {
                None => net.end(),
                Some(link) => link.end(),
            },
            _ => {}
        }
    }

    /// Each write to the client takes so many bytes at most.
    pub fn narrow_client(&mut self, most: usize)
        ensures { self.new ≡ with_client_narrow most self.old }
    {
        match self {
            Slot::Going { assoc, net } => assoc.client.set_room(most),
            _ => {}
        }
    }

    /// Each write to the target takes so many bytes at most.
    pub fn narrow_target(&mut self, most: usize)
        ensures { self.new ≡ with_target_narrow most self.old }
    {
        match self {
            Slot::Going { assoc, net } => match &mut assoc.target {
                None => net.set_room(most),
                Some(link) => link.set_room(most),
            },
            _ => {}
        }
    }

    /// Each write to this side takes so many bytes at most.
    pub fn narrow(&mut self, side: Object, most: usize)
        ensures { self.new ≡ with_side_narrow side most self.old }
    {
        match side {
            Object::Client => self.narrow_client(most),
            Object::Target => self.narrow_target(most),
            _ => {}
        }
    }

    /// The next call of this kind on the client's link fails.
    pub fn fail_client(&mut self, kind: Kind)
        ensures { self.new ≡ with_client_failure kind self.old }
    {
        match self {
            Slot::Going { assoc, net } => assoc.client.fail_next(kind),
            _ => {}
        }
    }

    /// The next call of this kind on the target's link fails.
    pub fn fail_target(&mut self, kind: Kind)
        ensures { self.new ≡ with_target_failure kind self.old }
    {
        match self {
            Slot::Going { assoc, net } => match &mut assoc.target {
                None => net.fail_next(kind),
                Some(link) => link.fail_next(kind),
            },
            _ => {}
        }
    }

    /// The next call of this kind on this side's link fails.
    pub fn fail(&mut self, side: Object, kind: Kind)
        ensures { self.new ≡ with_side_failure side kind self.old }
    {
        match side {
            Object::Client => self.fail_client(kind),
            Object::Target => self.fail_target(kind),
            _ => {}
        }
    }

    /// A lookup comes out so.
    pub fn plan_lookup(&mut self, outcome: Lookup)
        ensures { self.new ≡ with_lookup outcome self.old }
    {
        match self {
            Slot::Going { assoc, net } => net.plan_lookup(outcome),
            _ => {}
        }
    }

    /// The next dial comes out so.
    pub fn plan(&mut self, outcome: DialPlan)
        ensures { self.new ≡ with_plan (planned outcome) self.old }
    {
        match self {
            Slot::Going { assoc, net } => net.plan(outcome),
            _ => {}
        }
    }
}
