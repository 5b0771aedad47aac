ghost use Rattle.std.specs.Prelude.{◌≡◌, ◌&&◌, ◌||◌, not, ℕ, List, IfOk, drop, option_map};
ghost use Rattle.addr_pattern.specs.declared.endpoint.Endpoint.{Endpoint};
ghost use Rattle.conf_types.specs.declared.entries.Entries.{Entries};
ghost use Rattle.socks_grammar.specs.declared.user.User.{User};
ghost use Rattle.net_ends.specs.Nets.{NetTold};
ghost use Rattle.socks_machine.specs.declared.cause.StopBy.{StopBy};
ghost use Rattle.socks_machine.specs.declared.lines.Line.{Line};
ghost use Rattle.socks_machine.specs.Decisions.{reached_at as first_reached};
ghost use Rattle.socks_machine.specs.Socks.{socks};
ghost use Rattle.assoc_core.specs.Carrying.{CarriesToClient, CarriesToTarget, Passes, has_ended as ended_by, is_sound as sound_by, fault_of as fault_in, object_of, has_pending, took_quantum as quantum_in, unwritten_of};
ghost use Rattle.assoc_core.specs.Plain.{prelude_of};
ghost use Rattle.assoc_core.specs.Stands.{Stands};
ghost use Rattle.assoc_core.specs.Turns.{Turns, context};

use crate::assoc::{Assoc, Next};
use crate::carry::{Give, Take, give_rest, take_from};
use crate::due::Due;
use crate::prelude::prelude_in;
use crate::replies::replies_to_client;
use lists::Text;
use net_ends::Link;
use session_desk::DeskCall;
use socks_machine::{Cause, Record};
use std::alloc::{AllocError, Global};

/// One of the two sides of a relay.
#[derive(Clone, Copy, Debug, PartialEq, Eq)]
pub enum Side {
    Client,
    Target,
}

/// What one pass over both directions came to.
#[derive(Clone, Copy, Debug, PartialEq, Eq)]
pub struct Pass {
    pub took_c: Take,
    pub gave_t: Give,
    pub took_t: Take,
    pub gave_c: Give,
}

/// The bytes behind a place, or none where there are fewer.
pub fn behind(bytes: &[u8], at: usize) -> &[u8]
    ensures { result.now ≡ drop at bytes.now }
{
    if at <= bytes.len() { &bytes[at..] } else { &[] }
}

fn has_ended(take: Take) -> bool
    ensures { result ≡ ended_by take }
{
    matches!(take, Take::Ended)
}

pub fn is_sound(give: Give) -> bool
    ensures { result ≡ sound_by give }
{
    !matches!(give, Give::Unwritten | Give::Unshut)
}

/// Reads the client, and writes and shuts the target. Where the client's read failed nothing more is done.
fn carry_to_target<L: Link>(
    alloc: Global,
    state: &mut Record,
    client: &mut L,
    target: &mut L,
) -> Result<(Take, Give), AllocError>
    ensures { IfOk result (λ came. CarriesToTarget (L.told client.old) (L.told client.new) (L.counts client.old) (L.counts client.new) (L.told target.old) (L.told target.new) (L.counts target.old) (L.counts target.new) state.old state.new came.0 came.1) }
{
    let due = Due {
        front: Text::make(alloc),
        skip: prelude_in(state),
    };
    let (took_c, stopped) = take_from(
        alloc,
        client,
        &mut state.c,
        &mut state.end_c,
        true,
        target,
        &mut state.sent_t,
        &due,
    )?;
    if let Take::Failed = took_c {
        return Ok((took_c, Give::Held));
    }
    let gave_t = give_rest(
        alloc,
        target,
        &mut state.sent_t,
        &due,
        state.c.as_slice(),
        has_ended(took_c),
        &mut state.shut_t,
        stopped,
    )?;
    Ok((took_c, gave_t))
}

/// Reads the target, where it is to be read, and writes and shuts the client.
fn carry_to_client<L: Link>(
    alloc: Global,
    state: &mut Record,
    client: &mut L,
    target: &mut L,
    reads: bool,
) -> Result<(Take, Give), AllocError>
    ensures { IfOk result (λ came. CarriesToClient (L.told target.old) (L.told target.new) (L.counts target.old) (L.counts target.new) (L.told client.old) (L.told client.new) (L.counts client.old) (L.counts client.new) reads state.old state.new came.0 came.1) }
{
    let due = Due {
        front: replies_to_client(alloc, state)?,
        skip: 0,
    };
    let (took_t, stopped) = take_from(
        alloc,
        target,
        &mut state.t,
        &mut state.end_t,
        reads,
        client,
        &mut state.sent_c,
        &due,
    )?;
    let gave_c = give_rest(
        alloc,
        client,
        &mut state.sent_c,
        &due,
        state.t.as_slice(),
        has_ended(took_t),
        &mut state.shut_c,
        stopped,
    )?;
    Ok((took_t, gave_c))
}

/// Reads the client and writes the target, and then reads the target and writes the client.
fn carry_both<L: Link>(
    alloc: Global,
    state: &mut Record,
    client: &mut L,
    target: &mut L,
) -> Result<Pass, AllocError>
    ensures { IfOk result (λ pass. Passes (L.told client.old) (L.told client.new) (L.told target.old) (L.told target.new) (L.counts client.old) (L.counts client.new) (L.counts target.old) (L.counts target.new) (prelude_of state.old) state.old state.new pass) }
{
    let (took_c, gave_t) = carry_to_target(alloc, state, client, target)?;
    if let Take::Failed = took_c {
        return Ok(Pass {
            took_c,
            gave_t,
            took_t: Take::Unread,
            gave_c: Give::Held,
        });
    }
    let reads = is_sound(gave_t);
    let (took_t, gave_c) = carry_to_client(alloc, state, client, target, reads)?;
    Ok(Pass {
        took_c,
        gave_t,
        took_t,
        gave_c,
    })
}

/// The side whose call failed first.
fn fault_of(pass: Pass) -> Option<Side>
    ensures { option_map object_of result ≡ fault_in pass }
{
    if let Take::Failed = pass.took_c {
        return Some(Side::Client);
    }
    if !is_sound(pass.gave_t) {
        return Some(Side::Target);
    }
    if let Take::Failed = pass.took_t {
        return Some(Side::Target);
    }
    if !is_sound(pass.gave_c) {
        return Some(Side::Client);
    }
    None
}

/// Whether nothing is left to do behind a failed call of the target's: a write failed, or nothing is pending.
fn is_over(pass: Pass) -> bool
    ensures { result ≡ unwritten_of pass || not (has_pending pass) }
{
    match (pass.gave_t, pass.gave_c) {
        (Give::Unwritten, _) | (_, Give::Unwritten) => true,
        (Give::Full, _) | (_, Give::Full) => false,
        _ => true,
    }
}

fn took_quantum(pass: Pass) -> bool
    ensures { result ≡ quantum_in pass }
{
    match (pass.took_c, pass.took_t) {
        (Take::Quantum, _) | (_, Take::Quantum) => true,
        _ => false,
    }
}

/// Whether both sides are shut.
fn is_shut(state: &Record) -> bool
    ensures { result ≡ state.now.shut_c && state.now.shut_t }
{
    state.shut_c && state.shut_t
}

impl<L: Link + Drop> Assoc<L> {
    /// One turn in a relay: a pass over both directions, and the close where both sides are shut or a call failed. Where
    /// a call on the target failed, what is pending to the client is still sent.
    pub(crate) fn relay<D: DeskCall>(
        mut self,
        alloc: Global,
        desk: &mut D,
    ) -> Result<Next<L>, AllocError>
        ensures cap { IfOk result (λ next. D.cap desk.new ≡ D.cap desk.old) }
        ensures turns { IfOk result (λ next. (users : List User) (pubs : List Entries) (generation : ℕ) (config : Entries) (now : ℕ) (net : NetTold) (h : List Line) (marks : List StopBy) (at : Endpoint)
            → D.stands desk.old h marks → Stands L.told (socks users pubs) self → self.state.since ≡ now
            → first_reached self.state.decisions ≡ Some at → self.state.cause ≡ None
            → Turns L.told L.counts (D.stands desk.new) (context users pubs generation config (D.cap desk.old) h marks) now net net self next) }
    {
        let Some(target) = &mut self.target else {
            // No target was reached: there is nothing to relay.
            return Ok(Next::Wait(self));
        };
        let pass = carry_both(alloc, &mut self.state, &mut self.client, target)?;
        match fault_of(pass) {
            None => {
                if is_shut(&self.state) {
                    return Ok(Next::Done(self.finish(desk, Cause::Finished)));
                }
                if took_quantum(pass) {
                    return Ok(Next::Again(self));
                }
                Ok(Next::Wait(self))
            }
            Some(Side::Client) => Ok(Next::Done(self.finish(desk, Cause::ClientFault))),
            Some(Side::Target) => {
                if is_over(pass) {
                    return Ok(Next::Done(self.finish(desk, Cause::TargetFault)));
                }
                self.state.cause = Some(Cause::TargetFault);
                if took_quantum(pass) {
                    return Ok(Next::Again(self));
                }
                Ok(Next::Wait(self))
            }
        }
    }
}
