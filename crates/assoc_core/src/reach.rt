ghost use Rattle.std.specs.Prelude.{◌≡◌, ℕ, Bool, Some, None, Option, List, [], ◌∷◌, IfOk, option_map, drop, length};
ghost use Rattle.addr_pattern.specs.declared.endpoint.Endpoint.{Endpoint};
ghost use Rattle.conf_types.specs.declared.entries.Entries.{Entries};
ghost use Rattle.socks_grammar.specs.declared.user.User.{User};
ghost use Rattle.net_ends.specs.Nets.{NetTold, DialOutcome};
ghost use Rattle.rule_list.specs.declared.facts.Facts.{Facts};
ghost use Rattle.rule_list.specs.declared.verdict.Verdict.{Verdict};
ghost use Rattle.socks_machine.specs.declared.lines.Line.{Line};
ghost use Rattle.socks_machine.specs.declared.cause.StopBy.{StopBy};
ghost use Rattle.socks_machine.specs.declared.record.Decision.{Decision};
ghost use Rattle.socks_machine.specs.Decisions.{granted};
ghost use Rattle.socks_machine.specs.Socks.{socks};
ghost use Rattle.connect_core.specs.Reaching.{cause_of};
ghost use Rattle.assoc_core.specs.Reaching.{HasDialled, IsNewLink, HasGreeted, SameDesk};
ghost use Rattle.assoc_core.specs.Plain.{Sought, behind_lookup, prelude_of};
ghost use Rattle.assoc_core.specs.Sending.{Sends};
ghost use Rattle.assoc_core.specs.Stands.{Stands};
ghost use Rattle.assoc_core.specs.Turns.{Turns, context};

use crate::assoc::{Assoc, Next};
use crate::prelude::prelude_in;
use crate::refusals::first_cause;
use crate::relay::behind;
use crate::send::{Sent, send_pending};
use crate::talk::send_to_client;
use addr_pattern::Endpoint;
use connect_core::{Reached, reach};
use net_ends::{Link, Net};
use socks_machine::{Cause, Decision, Record};
use std::alloc::{AllocError, Global};

/// The destination that was granted.
fn granted_to(decisions: &[Decision]) -> Option<Endpoint>
    ensures { result ≡ option_map (λ g. g.facts.to) (granted decisions.now) }
{
    match decisions {
        [] => None,
        [Decision::Granted { facts, .. }, ..] => Some(facts.to),
        [_, rest @ ..] => granted_to(rest),
    }
}

/// Sends the client's bytes behind its prelude to the target.
pub fn send_to_target<L: Link>(
    alloc: Global,
    state: &mut Record,
    target: &mut L,
) -> Result<Sent, AllocError>
    ensures sends { IfOk result (λ outcome. Sends (L.told target.old) (L.told target.new) (L.counts target.old) (L.counts target.new) state.old.sent_t state.new.sent_t (drop (length state.old.sent_t) (drop (prelude_of state.old) state.old.c)) outcome) }
    ensures state { IfOk result (λ outcome. state.new ≡ record state.old { sent_t = state.new.sent_t }) }
{
    let prelude = prelude_in(state);
    let pending = behind(behind(state.c.as_slice(), prelude), state.sent_t.len());
    send_pending(alloc, target, &mut state.sent_t, pending)
}

impl<L: Link + Drop> Assoc<L> {
    /// The target is reached: the reply of success is written, and what the client has sent behind its prelude.
    fn greet(mut self, alloc: Global, link: L) -> Result<Next<L>, AllocError>
        ensures { IfOk result (λ next. (users : List User) (pubs : List Entries) (generation : ℕ) (config : Entries) (cap : ℕ) (h : List Line) (marks : List StopBy) (net net' : NetTold) (now : ℕ) (a : Assoc L) (local : Endpoint) → HasDialled L.told (socks users pubs) net net' now a self (DialOutcome.CameUp local) → IsNewLink (L.told link) (L.counts link) net → Turns L.told L.counts (SameDesk h marks) (context users pubs generation config cap h marks) now net net' a next) }
    {
        match send_to_client(alloc, &mut self.state, &mut self.client)? {
            Sent::All => self.send_payload(alloc, link),
            Sent::Full => self.send_payload(alloc, link),
            Sent::Failed => {
                self.state.cause = first_cause(Some(Cause::ClientFault), self.state.cause);
                self.target = Some(link);
                Ok(Next::Again(self))
            }
        }
    }

    /// What the client has sent behind its prelude is written to a new target.
    fn send_payload(mut self, alloc: Global, mut link: L) -> Result<Next<L>, AllocError>
        ensures { IfOk result (λ next. (users : List User) (pubs : List Entries) (generation : ℕ) (config : Entries) (cap : ℕ) (h : List Line) (marks : List StopBy) (net net' : NetTold) (now : ℕ) (a b : Assoc L) (local : Endpoint) (full : Bool) → HasDialled L.told (socks users pubs) net net' now a b (DialOutcome.CameUp local) → IsNewLink (L.told link) (L.counts link) net → HasGreeted L.told L.counts b self full → Turns L.told L.counts (SameDesk h marks) (context users pubs generation config cap h marks) now net net' a next) }
    {
        match send_to_target(alloc, &mut self.state, &mut link)? {
            Sent::All => {
                self.target = Some(link);
                Ok(Next::Again(self))
            }
            Sent::Full => {
                self.target = Some(link);
                Ok(Next::Again(self))
            }
            Sent::Failed => {
                self.state.cause = first_cause(Some(Cause::TargetFault), self.state.cause);
                self.target = Some(link);
                Ok(Next::Again(self))
            }
        }
    }

    /// The target isn't reached: the refusal is written.
    fn refuse(mut self, alloc: Global, cause: Cause) -> Result<Next<L>, AllocError>
        ensures { IfOk result (λ next. (users : List User) (pubs : List Entries) (generation : ℕ) (config : Entries) (cap : ℕ) (h : List Line) (marks : List StopBy) (net net' : NetTold) (now : ℕ) (a : Assoc L) (outcome : DialOutcome) → HasDialled L.told (socks users pubs) net net' now a self outcome → cause_of outcome ≡ Some cause → Turns L.told L.counts (SameDesk h marks) (context users pubs generation config cap h marks) now net net' a next) }
    {
        self.state.cause = first_cause(Some(cause), self.state.cause);
        self.write_on(alloc)
    }
}

/// Dials the granted destination.
pub(crate) fn reach_target<N: Net>(
    mut assoc: Assoc<N::Link>,
    alloc: Global,
    net: &mut N,
) -> Result<Next<N::Link>, AllocError>
where
    N::Link: Drop,
    ensures { IfOk result (λ next. (users : List User) (pubs : List Entries) (generation : ℕ) (config : Entries) (cap : ℕ) (h : List Line) (marks : List StopBy) (now g g' : ℕ) (rule : Option ℕ) (sought : Option Sought) (facts : Facts) (verdict : Verdict) (route : Option ℕ) → Stands N.Link.told (socks users pubs) assoc → assoc.state.since ≡ now → assoc.state.cause ≡ None → assoc.state.decisions ≡ Decision.Opened g rule None ∷ behind_lookup sought (Decision.Granted g' facts verdict route None ∷ []) → Turns N.Link.told N.Link.counts (SameDesk h marks) (context users pubs generation config cap h marks) now (N.told net.old) (N.told net.new) assoc next) }
{
    let Some(to) = granted_to(assoc.state.decisions.as_slice()) else {
        // Nothing was granted: nothing is dialled.
        return Ok(Next::Wait(assoc));
    };
    assoc
        .state
        .decisions
        .push(Decision::Reached { to, at: None })?;
    match reach(net, to) {
        Reached::Up { link, local } => {
            let at = Some(local);
            assoc.state.decisions.set_last(Decision::Reached { to, at });
            assoc.greet(alloc, link)
        }
        Reached::Failed(cause) => assoc.refuse(alloc, cause),
    }
}
