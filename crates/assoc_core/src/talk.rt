ghost use Rattle.std.specs.Prelude.{◌≡◌, ℕ, None, Some, Option, List, [], ◌∷◌, IfOk, drop, length};
ghost use Rattle.conf_types.specs.declared.entries.Entries.{Entries};
ghost use Rattle.socks_grammar.specs.declared.user.User.{User};
ghost use Rattle.conf_types.specs.Plain.{IsPlain};
ghost use Rattle.net_ends.specs.Nets.{NetTold};
ghost use Rattle.socks_machine.specs.Calls.{name_of};
ghost use Rattle.rule_list.specs.Rules.{numbered};
ghost use Rattle.socks_machine.specs.declared.lines.Line.{Line};
ghost use Rattle.socks_machine.specs.declared.cause.StopBy.{StopBy};
ghost use Rattle.socks_machine.specs.declared.record.Decision.{Decision};
ghost use Rattle.socks_machine.specs.Socks.{socks};
ghost use Rattle.assoc_core.specs.Hearing.{HasHeard};
ghost use Rattle.assoc_core.specs.Plain.{Sought, name_sought, owed_c};
ghost use Rattle.assoc_core.specs.declared.hear.Heard.TheVariants.{Asked as HasAsked, Refused as IsRefused};
ghost use Rattle.assoc_core.specs.Sending.{Sends, WritesOn};
ghost use Rattle.assoc_core.specs.Stands.{Stands, TellsServed};
ghost use Rattle.assoc_core.specs.Turns.{Turns, context};

use crate::assoc::{Assoc, Next};
use crate::grant::ask_grant;
use crate::hear::{Heard, Hearing, choose, hear, methods_by};
use crate::refusals::first_cause;
use crate::relay::behind;
use crate::replies::owed_to_client;
use crate::seek::seek;
use crate::send::{Sent, send_pending};
use addr_pattern::Host;
use conf_types::Config;
use handshake_core::Request;
use net_ends::{Link, Net};
use session_desk::DeskCall;
use socks_grammar::Command;
use socks_machine::{Cause, Record};
use std::alloc::{AllocError, Global};
use user_login::Users;

/// Sends what is pending to the client.
pub fn send_to_client<L: Link>(
    alloc: Global,
    state: &mut Record,
    client: &mut L,
) -> Result<Sent, AllocError>
    ensures sends { IfOk result (λ outcome. Sends (L.told client.old) (L.told client.new) (L.counts client.old) (L.counts client.new) state.old.sent_c state.new.sent_c (drop (length state.old.sent_c) (owed_c state.old)) outcome) }
    ensures state { IfOk result (λ outcome. state.new ≡ record state.old { sent_c = state.new.sent_c }) }
{
    let owed = owed_to_client(alloc, state)?;
    let pending = behind(owed.as_slice(), state.sent_c.len());
    send_pending(alloc, client, &mut state.sent_c, pending)
}

/// Talks with a client that was let in, until its prelude is whole or refused. In the same turn a whole one is granted or refused,
/// or its name is looked up.
pub(crate) fn talk<N: Net, K: DeskCall>(
    mut a: Assoc<N::Link>,
    alloc: Global,
    generation: u64,
    config: &Config,
    users: &Users,
    desk: &mut K,
    net: &mut N,
) -> Result<Next<N::Link>, AllocError>
where
    N::Link: Drop,
    ensures cap { IfOk result (λ next. K.cap desk.new ≡ K.cap desk.old) }
    ensures turns { IfOk result (λ next. (pubs : List Entries) (h : List Line) (marks : List StopBy) (now generation' : ℕ) (rule : Option ℕ) → K.stands desk.old h marks → Stands N.Link.told (socks users.now pubs) a → TellsServed users.now (N.Link.told a.client) → numbered pubs generation ≡ Some config.now → IsPlain config.now → a.state.since ≡ now → a.state.cause ≡ None → a.state.decisions ≡ Decision.Opened generation' rule None ∷ [] → Turns N.Link.told N.Link.counts (K.stands desk.new) (context users.now pubs generation config.now (K.cap desk.old) h marks) now (N.told net.old) (N.told net.new) a next) }
{
    let methods = methods_by(a.state.chosen, config.entries().methods.as_slice());
    let Hearing { heard, method } = hear(alloc, methods, users, &mut a.state.c, &mut a.client)?;
    a.state.chosen = choose(generation, a.state.chosen, method);
    match heard {
        Heard::Asked(request) => match &request.host {
            Host::Name(name) => seek(a, alloc, net, name),
            Host::Addr(_) => a.grant(alloc, generation, config, desk, &request),
        },
        Heard::Refused(cause) => a.turn_away(alloc, desk, cause),
        Heard::End => Ok(a.hang_up(desk)),
        Heard::NotYet => a.answer(alloc, desk),
        Heard::Failed => Ok(Next::Done(a.finish(desk, Cause::ClientFault))),
    }
}

impl<L: Link + Drop> Assoc<L> {
    /// Behind an outer call: what is pending to the client is written.
    pub(crate) fn write_on(mut self, alloc: Global) -> Result<Next<L>, AllocError>
        ensures { IfOk result (WritesOn L.told L.counts self) }
    {
        match send_to_client(alloc, &mut self.state, &mut self.client)? {
            Sent::All => Ok(Next::Again(self)),
            Sent::Full => Ok(Next::Again(self)),
            Sent::Failed => {
                self.state.cause = first_cause(Some(Cause::ClientFault), self.state.cause);
                Ok(Next::Again(self))
            }
        }
    }

    /// The client has ended before its prelude was whole.
    fn hang_up<K: DeskCall>(mut self, desk: &mut K) -> Next<L>
        ensures cap { K.cap desk.new ≡ K.cap desk.old }
        ensures turns { (users : List User) (pubs : List Entries) (generation : ℕ) (config : Entries) (h : List Line) (marks : List StopBy) (net : NetTold) (now : ℕ) (a : Assoc L) → K.stands desk.old h marks → HasHeard L.told L.counts (socks users pubs) generation config a self None Heard.End → a.state.since ≡ now → Turns L.told L.counts (K.stands desk.new) (context users pubs generation config (K.cap desk.old) h marks) now net net a result }
    {
        self.state.end_c = true;
        let at = self.state.c.len() as u64;
        Next::Done(self.finish(desk, Cause::ClientGone { at }))
    }

    /// The client says nothing more yet: what it has said is answered.
    fn answer<K: DeskCall>(mut self, alloc: Global, desk: &mut K) -> Result<Next<L>, AllocError>
        ensures cap { IfOk result (λ next. K.cap desk.new ≡ K.cap desk.old) }
        ensures turns { IfOk result (λ next. (users : List User) (pubs : List Entries) (generation : ℕ) (config : Entries) (h : List Line) (marks : List StopBy) (net : NetTold) (now : ℕ) (a : Assoc L) → K.stands desk.old h marks → HasHeard L.told L.counts (socks users pubs) generation config a self None Heard.NotYet → a.state.since ≡ now → Turns L.told L.counts (K.stands desk.new) (context users pubs generation config (K.cap desk.old) h marks) now net net a next) }
    {
        match send_to_client(alloc, &mut self.state, &mut self.client)? {
            Sent::All => Ok(Next::Wait(self)),
            Sent::Full => Ok(Next::Wait(self)),
            Sent::Failed => Ok(Next::Done(self.finish(desk, Cause::ClientFault))),
        }
    }

    /// The prelude is refused: the refusal is written, and the association ends once it is, or where it can't be.
    fn turn_away<K: DeskCall>(
        mut self,
        alloc: Global,
        desk: &mut K,
        cause: Cause,
    ) -> Result<Next<L>, AllocError>
        ensures cap { IfOk result (λ next. K.cap desk.new ≡ K.cap desk.old) }
        ensures turns { IfOk result (λ next. (users : List User) (pubs : List Entries) (generation : ℕ) (config : Entries) (h : List Line) (marks : List StopBy) (net : NetTold) (now : ℕ) (a : Assoc L) → K.stands desk.old h marks → HasHeard L.told L.counts (socks users pubs) generation config a self None (IsRefused cause) → a.state.since ≡ now → Turns L.told L.counts (K.stands desk.new) (context users pubs generation config (K.cap desk.old) h marks) now net net a next) }
    {
        self.state.cause = Some(cause);
        match send_to_client(alloc, &mut self.state, &mut self.client)? {
            Sent::All => Ok(Next::Done(self.finish(desk, cause))),
            Sent::Full => Ok(Next::Wait(self)),
            Sent::Failed => Ok(Next::Done(self.finish(desk, cause))),
        }
    }

    /// The request is whole: it is judged, the desk grants it or not, and what is pending to the client is written.
    pub(crate) fn grant<K: DeskCall>(
        mut self,
        alloc: Global,
        generation: u64,
        config: &Config,
        desk: &mut K,
        request: &Request,
    ) -> Result<Next<L>, AllocError>
        ensures cap { IfOk result (λ next. K.cap desk.new ≡ K.cap desk.old) }
        ensures turns { IfOk result (λ next. (users : List User) (pubs : List Entries) (h : List Line) (marks : List StopBy) (net : NetTold) (now : ℕ) (a : Assoc L) (sought : Option Sought) → K.stands desk.old h marks → HasHeard L.told L.counts (socks users pubs) generation config.now a self sought (HasAsked request.now) → name_of request.now.host ≡ name_sought sought → a.state.since ≡ now → Turns L.told L.counts (K.stands desk.new) (context users pubs generation config.now (K.cap desk.old) h marks) now net net a next) }
    {
        let Command::Connect = request.command else {
            // Another command isn't served: such a request isn't answered.
            return Ok(Next::Wait(self));
        };
        ask_grant(&mut self.state, generation, config, desk, request)?;
        self.write_on(alloc)
    }
}
