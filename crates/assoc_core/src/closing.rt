ghost use Rattle.std.specs.Prelude.{◌≡◌, ◌&&◌, ◌||◌, not, ℕ, List, IfOk, Some};
ghost use Rattle.conf_types.specs.declared.entries.Entries.{Entries};
ghost use Rattle.socks_grammar.specs.declared.user.User.{User};
ghost use Rattle.net_ends.specs.Nets.{NetTold};
ghost use Rattle.socks_machine.specs.declared.cause.StopBy.{StopBy};
ghost use Rattle.socks_machine.specs.declared.lines.Line.{Line};
ghost use Rattle.socks_machine.specs.Socks.{socks};
ghost use Rattle.socks_machine.specs.Turn.{is_quiet as quiet_by};
ghost use Rattle.assoc_core.specs.Carrying.{is_full as full_by, is_sound as sound_by};
ghost use Rattle.assoc_core.specs.Draining.{SendsClient, SendsTarget, give_of as give_by};
ghost use Rattle.assoc_core.specs.Stands.{Stands};
ghost use Rattle.assoc_core.specs.Turns.{Turns, context};

use crate::assoc::{Assoc, Next};
use crate::carry::Give;
use crate::reach::send_to_target;
use crate::relay::is_sound;
use crate::send::Sent;
use crate::talk::send_to_client;
use net_ends::Link;
use session_desk::DeskCall;
use socks_machine::{Cause, Record};
use std::alloc::{AllocError, Global};

/// How a sink was served that isn't to be shut.
fn give_of(sent: Sent) -> Give
    ensures { result ≡ give_by sent }
{
    match sent {
        Sent::All => Give::All,
        Sent::Full => Give::Full,
        Sent::Failed => Give::Unwritten,
    }
}

/// Sends what is pending to the client.
fn drain_to_client<L: Link>(
    alloc: Global,
    state: &mut Record,
    client: &mut L,
) -> Result<Give, AllocError>
    ensures { IfOk result (λ give. SendsClient (L.told client.old) (L.told client.new) (L.counts client.old) (L.counts client.new) state.old state.new give) }
{
    Ok(give_of(send_to_client(alloc, state, client)?))
}

/// Sends what is pending to the target, where there is one.
fn drain_to_target<L: Link + Drop>(
    alloc: Global,
    state: &mut Record,
    target: &mut Option<L>,
) -> Result<Give, AllocError>
    ensures { IfOk result (λ give. SendsTarget L.told L.counts target.old target.new state.old state.new give) }
{
    let Some(link) = target else {
        return Ok(Give::Held);
    };
    Ok(give_of(send_to_target(alloc, state, link)?))
}

fn is_full(give: Give) -> bool
    ensures { result ≡ full_by give }
{
    matches!(give, Give::Full)
}

/// Whether a cause has no reply, so that nothing is waited for.
fn is_quiet(cause: Cause) -> bool
    ensures { result ≡ quiet_by (Some cause) }
{
    match cause {
        Cause::Stopped { .. }
        | Cause::ClientGone { .. }
        | Cause::TimedOut { .. }
        | Cause::ClientFault => true,
        _ => false,
    }
}

impl<L: Link + Drop> Assoc<L> {
    /// One turn behind this cause: what is pending is sent to the client and then to the target, and it ends where
    /// nothing is pending, a write failed or the cause has no reply. Behind a failed write nothing more is sent.
    pub(crate) fn closing<D: DeskCall>(
        mut self,
        alloc: Global,
        desk: &mut D,
        cause: Cause,
    ) -> Result<Next<L>, AllocError>
        requires { self.state.cause ≡ Some cause }
        ensures cap { IfOk result (λ next. D.cap desk.new ≡ D.cap desk.old) }
        ensures turns { IfOk result (λ next. (users : List User) (pubs : List Entries) (generation : ℕ) (config : Entries) (now : ℕ) (net : NetTold) (h : List Line) (marks : List StopBy)
            → D.stands desk.old h marks → Stands L.told (socks users pubs) self → self.state.since ≡ now
            → Turns L.told L.counts (D.stands desk.new) (context users pubs generation config (D.cap desk.old) h marks) now net net self next) }
    {
        let gave_c = drain_to_client(alloc, &mut self.state, &mut self.client)?;
        if !is_sound(gave_c) {
            return Ok(Next::Done(self.finish(desk, cause)));
        }
        let gave_t = drain_to_target(alloc, &mut self.state, &mut self.target)?;
        if !is_sound(gave_t) {
            return Ok(Next::Done(self.finish(desk, cause)));
        }
        if is_quiet(cause) {
            return Ok(Next::Done(self.finish(desk, cause)));
        }
        if is_full(gave_c) {
            return Ok(Next::Wait(self));
        }
        if is_full(gave_t) {
            return Ok(Next::Wait(self));
        }
        Ok(Next::Done(self.finish(desk, cause)))
    }
}
