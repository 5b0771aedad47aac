ghost use Rattle.std.specs.Prelude.{ℕ, ◌≡◌, Some, List as Items, IfOk};
ghost use Rattle.conf_types.specs.declared.entries.Entries.{Entries};
ghost use Rattle.conf_types.specs.Plain.{IsPlain};
ghost use Rattle.rule_list.specs.Rules.{numbered};
ghost use Rattle.socks_machine.specs.declared.cause.StopBy.{StopBy};
ghost use Rattle.socks_machine.specs.declared.lines.Line.{Line};
ghost use Rattle.socks_machine.specs.Socks.{socks};
ghost use Rattle.assoc_core.specs.Course.{course_of as course_in};
ghost use Rattle.assoc_core.specs.Stands.{Stands, TellsServed};
ghost use Rattle.assoc_core.specs.Turns.{Turns, context};

use crate::assoc::{Assoc, Next};
use crate::moment::Movement;
use crate::reach::reach_target;
use crate::talk::talk;
use conf_types::Config;
use net_ends::Net;
use session_desk::DeskCall;
use socks_machine::Decision;
use std::alloc::{AllocError, Global};
use user_login::Users;

/// How far an association has come that has no cause yet.
#[derive(Clone, Copy, Debug, PartialEq, Eq)]
pub enum Course {
    Accept,
    Talk,
    /// A name was looked up.
    Judge,
    Reach,
    Relay,
}

fn course_of(decisions: &[Decision]) -> Course
    ensures { result ≡ course_in decisions.now }
{
    match decisions {
        [] => Course::Accept,
        [_] => Course::Talk,
        [_, Decision::Looked { .. }] => Course::Judge,
        [_, Decision::Looked { .. }, _] => Course::Reach,
        [_, _] => Course::Reach,
        [_, _, _, ..] => Course::Relay,
    }
}

/// A turn at the moment of the last movement, at which nothing is late.
#[tactic(none)]
fn turn_in_time<N: Net, K: DeskCall>(
    alloc: Global,
    a: Assoc<N::Link>,
    generation: u64,
    config: &Config,
    users: &Users,
    desk: &mut K,
    net: &mut N,
) -> Result<Next<N::Link>, AllocError>
where
    N::Link: Drop,
    ensures cap { IfOk result (λ next. K.cap desk.new ≡ K.cap desk.old) }
    ensures turns { IfOk result (λ next. (pubs : Items Entries) (h : Items Line) (marks : Items StopBy)
        → K.stands desk.old h marks → Stands N.Link.told (socks users.now pubs) a → TellsServed users.now (N.Link.told a.client) → numbered pubs generation ≡ Some config.now → IsPlain config.now
        → Turns N.Link.told N.Link.counts (K.stands desk.new) (context users.now pubs generation config.now (K.cap desk.old) h marks) a.state.since (N.told net.old) (N.told net.new) a next) }
{
    if let Some(cause) = a.state.cause {
        return a.closing(alloc, desk, cause);
    }
    match course_of(a.state.decisions.as_slice()) {
        Course::Accept => a.accept(generation, config, desk),
        Course::Talk => talk(a, alloc, generation, config, users, desk, net),
        Course::Judge => a.judge(alloc, generation, config, users, desk),
        Course::Reach => reach_target(a, alloc, net),
        Course::Relay => a.relay(alloc, desk),
    }
}

/// One turn of a worker on an association, with the configuration of the generation that it has seen and the users who may
/// log in; `now` is in seconds. An association that stands for a record makes one lawful turn of the machine on it, and what is answered
/// stands for the record which that leaves. Where memory is refused it is `Err`, and nothing is said of the association
/// then.
pub fn turn<N: Net, K: DeskCall>(
    alloc: Global,
    a: Assoc<N::Link>,
    generation: u64,
    config: &Config,
    users: &Users,
    desk: &mut K,
    net: &mut N,
    now: u64,
) -> Result<Next<N::Link>, AllocError>
where
    N::Link: Drop,
    ensures cap { IfOk result (λ next. K.cap desk.new ≡ K.cap desk.old) }
    ensures turns { IfOk result (λ next. (pubs : Items Entries) (h : Items Line) (marks : Items StopBy)
        → K.stands desk.old h marks → Stands N.Link.told (socks users.now pubs) a → TellsServed users.now (N.Link.told a.client) → numbered pubs generation ≡ Some config.now → IsPlain config.now
        → Turns N.Link.told N.Link.counts (K.stands desk.new) (context users.now pubs generation config.now (K.cap desk.old) h marks) now (N.told net.old) (N.told net.new) a next) }
{
    let before = Movement::of(&a.state);
    let next = turn_in_time(alloc, a, generation, config, users, desk, net)?;
    Ok(next.at(before, now, config, desk))
}
