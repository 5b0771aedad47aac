ghost use Rattle.std.specs.Prelude.{◌≡◌, ℕ, List, not};
ghost use Rattle.socks_grammar.specs.declared.user.User.{User};
ghost use Rattle.conf_types.specs.declared.entries.Entries.{Entries};
ghost use Rattle.net_ends.specs.Nets.{NetTold};
ghost use Rattle.socks_machine.specs.declared.lines.Line.{Line};
ghost use Rattle.socks_machine.specs.declared.cause.StopBy.{StopBy};
ghost use Rattle.assoc_core.specs.Moment.{movement, same_bytes as have_same_bytes, moment as moment_behind, at_moment, limit_of as limit_by, is_late_by, cause_by};
ghost use Rattle.socks_machine.specs.Socks.{socks};
ghost use Rattle.assoc_core.specs.Stands.{GoesDirect};
ghost use Rattle.assoc_core.specs.Turns.{Turns, context};

use crate::assoc::{Assoc, Next};
use crate::replies::reached_at;
use conf_types::Config;
use net_ends::Link;
use session_desk::DeskCall;
use socks_machine::{Cause, Record};

/// How many bytes an association has taken and sent so far, and whether its target was reached.
#[derive(Clone, Copy, Debug, PartialEq, Eq)]
pub struct Movement {
    pub took_c: usize,
    pub took_t: usize,
    pub sent_c: usize,
    pub sent_t: usize,
    pub reached: bool,
}

fn is_reached(state: &Record) -> bool
    ensures { result ≡ (movement state.now).reached }
{
    reached_at(state.decisions.as_slice()).is_some()
}

impl Movement {
    pub fn of(state: &Record) -> Movement
        ensures { result ≡ movement state.now }
    {
        Movement {
            took_c: state.c.len(),
            took_t: state.t.len(),
            sent_c: state.sent_c.len(),
            sent_t: state.sent_t.len(),
            reached: is_reached(state),
        }
    }

    fn same_bytes(self, other: Movement) -> bool
        ensures { result ≡ have_same_bytes self other }
    {
        self.took_c == other.took_c
            && self.took_t == other.took_t
            && self.sent_c == other.sent_c
            && self.sent_t == other.sent_t
    }

    /// The moment of the last movement behind a turn at this moment.
    fn moment(self, now: u64, state: &Record) -> u64
        ensures { result ≡ moment_behind self now state.now }
    {
        let after = Movement::of(state);
        if after.reached && (!self.reached || !self.same_bytes(after)) {
            now
        } else {
            state.since
        }
    }
}

/// The limit of time that counts: `timeout.negotiate` until the target is reached, and `timeout.io` from then on; 0 is none.
fn limit_of(config: &Config, state: &Record) -> u32
    ensures { result ≡ limit_by config.now state.now }
{
    if is_reached(state) {
        config.entries().io
    } else {
        config.entries().negotiate
    }
}

/// Whether nothing has moved for as long as the limit of time says.
fn is_late(config: &Config, now: u64, state: &Record) -> bool
    ensures { result ≡ is_late_by config.now now state.now }
{
    let limit = limit_of(config, state);
    limit != 0 && limit as u64 <= now.saturating_sub(state.since)
}

/// What an association ends by that is late: the cause that stands, or that its time is over.
fn cause_of(config: &Config, now: u64, state: &Record) -> Cause
    ensures { result ≡ cause_by config.now now state.now state.now.cause }
{
    match state.cause {
        Some(cause) => cause,
        None => Cause::TimedOut {
            since: state.since,
            now,
            limit: limit_of(config, state),
        },
    }
}

impl<L: Link + Drop> Next<L> {
    /// What a turn answers at this moment, that would answer this at the moment of the last movement: it leaves this moment
    /// where anything has moved, and an association that would wait ends where it is late.
    pub(crate) fn at<D: DeskCall>(
        self,
        before: Movement,
        now: u64,
        config: &Config,
        desk: &mut D,
    ) -> Next<L>
        ensures cap { D.cap desk.new ≡ D.cap desk.old }
        ensures turns { (users : List User) (pubs : List Entries) (generation cap : ℕ) (h : List Line) (marks : List StopBy) (net net' : NetTold) (a : Assoc L)
            → Turns L.told L.counts (D.stands desk.old) (context users pubs generation config.now cap h marks) a.state.since net net' a self → GoesDirect (socks users pubs) a.state.decisions → before ≡ movement a.state
            → Turns L.told L.counts (D.stands desk.new) (context users pubs generation config.now cap h marks) now net net' a result }
    {
        match self {
            Next::Wait(mut assoc) => {
                assoc.state.since = before.moment(now, &assoc.state);
                if is_late(config, now, &assoc.state) {
                    let cause = cause_of(config, now, &assoc.state);
                    return Next::Done(assoc.finish(desk, cause));
                }
                Next::Wait(assoc)
            }
            Next::Again(mut assoc) => {
                assoc.state.since = before.moment(now, &assoc.state);
                Next::Again(assoc)
            }
            Next::Done(mut ended) => {
                ended.state.since = before.moment(now, &ended.state);
                Next::Done(ended)
            }
        }
    }
}
