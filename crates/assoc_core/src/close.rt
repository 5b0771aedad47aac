ghost use Rattle.std.specs.Prelude.{◌≡◌, List, false};
ghost use Rattle.socks_machine.specs.declared.lines.Line.{Line};
ghost use Rattle.socks_machine.specs.declared.cause.StopBy.{StopBy};
ghost use Rattle.socks_machine.specs.Calls.{close_line, cause_of_shut};
ghost use Rattle.socks_machine.specs.Phase.{is_udp};
ghost use Rattle.assoc_core.specs.Closing.{Closed};

use crate::assoc::{Assoc, Ended};
use net_ends::Link;
use session_desk::DeskCall;
use socks_machine::{Cause, CloseLine, Record, Shut};

/// The line that the desk gets at a close, with the totals of a relay in bytes.
fn line_of(state: &Record, cause: Cause) -> CloseLine
    ensures { is_udp state.now ≡ false → result ≡ close_line state.now cause }
{
    CloseLine {
        number: state.number,
        cause,
        took: (state.c.len() as u64, state.t.len() as u64),
        sent: (state.sent_c.len() as u64, state.sent_t.len() as u64),
    }
}

/// What an association ends by, where its close wasn't done.
fn cause_of(shut: Shut) -> Option<Cause>
    ensures { result ≡ cause_of_shut shut }
{
    match shut {
        Shut::Done(_) | Shut::Unlogged => None,
        Shut::OutOfTurn(standing) => Some(Cause::OutOfTurn(standing)),
        Shut::LogFault => Some(Cause::LogFault),
    }
}

impl<L: Link> Assoc<L> {
    /// Tells the desk of the end, and ends. The cause is the first one.
    pub(crate) fn finish<D: DeskCall>(self, desk: &mut D, cause: Cause) -> Ended<L>
        ensures cap { D.cap desk.new ≡ D.cap desk.old }
        ensures closed { (h : List Line) (marks : List StopBy) → D.stands desk.old h marks → is_udp self.state ≡ false → Closed (D.stands desk.new) h marks cause self result }
    {
        let line = line_of(&self.state, cause);
        let shut = desk.close(&line);
        let mut ended = self.end();
        ended.state.cause = Some(cause);
        ended.state.at_close = cause_of(shut);
        ended.state.done = true;
        ended
    }
}
