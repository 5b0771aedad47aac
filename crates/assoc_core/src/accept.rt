ghost use Rattle.std.specs.Prelude.{◌≡◌, ℕ, [], List, IfOk};
ghost use Rattle.conf_types.specs.declared.entries.Entries.{Entries};
ghost use Rattle.socks_grammar.specs.declared.user.User.{User};
ghost use Rattle.net_ends.specs.Nets.{NetTold};
ghost use Rattle.socks_machine.specs.declared.lines.Line.{Line};
ghost use Rattle.socks_machine.specs.declared.cause.StopBy.{StopBy};
ghost use Rattle.socks_machine.specs.Socks.{socks};
ghost use Rattle.assoc_core.specs.Lines.{client_line};
ghost use Rattle.assoc_core.specs.Stands.{Stands, TellsServed};
ghost use Rattle.assoc_core.specs.Turns.{Turns, context};

use crate::assoc::{Assoc, Next};
use crate::refusals::{blocked_client, first_cause, refusal_said};
use conf_types::Config;
use net_ends::Link;
use rule_list::{client_passes, first_client};
use session_desk::DeskCall;
use socks_machine::{Decision, OpenLine, Record};
use std::alloc::AllocError;

/// The line of a client that came.
fn line_of(state: &Record, generation: u64, config: &Config) -> OpenLine
    ensures { result ≡ client_line generation config.now state.now }
{
    let rule = first_client(config, &state.peer, &state.local);
    OpenLine {
        number: state.number,
        generation,
        rule,
        pass: client_passes(config, rule),
        peer: state.peer,
        local: state.local,
    }
}

impl<L: Link + Drop> Assoc<L> {
    /// A client came: its rules and the desk say whether it is let in. Where it isn't, the association has ended, and no
    /// close is owed.
    pub(crate) fn accept<K: DeskCall>(
        mut self,
        generation: u64,
        config: &Config,
        desk: &mut K,
    ) -> Result<Next<L>, AllocError>
        ensures cap { K.cap desk.new ≡ K.cap desk.old }
        ensures turns { IfOk result (λ next. (users : List User) (pubs : List Entries) (h : List Line) (marks : List StopBy) (net : NetTold) (now : ℕ) → K.stands desk.old h marks → Stands L.told (socks users pubs) self → TellsServed users (L.told self.client) → self.state.since ≡ now → self.state.decisions ≡ [] → Turns L.told L.counts (K.stands desk.new) (context users pubs generation config.now (K.cap desk.old) h marks) now net net self next) }
    {
        let line = line_of(&self.state, generation, config);
        let rule = line.rule;
        self.state.decisions.push(Decision::Opened {
            generation,
            rule,
            refused: None,
        })?;
        let refused = refusal_said(
            desk.open(&line),
            blocked_client(generation, rule, line.pass),
        );
        self.state.decisions.set_last(Decision::Opened {
            generation,
            rule,
            refused,
        });
        self.state.cause = first_cause(refused, self.state.cause);
        match refused {
            None => Ok(Next::Again(self)),
            Some(_) => {
                self.state.done = true;
                Ok(Next::Done(self.end()))
            }
        }
    }
}
