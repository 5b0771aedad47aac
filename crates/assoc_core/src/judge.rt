ghost use Rattle.std.specs.Prelude.{◌≡◌, ◌∷◌, ℕ, None, Some, Option, List, [], IfOk};
ghost use Rattle.conf_types.specs.declared.entries.Entries.{Entries};
ghost use Rattle.socks_grammar.specs.Handshake.{split};
ghost use Rattle.conf_types.specs.Plain.{IsPlain};
ghost use Rattle.handshake_core.specs.Whole.{OnSplit};
ghost use Rattle.net_ends.specs.Nets.{NetTold};
ghost use Rattle.rule_list.specs.Rules.{numbered};
ghost use Rattle.socks_machine.specs.declared.lines.Line.{Line};
ghost use Rattle.socks_machine.specs.declared.cause.StopBy.{StopBy};
ghost use Rattle.socks_machine.specs.declared.record.Decision.{Decision};
ghost use Rattle.socks_machine.specs.Socks.{socks};
ghost use Rattle.assoc_core.specs.Plain.{Sought, behind_lookup, method_asked};
ghost use Rattle.assoc_core.specs.Stands.{Stands, TellsServed};
ghost use Rattle.assoc_core.specs.Turns.{Turns, context};

use crate::assoc::{Assoc, Next};
use conf_types::Config;
use handshake_core::{Request, whole_request};
use net_ends::Link;
use session_desk::DeskCall;
use socks_machine::Record;
use std::alloc::{AllocError, Global};
use user_login::Users;

/// The request of a client whose prelude is whole.
fn request_of(users: &Users, state: &Record) -> Option<Request>
    ensures { OnSplit result (split users.now (Some (method_asked state.now.chosen)) state.now.c) }
{
    let method = match state.chosen {
        None => 0,
        Some(chosen) => chosen.method,
    };
    whole_request(users, method, state.c.as_slice())
}

impl<L: Link + Drop> Assoc<L> {
    /// The name of the request was found: the request is granted or refused.
    pub(crate) fn judge<K: DeskCall>(
        self,
        alloc: Global,
        generation: u64,
        config: &Config,
        users: &Users,
        desk: &mut K,
    ) -> Result<Next<L>, AllocError>
        ensures cap { IfOk result (λ next. K.cap desk.new ≡ K.cap desk.old) }
        ensures turns { IfOk result (λ next. (pubs : List Entries) (h : List Line) (marks : List StopBy) (net : NetTold) (now generation' : ℕ) (rule : Option ℕ) (sought : Sought) → K.stands desk.old h marks → Stands L.told (socks users.now pubs) self → TellsServed users.now (L.told self.client) → numbered pubs generation ≡ Some config.now → IsPlain config.now → self.state.since ≡ now → self.state.cause ≡ None → self.state.decisions ≡ Decision.Opened generation' rule None ∷ behind_lookup (Some sought) [] → Turns L.told L.counts (K.stands desk.new) (context users.now pubs generation config.now (K.cap desk.old) h marks) now net net self next) }
    {
        let Some(request) = request_of(users, &self.state) else {
            // Without a whole prelude there is nothing to judge.
            return Ok(Next::Wait(self));
        };
        self.grant(alloc, generation, config, desk, &request)
    }
}
