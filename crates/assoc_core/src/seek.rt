ghost use Rattle.std.specs.Prelude.{◌≡◌, ℕ, None, Some, Option, List, IfOk};
ghost use Rattle.conf_types.specs.declared.entries.Entries.{Entries};
ghost use Rattle.socks_grammar.specs.declared.user.User.{User};
ghost use Rattle.addr_pattern.specs.declared.host.Host.TheVariants.{Name as ByName};
ghost use Rattle.socks_machine.specs.declared.lines.Line.{Line};
ghost use Rattle.socks_machine.specs.declared.cause.StopBy.{StopBy};
ghost use Rattle.socks_machine.specs.Socks.{socks};
ghost use Rattle.handshake_core.specs.declared.request.Request.{Request};
ghost use Rattle.assoc_core.specs.declared.assoc.Assoc.{Assoc as SomeAssoc};
ghost use Rattle.assoc_core.specs.declared.hear.Heard.TheVariants.{Asked as HasAsked};
ghost use Rattle.assoc_core.specs.Hearing.{HasHeard};
ghost use Rattle.assoc_core.specs.Reaching.{SameDesk};
ghost use Rattle.assoc_core.specs.Seeking.{Seeks};
ghost use Rattle.assoc_core.specs.Turns.{Turns, context};

use crate::assoc::{Assoc, Next};
use crate::refusals::first_cause;
use addr_pattern::Name;
use connect_core::find;
use net_ends::Net;
use socks_machine::{Decision, Record};
use std::alloc::{AllocError, Global};

/// Looks a name up, and decides by what was found.
fn look_up<N: Net>(state: &mut Record, net: &mut N, name: &Name) -> Result<(), AllocError>
    ensures { IfOk result (λ _. Seeks (N.told net.old) (N.told net.new) name.now state.old state.new) }
{
    state.decisions.push(Decision::Looked {
        host: name.copy(),
        found: None,
    })?;
    match find(net, name) {
        Ok(addr) => {
            state.decisions.set_last(Decision::Looked {
                host: name.copy(),
                found: Some(addr),
            });
        }
        Err(cause) => state.cause = first_cause(Some(cause), state.cause),
    }
    Ok(())
}

/// The request is to a name: it is looked up, and what is pending to the client is written.
pub(crate) fn seek<N: Net>(
    mut assoc: Assoc<N::Link>,
    alloc: Global,
    net: &mut N,
    name: &Name,
) -> Result<Next<N::Link>, AllocError>
where
    N::Link: Drop,
    ensures { IfOk result (λ next. (users : List User) (pubs : List Entries) (generation : ℕ) (config : Entries) (cap : ℕ) (h : List Line) (marks : List StopBy) (now : ℕ) (a : SomeAssoc N.Link) (request : Request) → HasHeard N.Link.told N.Link.counts (socks users pubs) generation config a assoc None (HasAsked request) → request.host ≡ ByName name.now → a.state.since ≡ now → Turns N.Link.told N.Link.counts (SameDesk h marks) (context users pubs generation config cap h marks) now (N.told net.old) (N.told net.new) a next) }
{
    look_up(&mut assoc.state, net, name)?;
    assoc.write_on(alloc)
}
