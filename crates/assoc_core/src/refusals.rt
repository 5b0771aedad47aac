ghost use Rattle.std.specs.Prelude.{◌≡◌};
ghost use Rattle.socks_machine.specs.Calls.{refusal_said as said_to_refuse, refusal_full as said_to_refuse_grant, blocked_client as blocked_by_client, blocked as blocked_by};
ghost use Rattle.socks_machine.specs.Settle.{first_cause as first_of_causes};

use rule_list::Verdict;
use socks_machine::{Cause, Said};

/// The first cause stands.
pub fn first_cause(cause: Option<Cause>, stands: Option<Cause>) -> Option<Cause>
    ensures { result ≡ first_of_causes cause stands }
{
    match stands {
        Some(_) => stands,
        None => cause,
    }
}

/// Why a client's rule doesn't let it in.
pub fn blocked_client(generation: u64, rule: Option<u32>, pass: bool) -> Option<Cause>
    ensures { result ≡ blocked_by_client generation rule pass }
{
    if pass {
        None
    } else {
        Some(Cause::ClientBlocked { generation, rule })
    }
}

/// Why the rules don't grant a request.
pub fn blocked(generation: u64, verdict: Verdict) -> Option<Cause>
    ensures { result ≡ blocked_by generation verdict }
{
    match verdict {
        Verdict::Pass { .. } => None,
        _ => Some(Cause::Denied {
            generation,
            verdict,
        }),
    }
}

/// Why the desk or the rules refuse an open.
pub fn refusal_said(said: Said, blocked: Option<Cause>) -> Option<Cause>
    ensures { result ≡ said_to_refuse said blocked }
{
    match said {
        Said::Done(_) => blocked,
        Said::Full { .. } => None,
        Said::Crowded { live, cap } => Some(Cause::Crowded { live, cap }),
        Said::OutOfTurn(standing) => Some(Cause::OutOfTurn(standing)),
        Said::Stopped(by) => Some(Cause::Stopped { by }),
        Said::LogFault => Some(Cause::LogFault),
    }
}

/// Why the desk or the rules refuse a grant.
pub fn refusal_full(generation: u64, said: Said, blocked: Option<Cause>) -> Option<Cause>
    ensures { result ≡ said_to_refuse_grant generation said blocked }
{
    match said {
        Said::Full {
            list,
            rule,
            held,
            limit,
        } => Some(Cause::Full {
            generation,
            list,
            rule,
            held,
            limit,
        }),
        _ => refusal_said(said, blocked),
    }
}
