ghost use Rattle.std.specs.Prelude.{◌≡◌};
ghost use Rattle.net_ends.specs.Nets.{NetLater, SameLookups, SameOpenings};
ghost use Rattle.net_ends.specs.Told.{IsFresh};
ghost use Rattle.connect_core.specs.Reaching.{IfReached, OnFailed, Reaches};

use addr_pattern::Endpoint;
use net_ends::{Dialing, Net};
use socks_machine::Cause;

/// What a dial came to.
#[derive(Drop)]
pub enum Reached<L> {
    /// A link is there, and this is its local endpoint.
    Up { link: L, local: Endpoint },
    /// `Refused`, `HostUnreachable` or `NetUnreachable`, for which a reply has a code (RFC 1928, section 6), or `NetFault` for any
    /// other failure.
    Failed(Cause),
}

/// Dials `to`, once. It holds its caller until the dial has an outcome.
pub fn reach<N: Net>(net: &mut N, to: Endpoint) -> Reached<N::Link>
    ensures dial { Reaches N.Link.told N.Link.counts (N.told net.old) (N.told net.new) to result }
    ensures lookups { SameLookups (N.told net.old) (N.told net.new) }
    ensures openings { SameOpenings (N.told net.old) (N.told net.new) }
    ensures kept { OnFailed result ((N.told net.new).plan ≡ (N.told net.old).plan) }
    ensures fresh { IfReached result (λ link. IsFresh (N.Link.told link)) }
    ensures later { NetLater (N.told net.old).counts (N.told net.new).counts }
{
    match net.dial(to) {
        Dialing::Up { link, local } => Reached::Up { link, local },
        Dialing::Refused => Reached::Failed(Cause::Refused),
        Dialing::HostUnreachable => Reached::Failed(Cause::HostUnreachable),
        Dialing::NetUnreachable => Reached::Failed(Cause::NetUnreachable),
        Dialing::Failed => Reached::Failed(Cause::NetFault),
    }
}
