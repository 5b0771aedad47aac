ghost use Rattle.net_ends.specs.Nets.{NetLater};
ghost use Rattle.connect_core.specs.Finding.{Finds};

use addr_pattern::{Addr, Name};
use net_ends::{Lookup, Net};
use socks_machine::Cause;

/// Looks a request's name up (RFC 1928, section 5), once. It holds its caller until the lookup has an outcome. The error is
/// `NotFound`, or `NetFault` where the lookup failed.
pub fn find<N: Net>(net: &mut N, name: &Name) -> Result<Addr, Cause>
    ensures lookup { Finds (N.told net.old) (N.told net.new) name.now result }
    ensures later { NetLater (N.told net.old).counts (N.told net.new).counts }
{
    match net.lookup(name) {
        Lookup::Found(addr) => Ok(addr),
        Lookup::NotFound => Err(Cause::NotFound),
        Lookup::Failed => Err(Cause::NetFault),
    }
}
