ghost use Rattle.net_ends.specs.Doors.{IsFreshDoor};
ghost use Rattle.net_ends.specs.Nets.{NetLater};
ghost use Rattle.std.specs.Prelude.{IfOk};
ghost use Rattle.bind_core.specs.DoorOpening.{Opens};

use addr_pattern::Addr;
use net_ends::{Net, Opening};
use socks_machine::Cause;

/// Opens a door at `at`, once, whose local endpoint a first reply to a BIND carries (RFC 1928, section 6). The error is `NetFault`,
/// where the opening failed.
pub fn open<N: Net>(net: &mut N, at: Addr) -> Result<N::Door, Cause>
    ensures opening { Opens N.Door.told N.Door.counts (N.told net.old) (N.told net.new) at result }
    ensures fresh { IfOk result (λ door. IsFreshDoor (N.Door.told door)) }
    ensures later { NetLater (N.told net.old).counts (N.told net.new).counts }
{
    match net.open_door(at) {
        Opening::Open(door) => Ok(door),
        Opening::Failed => Err(Cause::NetFault),
    }
}
