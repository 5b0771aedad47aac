ghost use Rattle.std.specs.Prelude.{◌≡◌, ◌||◌};
ghost use Rattle.addr_pattern.specs.Equal.{is_unspecified};
ghost use Rattle.net_ends.specs.Counts.{Later};
ghost use Rattle.net_ends.specs.Told.{IsFresh};
ghost use Rattle.bind_core.specs.Waiting.{IfPeer, Waits, is_asked};

use addr_pattern::{Addr, Endpoint};
use net_ends::{Accepting, Door, Link};

/// What waiting for a peer came to.
#[derive(Drop)]
pub enum Waited<L> {
    /// The link to the peer that was asked for, and its endpoint.
    Peer(L, Endpoint),
    /// Another one came first, from this endpoint. Its link is dropped.
    Wrong(Endpoint),
    /// Nobody has come yet.
    NotYet,
    Failed,
}

/// Whether this is the address of all zeros of its family.
fn is_zero(addr: Addr) -> bool
    ensures { result ≡ is_unspecified addr }
{
    match addr {
        Addr::V4(bits) => bits == 0,
        Addr::V6(bits) => bits == 0,
    }
}

/// Takes the first peer that comes to the door, where it has the address that was asked for (RFC 1928, section 4, BIND). Any peer
/// is taken where `asked` is all zeros, of either family. It doesn't wait: `NotYet` comes where the door said that nobody has come,
/// and `Failed` where its accept failed.
pub fn wait<D: Door>(door: &mut D, asked: Addr) -> Waited<D::Link>
where
    D::Link: Drop,
    ensures peer { Waits D.Link.told D.Link.counts (D.told door.old) (D.told door.new) (D.counts door.old) (D.counts door.new) asked result }
    ensures fresh { IfPeer result (λ link. IsFresh (D.Link.told link)) }
    ensures later { Later (D.counts door.old) (D.counts door.new) }
{
    match door.accept() {
        Accepting::Got(link, peer) => {
            if is_zero(asked) || peer.addr == asked {
                Waited::Peer(link, peer)
            } else {
                Waited::Wrong(peer)
            }
        }
        Accepting::NotYet => Waited::NotYet,
        Accepting::Failed => Waited::Failed,
    }
}
