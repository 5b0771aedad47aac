ghost use Rattle.std.specs.Prelude.{◌≡◌, ◌≤◌, length, take, drop, vec_len};
ghost use Rattle.net_ends.specs.Told.{more};
ghost use Rattle.net_ends.specs.Counts.{Later};
ghost use Rattle.net_ends.specs.Faults.{Tried};
ghost use Rattle.half_close_relay.specs.Sending.{SendEnds, failed_sending};

use net_ends::{Link, Writing};

/// How a sending of what waits ended.
#[derive(Clone, Copy, Debug, PartialEq, Eq)]
pub enum Sent {
    All,
    Full,
    Failed,
}

/// Writes until nothing is left, or the link takes nothing or fails; and how many bytes it took.
pub fn send_all<L: Link>(link: &mut L, bytes: &[u8]) -> (usize, Sent)
    ensures within { result.0 ≤ length bytes.now }
    ensures told { L.told link.new ≡ record (L.told link.old) { taken = more (L.told link.old).taken (take result.0 bytes.now) } }
    ensures later { Later (L.counts link.old) (L.counts link.new) }
    ensures tried { Tried (L.counts link.old) (L.counts link.new) (Unit {0}) (result.0 ≡ 0) (Unit {0}) (failed_sending result.1) }
    ensures ends { SendEnds (L.told link.new) (L.counts link.old) (L.counts link.new) (drop result.0 bytes.now) result.1 }
{
    let mut at = 0;
    while at < bytes.len() {
        match link.write(&bytes[at..]) {
            Writing::Took(n) => at += n,
            Writing::NotYet => return (at, Sent::Full),
            Writing::Failed => return (at, Sent::Failed),
        }
    }
    (at, Sent::All)
}

/// Drops the first bytes.
pub fn drop_front(bytes: &mut Vec<u8>, n: usize)
    requires { n ≤ vec_len bytes.old }
    ensures { bytes.new.items ≡ drop n bytes.old.items }
{
    bytes.drain(..n);
}
