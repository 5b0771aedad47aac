ghost use Rattle.std.specs.Prelude.{◌≡◌, ◌≤◌, Some, false, length, take, drop, IfOk};
ghost use Rattle.net_ends.specs.Told.{more};
ghost use Rattle.net_ends.specs.Counts.{Later};
ghost use Rattle.net_ends.specs.Faults.{Tried};
ghost use Rattle.assoc_core.specs.Sending.{SendEnds, Sends, failed_sending, is_full};

use lists::Text;
use net_ends::{Link, Writing};
use std::alloc::{AllocError, Global};
use std::mem;

/// How a sending of what is pending ended.
#[derive(Clone, Copy, Debug, PartialEq, Eq)]
pub enum Sent {
    All,
    Full,
    Failed,
}

/// Writes until nothing is left, or the link takes nothing or fails; and how many bytes it took.
pub fn send_all<L: Link>(link: &mut L, bytes: &[u8]) -> (usize, Sent)
    ensures within { result.0 ≤ length bytes.now }
    ensures told { L.told link.new ≡ record (L.told link.old) { taken = more (L.told link.old).taken (take result.0 bytes.now) } }
    ensures stuck { (L.told link.old).room ≡ Some 0 → result.0 ≡ 0 }
    ensures later { Later (L.counts link.old) (L.counts link.new) }
    ensures tried { Tried (L.counts link.old) (L.counts link.new) (Unit {0}) ((result.0 ≡ 0) × (is_full result.1 ≡ false)) (Unit {0}) (failed_sending result.1) }
    ensures ends { SendEnds (L.told link.new) (L.counts link.old) (L.counts link.new) (drop result.0 bytes.now) result.1 }
{
    let mut at = 0;
    while at < bytes.len() {
        match link.write(&bytes[at..]) {
            Writing::Took(n) => at += n,
            Writing::NotYet => return (at, Sent::Full),
            Writing::Failed => return (at, Sent::Failed),
        }
    }
    (at, Sent::All)
}

/// Sends what is pending, and adds what the link took to what was sent. It makes room first.
pub fn send_pending<L: Link>(
    alloc: Global,
    link: &mut L,
    sent: &mut Text,
    pending: &[u8],
) -> Result<Sent, AllocError>
    ensures { IfOk result (λ outcome. Sends (L.told link.old) (L.told link.new) (L.counts link.old) (L.counts link.new) sent.old sent.new pending.now outcome) }
{
    let mut held = mem::replace(sent, Text::make(alloc)).into_vec();
    if held.reserve(pending.len()).is_err() {
        *sent = Text::from_vec(held);
        return Err(AllocError);
    }
    let (n, outcome) = send_all(link, pending);
    match held.extend_from_slice(&pending[..n]) {
        Ok(()) => {}
        Err(_) => unreachable!(),
    }
    *sent = Text::from_vec(held);
    Ok(outcome)
}
