ghost use Rattle.std.specs.Prelude.{IfOk, true, length, drop};
ghost use Rattle.assoc_core.specs.Carrying.{GivesPart, GivesRest, MakesRoom, TakesOn, owed_of};
ghost use Rattle.assoc_core.specs.Sending.{Sends};

use crate::due::Due;
use crate::read::{More, read_more};
use crate::relay::behind;
use crate::send::{Sent, send_pending};
use lists::Text;
use net_ends::{Link, PIECE, Shutting};
use std::alloc::{AllocError, Global};

/// How many bytes one turn reads of a side at most.
pub const QUANTUM: usize = 65536;

/// Why nothing more was read of a source.
#[derive(Clone, Copy, Debug, PartialEq, Eq)]
pub enum Take {
    /// It wasn't to be read.
    Unread,
    Ended,
    NotYet,
    /// A quantum was taken.
    Quantum,
    /// As many bytes wait as a pipe holds, and the sink took no more, or failed.
    Held,
    Failed,
}

/// How the sending to a sink came out.
#[derive(Clone, Copy, Debug, PartialEq, Eq)]
pub enum Give {
    /// Nothing was to be sent.
    Held,
    /// All was sent, and the sink was shut where its source had ended.
    All,
    Full,
    Unwritten,
    Unshut,
}

/// Sends what is left of what is owed: of the front, and then of the text.
fn send_owed<L: Link>(
    alloc: Global,
    link: &mut L,
    sent: &mut Text,
    due: &Due,
    text: &[u8],
) -> Result<Sent, AllocError>
    ensures { IfOk result (λ outcome. Sends (L.told link.old) (L.told link.new) (L.counts link.old) (L.counts link.new) sent.old sent.new (drop (length sent.old) (owed_of due.now.front due.now.skip text.now)) outcome) }
{
    let front = due.front_left(sent.len());
    let rest = behind(behind(text, due.skip), due.past_front(sent.len()));
    match send_pending(alloc, link, sent, front)? {
        Sent::All => send_pending(alloc, link, sent, rest),
        Sent::Full => Ok(Sent::Full),
        Sent::Failed => Ok(Sent::Failed),
    }
}

/// Sends where as many bytes wait as a pipe holds; and how that came out, where as many wait still or it failed.
fn make_room<L: Link>(
    alloc: Global,
    link: &mut L,
    sent: &mut Text,
    due: &Due,
    text: &[u8],
) -> Result<Option<Give>, AllocError>
    ensures { IfOk result (λ stopped. MakesRoom (L.told link.old) (L.told link.new) (L.counts link.old) (L.counts link.new) due.now.front due.now.skip text.now sent.old sent.new stopped) }
{
    if due.waiting(text, sent.len()) < PIECE {
        return Ok(None);
    }
    let outcome = send_owed(alloc, link, sent, due, text)?;
    if let Sent::Failed = outcome {
        return Ok(Some(Give::Unwritten));
    }
    if due.waiting(text, sent.len()) < PIECE {
        return Ok(None);
    }
    Ok(Some(Give::Full))
}

/// Reads a source until it ends, answers `NotYet` or fails, or a quantum was taken. Where as many bytes wait as a pipe holds, they
/// are sent to its sink before a read, and where as many wait still, nothing more is read. It says why, and how the sending came
/// out where it has stopped.
pub fn take_from<L: Link>(
    alloc: Global,
    source: &mut L,
    text: &mut Text,
    ended: &mut bool,
    reads: bool,
    sink: &mut L,
    sent: &mut Text,
    due: &Due,
) -> Result<(Take, Option<Give>), AllocError>
    ensures { IfOk result (λ taken. TakesOn (L.told source.old) (L.told source.new) (L.counts source.old) (L.counts source.new) (L.told sink.old) (L.told sink.new) (L.counts sink.old) (L.counts sink.new) due.now.front due.now.skip text.old text.new sent.old sent.new reads ended.old ended.new taken.0 taken.1) }
{
    if !reads {
        return Ok((Take::Unread, None));
    }
    if *ended {
        return Ok((Take::Ended, None));
    }
    let mut left = QUANTUM;
    while left > 0 {
        if let Some(give) = make_room(alloc, sink, sent, due, text.as_slice())? {
            return Ok((Take::Held, Some(give)));
        }
        match read_more(alloc, text, source, left)? {
            More::Got(n) => left -= n,
            More::End => {
                *ended = true;
                return Ok((Take::Ended, None));
            }
            More::NotYet => return Ok((Take::NotYet, None)),
            More::Failed => return Ok((Take::Failed, None)),
        }
    }
    Ok((Take::Quantum, None))
}

/// Sends what is pending to a sink, and shuts it where its source has ended and all was sent.
pub fn give_to<L: Link>(
    alloc: Global,
    link: &mut L,
    sent: &mut Text,
    pending: &[u8],
    ends: bool,
    shut: &mut bool,
) -> Result<Give, AllocError>
    ensures { IfOk result (λ give. GivesPart (L.told link.old) (L.told link.new) (L.counts link.old) (L.counts link.new) sent.old sent.new pending.now true ends shut.old shut.new give) }
{
    match send_pending(alloc, link, sent, pending)? {
        Sent::All => {}
        Sent::Full => return Ok(Give::Full),
        Sent::Failed => return Ok(Give::Unwritten),
    }
    if !ends {
        return Ok(Give::All);
    }
    if *shut {
        return Ok(Give::All);
    }
    match link.shut() {
        Shutting::Done => {
            *shut = true;
            Ok(Give::All)
        }
        Shutting::Failed => Ok(Give::Unshut),
    }
}

/// Sends what is left of what is owed, and shuts the sink where its source has ended and all was sent; nothing where the sending
/// has stopped before.
pub fn give_rest<L: Link>(
    alloc: Global,
    link: &mut L,
    sent: &mut Text,
    due: &Due,
    text: &[u8],
    ends: bool,
    shut: &mut bool,
    stopped: Option<Give>,
) -> Result<Give, AllocError>
    ensures { IfOk result (λ give. GivesRest (L.told link.old) (L.told link.new) (L.counts link.old) (L.counts link.new) sent.old sent.new (drop (length sent.old) (owed_of due.now.front due.now.skip text.now)) ends shut.old shut.new stopped give) }
{
    if let Some(give) = stopped {
        return Ok(give);
    }
    let front = due.front_left(sent.len());
    let rest = behind(behind(text, due.skip), due.past_front(sent.len()));
    match send_pending(alloc, link, sent, front)? {
        Sent::All => give_to(alloc, link, sent, rest, ends, shut),
        Sent::Full => Ok(Give::Full),
        Sent::Failed => Ok(Give::Unwritten),
    }
}
