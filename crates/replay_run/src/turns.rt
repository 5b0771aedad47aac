ghost use Rattle.std.specs.Prelude.{◌≡◌, ◌&&◌, ◌==◌, IfOk};
ghost use Rattle.std.specs.Arc.{arc_value};
ghost use Rattle.socks_machine.specs.Equal.{mark_eq};
ghost use Rattle.replay_run.specs.Taken.{MakesTurn, WritesTurn, mark_of_next, left_record, slot_of};

use crate::lines::show_turn;
use crate::slot::Slot;
use crate::totals::Totals;
use assoc_core::{Assoc, Next, turn};
use generation::Snap;
use lists::Text;
use net_ends::{MemLink, MemNet};
use session_desk::Desk;
use socks_machine::{NextMark, Record};
use std::alloc::{AllocError, Global};
use user_login::Users;

fn mark_of(next: &Next<MemLink>) -> NextMark
    ensures { result ≡ mark_of_next next.now }
{
    match next {
        Next::Wait(_) => NextMark::Wait,
        Next::Again(_) => NextMark::Again,
        Next::Done(_) => NextMark::Done,
    }
}

fn record_of(next: &Next<MemLink>) -> &Record
    ensures { result.now ≡ left_record next.now }
{
    match next {
        Next::Wait(assoc) => &assoc.state,
        Next::Again(assoc) => &assoc.state,
        Next::Done(ended) => &ended.state,
    }
}

/// What an association is behind its turn.
pub fn to_slot(next: Next<MemLink>, net: MemNet) -> Slot
    ensures { result ≡ slot_of next net }
{
    match next {
        Next::Wait(assoc) => Slot::Going { assoc, net },
        Next::Again(assoc) => Slot::Going { assoc, net },
        Next::Done(ended) => Slot::Over(ended),
    }
}

fn waits(mark: NextMark) -> bool
    ensures { result ≡ mark_eq mark NextMark.Wait }
{
    match mark {
        NextMark::Wait => true,
        _ => false,
    }
}

/// Whether a turn waits and nothing came of it.
fn is_still(mark: NextMark, made: Totals) -> bool
    ensures { result ≡ (mark_eq mark NextMark.Wait && ((((made.took_c == 0) && (made.took_t == 0)) && (made.sent_c == 0)) && (made.sent_t == 0))) }
{
    waits(mark) && made.are_zero()
}

/// A turn of the one worker on an association, in the generation that it saw, at this moment. Where the desk's mark stands,
/// which comes only behind line 2^64 - 1 of the decision history, it is `Err`.
pub fn make_turn(
    alloc: Global,
    snap: &Snap,
    users: &Users,
    desk: &mut Desk,
    assoc: Assoc<MemLink>,
    net: &mut MemNet,
    now: u64,
) -> Result<Next<MemLink>, AllocError>
    ensures { IfOk result (λ next. MakesTurn users.now snap.now.number (arc_value snap.now.config) now desk.old desk.new assoc net.old next net.new) }
{
    let next = turn(
        alloc,
        assoc,
        snap.number,
        &snap.config,
        users,
        desk,
        net,
        now,
    )?;
    if desk.mark().is_some() {
        return Err(AllocError);
    }
    Ok(next)
}

/// The line of a turn, from what the association had taken and sent before it; and whether nothing came of it.
pub fn write_turn(
    alloc: Global,
    out: &mut Text,
    generation: u64,
    before: Totals,
    next: &Next<MemLink>,
) -> Result<bool, AllocError>
    ensures { IfOk result (λ still. WritesTurn generation before next.now out.old out.new still) }
{
    let left = record_of(next);
    let made = Totals::of(left).since(before);
    let mark = mark_of(next);
    show_turn(alloc, out, generation, made, mark, left)?;
    Ok(is_still(mark, made))
}
