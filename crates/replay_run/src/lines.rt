#![tactic(none)]

ghost use Rattle.std.specs.Prelude.{◌≡◌, ◌++◌, OnOk, length, false, []};
ghost use Rattle.socks_machine.specs.declared.world.TurnEvent.{TurnEvent};
ghost use Rattle.socks_machine.specs.Basis.{Basis};
ghost use Rattle.socks_machine.specs.Phase.{is_udp};
ghost use Rattle.replay_run.specs.Shown.{turn_shown, publish_shown, see_shown, open_shown, close_shown, ends_shown};

use crate::totals::Totals;
use lists::Text;
use socks_machine::{NextMark, Record};
use std::alloc::{AllocError, Global};
use transcript_text as text;

/// The line of a turn of worker 1 in this generation.
pub fn show_turn(
    alloc: Global,
    out: &mut Text,
    generation: u64,
    made: Totals,
    next: NextMark,
    left: &Record,
) -> Result<(), AllocError>
    ensures { OnOk result ((ev : TurnEvent) → ev.worker ≡ 1 → ev.number ≡ left.now.number → length ev.c ≡ made.took_c → length ev.t ≡ made.took_t
        → ev.sent_c ≡ made.sent_c → ev.sent_t ≡ made.sent_t → ev.next ≡ next → is_udp left.now ≡ false
        → out.new ≡ out.old ++ turn_shown generation ev left.now) }
{
    text::add_turn(
        alloc,
        out,
        1,
        generation,
        (made.took_c, made.took_t),
        (made.sent_c, made.sent_t),
        next,
        left,
    )
}

/// The line of a configuration that was published.
pub fn show_publish(alloc: Global, out: &mut Text, generation: u64) -> Result<(), AllocError>
    ensures { OnOk result (out.new ≡ out.old ++ publish_shown generation) }
{
    text::add_publish(alloc, out, generation)
}

/// The line of a see of worker 1.
pub fn show_see(alloc: Global, out: &mut Text, generation: u64) -> Result<(), AllocError>
    ensures { OnOk result (out.new ≡ out.old ++ see_shown generation) }
{
    text::add_see(alloc, out, 1, generation)
}

/// The line of an association that worker 1 opened.
pub fn show_open(alloc: Global, out: &mut Text, number: u64) -> Result<(), AllocError>
    ensures { OnOk result (out.new ≡ out.old ++ open_shown number) }
{
    text::add_open(alloc, out, 1, number)
}

/// The line before the closing rounds.
pub fn show_close(out: &mut Text) -> Result<(), AllocError>
    ensures { OnOk result (out.new ≡ out.old ++ close_shown) }
{
    text::add_close(out)
}

/// What became of an association.
pub fn show_ends(alloc: Global, out: &mut Text, left: &Record) -> Result<(), AllocError>
    ensures { OnOk result ((basis : Basis) → is_udp left.now ≡ false → left.now.sent_u ≡ [] → out.new ≡ out.old ++ ends_shown basis left.now) }
{
    text::add_ends(alloc, out, left)
}
