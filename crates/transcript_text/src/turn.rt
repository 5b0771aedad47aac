ghost use Rattle.std.specs.Prelude.{◌≡◌, ◌++◌, ◌∷◌, [], OnOk, Some, false, length, codes};
ghost use Rattle.socks_machine.specs.declared.world.TurnEvent.{TurnEvent};
ghost use Rattle.socks_machine.specs.Transcript.{turn_line};
ghost use Rattle.socks_machine.specs.Phase.{is_udp};
ghost use Rattle.transcript_text.specs.Pieces.{digits, blanked};
ghost use Rattle.transcript_text.specs.Endings.{next_word, turn_counts, line_of};

use crate::cause::add_count;
use crate::ending::add_end_word;
use crate::number::{add_number_word, add_word};
use lists::Text;
use socks_machine::{NextMark, Record};
use std::alloc::{AllocError, Global};

/// Appends the line of a turn on an association of TCP. The counts are bytes, of the client and of the target; the
/// generation is the one that the worker has seen, and the record is as the turn left it.
pub fn add_turn(
    alloc: Global,
    out: &mut Text,
    worker: u32,
    generation: u64,
    took: (u64, u64),
    sent: (u64, u64),
    next: NextMark,
    record: &Record,
) -> Result<(), AllocError>
    ensures { OnOk result ((ev : TurnEvent) → ev.worker ≡ worker → ev.number ≡ record.now.number → length ev.c ≡ took.0 → length ev.t ≡ took.1
        → ev.sent_c ≡ sent.0 → ev.sent_t ≡ sent.1 → ev.next ≡ next → is_udp record.now ≡ false
        → out.new ≡ out.old ++ turn_line generation ev (Some record.now)) }
{
    add_turn_line(alloc, out, worker, generation, took, sent, next, record)
}

fn add_turn_line(
    alloc: Global,
    out: &mut Text,
    worker: u32,
    generation: u64,
    took: (u64, u64),
    sent: (u64, u64),
    next: NextMark,
    record: &Record,
) -> Result<(), AllocError>
    ensures { OnOk result (out.new ≡ out.old ++ line_of (codes "turn") (turn_counts worker record.now.number generation took.0 took.1 sent.0 sent.1 (next_word record.now next))) }
{
    add_head(alloc, out, worker, record.number, generation)?;
    add_both(alloc, out, b"took", took)?;
    add_both(alloc, out, b"sent", sent)?;
    add_next(alloc, out, next, record)?;
    out.push(b'\n')
}

/// Appends whose turn it is, and the generation that the worker has seen.
fn add_head(
    alloc: Global,
    out: &mut Text,
    worker: u32,
    number: u64,
    generation: u64,
) -> Result<(), AllocError>
    ensures { OnOk result (out.new ≡ out.old ++ (codes "turn" ++ blanked (digits worker ∷ digits number ∷ codes "gen" ∷ digits generation ∷ []))) }
{
    out.add(b"turn")?;
    add_number_word(alloc, out, u64::from(worker))?;
    add_number_word(alloc, out, number)?;
    add_count(alloc, out, b"gen", generation)
}

/// Appends a word and two numbers.
fn add_both(
    alloc: Global,
    out: &mut Text,
    word: &[u8],
    counts: (u64, u64),
) -> Result<(), AllocError>
    ensures { OnOk result (out.new ≡ out.old ++ blanked (word.now ∷ digits counts.0 ∷ digits counts.1 ∷ [])) }
{
    add_count(alloc, out, word, counts.0)?;
    add_number_word(alloc, out, counts.1)
}

/// Appends how a turn ended.
fn add_next(
    alloc: Global,
    out: &mut Text,
    next: NextMark,
    record: &Record,
) -> Result<(), AllocError>
    ensures { OnOk result (out.new ≡ out.old ++ 32 ∷ next_word record.now next) }
{
    match next {
        NextMark::Going => add_word(out, b"going"),
        NextMark::Wait => add_word(out, b"wait"),
        NextMark::Again => add_word(out, b"again"),
        NextMark::Done => {
            out.add(b" done ")?;
            add_end_word(alloc, out, record)
        }
    }
}
