ghost use Rattle.std.specs.Prelude.{◌≡◌, ◌++◌, ◌∷◌, [], OnOk, false, codes};
ghost use Rattle.socks_machine.specs.Transcript.{end_text, ends_of};
ghost use Rattle.socks_machine.specs.Basis.{Basis};
ghost use Rattle.socks_machine.specs.Phase.{is_udp};
ghost use Rattle.transcript_text.specs.Pieces.{digits};
ghost use Rattle.transcript_text.specs.Endings.{cause_word, end_word, bytes_word, line_of, end_lines};

use crate::cause::add_cause;
use crate::hex::add_bytes;
use crate::number::add_number_word;
use lists::Text;
use socks_machine::{Cause, Record};
use std::alloc::{AllocError, Global};

/// Appends the cause with which an association ended, or `open`.
pub fn add_end(alloc: Global, out: &mut Text, record: &Record) -> Result<(), AllocError>
    ensures { OnOk result (out.new ≡ out.old ++ end_text record.now) }
{
    add_end_word(alloc, out, record)
}

#[tactic(auto, unfolding(crate::specs::Endings::end_word))]
pub(crate) fn add_end_word(alloc: Global, out: &mut Text, record: &Record) -> Result<(), AllocError>
    ensures { OnOk result (out.new ≡ out.old ++ end_word record.now) }
{
    if !record.done {
        return out.add(b"open");
    }
    match record.at_close {
        Some(cause) => add_cause_word(alloc, out, cause),
        None => match record.cause {
            Some(cause) => add_cause_word(alloc, out, cause),
            None => out.add(b"open"),
        },
    }
}

fn add_cause_word(alloc: Global, out: &mut Text, cause: Cause) -> Result<(), AllocError>
    ensures { OnOk result (out.new ≡ out.old ++ cause_word cause) }
{
    add_cause(alloc, out, &cause)
}

/// Appends what became of an association of TCP: what was sent to the client and to the target, and how it ended.
pub fn add_ends(alloc: Global, out: &mut Text, record: &Record) -> Result<(), AllocError>
    ensures { OnOk result ((basis : Basis) → is_udp record.now ≡ false → record.now.sent_u ≡ [] → out.new ≡ out.old ++ ends_of basis record.now) }
{
    add_end_lines(alloc, out, record)
}

fn add_end_lines(alloc: Global, out: &mut Text, record: &Record) -> Result<(), AllocError>
    ensures { OnOk result (out.new ≡ out.old ++ end_lines record.now) }
{
    add_side(
        alloc,
        out,
        b"client",
        record.number,
        record.sent_c.as_slice(),
    )?;
    add_side(
        alloc,
        out,
        b"target",
        record.number,
        record.sent_t.as_slice(),
    )?;
    add_end_line(alloc, out, record)
}

fn add_end_line(alloc: Global, out: &mut Text, record: &Record) -> Result<(), AllocError>
    ensures { OnOk result (out.new ≡ out.old ++ line_of (codes "end") (digits record.now.number ∷ end_word record.now ∷ [])) }
{
    out.add(b"end")?;
    add_number_word(alloc, out, record.number)?;
    out.push(b' ')?;
    add_end_word(alloc, out, record)?;
    out.push(b'\n')
}

/// Appends the line of what was sent to one side.
fn add_side(
    alloc: Global,
    out: &mut Text,
    side: &[u8],
    number: u64,
    bytes: &[u8],
) -> Result<(), AllocError>
    ensures { OnOk result (out.new ≡ out.old ++ line_of side.now (digits number ∷ bytes_word bytes.now ∷ [])) }
{
    out.add(side)?;
    add_number_word(alloc, out, number)?;
    add_bytes_word(out, bytes)?;
    out.push(b'\n')
}

#[tactic(auto, unfolding(crate::specs::Endings::bytes_word))]
fn add_bytes_word(out: &mut Text, bytes: &[u8]) -> Result<(), AllocError>
    ensures { OnOk result (out.new ≡ out.old ++ 32 ∷ bytes_word bytes.now) }
{
    out.push(b' ')?;
    add_bytes(out, bytes)
}
