ghost use Rattle.std.specs.Prelude.{◌<◌, IfOk};
ghost use Rattle.net_ends.specs.Counts.{Later, ReadCause};
ghost use Rattle.net_ends.specs.Faults.{ReadTried};
ghost use Rattle.net_ends.specs.Told.{GivesArrived};
ghost use Rattle.assoc_core.specs.Reads.{ReadsMore, reading_of};

use lists::Text;
use net_ends::{Link, PIECE, Reading};
use std::alloc::{AllocError, Global};
use std::mem;

/// What came of one read into a text.
#[derive(Clone, Copy, Debug, PartialEq, Eq)]
pub enum More {
    Got(usize),
    End,
    NotYet,
    Failed,
}

/// Reads a piece behind what the text holds, of at most `most` bytes. It makes room first, so that no byte is lost where
/// memory is refused.
pub fn read_more<L: Link>(
    alloc: Global,
    text: &mut Text,
    link: &mut L,
    most: usize,
) -> Result<More, AllocError>
    requires { 0 < most }
    ensures read { IfOk result (λ answer. ReadsMore (L.told link.old) (L.told link.new) text.old text.new most answer) }
    ensures arrived { IfOk result (λ answer. GivesArrived (L.told link.new) (reading_of answer)) }
    ensures later { IfOk result (λ answer. Later (L.counts link.old) (L.counts link.new)) }
    ensures cause { IfOk result (λ answer. ReadCause (L.counts link.old) (L.counts link.new) (reading_of answer)) }
    ensures tried { IfOk result (λ answer. ReadTried (L.counts link.old) (L.counts link.new) (reading_of answer)) }
{
    let mut held = mem::replace(text, Text::make(alloc)).into_vec();
    if held.reserve(PIECE).is_err() {
        *text = Text::from_vec(held);
        return Err(AllocError);
    }
    let mut piece = [0; PIECE];
    let len = most.min(PIECE);
    let answer = match link.read(&mut piece[..len]) {
        Reading::Got(n) => match held.extend_from_slice(&piece[..n]) {
            Ok(()) => More::Got(n),
            Err(_) => unreachable!(),
        },
        Reading::End => More::End,
        Reading::NotYet => More::NotYet,
        Reading::Failed => More::Failed,
    };
    *text = Text::from_vec(held);
    Ok(answer)
}
