ghost use Rattle.std.specs.Prelude.{◌≡◌, ◌++◌, ◌∷◌, [], OnOk, codes};
ghost use Rattle.addr_pattern.specs.AddressText.{number_text};
ghost use Rattle.socks_machine.specs.Transcript.{line};
ghost use Rattle.transcript_text.specs.Pieces.{counted_line};

use crate::number::add_number_word;
use lists::Text;
use std::alloc::{AllocError, Global};

/// Appends the line of a configuration that was published, of this generation.
pub fn add_publish(alloc: Global, out: &mut Text, generation: u64) -> Result<(), AllocError>
    ensures { OnOk result (out.new ≡ out.old ++ line (codes "publish" ∷ number_text generation ∷ [])) }
{
    add_counted_line(alloc, out, b"publish", &[generation])
}

/// Appends the line of a worker that saw a generation.
pub fn add_see(
    alloc: Global,
    out: &mut Text,
    worker: u32,
    generation: u64,
) -> Result<(), AllocError>
    ensures { OnOk result (out.new ≡ out.old ++ line (codes "see" ∷ number_text worker ∷ number_text generation ∷ [])) }
{
    add_counted_line(alloc, out, b"see", &[u64::from(worker), generation])
}

/// Appends the line of an association that a worker opened.
pub fn add_open(alloc: Global, out: &mut Text, worker: u32, number: u64) -> Result<(), AllocError>
    ensures { OnOk result (out.new ≡ out.old ++ line (codes "open" ∷ number_text worker ∷ number_text number ∷ [])) }
{
    add_counted_line(alloc, out, b"open", &[u64::from(worker), number])
}

/// Appends the line with which the closing rounds begin.
pub fn add_close(out: &mut Text) -> Result<(), AllocError>
    ensures { OnOk result (out.new ≡ out.old ++ line (codes "close" ∷ [])) }
{
    out.add(b"close\n")
}

/// Appends a line of a word and numbers.
fn add_counted_line(
    alloc: Global,
    out: &mut Text,
    word: &[u8],
    numbers: &[u64],
) -> Result<(), AllocError>
    ensures { OnOk result (out.new ≡ out.old ++ counted_line word.now numbers.now) }
{
    out.add(word)?;
    for number in numbers {
        add_number_word(alloc, out, *number)?;
    }
    out.push(b'\n')
}
