ghost use Rattle.std.specs.Prelude.{◌≡◌, ◌++◌, ◌∷◌, OnOk};
ghost use Rattle.addr_pattern.specs.AddressText.{number_text};
ghost use Rattle.transcript_text.specs.Pieces.{digits};

use lists::Text;
use std::alloc::{AllocError, Global};

/// Appends a number in decimal digits, without leading zeros.
pub fn add_number(alloc: Global, out: &mut Text, n: u64) -> Result<(), AllocError>
    ensures { OnOk result (out.new ≡ out.old ++ number_text n) }
{
    add_digits(alloc, out, n)
}

/// Appends the digits of a number.
#[tactic(auto, using(crate::proofs::Numbers::number_texts))]
pub(crate) fn add_digits(alloc: Global, out: &mut Text, n: u64) -> Result<(), AllocError>
    ensures { OnOk result (out.new ≡ out.old ++ digits n) }
{
    let text = format!(in alloc; "{n}")?;
    out.add(text.as_bytes())
}

/// Appends a blank and a word.
pub(crate) fn add_word(out: &mut Text, word: &[u8]) -> Result<(), AllocError>
    ensures { OnOk result (out.new ≡ out.old ++ 32 ∷ word.now) }
{
    out.push(b' ')?;
    out.add(word)
}

/// Appends a blank and a number.
pub(crate) fn add_number_word(alloc: Global, out: &mut Text, n: u64) -> Result<(), AllocError>
    ensures { OnOk result (out.new ≡ out.old ++ 32 ∷ digits n) }
{
    out.push(b' ')?;
    add_digits(alloc, out, n)
}
