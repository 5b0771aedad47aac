ghost use Rattle.std.specs.Prelude.{◌≡◌, ◌<◌, ◌++◌, ◌∷◌, OnOk};
ghost use Rattle.addr_pattern.specs.AddressText.{hex_digit as digit_text, hex_text};
ghost use Rattle.socks_machine.specs.Transcript.{bytes_text};
ghost use Rattle.transcript_text.specs.Pieces.{hex_pair};

use lists::Text;
use std::alloc::AllocError;

/// The lower-case hexadecimal digit of a number below 16.
pub(crate) fn hex_digit(digit: u8) -> u8
    requires { digit < 16 }
    ensures { result ≡ digit_text digit }
{
    if digit < 10 {
        b'0' + digit
    } else {
        b'a' + (digit - 10)
    }
}

/// Appends the two digits of a byte.
#[tactic(auto, unfolding(crate::specs::Pieces::hex_pair))]
pub(crate) fn add_hex_pair(out: &mut Text, byte: u8) -> Result<(), AllocError>
    ensures { OnOk result (out.new ≡ out.old ++ hex_pair byte) }
{
    out.add(&[hex_digit(byte / 16), hex_digit(byte % 16)])
}

/// Appends a blank and the two digits of a byte.
pub(crate) fn add_hex_word(out: &mut Text, byte: u8) -> Result<(), AllocError>
    ensures { OnOk result (out.new ≡ out.old ++ 32 ∷ hex_pair byte) }
{
    out.push(b' ')?;
    add_hex_pair(out, byte)
}

/// Appends bytes in hexadecimal digits, two for each.
#[tactic(auto, unfolding(crate::specs::Pieces::hex_pair))]
fn add_hex(out: &mut Text, bytes: &[u8]) -> Result<(), AllocError>
    ensures { OnOk result (out.new ≡ out.old ++ hex_text bytes.now) }
{
    for byte in bytes {
        add_hex_pair(out, *byte)?;
    }
    Ok(())
}

/// Appends bytes in hexadecimal digits, or `-` where there are none.
pub fn add_bytes(out: &mut Text, bytes: &[u8]) -> Result<(), AllocError>
    ensures { OnOk result (out.new ≡ out.old ++ bytes_text bytes.now) }
{
    if bytes.is_empty() {
        out.push(b'-')
    } else {
        add_hex(out, bytes)
    }
}
