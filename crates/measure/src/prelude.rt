ghost use Rattle.std.specs.Prelude.{◌≡◌, ◌++◌, IfOk, OnOk, replicate};
ghost use Rattle.measure.specs.Preludes.{long_greeting, long_login, long_prelude, long_request, short_prelude};

use lists::Text;
use std::alloc::{AllocError, Global};
use user_login::{Users, UsersFault, UsersKind};

/// FIPS 180-4's digest of 255 bytes `p`, in digits.
const DIGITS: &[u8] = b"4ba9d2478d48df07e67431d2a77c039614d9e283125b98379eef55ce82b85d6c";

fn add_many(text: &mut Text, byte: u8, count: u32) -> Result<(), AllocError>
    ensures { OnOk result (text.new ≡ text.old ++ replicate count byte) }
{
    for _ in 0..count {
        text.push(byte)?;
    }
    Ok(())
}

/// No login, and a CONNECT to an address of IPv4: 13 bytes.
pub fn short(alloc: Global) -> Result<Text, AllocError>
    ensures { IfOk result (λ text. text ≡ short_prelude) }
{
    Text::from_slice(
        alloc,
        b"\x05\x01\x00\x05\x01\x00\x01\x7f\x00\x00\x01\x00\x50",
    )
}

fn add_greeting(text: &mut Text) -> Result<(), AllocError>
    ensures { OnOk result (text.new ≡ text.old ++ long_greeting) }
{
    text.add(b"\x05\xff")?;
    add_many(text, 1, 254)?;
    text.push(2)
}

fn add_login(text: &mut Text) -> Result<(), AllocError>
    ensures { OnOk result (text.new ≡ text.old ++ long_login) }
{
    text.add(b"\x01\xff")?;
    add_many(text, b'u', 255)?;
    text.push(255)?;
    add_many(text, b'p', 255)
}

fn add_request(text: &mut Text) -> Result<(), AllocError>
    ensures { OnOk result (text.new ≡ text.old ++ long_request) }
{
    text.add(b"\x05\x01\x00\x03\xff")?;
    add_many(text, b'n', 255)?;
    text.add(b"\x00\x50")
}

/// 255 methods, a login of 255 and 255 bytes, and a CONNECT to a name of 255: 1,032 bytes.
pub fn long(alloc: Global) -> Result<Text, AllocError>
    ensures { IfOk result (λ text. text ≡ long_prelude) }
{
    let mut text = Text::make(alloc);
    add_greeting(&mut text)?;
    add_login(&mut text)?;
    add_request(&mut text)?;
    Ok(text)
}

fn users_file(alloc: Global) -> Result<Text, AllocError> {
    let mut text = Text::make(alloc);
    add_many(&mut text, b'u', 255)?;
    text.push(b':')?;
    text.add(DIGITS)?;
    Ok(text)
}

/// The user of the long prelude.
pub fn users_of(alloc: Global) -> Result<Users, UsersFault> {
    let text = users_file(alloc).map_err(|_| UsersFault {
        line: 0,
        kind: UsersKind::Memory,
    })?;
    Users::read(alloc, text.as_slice())
}
