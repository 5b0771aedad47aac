ghost use Rattle.std.specs.Prelude.{◌≡◌, ◌≤◌, ◌+◌, ◌++◌, length};
ghost use Rattle.addr_pattern.specs.AddressText.{ipv4_of, ipv4_text};

use crate::cut::cut_first;
use crate::number::{add_number, read_number};
use crate::short::Short;

/// The address that four numbers with dots between them are.
pub fn read_ipv4(text: &[u8]) -> Option<u32>
    ensures { result ≡ ipv4_of text.now }
{
    let (first, behind_first) = cut_first(text, b'.')?;
    let (second, behind_second) = cut_first(behind_first, b'.')?;
    let (third, fourth) = cut_first(behind_second, b'.')?;
    let a = read_number(first, 255)?;
    let b = read_number(second, 255)?;
    let c = read_number(third, 255)?;
    let d = read_number(fourth, 255)?;
    Some(((a * 256 + b) * 256 + c) * 256 + d)
}

/// Puts the four numbers of an address behind what the text holds.
pub fn add_ipv4(out: &mut Short, addr: u32)
    requires { length out.old + 23 ≤ 520 }
    ensures added { out.new ≡ out.old ++ ipv4_text addr }
    ensures short { length out.new ≤ length out.old + 23 }
{
    add_number(out, (addr / 16777216) as u16);
    out.add(b".");
    add_number(out, (addr / 65536 % 256) as u16);
    out.add(b".");
    add_number(out, (addr / 256 % 256) as u16);
    out.add(b".");
    add_number(out, (addr % 256) as u16);
}
