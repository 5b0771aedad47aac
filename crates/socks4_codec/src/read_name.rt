ghost use Rattle.std.specs.Prelude.{◌≡◌, ◌<◌, ◌≤◌, ◌==◌, ◌&&◌, nat_lt, not, true, length, position, slice_index};
ghost use Rattle.socks_grammar.specs.Grammar.{ended_by_zero, name4};
ghost use Rattle.addr_pattern.specs.Names.{is_name_byte as is_name_byte_of};
ghost use Rattle.socks4_codec.specs.Reads.{OnEnded};

use addr_pattern::{BadKind, Span, is_name_byte};
use socks_grammar::Stop;

/// The most bytes of a user or a name.
const LIMIT: usize = 255;

fn first_zero(bytes: &[u8]) -> Option<usize>
    ensures { result ≡ position (λ b. b == 0) bytes.now }
{
    bytes.iter().position(|byte| *byte == 0)
}

fn first_unfit(bytes: &[u8]) -> Option<usize>
    ensures { result ≡ position (λ b. not (is_name_byte_of b)) bytes.now }
{
    bytes.iter().position(|byte| !is_name_byte(*byte))
}

/// The user behind the address: at most 255 bytes, and a 00 (the SOCKS 4 memo).
pub fn read_user(bytes: &[u8], at: usize) -> Result<Span, Stop>
    requires { at ≤ length bytes.now }
    ensures { OnEnded (ended_by_zero (λ _. true) 255) bytes.now at result }
{
    let rest = &bytes[at..];
    match first_zero(&rest[..rest.len().min(LIMIT + 1)]) {
        Some(len) => Ok(Span { at, len }),
        None if rest.len() <= LIMIT => Err(Stop::More),
        None => Err(Stop::at(at + LIMIT, rest[LIMIT], BadKind::Field)),
    }
}

/// Whether a name of this length stands at the front: it isn't empty, and a 00 stands behind it.
fn ends_name(rest: &[u8], len: usize) -> bool
    requires { len < length rest.now }
    ensures { result ≡ (nat_lt 0 len && slice_index rest.now len == 0) }
{
    len > 0 && rest[len] == 0
}

/// The name behind the user: 1 to 255 bytes that print, and a 00 (the SOCKS 4A memo).
pub fn read_name(bytes: &[u8], at: usize) -> Result<Span, Stop>
    requires { at ≤ length bytes.now }
    ensures { OnEnded name4 bytes.now at result }
{
    let rest = &bytes[at..];
    match first_unfit(&rest[..rest.len().min(LIMIT + 1)]) {
        Some(len) if ends_name(rest, len) => Ok(Span { at, len }),
        Some(len) => Err(Stop::at(at + len, rest[len], BadKind::Field)),
        None if rest.len() <= LIMIT => Err(Stop::More),
        None => Err(Stop::at(at + LIMIT, rest[LIMIT], BadKind::Field)),
    }
}
