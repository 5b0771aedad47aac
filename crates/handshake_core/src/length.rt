//! The length of the prelude at the front of a whole input.
ghost use Rattle.std.specs.Prelude.{◌≡◌, ◌≤◌, Some, drop, is_some, length};
ghost use Rattle.socks_grammar.specs.Grammar.{greeting, login, request4, request5};
ghost use Rattle.socks_grammar.specs.Handshake.{greeting_length as length_of_greeting, login_end, login_place};
ghost use Rattle.handshake_core.specs.Lengths.{asked_end, logged_end, greeted_end, prelude_end, IsLengthOfPrelude, EndsWithin};

use crate::asked::{read_asked4, read_asked5};
use addr_pattern::Front;
use socks5_codec::read_greeting;
use user_login::read_login;

/// The request of version 4 (the SOCKS 4 and 4A memos).
fn end4(bytes: &[u8]) -> usize
    ensures { result ≡ asked_end (request4 0 bytes.now) }
{
    match read_asked4(bytes) {
        Front::Whole { len, .. } => len,
        _ => 0,
    }
}

/// The request of version 5 at this place (RFC 1928, section 4).
fn end_at(bytes: &[u8], at: usize) -> usize
    requires { at ≤ length bytes.now }
    ensures { result ≡ asked_end (request5 at (drop at bytes.now)) }
{
    match read_asked5(&bytes[at..]) {
        Front::Whole { len, .. } => at + len,
        _ => 0,
    }
}

/// The request behind the login at this place (RFC 1929, section 2).
fn end_behind_login(bytes: &[u8], at: usize) -> usize
    requires { at ≤ length bytes.now }
    ensures { result ≡ logged_end (login at (drop at bytes.now)) }
{
    match read_login(&bytes[at..]) {
        Front::Whole { len, .. } => end_at(bytes, at + len),
        _ => 0,
    }
}

/// The request behind a greeting to which this method was answered (RFC 1928, section 3).
fn end5(method: u8, bytes: &[u8]) -> usize
    ensures { result ≡ greeted_end (Some method) (greeting 0 bytes.now) }
{
    match read_greeting(bytes) {
        Front::Whole { len, .. } => match method {
            0 => end_at(bytes, len),
            2 => end_behind_login(bytes, len),
            _ => 0,
        },
        _ => 0,
    }
}

/// The length in bytes of the prelude at the front of a client's input, where this method was answered to the greeting, if any
/// was. It is 0 where no prelude is whole. No user is looked up: the user of a prelude that was asked about has been let in.
pub fn prelude_length(method: Option<u8>, bytes: &[u8]) -> usize
    ensures { result ≡ prelude_end method bytes.now }
{
    match (bytes, method) {
        ([4, ..], _) => end4(bytes),
        ([5, ..], Some(method)) => end5(method, bytes),
        _ => 0,
    }
}

/// The length in bytes of a client's greeting, and 0 where it isn't whole (RFC 1928, section 3).
pub fn greeting_length(bytes: &[u8]) -> usize
    ensures { result ≡ length_of_greeting bytes.now }
{
    match read_greeting(bytes) {
        Front::Whole { len, .. } => len,
        _ => 0,
    }
}

/// Whether a login is whole at this place (RFC 1929, section 2).
fn has_login_at(bytes: &[u8], at: usize) -> bool
    requires { at ≤ length bytes.now }
    ensures { result ≡ is_some (login_end (login at (drop at bytes.now))) }
{
    matches!(read_login(&bytes[at..]), Front::Whole { .. })
}

/// Whether a greeting with a login behind it stands at the front of a client's input, whole (RFC 1929, section 2).
pub fn has_login(bytes: &[u8]) -> bool
    ensures { result ≡ is_some (login_place bytes.now) }
{
    match read_greeting(bytes) {
        Front::Whole { len, .. } => has_login_at(bytes, len),
        _ => false,
    }
}

/// A whole prelude has this length, and no prelude is longer than its input. It does nothing; its contract is the laws.
pub fn prelude_ends()
    ensures length { IsLengthOfPrelude }
    ensures within { EndsWithin }
{}
