//! The request in a client's whole input.
ghost use Rattle.std.specs.Prelude.{◌≡◌, ◌≤◌, Some, None, drop, length};
ghost use Rattle.socks_grammar.specs.declared.protocol.Method.TheVariants.{NoAuth};
ghost use Rattle.socks_grammar.specs.declared.protocol.Version.TheVariants.{V4, V5};
ghost use Rattle.socks_grammar.specs.Grammar.{greeting, login, request4, request5};
ghost use Rattle.socks_grammar.specs.Handshake.{split, split_greeted, split_login, split_request};
ghost use Rattle.socks_machine.specs.Inputs.{is_served_input as is_served_input_of, is_served_request as is_served_request_of, is_served_split};
ghost use Rattle.handshake_core.specs.Answers.{request_in};
ghost use Rattle.handshake_core.specs.Whole.{OnSplit};

use crate::asked::{Asked, read_asked4, read_asked5};
use crate::request::Request;
use addr_pattern::{Front, Name};
use socks_grammar::{Command, Method, Version};
use socks5_codec::read_greeting;
use user_login::{LoginAt, Users, read_login};

/// What is asked for, with its version, its method, its user and the length of its prelude.
fn request(
    version: Version,
    method: Method,
    user: Option<Name>,
    asked: Asked,
    len: usize,
) -> Request
    ensures { result ≡ record { version = version; command = asked.command; method = method; user = user; host = asked.host; port = asked.port; len = len } }
{
    let Asked {
        command,
        host,
        port,
    } = asked;
    Request {
        version,
        command,
        method,
        user,
        host,
        port,
        len: len as u64,
    }
}

/// The request of version 4 (the SOCKS 4 and 4A memos).
fn whole4(bytes: &[u8]) -> Option<Request>
    ensures { OnSplit result (split_request V4 NoAuth None (request4 0 bytes.now)) }
{
    match read_asked4(bytes) {
        Front::Whole { value, len } => {
            Some(request(Version::V4, Method::NoAuth, None, value, len))
        }
        _ => None,
    }
}

/// The request of version 5 at this place (RFC 1928, section 4).
fn whole_at(method: Method, user: Option<Name>, bytes: &[u8], at: usize) -> Option<Request>
    requires { at ≤ length bytes.now }
    ensures { OnSplit result (split_request V5 method user (request5 at (drop at bytes.now))) }
{
    match read_asked5(&bytes[at..]) {
        Front::Whole { value, len } => { Some(request(Version::V5, method, user, value, at + len)) }
        _ => None,
    }
}

/// The request behind the login at this place (RFC 1929, section 2).
fn behind_login(users: &Users, bytes: &[u8], at: usize) -> Option<Request>
    requires { at ≤ length bytes.now }
    ensures { OnSplit result (split_login users.now (login at (drop at bytes.now))) }
{
    let rest = &bytes[at..];
    let Front::Whole { value, len } = read_login(rest) else {
        return None;
    };
    let LoginAt { name, password } = value;
    let name = &rest[name.at..name.at + name.len];
    let password = &rest[password.at..password.at + password.len];
    let user = users.find(name, password)?;
    whole_at(Method::Username, Some(user.name.copy()), bytes, at + len)
}

/// The request of version 5 behind a greeting to which this method was answered (RFC 1928, section 3).
fn whole5(users: &Users, method: u8, bytes: &[u8]) -> Option<Request>
    ensures { OnSplit result (split_greeted users.now (Some method) (greeting 0 bytes.now)) }
{
    match read_greeting(bytes) {
        Front::Whole { len, .. } => match method {
            0 => whole_at(Method::NoAuth, None, bytes, len),
            2 => behind_login(users, bytes, len),
            _ => None,
        },
        _ => None,
    }
}

/// The request at the end of a whole prelude, where this method was answered to the greeting, if there is one. It is `None`
/// where the bytes begin with no whole prelude.
pub fn whole_request(users: &Users, method: u8, bytes: &[u8]) -> Option<Request>
    ensures { OnSplit result (split users.now (Some method) bytes.now) }
{
    match bytes {
        [4, ..] => whole4(bytes),
        [5, ..] => whole5(users, method, bytes),
        _ => None,
    }
}

/// Whether a request is served: a CONNECT.
fn is_served_request(request: &Request) -> bool
    ensures { result ≡ is_served_request_of (request_in request.now) }
{
    matches!(request.command, Command::Connect)
}

/// Whether the input is served where this method was answered to its greeting, if there is one.
fn is_served_by(users: &Users, method: u8, bytes: &[u8]) -> bool
    ensures { result ≡ is_served_split (split users.now (Some method) bytes.now) }
{
    match whole_request(users, method, bytes) {
        None => true,
        Some(request) => is_served_request(&request),
    }
}

/// Whether all that a client has sent so far is served.
pub fn is_served_input(users: &Users, bytes: &[u8]) -> bool
    ensures { result ≡ is_served_input_of users.now bytes.now }
{
    is_served_by(users, 0, bytes) && is_served_by(users, 2, bytes)
}
