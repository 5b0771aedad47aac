//! One byte of a prelude.
ghost use Rattle.std.specs.Prelude.{◌≡◌, ◌<◌, ◌≤◌, ◌+◌, ◌∷◌, [], Some, None, MatchOption, true, false, List as Items, length};
ghost use Rattle.socks_grammar.specs.declared.protocol.Version.{Version as SomeVersion};
ghost use Rattle.socks_grammar.specs.declared.user.User.{User};
ghost use Rattle.socks_grammar.specs.declared.protocol.Method.{Method as SomeMethod};
ghost use Rattle.socks_grammar.specs.Handshake.{version_of};
ghost use Rattle.socks_grammar.specs.Users.{user_fits};
ghost use Rattle.socks_machine.specs.Replies.{choose as choose_of};
ghost use Rattle.handshake_core.specs.Due.{IsOpen};
ghost use Rattle.handshake_core.specs.Readers.{AllBytes};
ghost use Rattle.handshake_core.specs.Standing.{AtFirst, AtLogin, AtRequest, Asks, Hears, HearsByte, Greets, method_named, client_of, stands, bytes_of};

use crate::asked::{Asked, read_asked4, read_asked5};
use crate::fed::Fed;
use crate::refuse::{bad_cause, failing, refuse};
use crate::request::Request;
use crate::state::{Stage, State};
use addr_pattern::{Front, Name, Short};
use socks_grammar::{Method, Version};
use socks_machine::Cause;
use socks5_codec::{read_greeting, write_method};
use std::mem;
use user_login::{LoginAt, Users, read_login, write_status};

/// After a request no more is heard. The length is that of the whole prelude.
fn ask(state: &mut State, version: Version, method: Method, asked: Asked, len: usize) -> Fed
    ensures { Asks state.old state.new version method asked len result }
{
    state.stage = Stage::Over;
    let user = state.user.take();
    let Asked {
        command,
        host,
        port,
    } = asked;
    Fed::Ask(Request {
        version,
        command,
        method,
        user,
        host,
        port,
        len: len as u64,
    })
}

/// No greeting stands before a request of version 4, and none of its bytes is answered alone.
fn hear4(state: &mut State) -> Fed
    requires at { AtFirst state.old }
    requires four { version_of state.old.message ≡ Some SomeVersion.V4 }
    ensures { (methods : Items SomeMethod) (users : Items User) → Hears methods users state.old state.new result }
{
    match read_asked4(state.message.as_slice()) {
        Front::More => Fed::Need,
        Front::Bad(bad) => {
            let cause = bad_cause(0, &bad);
            refuse(state, cause, failing(Version::V4, bad.kind))
        }
        Front::Whole { value, len } => ask(state, Version::V4, Method::NoAuth, value, len),
    }
}

/// The first of the methods that was offered, else FF (RFC 1928, section 3).
fn choose(methods: &[Method], offered: &[u8]) -> u8
    ensures { result ≡ choose_of methods.now offered.now }
{
    match methods {
        [] => 255,
        [first, others @ ..] => {
            let code = first.code();
            if offered.contains(&code) {
                code
            } else {
                choose(others, offered)
            }
        }
    }
}

/// Answers this method to a whole greeting. After FF no more is heard (RFC 1928, section 3).
fn greet(state: &mut State, method: u8) -> Fed
    ensures { Greets state.old method state.new result }
{
    state.method = Some(method);
    if method == 255 {
        return refuse(state, Cause::NoMethod, write_method(255));
    }
    state.greeting = mem::replace(&mut state.message, Short::empty());
    state.stage = if method == 2 {
        Stage::Login
    } else {
        Stage::Request
    };
    Fed::Say(write_method(method))
}

/// A greeting is answered with its last byte, also where it offers no method (RFC 1928, section 3).
fn hear_greeting(state: &mut State, methods: &[Method]) -> Fed
    requires at { AtFirst state.old }
    requires five { version_of state.old.message ≡ Some SomeVersion.V5 }
    ensures { (users : Items User) → Hears methods.now users state.old state.new result }
{
    let bytes = state.message.as_slice();
    match read_greeting(bytes) {
        Front::More => Fed::Need,
        Front::Bad(bad) => {
            let cause = bad_cause(0, &bad);
            refuse(state, cause, failing(Version::V5, bad.kind))
        }
        Front::Whole { value, .. } => {
            let offered = &bytes[value.methods.at..value.methods.at + value.methods.len];
            let method = choose(methods, offered);
            greet(state, method)
        }
    }
}

/// The first byte says which message it is; any byte but 04 and 05 is refused with no answer.
fn hear_first(state: &mut State, methods: &[Method]) -> Fed
    requires at { AtFirst state.old }
    requires some { 0 < length state.old.message }
    ensures { (users : Items User) → Hears methods.now users state.old state.new result }
{
    let byte = state.message.as_slice()[0];
    match Version::of_first_byte(byte) {
        Some(Version::V4) => hear4(state),
        Some(Version::V5) => hear_greeting(state, methods),
        None => refuse(state, Cause::BadVersion { at: 0, byte }, Short::empty()),
    }
}

/// None where no user has this name and this password.
fn user_named(users: &Users, name: &[u8], password: &[u8]) -> Option<Name>
    ensures { MatchOption result (user_fits users.now name.now password.now ≡ false) (λ user. (user_fits users.now name.now password.now ≡ true) × (user ≡ name.now)) }
{
    match users.find(name, password) {
        None => None,
        Some(user) => Some(user.name.copy()),
    }
}

/// A login is answered with its last byte. Another version is refused as a login that failed (RFC 1929, section 2).
fn hear_login(state: &mut State, users: &Users) -> Fed
    requires { AtLogin state.old }
    ensures { (methods : Items SomeMethod) → Hears methods users.now state.old state.new result }
{
    let bytes = state.message.as_slice();
    let at = state.greeting.as_slice().len() as u64;
    match read_login(bytes) {
        Front::More => Fed::Need,
        Front::Bad(bad) => {
            let byte = bad.byte;
            refuse(state, Cause::BadVersion { at, byte }, write_status(1))
        }
        Front::Whole { value, .. } => {
            let LoginAt { name, password } = value;
            let name = &bytes[name.at..name.at + name.len];
            let password = &bytes[password.at..password.at + password.len];
            match user_named(users, name, password) {
                None => refuse(state, Cause::LoginFailed, write_status(1)),
                Some(user) => {
                    state.user = Some(user);
                    state.login = mem::replace(&mut state.message, Short::empty());
                    state.stage = Stage::Request;
                    Fed::Say(write_status(0))
                }
            }
        }
    }
}

/// Any other code than 02 stands for no login: behind FF no request is read.
fn method_of(code: Option<u8>) -> Method
    ensures { result ≡ method_named code }
{
    match code {
        Some(2) => Method::Username,
        _ => Method::NoAuth,
    }
}

/// Places and the length count from the first byte of the prelude.
fn hear5(state: &mut State) -> Fed
    requires { length state.old.greeting + length state.old.login ≤ 770 }
    ensures { (methods : Items SomeMethod) (users : Items User) → AtRequest users state.old → Hears methods users state.old state.new result }
{
    let before = state.greeting.as_slice().len() + state.login.as_slice().len();
    let bytes = state.message.as_slice();
    are_bytes(bytes);
    match read_asked5(bytes) {
        Front::More => Fed::Need,
        Front::Bad(bad) => {
            let cause = bad_cause(before, &bad);
            refuse(state, cause, failing(Version::V5, bad.kind))
        }
        Front::Whole { value, len } => {
            let method = method_of(state.method);
            ask(state, Version::V5, method, value, before + len)
        }
    }
}

/// Changes nothing: a look at the slice tells the proof that its items are below 256.
pub fn are_bytes(bytes: &[u8])
    ensures { AllBytes bytes.now }
{
    let _first = bytes.first();
}

/// Takes one more byte, and reads the message from its front.
pub fn hear(state: &mut State, methods: &[Method], users: &Users, byte: u8) -> Fed
    requires stands { stands state.old ≡ true }
    requires open { IsOpen users.now (client_of state.old) }
    ensures { HearsByte methods.now users.now state.old byte state.new result }
{
    are_bytes(state.greeting.as_slice());
    are_bytes(state.login.as_slice());
    are_bytes(state.message.as_slice());
    state.message.add(&[byte]);
    match state.stage {
        Stage::First => hear_first(state, methods),
        Stage::Login => hear_login(state, users),
        Stage::Request => hear5(state),
        Stage::Over => Fed::Need,
    }
}
