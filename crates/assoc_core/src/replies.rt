ghost use Rattle.std.specs.Prelude.{◌≡◌, ◌∷◌, ◌++◌, ◌≤◌, IfOk, OnOk, false, length, drop};
ghost use Rattle.socks_grammar.specs.declared.protocol.Command.{Command};
ghost use Rattle.socks_grammar.specs.Handshake.{version_of as first_version};
ghost use Rattle.socks_machine.specs.Decisions.{reached_at as first_reached};
ghost use Rattle.socks_machine.specs.Replies.{refusal, answer_to as answer_due};
ghost use Rattle.socks_machine.specs.Socks.{chosen_reply, passed_reply, is_in_login as in_login_by, success};
ghost use Rattle.socks_machine.specs.View.{asks_login as login_is_asked};
ghost use Rattle.assoc_core.specs.Plain.{owed_c, replies_by, opening_owed, has_passed as passes, is_login_failed as fails_login, refused_at};
ghost use Rattle.assoc_core.specs.Answered.{answer_of};

use addr_pattern::Endpoint;
use handshake_core::{failing_reply, greeting_length, has_login};
use lists::Text;
use socks_grammar::Version;
use socks_machine::{Cause, Chosen, Decision, Record};
use socks4_codec::{Reply4, write_reply4};
use socks5_codec::{write_method, write_reply5};
use std::alloc::{AllocError, Global};
use user_login::write_status;

/// The bytes from a place on.
pub fn rest_from(bytes: &[u8], at: usize) -> &[u8]
    requires { at ≤ length bytes.now }
    ensures { result.now ≡ drop at bytes.now }
{
    &bytes[at..]
}

/// The version that the first byte says.
fn version_of(c: &[u8]) -> Option<Version>
    ensures { result ≡ first_version c.now }
{
    match c {
        [4, ..] => Some(Version::V4),
        [5, ..] => Some(Version::V5),
        _ => None,
    }
}

/// Where the outside was reached.
pub fn reached_at(decisions: &[Decision]) -> Option<Endpoint>
    ensures { result ≡ first_reached decisions.now }
{
    match decisions {
        [] => None,
        [Decision::Reached { to: _, at }, ..] => *at,
        [_, rest @ ..] => reached_at(rest),
    }
}

/// Whether a login was asked for (RFC 1928, section 3).
fn asks_login(chosen: Option<Chosen>) -> bool
    ensures { result ≡ login_is_asked chosen }
{
    match chosen {
        None => false,
        Some(chosen) => chosen.method == 2,
    }
}

fn is_login_failed(cause: Option<Cause>) -> bool
    ensures { result ≡ fails_login cause }
{
    matches!(cause, Some(Cause::LoginFailed))
}

/// Whether a login was asked for, is whole and didn't fail.
fn has_passed(chosen: Option<Chosen>, c: &[u8], cause: Option<Cause>) -> bool
    ensures { result ≡ passes chosen c.now cause }
{
    asks_login(chosen) && has_login(c) && !is_login_failed(cause)
}

/// Whether a byte that is bad stands where the login begins.
fn is_in_login(chosen: Option<Chosen>, c: &[u8], cause: Cause) -> bool
    ensures { result ≡ in_login_by chosen c.now cause }
{
    match cause {
        Cause::BadVersion { at, .. } => asks_login(chosen) && at == greeting_length(c) as u64,
        _ => false,
    }
}

/// The answer to the greeting (RFC 1928, section 3).
fn add_method_reply(owed: &mut Text, chosen: Option<Chosen>) -> Result<(), AllocError>
    ensures { OnOk result (owed.new ≡ owed.old ++ chosen_reply chosen) }
{
    match chosen {
        Some(chosen) if chosen.method != 255 => owed.add(write_method(chosen.method).as_slice()),
        _ => Ok(()),
    }
}

/// The answers to the greeting and to the login (RFC 1928, section 3, and RFC 1929, section 2).
fn add_opening(
    owed: &mut Text,
    c: &[u8],
    chosen: Option<Chosen>,
    cause: Option<Cause>,
) -> Result<(), AllocError>
    ensures { OnOk result (owed.new ≡ owed.old ++ opening_owed c.now chosen cause) }
{
    add_method_reply(owed, chosen)?;
    if has_passed(chosen, c, cause) {
        owed.add(write_status(0).as_slice())?;
    }
    Ok(())
}

/// The reply of success to a CONNECT (RFC 1928, section 6).
fn add_success(owed: &mut Text, c: &[u8], at: Endpoint) -> Result<(), AllocError>
    ensures { OnOk result (owed.new ≡ owed.old ++ success (first_version c.now) Command.Connect at) }
{
    match version_of(c) {
        None => Ok(()),
        Some(Version::V4) => {
            let granted = Reply4 {
                code: 90,
                port: 0,
                addr: 0,
            };
            owed.add(write_reply4(&granted).as_slice())
        }
        Some(Version::V5) => owed.add(write_reply5(0, &at).as_slice()),
    }
}

/// How a cause is answered before the relay: by a code of SOCKS 5 (91 in SOCKS 4), by bytes of its own, or not at all.
#[derive(Clone, Copy, Debug, PartialEq, Eq)]
pub enum Reply {
    Code(u8),
    Bytes(u8, u8),
    Silence,
}

/// The answer to each cause, where no proxy is used (RFC 1928, section 6; RFC 1929, section 2, for a bad byte in the login).
fn answer_to(in_login: bool, cause: Cause) -> Reply
    ensures { answer_of result ≡ answer_due (record { in_login = in_login; proxy5 = false; granting_udp = false }) cause }
{
    match cause {
        Cause::Denied { .. } | Cause::Full { .. } | Cause::WrongPeer { .. } => Reply::Code(2),
        Cause::NetUnreachable => Reply::Code(3),
        Cause::HostUnreachable | Cause::NotFound => Reply::Code(4),
        Cause::Refused => Reply::Code(5),
        Cause::CommandUnsupported { .. } => Reply::Code(7),
        Cause::AtypUnsupported { .. } => Reply::Code(8),
        Cause::BadVersion { .. } if in_login => Reply::Bytes(1, 1),
        Cause::BadVersion { .. }
        | Cause::BadRequest { .. }
        | Cause::Upstream { .. }
        | Cause::UpstreamBad { .. }
        | Cause::NetFault
        | Cause::DoorFault
        | Cause::TargetFault
        | Cause::LogFault
        | Cause::OutOfTurn(_) => Reply::Code(1),
        Cause::NoMethod => Reply::Bytes(5, 255),
        Cause::LoginFailed => Reply::Bytes(1, 1),
        Cause::Finished
        | Cause::ClientBlocked { .. }
        | Cause::Crowded { .. }
        | Cause::ClientGone { .. }
        | Cause::ClientFault
        | Cause::PortFault
        | Cause::TimedOut { .. }
        | Cause::Stopped { .. }
        | Cause::Memory => Reply::Silence,
    }
}

/// The refusal that a cause owes.
fn add_refusal(
    owed: &mut Text,
    c: &[u8],
    chosen: Option<Chosen>,
    cause: Cause,
) -> Result<(), AllocError>
    ensures { OnOk result (owed.new ≡ owed.old ++ refusal (first_version c.now) (refused_at chosen c.now cause) cause) }
{
    let Some(version) = version_of(c) else {
        return Ok(());
    };
    match answer_to(is_in_login(chosen, c, cause), cause) {
        Reply::Code(code) => owed.add(failing_reply(version, code).as_slice()),
        Reply::Bytes(first, second) => owed.add(&[first, second]),
        Reply::Silence => Ok(()),
    }
}

/// What is owed to the client before the target's bytes: the answers to the greeting and the login, and the reply of success.
pub fn replies_to_client(alloc: Global, r: &Record) -> Result<Text, AllocError>
    ensures { IfOk result (λ owed. owed ≡ replies_by r.now.c r.now.chosen r.now.cause (first_reached r.now.decisions)) }
{
    let mut owed = Text::make(alloc);
    add_opening(&mut owed, r.c.as_slice(), r.chosen, r.cause)?;
    if let Some(at) = reached_at(r.decisions.as_slice()) {
        add_success(&mut owed, r.c.as_slice(), at)?;
    }
    Ok(owed)
}

/// All that is owed to the client from the beginning: the answers to the greeting and the login, the reply of success and the
/// target's bytes, or a refusal.
pub fn owed_to_client(alloc: Global, r: &Record) -> Result<Text, AllocError>
    ensures { IfOk result (λ owed. owed ≡ owed_c r.now) }
{
    let mut owed = Text::make(alloc);
    add_opening(&mut owed, r.c.as_slice(), r.chosen, r.cause)?;
    match reached_at(r.decisions.as_slice()) {
        Some(at) => {
            add_success(&mut owed, r.c.as_slice(), at)?;
            owed.add(r.t.as_slice())?;
        }
        None => {
            if let Some(cause) = r.cause {
                add_refusal(&mut owed, r.c.as_slice(), r.chosen, cause)?;
            }
        }
    }
    Ok(owed)
}
