//! Refusals.
ghost use Rattle.std.specs.Prelude.{◌≡◌, ◌+◌, ◌<◌, ◌^◌};
ghost use Rattle.socks_machine.specs.Replies.{failing_reply as failing_reply_of};
ghost use Rattle.socks_machine.specs.Settle.{bad_cause as bad_cause_of};
ghost use Rattle.handshake_core.specs.Refusing.{code_of};
ghost use Rattle.handshake_core.specs.Standing.{Refuses};

use crate::fed::Fed;
use crate::state::{Stage, State};
use addr_pattern::{Addr, BadAt, BadKind, Endpoint, Short};
use socks_grammar::Version;
use socks_machine::Cause;
use socks4_codec::{Reply4, write_reply4};
use socks5_codec::write_reply5;

/// The code of SOCKS 5 for a byte that is bad in a request (RFC 1928, section 6).
fn code(kind: BadKind) -> u8
    ensures { result ≡ code_of kind }
{
    match kind {
        BadKind::Version | BadKind::Field => 1,
        BadKind::Command => 7,
        BadKind::Atyp => 8,
    }
}

/// The reply that refuses a request: the code 91 in SOCKS 4, and this one in SOCKS 5, with the endpoint 0.0.0.0:0 (RFC 1928,
/// section 6, and the SOCKS 4 memo).
pub fn failing_reply(version: Version, code: u8) -> Short
    ensures { result ≡ failing_reply_of version code }
{
    match version {
        Version::V4 => write_reply4(&Reply4 {
            code: 91,
            port: 0,
            addr: 0,
        }),
        Version::V5 => {
            let nowhere = Endpoint {
                addr: Addr::V4(0),
                port: 0,
            };
            write_reply5(code, &nowhere)
        }
    }
}

/// The answer to a request with a bad byte (RFC 1928, section 6, and the SOCKS 4 memo).
pub fn failing(version: Version, kind: BadKind) -> Short
    ensures { result ≡ failing_reply_of version (code_of kind) }
{
    failing_reply(version, code(kind))
}

/// The cause for a bad byte of a message that has so many bytes before it.
pub fn bad_cause(before: usize, bad: &BadAt) -> Cause
    requires { before + bad.now.at < 2 ^ 64 }
    ensures { result ≡ bad_cause_of (before + bad.now.at) bad.now.byte bad.now.kind }
{
    let at = (before + bad.at) as u64;
    let byte = bad.byte;
    match bad.kind {
        BadKind::Version => Cause::BadVersion { at, byte },
        BadKind::Command => Cause::CommandUnsupported { at, byte },
        BadKind::Atyp => Cause::AtypUnsupported { at, byte },
        BadKind::Field => Cause::BadRequest { at, byte },
    }
}

/// After a refusal no more is heard.
pub fn refuse(state: &mut State, cause: Cause, say: Short) -> Fed
    ensures { Refuses state.old state.new cause say result }
{
    state.stage = Stage::Over;
    Fed::Bad { cause, say }
}
