ghost use Rattle.std.specs.Prelude.{◌≡◌, None, IfOk};
ghost use Rattle.socks_grammar.specs.Handshake.{split};
ghost use Rattle.handshake_core.specs.Due.{method_after};
ghost use Rattle.assoc_core.specs.Hearing.{HeardAs, Hears, chosen_as, methods_by as methods_in};

use crate::read::{More, read_more};
use handshake_core::{Handshake, Request, Taken};
use lists::Text;
use net_ends::{Link, PIECE};
use socks_grammar::Method;
use socks_machine::{Cause, Chosen};
use std::alloc::{AllocError, Global};
use user_login::Users;

/// Why nothing more is read of a client that talks.
#[derive(Drop)]
pub enum Heard {
    /// Its prelude is whole.
    Asked(Request),
    /// Its input is no beginning of a prelude, or no method or user fits it.
    Refused(Cause),
    End,
    NotYet,
    Failed,
}

/// What was heard, and the method that is answered to the greeting, once this is whole.
#[derive(Drop)]
pub struct Hearing {
    pub heard: Heard,
    pub method: Option<u8>,
}

/// Reads a client until its prelude is whole or refused, it ends, answers `NotYet` or fails. The bytes that it sent in earlier
/// turns are fed to the handshake first.
pub fn hear<L: Link>(
    alloc: Global,
    methods: &[Method],
    users: &Users,
    text: &mut Text,
    link: &mut L,
) -> Result<Hearing, AllocError>
    ensures hears { IfOk result (λ hearing. Hears (L.told link.old) (L.told link.new) (L.counts link.old) (L.counts link.new) text.old text.new hearing.heard) }
    ensures method { IfOk result (λ hearing. hearing.method ≡ method_after methods.now None text.new) }
    ensures heard { IfOk result (λ hearing. HeardAs (split users.now hearing.method text.new) hearing.heard) }
{
    let mut handshake = Handshake::start();
    let mut taken = handshake.feed_all(methods, users, text.as_slice());
    'reading: while let Taken::Open = taken {
        handshake.is_short(users);
        let before = text.len();
        let method = handshake.method();
        match read_more(alloc, text, link, PIECE)? {
            More::Got(_) => taken = handshake.feed_all(methods, users, &text.as_slice()[before..]),
            More::End => return Ok(Hearing {
                heard: Heard::End,
                method,
            }),
            More::NotYet => return Ok(Hearing {
                heard: Heard::NotYet,
                method,
            }),
            More::Failed => return Ok(Hearing {
                heard: Heard::Failed,
                method,
            }),
        }
    }
    let method = handshake.method();
    match taken {
        Taken::Asked(request) => Ok(Hearing {
            heard: Heard::Asked(request),
            method,
        }),
        Taken::Refused(cause) => Ok(Hearing {
            heard: Heard::Refused(cause),
            method,
        }),
        Taken::Open => unreachable!(),
    }
}

/// The methods by which a greeting is answered: the one that was, or the server's.
pub fn methods_by(chosen: Option<Chosen>, methods: &[Method]) -> &[Method]
    ensures { result.now ≡ methods_in chosen methods.now }
{
    match chosen {
        None => methods,
        Some(chosen) => match chosen.method {
            0 => &[Method::NoAuth],
            2 => &[Method::Username],
            _ => &[],
        },
    }
}

/// The method that is answered as soon as the greeting is whole (RFC 1928, section 3).
pub fn choose(generation: u64, chosen: Option<Chosen>, method: Option<u8>) -> Option<Chosen>
    ensures { result ≡ chosen_as generation chosen method }
{
    match (chosen, method) {
        (Some(_), _) => chosen,
        (None, Some(method)) => Some(Chosen { generation, method }),
        (None, None) => None,
    }
}
