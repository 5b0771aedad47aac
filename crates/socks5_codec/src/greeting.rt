ghost use Rattle.socks5_codec.specs.Reads.{OnGreeting, OnMethod};

use crate::message::Greeting;
use addr_pattern::{BadAt, BadKind, Front, Span};

/// The greeting at the front of the bytes (RFC 1928, section 3).
///
/// The first byte is bad where it isn't 5. A greeting may offer no method.
pub fn read_greeting(bytes: &[u8]) -> Front<Greeting>
    ensures { OnGreeting bytes.now result }
{
    match bytes {
        [] | [5] => Front::More,
        [5, count, rest @ ..] => {
            let len = usize::from(*count);
            if rest.len() < len {
                return Front::More;
            }
            let methods = Span { at: 2, len };
            Front::Whole {
                value: Greeting { methods },
                len: 2 + len,
            }
        }
        [version, ..] => Front::Bad(BadAt {
            at: 0,
            byte: *version,
            kind: BadKind::Version,
        }),
    }
}

/// The answer to a greeting, at the front of the bytes (RFC 1928, section 3).
///
/// The first byte is bad where it isn't 5. Any method may be answered.
pub fn read_method(bytes: &[u8]) -> Front<u8>
    ensures { OnMethod bytes.now result }
{
    match bytes {
        [] | [5] => Front::More,
        [5, method, ..] => Front::Whole {
            value: *method,
            len: 2,
        },
        [version, ..] => Front::Bad(BadAt {
            at: 0,
            byte: *version,
            kind: BadKind::Version,
        }),
    }
}
