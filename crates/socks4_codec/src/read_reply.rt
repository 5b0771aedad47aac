ghost use Rattle.socks4_codec.specs.Reads.{OnReply4};

use crate::reply::Reply4;
use addr_pattern::{BadAt, BadKind, Front};

/// The reply at the front of the bytes (the SOCKS 4 memo).
///
/// A byte is bad where the first isn't 0, or the code isn't 90 to 93.
pub fn read_reply4(bytes: &[u8]) -> Front<Reply4>
    ensures { OnReply4 bytes.now result }
{
    match bytes {
        [0, code @ 90..=93, p, q, a, b, c, d, ..] => Front::Whole {
            value: Reply4 {
                code: *code,
                port: u16::from_be_bytes([*p, *q]),
                addr: u32::from_be_bytes([*a, *b, *c, *d]),
            },
            len: 8,
        },
        [] | [0] | [0, 90..=93, ..] => Front::More,
        [0, code, ..] => Front::Bad(BadAt {
            at: 1,
            byte: *code,
            kind: BadKind::Field,
        }),
        [version, ..] => Front::Bad(BadAt {
            at: 0,
            byte: *version,
            kind: BadKind::Version,
        }),
    }
}
