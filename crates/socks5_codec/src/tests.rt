use super::*;
use addr_pattern::{Addr, BadKind, Endpoint, Front, Host};
use socks_grammar::Command;
use std::test::*;

/// The length of what is whole, or the place and the kind of the bad byte.
fn length_of<T: Drop>(front: Front<T>) -> Result<Option<usize>, (usize, BadKind)> {
    match front {
        Front::Whole { len, .. } => Ok(Some(len)),
        Front::More => Ok(None),
        Front::Bad(bad) => Err((bad.at, bad.kind)),
    }
}

/// Requests, whole, cut off, and with a bad byte (RFC 1928, section 4).
#[test]
fn requests(rt: HostRuntime) {
    let rows: [(&[u8], Result<Option<usize>, (usize, BadKind)>); 4] = [
        (b"\x05\x01\x00\x01\xc6\x33\x64\x0a\x00\x50h", Ok(Some(10))),
        (b"\x05\x01\x00\x03\x06a.test\x01\xbb", Ok(Some(13))),
        (b"\x05\x01\x00\x03\x06a.tes", Ok(None)),
        (b"\x05\x01\x00\x02", Err((3, BadKind::Atyp))),
    ];
    for (bytes, length) in rows {
        assert_eq!(rt; length_of(read_request5(bytes)), length);
    }
}

/// What is written is read again.
#[test]
fn written(rt: HostRuntime) {
    let at = Endpoint {
        addr: Addr::V4(0xc000_0209),
        port: 40000,
    };
    let greeting = write_greeting(true);
    assert_eq!(rt; greeting.as_slice(), b"\x05\x02\x00\x02".as_slice());
    assert_eq!(rt; length_of(read_greeting(greeting.as_slice())), Ok(Some(4)));
    let method = write_method(255);
    assert_eq!(rt; method.as_slice(), b"\x05\xff".as_slice());
    assert_eq!(rt; length_of(read_method(method.as_slice())), Ok(Some(2)));
    let request = write_request5(Command::Connect, &Host::Addr(at.addr), 80);
    assert_eq!(rt; length_of(read_request5(request.as_slice())), Ok(Some(10)));
    let reply = write_reply5(0, &at);
    assert_eq!(rt;
        reply.as_slice(),
        b"\x05\x00\x00\x01\xc0\x00\x02\x09\x9c\x40".as_slice()
    );
    assert_eq!(rt; length_of(read_reply5(reply.as_slice())), Ok(Some(10)));
    let head = write_udp_head(&at);
    assert_eq!(rt; length_of(read_udp_head(head.as_slice())), Ok(Some(10)));
}
