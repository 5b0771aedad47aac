use super::*;
use addr_pattern::{Addr, BadKind, Front, Host};
use socks_grammar::Command;
use std::test::*;

/// The length of what is whole, or the place and the kind of the bad byte.
fn length_of<T: Drop>(front: Front<T>) -> Result<Option<usize>, (usize, BadKind)> {
    match front {
        Front::Whole { len, .. } => Ok(Some(len)),
        Front::More => Ok(None),
        Front::Bad(bad) => Err((bad.at, bad.kind)),
    }
}

/// The requests of the memos, whole, cut off, and with a bad byte.
#[test]
fn requests(rt: HostRuntime) {
    let rows: [(&[u8], Result<Option<usize>, (usize, BadKind)>); 4] = [
        (b"\x04\x01\x00\x50\xc6\x33\x64\x0a\x00h", Ok(Some(9))),
        (
            b"\x04\x01\x00\x50\x00\x00\x00\x01\x00a.test\x00",
            Ok(Some(16)),
        ),
        (b"\x04\x01\x00\x50\x00\x00\x00\x01\x00a.test", Ok(None)),
        (b"\x04\x03", Err((1, BadKind::Command))),
    ];
    for (bytes, length) in rows {
        assert_eq!(rt; length_of(read_request4(bytes)), length);
    }
}

/// What is written is read again.
#[test]
fn written(rt: HostRuntime) {
    let host = Host::Addr(Addr::V4(0xc633_640a));
    let request = write_request4(Command::Connect, &host, 80, b"");
    assert_eq!(rt;
        request.as_slice(),
        b"\x04\x01\x00\x50\xc6\x33\x64\x0a\x00".as_slice()
    );
    let reply = Reply4 {
        code: 90,
        port: 40001,
        addr: 0xc000_0209,
    };
    let bytes = write_reply4(&reply);
    assert_eq!(rt;
        bytes.as_slice(),
        b"\x00\x5a\x9c\x41\xc0\x00\x02\x09".as_slice()
    );
    assert_eq!(rt; length_of(read_reply4(bytes.as_slice())), Ok(Some(8)));
}
