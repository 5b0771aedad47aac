ghost use Rattle.std.specs.Prelude.{◌≡◌, true, IfOk};
ghost use Rattle.handshake_core.specs.Due.{IsOpen};

use super::*;
use addr_pattern::Host;
use lists::Text;
use socks_grammar::{Method, Version};
use socks_machine::Cause;
use std::alloc::Global;
use std::test::*;
use user_login::Users;

const ABC: &[u8] = b"abc:ba7816bf8f01cfea414140de5dae2223b00361a396177a9cb410ff61f20015ad";
/// FIPS 180-4's digest of 255 bytes `p`.
const LONG_DIGEST: &[u8] = b":4ba9d2478d48df07e67431d2a77c039614d9e283125b98379eef55ce82b85d6c";

fn add_bytes(out: &mut String, bytes: &[u8]) -> Result<(), Fail> {
    for byte in bytes {
        write!(out, " {byte}")?;
    }
    Ok(())
}

fn add_request(out: &mut String, request: Request) -> Result<(), Fail> {
    let Request {
        version,
        command,
        method: _,
        user,
        host,
        port,
        len,
    } = request;
    let version = match version {
        Version::V4 => 4,
        Version::V5 => 5,
    };
    write!(out, " ask {version} {command:?} ")?;
    match host {
        Host::Addr(addr) => out.push_str(str::from_utf8(addr.write().as_slice())?)?,
        Host::Name(name) => out.push_str(str::from_utf8(name.as_bytes())?)?,
    }
    write!(out, " {port} {len}")?;
    if let Some(user) = user {
        out.push_str(" by ")?;
        out.push_str(str::from_utf8(user.as_bytes())?)?;
    }
    Ok(())
}

/// Writes what came of bytes, and says whether the client goes on.
fn add_fed(out: &mut String, fed: Fed) -> Result<(), Fail> {
    match fed {
        Fed::Need => {}
        Fed::Say(bytes) => {
            out.push_str(" say")?;
            add_bytes(out, bytes.as_slice())?;
        }
        Fed::Ask(request) => add_request(out, request)?,
        Fed::Bad { cause, say } => {
            write!(out, " {cause:?}")?;
            add_bytes(out, say.as_slice())?;
        }
    }
    Ok(())
}

/// Feeds a piece, and says whether more may come.
fn feed_piece(
    handshake: &mut Handshake,
    methods: &[Method],
    users: &Users,
    piece: &[u8],
    out: &mut String,
) -> Result<bool, Fail>
    requires { IsOpen users.now handshake.old }
    ensures { IfOk result (λ more. more ≡ true → IsOpen users.now handshake.new) }
{
    let mut at = 0;
    'feeding: loop {
        let (taken, fed) = handshake.feed(methods, users, &piece[at..]);
        match fed {
            Fed::Need => return Ok(true),
            Fed::Say(say) => {
                out.push_str(" say")?;
                add_bytes(out, say.as_slice())?;
                at += taken;
            }
            fed => {
                add_fed(out, fed)?;
                return Ok(false);
            }
        }
    }
}

/// What comes of a prelude that is cut at a place.
fn cut_at(
    alloc: Global,
    methods: &[Method],
    users: &Users,
    bytes: &[u8],
    place: usize,
) -> Result<String, Fail> {
    let mut out = String::new(alloc);
    let mut handshake = Handshake::start();
    let place = place.min(bytes.len());
    if feed_piece(&mut handshake, methods, users, &bytes[..place], &mut out)? {
        feed_piece(&mut handshake, methods, users, &bytes[place..], &mut out)?;
    }
    Ok(out)
}

/// What comes of a prelude byte by byte.
fn byte_by_byte(
    alloc: Global,
    methods: &[Method],
    users: &Users,
    bytes: &[u8],
) -> Result<String, Fail> {
    let mut out = String::new(alloc);
    let mut handshake = Handshake::start();
    for i in 0..bytes.len() {
        if !feed_piece(&mut handshake, methods, users, &bytes[i..i + 1], &mut out)? {
            return Ok(out);
        }
    }
    Ok(out)
}

/// What comes of a prelude byte by byte, where the same comes of it cut at every place.
fn in_pieces(
    alloc: Global,
    methods: &[Method],
    users: &Users,
    bytes: &[u8],
) -> Result<String, Fail> {
    let slow = byte_by_byte(alloc, methods, users, bytes)?;
    for place in 0..bytes.len() {
        let cut = cut_at(alloc, methods, users, bytes, place)?;
        if cut.as_str() != slow.as_str() {
            return Ok(format!(in alloc; "cut at {place}:{cut}")?);
        }
    }
    Ok(slow)
}

fn users_of(alloc: Global, file: &[u8]) -> Result<Users, Fail> {
    Users::read(alloc, file).map_err(|_| Fail::from("a users file"))
}

const METHODS: &[Method] = &[Method::Username, Method::NoAuth];

/// RFC 1928 and RFC 1929, and the SOCKS 4 and 4A memos; behind each prelude stands a byte of payload.
#[test]
fn preludes_in_pieces(rt: HostRuntime) -> Result<(), Fail> {
    let alloc = rt.alloc();
    let users = users_of(alloc, ABC)?;
    let rows: [(&[u8], &str); 12] = [
        (
            b"\x05\x01\x00\x05\x01\x00\x01\x7f\x00\x00\x01\x00\x50!",
            " say 5 0 ask 5 Connect 127.0.0.1 80 13",
        ),
        (
            b"\x05\x01\x00\x05\x01\x00\x03\x0bexample.com\x01\xbb!",
            " say 5 0 ask 5 Connect example.com 443 21",
        ),
        (
            b"\x05\x02\x00\x02\x01\x03abc\x03abc\x05\x02\x00\x01\x0a\x00\x00\x01\x00\x50!",
            " say 5 2 say 1 0 ask 5 Bind 10.0.0.1 80 23 by abc",
        ),
        (
            b"\x05\x01\x00\x05\x03\x00\x04\x00\x00\x00\x00\x00\x00\x00\x00\x00\x00\x00\x00\x00\x00\x00\x01\x00\x00!",
            " say 5 0 ask 5 UdpAssociate ::1 0 25",
        ),
        (
            b"\x05\x01\x00\x05\x01\xff\x03\x02!~\x00\x50!",
            " say 5 0 ask 5 Connect !~ 80 12",
        ),
        (
            b"\x05\x01\x00\x05\x01\x00\x03\x03::0\x00\x50!",
            " say 5 0 ask 5 Connect :: 80 13",
        ),
        (
            b"\x04\x01\x00\x50\x0a\x00\x00\x01me\x00!",
            " ask 4 Connect 10.0.0.1 80 11",
        ),
        (
            b"\x04\x01\x00\x50\x0a\x00\x00\x01\xff\x01\x00!",
            " ask 4 Connect 10.0.0.1 80 11",
        ),
        (
            b"\x04\x01\x00\x50\x00\x00\x00\x00\x00!",
            " ask 4 Connect 0.0.0.0 80 9",
        ),
        (
            b"\x04\x02\x00\x50\x00\x00\x00\x01me\x00example.com\x00!",
            " ask 4 Bind example.com 80 23",
        ),
        (
            b"\x04\x01\x00\x50\x00\x00\x00\x01\x00a.test\x00!",
            " ask 4 Connect a.test 80 16",
        ),
        (
            b"\x04\x01\x00\x50\x00\x00\x00\xff\x00!~\x00!",
            " ask 4 Connect !~ 80 12",
        ),
    ];
    for (bytes, shown) in rows {
        let seen = in_pieces(alloc, METHODS, &users, bytes)?;
        assert_eq!(rt; seen.as_str(), shown, "at {bytes:?}");
    }
    Ok(())
}

const REFUSALS_OF_VERSION_5: [(&[u8], &str); 20] = [
    (b"GET", " BadVersion { at: 0, byte: 71 }"),
    (b"\x03!", " BadVersion { at: 0, byte: 3 }"),
    (b"\x06!", " BadVersion { at: 0, byte: 6 }"),
    (b"\x05\x00!", " NoMethod 5 255"),
    (b"\x05\x01\x01!", " NoMethod 5 255"),
    (
        b"\x05\x01\x02\x00!",
        " say 5 2 BadVersion { at: 3, byte: 0 } 1 1",
    ),
    (
        b"\x05\x01\x02\x05\x03abc",
        " say 5 2 BadVersion { at: 3, byte: 5 } 1 1",
    ),
    (
        b"\x05\x01\x02\x01\x03abc\x03abd!",
        " say 5 2 LoginFailed 1 1",
    ),
    (b"\x05\x01\x02\x01\x00\x03abc!", " say 5 2 LoginFailed 1 1"),
    (b"\x05\x01\x02\x01\x03abc\x00!", " say 5 2 LoginFailed 1 1"),
    (
        b"\x05\x01\x02\x01\x03abc\x03abc\x01!",
        " say 5 2 say 1 0 BadVersion { at: 12, byte: 1 } 5 1 0 1 0 0 0 0 0 0",
    ),
    (
        b"\x05\x01\x02\x01\x03abc\x03abc\x05\x01\x00\x03\x01\x7f!",
        " say 5 2 say 1 0 BadRequest { at: 17, byte: 127 } 5 1 0 1 0 0 0 0 0 0",
    ),
    (
        b"\x05\x01\x00\x04!",
        " say 5 0 BadVersion { at: 3, byte: 4 } 5 1 0 1 0 0 0 0 0 0",
    ),
    (
        b"\x05\x01\x00\x05\x00!",
        " say 5 0 CommandUnsupported { at: 4, byte: 0 } 5 7 0 1 0 0 0 0 0 0",
    ),
    (
        b"\x05\x01\x00\x05\x04!",
        " say 5 0 CommandUnsupported { at: 4, byte: 4 } 5 7 0 1 0 0 0 0 0 0",
    ),
    (
        b"\x05\x01\x00\x05\x01\x00\x02!",
        " say 5 0 AtypUnsupported { at: 6, byte: 2 } 5 8 0 1 0 0 0 0 0 0",
    ),
    (
        b"\x05\x01\x00\x05\x01\x00\x05!",
        " say 5 0 AtypUnsupported { at: 6, byte: 5 } 5 8 0 1 0 0 0 0 0 0",
    ),
    (
        b"\x05\x01\x00\x05\x01\x00\x03\x00!",
        " say 5 0 BadRequest { at: 7, byte: 0 } 5 1 0 1 0 0 0 0 0 0",
    ),
    (
        b"\x05\x01\x00\x05\x01\x00\x03\x02 a",
        " say 5 0 BadRequest { at: 8, byte: 32 } 5 1 0 1 0 0 0 0 0 0",
    ),
    (
        b"\x05\x01\x00\x05\x01\x00\x03\x02a\x7f!",
        " say 5 0 BadRequest { at: 9, byte: 127 } 5 1 0 1 0 0 0 0 0 0",
    ),
];

const LONG_PRELUDES: [(&[(&[u8], u32)], &[(&[u8], u32)]); 6] = [
    (
        &[
            (b"\x04\x01\x00\x50\x0a\x00\x00\x01", 1),
            (b"\xff", 255),
            (b"\x00!", 1),
        ],
        &[(b" ask 4 Connect 10.0.0.1 80 264", 1)],
    ),
    (
        &[
            (b"\x04\x01\x00\x50\x0a\x00\x00\x01", 1),
            (b"\xff", 256),
            (b"\x00!", 1),
        ],
        &[(b" BadRequest { at: 263, byte: 255 } 0 91 0 0 0 0 0 0", 1)],
    ),
    (
        &[
            (b"\x04\x01\x00\x50\x00\x00\x00\x01", 1),
            (b"\xff", 255),
            (b"\x00", 1),
            (b"n", 255),
            (b"\x00!", 1),
        ],
        &[(b" ask 4 Connect ", 1), (b"n", 255), (b" 80 520", 1)],
    ),
    (
        &[
            (b"\x04\x01\x00\x50\x00\x00\x00\x01\x00", 1),
            (b"n", 256),
            (b"\x00!", 1),
        ],
        &[(b" BadRequest { at: 264, byte: 110 } 0 91 0 0 0 0 0 0", 1)],
    ),
    (
        &[
            (b"\x05\xff", 1),
            (b"\x01", 254),
            (b"\x00\x05\x01\x00\x03\xff", 1),
            (b"n", 254),
            (b" \x00\x50!", 1),
        ],
        &[(
            b" say 5 0 BadRequest { at: 516, byte: 32 } 5 1 0 1 0 0 0 0 0 0",
            1,
        )],
    ),
    (
        &[
            (b"\x05\xff", 1),
            (b"\x01", 254),
            (b"\x02\x01\xff", 1),
            (b"u", 255),
            (b"\xff", 1),
            (b"p", 255),
            (b"\x05\x01\x00\x03\xff", 1),
            (b"n", 255),
            (b"\x00\x50!", 1),
        ],
        &[
            (b" say 5 2 say 1 0 ask 5 Connect ", 1),
            (b"n", 255),
            (b" 80 1032 by ", 1),
            (b"u", 255),
        ],
    ),
];

/// Behind each prelude stands a byte of payload.
#[test]
fn whole_inputs(rt: HostRuntime) -> Result<(), Fail> {
    let users = users_of(rt.alloc(), ABC)?;
    let rows: [(&[u8], Option<u8>, usize); 3] = [
        (
            b"\x05\x01\x00\x05\x01\x00\x01\x7f\x00\x00\x01\x00\x50P",
            Some(0),
            13,
        ),
        (
            b"\x05\x01\x02\x01\x03abc\x03abc\x05\x01\x00\x01\x7f\x00\x00\x01\x00\x50P",
            Some(2),
            22,
        ),
        (b"\x04\x01\x00\x50\x7f\x00\x00\x01\x00P", None, 9),
    ];
    for (bytes, method, len) in &rows {
        let mut handshake = Handshake::start();
        let Taken::Asked(request) = handshake.feed_all(METHODS, &users, bytes) else {
            return Err("a request".into());
        };
        assert_eq!(rt; request.len, *len as u64);
        assert_eq!(rt; handshake.method(), *method);
        assert_eq!(rt; prelude_length(*method, bytes), *len);
        let Some(asked) = whole_request(&users, method.unwrap_or(0), bytes) else {
            return Err("a request".into());
        };
        assert_eq!(rt; asked.len, *len as u64);
        assert!(rt; is_served_input(&users, bytes));
    }
    let mut begun = Handshake::start();
    assert!(rt; matches!(begun.feed_all(METHODS, &users, b"\x05\x01"), Taken::Open));
    let mut other = Handshake::start();
    let refused = Cause::BadVersion { at: 0, byte: 71 };
    let Taken::Refused(cause) = other.feed_all(METHODS, &users, b"GET") else {
        return Err("a refusal".into());
    };
    assert_eq!(rt; cause, refused);
    Ok(())
}
