use super::*;
use addr_pattern::{BadAt, Front, Name};
use lists::Text;
use socks_grammar::Login;
use std::alloc::Global;
use std::test::*;

const ABC: &[u8] = b"abc:ba7816bf8f01cfea414140de5dae2223b00361a396177a9cb410ff61f20015ad";

/// What a login at the front of bytes is: the name, the password and the length.
fn shown_login(alloc: Global, bytes: &[u8]) -> Result<String, Fail> {
    let mut out = String::new(alloc);
    match read_login(bytes) {
        Front::Whole { value, len } => {
            let LoginAt { name, password } = value;
            let name = str::from_utf8(&bytes[name.at..name.at + name.len])?;
            let password = str::from_utf8(&bytes[password.at..password.at + password.len])?;
            write!(out, "{name} {password} {len}")?;
        }
        Front::More => out.push_str("more")?,
        Front::Bad(BadAt { at, byte, kind }) => write!(out, "{at} {byte} {kind:?}")?,
    }
    Ok(out)
}

/// RFC 1929, section 2: VER, ULEN, UNAME, PLEN, PASSWD.
#[test]
fn logins(rt: HostRuntime) -> Result<(), Fail> {
    let alloc = rt.alloc();
    let rows: [(&[u8], &str); 4] = [
        (b"\x01\x03abc\x02x", "more"),
        (b"\x01\x03abc\x02xyz", "abc xy 8"),
        (b"\x01\x00\x00", "  3"),
        (b"\x05\x01a\x01b", "0 5 Version"),
    ];
    for (bytes, shown) in rows {
        assert_eq!(rt; shown_login(alloc, bytes)?.as_str(), shown, "at {bytes:?}");
    }
    Ok(())
}

#[test]
fn written_messages(rt: HostRuntime) -> Result<(), Fail> {
    let login = Login {
        name: Name::read(b"abc").ok().ok_or("a name")?,
        password: Name::read(b"xy").ok().ok_or("a password")?,
    };
    assert_eq!(rt;
        write_login(&login).as_slice(),
        b"\x01\x03abc\x02xy".as_slice()
    );
    assert_eq!(rt; write_status(0).as_slice(), b"\x01\x00".as_slice());
    let rows: [(&[u8], &str); 2] = [(b"\x01", "more"), (b"\x01\xff\x05", "255 2")];
    for (bytes, shown) in rows {
        let mut out = String::new(rt.alloc());
        match read_status(bytes) {
            Front::Whole { value, len } => write!(out, "{value} {len}")?,
            Front::More => out.push_str("more")?,
            Front::Bad(BadAt { at, byte, kind }) => write!(out, "{at} {byte} {kind:?}")?,
        }
        assert_eq!(rt; out.as_str(), shown, "at {bytes:?}");
    }
    Ok(())
}

/// The names of a text's users, or the line and the kind of its fault.
fn shown_users(alloc: Global, text: &[u8]) -> Result<String, Fail> {
    let mut out = String::new(alloc);
    match Users::read(alloc, text) {
        Ok(users) => {
            for user in users.copy(alloc)?.as_slice() {
                write!(out, "{} ", str::from_utf8(user.name.as_bytes())?)?;
            }
        }
        Err(UsersFault { line, kind }) => write!(out, "{line} {kind:?}")?,
    }
    Ok(out)
}

/// A text in which each `@` stands for the digits of a digest, and each `%` for one digit less.
fn with_digits(alloc: Global, short: &[u8]) -> Result<Text, Fail> {
    let mut text = Text::make(alloc);
    for byte in short {
        if *byte == b'@' {
            text.add(b"ba7816bf8f01cfea414140de5dae2223b00361a396177A9CB410FF61F20015AD")?;
        } else if *byte == b'%' {
            text.add(b"ba7816bf8f01cfea414140de5dae2223b00361a396177a9cb410ff61f20015a")?;
        } else {
            text.push(*byte)?;
        }
    }
    Ok(text)
}

#[test]
fn users_files(rt: HostRuntime) -> Result<(), Fail> {
    let alloc = rt.alloc();
    let rows: [(&[u8], &str); 7] = [
        (b"", ""),
        (b"a:@\r\n\n#\nb#:@\r\nA:@\n", "a b# A "),
        (b"\n\na:\n", "3 BadLine"),
        (b"a:%\n", "1 BadLine"),
        (b"a:@0\n", "1 BadLine"),
        (b"a:g@\n", "1 BadLine"),
        (b"a:@\nb:@\n\na:@\nc\n", "4 Repeated"),
    ];
    for (short, shown) in rows {
        let text = with_digits(alloc, short)?;
        assert_eq!(rt;
            shown_users(alloc, text.as_slice())?.as_str(),
            shown,
            "at {short:?}"
        );
    }
    Ok(())
}

/// FIPS 180-4's digest of `abc`, and that of no bytes.
#[test]
fn checks(rt: HostRuntime) -> Result<(), Fail> {
    let alloc = rt.alloc();
    let mut text = Text::from_slice(
        alloc,
        b"z:e3b0c44298fc1c149afbf4c8996fb92427ae41e4649b934ca495991b7852b855\n# none\n",
    )?;
    text.add(ABC)?;
    let Ok(users) = Users::read(alloc, text.as_slice()) else {
        return Err(Fail::from("two users"));
    };
    let rows: [(&[u8], &[u8], Option<u32>); 4] = [
        (b"abc", b"abc", Some(2)),
        (b"abc", b"abd", None),
        (b"ABC", b"abc", None),
        (b"z", b"", None),
    ];
    for (name, password, number) in rows {
        assert_eq!(rt;
            users.check(name, password),
            number,
            "at {name:?} {password:?}"
        );
        assert_eq!(rt; Users::empty().check(name, password), None);
    }
    let Ok(users) = Users::read(alloc, ABC) else {
        return Err(Fail::from("one user"));
    };
    assert_eq!(rt; users.copy(alloc)?.check(b"abc", b"abc"), Some(1));
    let Some(user) = users.find(b"abc", b"abc") else {
        return Err(Fail::from("the user"));
    };
    let name: &[u8] = b"abc";
    assert_eq!(rt; user.name.as_bytes(), name);
    Ok(())
}
