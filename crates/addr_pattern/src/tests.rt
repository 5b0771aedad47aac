use super::{
    Addr, AddrFault, Endpoint, Host, HostPattern, Name, Pattern, PortTest, read_number,
    read_port_part, write_number,
};
use std::test::Fail;

fn name(text: &str) -> Result<Name, AddrFault> {
    Name::read(text.as_bytes())
}

fn net(addr: Addr, bits: u8) -> Pattern {
    Pattern {
        host: HostPattern::Net { addr, bits },
        port: PortTest::Any,
    }
}

fn ports(port: PortTest) -> Pattern {
    Pattern {
        host: HostPattern::Any,
        port,
    }
}

#[test]
fn ports_and_networks(rt: HostRuntime) -> Result<(), Fail> {
    let at = Addr::V4(0xc633_640a);
    let rows = [
        (ports(PortTest::Lt(80)), false),
        (ports(PortTest::Range(1, 80)), true),
        (net(at, 32), true),
        (net(Addr::V4(0xc633_640b), 32), false),
        (net(Addr::V6(0), 0), false),
    ];
    for (pattern, matches) in &rows {
        assert_eq!(rt; pattern.matches(None, &at, 80), *matches);
    }
    Ok(())
}

#[test]
fn names(rt: HostRuntime) -> Result<(), Fail> {
    let at = Addr::V4(0xc633_640a);
    let domain = Pattern {
        host: HostPattern::Domain(name("Example.COM")?),
        port: PortTest::Any,
    };
    for (text, matches) in [("www.EXAMPLE.com.", true), ("badexample.com", false)] {
        assert_eq!(rt;
            domain.matches(Some(&name(text)?), &at, 80),
            matches,
            "{text}"
        );
    }
    assert!(rt; matches!(Host::read(b"::1")?, Host::Addr(Addr::V6(1))));
    assert_eq!(rt; read_number(b"60", 60), Some(60));
    assert_eq!(rt; write_number(60).as_slice(), b"60".as_slice());
    Ok(())
}

#[test]
fn addresses(rt: HostRuntime) -> Result<(), Fail> {
    // A text that is read, and the text that is written for it.
    let texts = [
        ("0.0.0.0", "0.0.0.0"),
        ("255.255.255.255", "255.255.255.255"),
        ("198.51.100.10", "198.51.100.10"),
        ("::", "::"),
        ("::1", "::1"),
        ("1::", "1::"),
        ("2001:DB8:0:0::1", "2001:db8::1"),
        ("::ffff:192.0.2.1", "::ffff:c000:201"),
        ("0:0:1:0:0:0:0:1", "0:0:1::1"),
        ("1:0:0:2:3:0:0:4", "1::2:3:0:0:4"),
        ("1:2:3:4:5:6:7::", "1:2:3:4:5:6:7:0"),
        ("1:2:3:4:5:6:1.2.3.4", "1:2:3:4:5:6:102:304"),
        (
            "2001:0db8:0001:0000:0001:0001:0001:0001",
            "2001:db8:1:0:1:1:1:1",
        ),
    ];
    for (text, written) in texts {
        assert_eq!(rt;
            Addr::read(text.as_bytes())?.write().as_slice(),
            written.as_bytes()
        );
    }
    Ok(())
}

#[test]
fn bad_addresses(rt: HostRuntime) -> Result<(), Fail> {
    let texts = [
        ("", AddrFault::Empty),
        ("1.2.3.256", AddrFault::BadOctet),
        ("01.2.3.4", AddrFault::BadOctet),
        ("1::2::3", AddrFault::BadGroup),
        ("fe80::1%eth0", AddrFault::BadGroup),
    ];
    for (text, fault) in texts {
        assert_eq!(rt; Addr::read(text.as_bytes()), Err(fault));
    }
    Ok(())
}

#[test]
fn endpoints(rt: HostRuntime) -> Result<(), Fail> {
    let texts = [
        ("10.0.0.1:1080", "10.0.0.1:1080"),
        ("10.0.0.1:0", "10.0.0.1:0"),
        ("[::1]:65535", "[::1]:65535"),
        ("[2001:DB8::1]:1", "[2001:db8::1]:1"),
    ];
    for (text, written) in texts {
        assert_eq!(rt;
            Endpoint::read(text.as_bytes())?.write().as_slice(),
            written.as_bytes()
        );
    }
    for text in ["1.2.3.4", "x:65536", "[::1]"] {
        assert_eq!(rt; Endpoint::read(text.as_bytes()), Err(AddrFault::BadPort));
    }
    Ok(())
}

#[test]
fn port_parts(rt: HostRuntime) -> Result<(), Fail> {
    let texts = [
        ("port = 1080", Some(1080)),
        (" port=socks", Some(1080)),
        ("port 65536", None),
    ];
    for (text, port) in texts {
        assert_eq!(rt; read_port_part(text.as_bytes()), port, "{text}");
    }
    Ok(())
}

#[test]
fn patterns(rt: HostRuntime) -> Result<(), Fail> {
    // A text that is read, and the canonical text for it.
    let texts = [
        ("0/0", "0/0"),
        ("0/0  port   1 -  ssh", "0/0 port 1-22"),
        ("0/0 port=http", "0/0 port = 80"),
        ("0/0 port neq 1", "0/0 port != 1"),
        ("0/0 port>=1", "0/0 port >= 1"),
        ("198.51.100.10/32", "198.51.100.10"),
        ("2001:DB8::/32 port 80", "2001:db8::/32 port = 80"),
        (".Example.COM", ".Example.COM"),
    ];
    for (text, written) in texts {
        let pattern = Pattern::read(text.as_bytes())?;
        assert_eq!(rt; pattern.write().as_slice(), written.as_bytes());
        assert_eq!(rt; pattern.copy().write().as_slice(), written.as_bytes());
    }
    Ok(())
}

#[test]
fn bad_patterns(rt: HostRuntime) -> Result<(), Fail> {
    let faults = [
        ("/8", AddrFault::Empty),
        ("a@b", AddrFault::BadName),
        ("10.0.0.1/8", AddrFault::HostBits),
        ("10.0.0.0/33", AddrFault::BadMask),
        ("1.2.3", AddrFault::BadOctet),
        ("0/0 port 5-4", AddrFault::BadPort),
    ];
    for (text, fault) in faults {
        match Pattern::read(text.as_bytes()) {
            Ok(_) => assert!(rt; false, "{text}"),
            Err(found) => assert_eq!(rt; found, fault, "{text}"),
        }
    }
    Ok(())
}
