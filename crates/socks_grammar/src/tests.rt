use super::*;
use std::test::*;

/// The first bytes and the codes that the standards print.
#[test]
fn the_codes(rt: HostRuntime) {
    for (byte, version) in [
        (4, Some(Version::V4)),
        (5, Some(Version::V5)),
        (0, None),
        (71, None),
    ] {
        assert_eq!(rt; Version::of_first_byte(byte), version, "at {byte}");
    }
    assert_eq!(rt; Method::NoAuth.code(), 0);
    assert_eq!(rt; Method::Username.code(), 2);
}
