use super::{Desk, DeskCall};
use addr_pattern::{Addr, Endpoint};
use rule_list::{Facts, Verdict};
use socks_grammar::{Command, Method, Version};
use socks_machine::{Cause, CloseLine, GrantLine, ListKind, OpenLine, Said, Shut, Standing};
use std::test::Fail;

fn endpoint() -> Endpoint {
    Endpoint {
        addr: Addr::V4(0x7f00_0001),
        port: 1080,
    }
}

fn open(desk: &mut Desk, number: u64, pass: bool) -> Said {
    let line = OpenLine {
        number,
        generation: 1,
        rule: None,
        pass,
        peer: endpoint(),
        local: endpoint(),
    };
    desk.open(&line)
}

fn facts() -> Facts {
    Facts {
        peer: endpoint(),
        local: endpoint(),
        command: Command::Connect,
        version: Version::V5,
        method: Method::NoAuth,
        user: None,
        from: endpoint(),
        to: endpoint(),
        name: None,
    }
}

fn grant(desk: &mut Desk, number: u64, verdict: Verdict, max: (Option<u32>, Option<u32>)) -> Said {
    let line = GrantLine {
        number,
        generation: 1,
        facts: facts(),
        verdict,
        client_max: max.0,
        socks_max: max.1,
    };
    desk.grant(&line)
}

fn close(desk: &mut Desk, number: u64) -> Shut {
    let line = CloseLine {
        number,
        cause: Cause::Finished,
        took: (0, 0),
        sent: (0, 0),
    };
    desk.close(&line)
}

const PASS: Verdict = Verdict::Pass {
    client: 1,
    socks: 2,
};

#[test]
fn limits_of_both_rules(rt: HostRuntime) -> Result<(), Fail> {
    let mut desk = Desk::make(rt.alloc(), 3)?;
    assert_eq!(rt; open(&mut desk, 1, true), Said::Done(1));
    assert_eq!(rt; open(&mut desk, 2, true), Said::Done(2));
    assert_eq!(rt; open(&mut desk, 3, true), Said::Done(3));
    assert_eq!(rt;
        grant(&mut desk, 1, PASS, (Some(1), Some(1))),
        Said::Done(4)
    );
    let client = Said::Full {
        list: ListKind::Client,
        rule: 1,
        held: 1,
        limit: 1,
    };
    assert_eq!(rt; grant(&mut desk, 2, PASS, (Some(1), Some(1))), client);
    let socks = Said::Full {
        list: ListKind::Socks,
        rule: 2,
        held: 1,
        limit: 1,
    };
    assert_eq!(rt; grant(&mut desk, 2, PASS, (Some(2), Some(1))), socks);
    let blocked = Verdict::SocksBlock {
        client: 1,
        socks: 2,
    };
    assert_eq!(rt;
        grant(&mut desk, 3, blocked, (Some(1), Some(1))),
        Said::Done(7)
    );
    assert_eq!(rt; close(&mut desk, 1), Shut::Done(8));
    assert_eq!(rt;
        grant(&mut desk, 2, PASS, (Some(1), Some(1))),
        Said::Done(9)
    );
    assert_eq!(rt; close(&mut desk, 3), Shut::Done(10));
    assert_eq!(rt; close(&mut desk, 2), Shut::Done(11));
    assert_eq!(rt; close(&mut desk, 2), Shut::OutOfTurn(Standing::Absent));
    Ok(())
}
