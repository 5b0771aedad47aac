use super::{
    add_bytes, add_cause, add_close, add_end, add_ends, add_open, add_publish, add_see, add_turn,
};
use addr_pattern::{Addr, Endpoint};
use lists::{List, Text};
use rule_list::Verdict;
use socks_grammar::Stage;
use socks_machine::{Cause, NextMark, Record, StopBy};
use std::alloc::{AllocError, Global};
use std::test::Fail;

fn cause_of(alloc: Global, cause: Cause) -> Result<Text, AllocError> {
    let mut out = Text::make(alloc);
    add_cause(alloc, &mut out, &cause)?;
    Ok(out)
}

/// A cause of each shape.
#[test]
fn causes(rt: HostRuntime) -> Result<(), Fail> {
    let verdict = Verdict::SocksNone { client: 12 };
    let by = StopBy::Control;
    let (since, now, limit) = (5, 35, 30);
    for (cause, text) in [
        (Cause::NotFound, "notfound"),
        (
            Cause::BadVersion { at: 0, byte: 22 },
            "badversion at 0 byte 16",
        ),
        (
            Cause::Denied {
                generation: 1,
                verdict,
            },
            "denied gen 1 client 12 socks none",
        ),
        (
            Cause::TimedOut { since, now, limit },
            "timedout since 5 now 35 limit 30",
        ),
        (
            Cause::Upstream {
                stage: Stage::Reply,
                code: 91,
            },
            "upstream reply 5b",
        ),
        (Cause::Stopped { by }, "stopped control"),
    ] {
        assert_eq!(rt; cause_of(rt.alloc(), cause)?.as_slice(), text.as_bytes());
    }
    Ok(())
}

/// The addresses are those of RFC 5952, sections 1, 4.2.2 and 4.2.3.
#[test]
fn causes_of_addresses(rt: HostRuntime) -> Result<(), Fail> {
    let four = Addr::V4(0xc000_0209);
    for (peer, asked, text) in [
        (
            four,
            Addr::V4(0xffff_ffff),
            "wrongpeer 192.0.2.9:80 asked 255.255.255.255",
        ),
        (four, Addr::V6(0), "wrongpeer 192.0.2.9:80 asked ::"),
        (Addr::V6(1), four, "wrongpeer [::1]:80 asked 192.0.2.9"),
        (
            Addr::V6(0x2001_0db8_0000_0000_0001_0000_0000_0001),
            four,
            "wrongpeer [2001:db8::1:0:0:1]:80 asked 192.0.2.9",
        ),
        (
            four,
            Addr::V6(0x2001_0db8_0000_0001_0001_0001_0001_0001),
            "wrongpeer 192.0.2.9:80 asked 2001:db8:0:1:1:1:1:1",
        ),
        (
            four,
            Addr::V6(0x2001_0000_0000_0001_0000_0000_0000_0001),
            "wrongpeer 192.0.2.9:80 asked 2001:0:0:1::1",
        ),
    ] {
        let peer = Endpoint {
            addr: peer,
            port: 80,
        };
        let text_of = cause_of(rt.alloc(), Cause::WrongPeer { peer, asked })?;
        assert_eq!(rt; text_of.as_slice(), text.as_bytes());
    }
    Ok(())
}

fn ended(alloc: Global, cause: Option<Cause>, done: bool) -> Result<Record, AllocError> {
    let at = Endpoint {
        addr: Addr::V4(0x7f00_0001),
        port: 1080,
    };
    Ok(Record {
        number: 1,
        peer: at,
        local: at,
        since: 0,
        c: Text::make(alloc),
        t: Text::make(alloc),
        sent_c: Text::from_slice(alloc, &[5, 0])?,
        sent_t: Text::make(alloc),
        end_c: true,
        end_t: true,
        shut_c: true,
        shut_t: true,
        chosen: None,
        decisions: List::make(alloc),
        grams: List::make(alloc),
        sent_u: List::make(alloc),
        cause,
        at_close: None,
        done,
    })
}

#[test]
fn lines_of_a_replay(rt: HostRuntime) -> Result<(), Fail> {
    let alloc = rt.alloc();
    let record = ended(alloc, Some(Cause::Finished), true)?;
    let mut out = Text::make(alloc);
    add_publish(alloc, &mut out, 1)?;
    add_see(alloc, &mut out, 1, 1)?;
    add_open(alloc, &mut out, 1, 1)?;
    add_close(&mut out)?;
    add_turn(
        alloc,
        &mut out,
        1,
        1,
        (0, 0),
        (0, 0),
        NextMark::Done,
        &record,
    )?;
    add_ends(alloc, &mut out, &record)?;
    let text =
        "publish 1\nsee 1 1\nopen 1 1\nclose\nturn 1 1 gen 1 took 0 0 sent 0 0 done finished\nclient 1 0500\ntarget 1 -\nend 1 finished\n";
    assert_eq!(rt; out.as_slice(), text.as_bytes());
    Ok(())
}

#[test]
fn an_open_end_and_bytes(rt: HostRuntime) -> Result<(), Fail> {
    let alloc = rt.alloc();
    let record = ended(alloc, None, false)?;
    let mut out = Text::make(alloc);
    add_end(alloc, &mut out, &record)?;
    add_bytes(&mut out, &[])?;
    add_bytes(&mut out, &[0, 175])?;
    assert_eq!(rt; out.as_slice(), b"open-00af".as_slice());
    Ok(())
}
