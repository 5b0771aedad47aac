use super::*;
use lists::Memory;
use net_ends::MemLink;
use std::alloc::Global;
use std::test::*;

/// What arrives at a side, whether its end does, how many bytes it can take, and what it is to have taken then.
#[derive(Clone, Copy)]
struct Given {
    gives: &'static str,
    ends: bool,
    room: usize,
    took: &'static str,
    shut: bool,
}

/// What is held of the client's, what was taken of the target before, and the answer that is wanted.
#[derive(Clone, Copy)]
struct Pumping {
    held: &'static str,
    client: Given,
    target: Given,
    taken: u64,
    answer: Pumped,
}

/// A side with much room that gives nothing yet.
const QUIET: Given = Given {
    gives: "",
    ends: false,
    room: 9,
    took: "",
    shut: false,
};

const HELLO: Given = Given {
    gives: "hello",
    ends: true,
    room: 9,
    took: "world!",
    shut: true,
};

const WORLD: Given = Given {
    gives: "world!",
    ends: true,
    room: 9,
    took: "hello",
    shut: true,
};

const BOTH: Pumping = Pumping {
    held: "",
    client: HELLO,
    target: WORLD,
    taken: 0,
    answer: Pumped::Ended,
};

const CASES: &[Pumping] = &[
    BOTH,
    Pumping {
        client: QUIET,
        target: QUIET,
        answer: Pumped::Idle,
        ..BOTH
    },
    // The client alone has ended, and the target alone.
    Pumping {
        client: Given {
            shut: false,
            ..HELLO
        },
        target: Given {
            ends: false,
            ..WORLD
        },
        answer: Pumped::Idle,
        ..BOTH
    },
    Pumping {
        client: Given {
            ends: false,
            ..HELLO
        },
        target: Given {
            shut: false,
            ..WORLD
        },
        answer: Pumped::Idle,
        ..BOTH
    },
    // No room, room for one byte, and room for some of what was held and given.
    Pumping {
        client: Given {
            room: 0,
            took: "",
            shut: false,
            ..HELLO
        },
        target: Given {
            room: 1,
            took: "h",
            shut: false,
            ..WORLD
        },
        answer: Pumped::Idle,
        ..BOTH
    },
    Pumping {
        held: "ab",
        target: Given {
            room: 3,
            took: "abh",
            shut: false,
            ..WORLD
        },
        answer: Pumped::Idle,
        ..BOTH
    },
    // One byte is left of the target's quantum.
    Pumping {
        client: Given {
            took: "w",
            shut: false,
            ..HELLO
        },
        taken: 65535,
        answer: Pumped::Moved,
        ..BOTH
    },
];

fn link(alloc: Global, gives: &[u8], ends: bool, room: usize) -> Result<MemLink, Memory> {
    let mut link = MemLink::make(alloc, room)?;
    link.arrive(gives)?;
    if ends {
        link.end();
    }
    Ok(link)
}

fn side(alloc: Global, given: &Given) -> Result<MemLink, Memory> {
    link(alloc, given.gives.as_bytes(), given.ends, given.room)
}

fn is_as(link: &MemLink, given: &Given) -> bool {
    link.taken() == given.took.as_bytes() && link.was_shut() == given.shut
}

/// Whether a call of `pump` comes out as it is wanted.
fn pumps_so(alloc: Global, case: &Pumping) -> Result<bool, Memory> {
    let mut client = side(alloc, &case.client)?;
    let mut target = side(alloc, &case.target)?;
    let mut relay = Relay::make(alloc)?;
    relay.hold(case.held.as_bytes())?;
    let answer = relay.pump(&mut client, &mut target, case.taken.min(65_535));
    Ok(answer == case.answer && is_as(&client, &case.client) && is_as(&target, &case.target))
}

#[test]
fn pumps_by_rooms_and_ends(rt: HostRuntime) -> Result<(), Fail> {
    for (number, case) in CASES.iter().enumerate() {
        let right = pumps_so(rt.alloc(), case).ok().ok_or("memory")?;
        assert!(rt; right, "case {number}");
    }
    Ok(())
}

#[test]
fn a_flush_sends_what_waits(rt: HostRuntime) -> Result<(), Fail> {
    let mut client = link(rt.alloc(), b"hello", true, 9).ok().ok_or("memory")?;
    let mut target = link(rt.alloc(), b"world!", true, 1).ok().ok_or("memory")?;
    let mut relay = Relay::make(rt.alloc()).ok().ok_or("memory")?;
    assert_eq!(rt; relay.pump(&mut client, &mut target, 0), Pumped::Idle);
    assert_eq!(rt; target.taken(), b"h".as_slice());
    target.spare(4).ok().ok_or("memory")?;
    assert_eq!(rt; relay.flush(&mut client, &mut target), Pumped::Ended);
    assert_eq!(rt; target.taken(), b"hello".as_slice());
    assert!(rt; relay.waits() == (false, false));
    let (took, sent) = relay.totals();
    assert!(rt; took == (5, 6) && sent == (6, 5));
    Ok(())
}
