use super::*;
use addr_pattern::Addr;
use conf_model::{ConfFault, ConfKind};
use lists::List;
use socks_machine::{CallKind, Object, Outer, ScriptLine};
use std::alloc::Global;
use std::test::*;

/// A script of each form of a line.
const SCRIPT: &[u8] = b"sockd-script 1
users 0
publish 1
internal: ::1
see 1
open 1 1 10.0.0.5:5000 127.0.0.1:1080
client 1 47aB
clientend 1
target 1 00
targetend 1
lookup 1 10.0.0.9
dial 1 net
room 1 client 9
fault 1 target shut
now 7
turn 1 1
";

/// The number of a line's form, in the order of the script, or 0.
fn form(line: &ScriptLine) -> usize {
    match line {
        ScriptLine::UsersAre(_) => 1,
        ScriptLine::Publish(_) => 2,
        ScriptLine::See(1) => 3,
        ScriptLine::Open(1, 1, _, _) => 4,
        ScriptLine::Client(1, bytes) if bytes.as_slice() == [0x47, 0xab].as_slice() => 5,
        ScriptLine::ClientEnd(1) => 6,
        ScriptLine::Target(1, _) => 7,
        ScriptLine::TargetEnd(1) => 8,
        ScriptLine::Lookup(1, Outer::Looked(Some(Addr::V4(0x0A00_0009)))) => 9,
        ScriptLine::Dial(1, Outer::NetUnreachable) => 10,
        ScriptLine::Room(1, Object::Client, 9) => 11,
        ScriptLine::Fault(1, Object::Target, CallKind::Shutting) => 12,
        ScriptLine::Now(7) => 13,
        ScriptLine::Turn(1, 1) => 14,
        _ => 0,
    }
}

fn has_each_form(lines: &List<ScriptLine>) -> bool {
    let mut number = 0usize;
    for line in lines.as_slice() {
        number = number.saturating_add(1);
        if form(line) != number {
            return false;
        }
    }
    number == 14
}

#[test]
fn each_form(rt: HostRuntime) {
    match read_script(rt.alloc(), SCRIPT) {
        Ok(lines) => assert!(rt; has_each_form(&lines)),
        Err(fault) => assert_eq!(rt; fault.line, 0),
    }
}

/// The fault of a text, where it has one.
fn fault_of(alloc: Global, text: &[u8]) -> Option<ScriptFault> {
    read_script(alloc, text).err()
}

#[test]
fn faults(rt: HostRuntime) {
    let conf = ConfFault {
        line: 0,
        kind: ConfKind::MissingInternal,
    };
    for (text, line, kind) in [
        (b"see 1".as_slice(), 1, ScriptKind::Header),
        (b"sockd-script 1\nsee 1", 2, ScriptKind::NotBuilt),
        (b"sockd-script 1\npublish 0", 2, ScriptKind::Conf(conf)),
    ] {
        assert_eq!(rt;
            fault_of(rt.alloc(), text),
            Some(ScriptFault { line, kind })
        );
    }
}
