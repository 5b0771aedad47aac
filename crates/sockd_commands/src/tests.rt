use super::*;
use net_ends::{MemCaller, MemSink, MemSource, MemStore};
use std::alloc::Global;
use std::test::*;

/// A configuration in its canonical text.
const OFFICE: &str = "\
internal: 127.0.0.1 port = 1080
socksmethod: none
timeout.negotiate: 30
timeout.io: 0
";

const REPLAY: &[&str] = &["replay"];

const CHECK: &[&str] = &["check", "office.conf"];

const DECIDE: &[&str] = &[
    "decide",
    "office.conf",
    "10.0.0.5:5000",
    "198.51.100.10:80",
    "connect",
];

/// The number of the read, of the write and of the call on the store that fails, or 0, and how much the output takes.
type Trouble = (u64, u64, u64, usize);

const NONE: Trouble = (0, 0, 0, 200);

fn list_of(alloc: Global, words: &[&str]) -> Option<Vec<String>> {
    let mut list = Vec::new(alloc);
    for word in words {
        list.push(String::from_str(alloc, word).ok()?).ok()?;
    }
    Some(list)
}

/// Whether a run gives that and nothing else, on the shortest script and a store with one file.
fn gives(
    alloc: Global,
    words: &[&str],
    trouble: Trouble,
    status: u8,
    text: &str,
    fault: &str,
) -> Option<bool> {
    let words = list_of(alloc, words)?;
    let mut source = MemSource::make(alloc, 0).ok()?;
    source.put(b"sockd-script 1\n").ok()?;
    source.fail_at(trouble.0).ok()?;
    let mut output = MemSink::make(alloc, trouble.3).ok()?;
    output.fail_at(trouble.1).ok()?;
    let mut error = MemSink::make(alloc, 100).ok()?;
    let mut files = MemStore::make(alloc, 1).ok()?;
    files.put("office.conf", OFFICE.as_bytes()).ok()?;
    files.fail_at(trouble.2).ok()?;
    let mut caller = MemCaller::make(alloc, 0).ok()?;
    let answer = quick(
        alloc,
        words.as_slice(),
        &mut source,
        &mut output,
        &mut error,
        &mut files,
        &mut caller,
    );
    Some(answer == status && output.taken() == text.as_bytes() && error.taken() == fault.as_bytes())
}

#[test]
fn each_end_may_fail(rt: HostRuntime) {
    for (words, trouble, status, text, fault) in [
        (REPLAY, NONE, 0, "close\n", ""),
        (CHECK, NONE, 0, OFFICE, ""),
        (DECIDE, NONE, 0, "client none\nverdict block\n", ""),
        (REPLAY, (1, 0, 0, 200), 3, "", "sockd: fault input\n"),
        (REPLAY, (0, 1, 0, 200), 3, "", "sockd: fault output\n"),
        (CHECK, (0, 0, 1, 200), 3, "", "sockd: fault store\n"),
        (DECIDE, (0, 0, 0, 6), 3, "client", "sockd: fault output\n"),
    ] {
        assert_eq!(rt;
            gives(rt.alloc(), words, trouble, status, text, fault),
            Some(true),
            "at {text}{fault}"
        );
    }
}
