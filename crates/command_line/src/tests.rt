use super::*;
use addr_pattern::Endpoint;
use socks_grammar::Command;
use std::alloc::Global;
use std::test::Fail;

/// The words between the blanks of a text.
fn list_of(alloc: Global, text: &str) -> Option<Vec<String>> {
    let mut list = Vec::new(alloc);
    for word in text.split(' ') {
        list.push(String::from_str(alloc, word).ok()?).ok()?;
    }
    Some(list)
}

/// Whether words ask for this command, or for none where it is `usage`, and for this file.
fn asks(alloc: Global, text: &str, command: &str, file: &str) -> Option<bool> {
    let list = list_of(alloc, text)?;
    let asked = read_words(alloc, list.as_slice()).ok()?;
    Some(match asked {
        None => command == "usage",
        Some(Invocation::Check { file: named }) => command == "check" && named == file,
        Some(Invocation::Replay) => command == "replay",
        Some(Invocation::Decide { file: named, .. }) => command == "decide" && named == file,
    })
}

/// Words that are joined by blanks here, the command that they ask for, and its file.
const TABLE: [(&str, &str, &str); 34] = [
    ("check a.conf", "check", "a.conf"),
    ("check -- a.conf", "check", "a.conf"),
    ("check a.conf --", "check", "a.conf"),
    ("check -- -a", "check", "-a"),
    ("check -- --", "check", "--"),
    ("check -", "check", "-"),
    ("check ", "check", ""),
    ("check", "usage", ""),
    ("check a b", "usage", ""),
    ("check -a", "usage", ""),
    ("check --x=VALUE a", "usage", ""),
    ("check a --x", "usage", ""),
    ("check --help", "usage", ""),
    ("check -h", "usage", ""),
    ("check a -V", "usage", ""),
    ("check -5", "usage", ""),
    ("Check a", "usage", ""),
    ("-- check a", "usage", ""),
    ("serve a", "usage", ""),
    ("tunnel", "usage", ""),
    ("", "usage", ""),
    ("replay", "replay", ""),
    ("replay --", "replay", ""),
    ("replay a", "usage", ""),
    ("replay ", "usage", ""),
    ("replay -- --", "usage", ""),
    (
        "decide a.conf 10.0.0.5:5000 198.51.100.10:80 connect",
        "decide",
        "a.conf",
    ),
    (
        "decide -- a.conf [::1]:0 a.b@[2001:db8::1]:80 bind",
        "decide",
        "a.conf",
    ),
    (
        "decide a.conf 10.0.0.5:5000 198.51.100.10:80 bindreply",
        "decide",
        "a.conf",
    ),
    (
        "decide a.conf 10.0.0.5:5000 x@198.51.100.10:80 udpreply",
        "usage",
        "",
    ),
    (
        "decide a.conf 10.0.0.5:65536 198.51.100.10:80 connect",
        "usage",
        "",
    ),
    ("decide a.conf 10.0.0.5:5000 ::1:80 connect", "usage", ""),
    ("decide a.conf 10.0.0.5:5000 198.51.100.10:80", "usage", ""),
    (
        "decide a.conf 10.0.0.5:5000 198.51.100.10:80 connect a",
        "usage",
        "",
    ),
];

#[test]
fn words_of_the_table(rt: HostRuntime) {
    for (text, command, file) in TABLE {
        assert!(rt;
            asks(rt.alloc(), text, command, file) == Some(true),
            "{text}"
        );
    }
}

#[test]
fn no_words(rt: HostRuntime) {
    let words: [String; 0] = [];
    assert!(rt; matches!(read_words(rt.alloc(), words.as_slice()), Ok(None)));
}

/// Each command word, and the destination with and without a name.
fn decides(alloc: Global, text: &str, command: Command, name: Option<&str>) -> Option<bool> {
    let list = list_of(alloc, text)?;
    let asked = read_words(alloc, list.as_slice()).ok()?;
    let Some(
        Invocation::Decide {
            from,
            to,
            name: read,
            command: said,
            ..
        },
    ) = asked
    else {
        return Some(false);
    };
    let target = Endpoint::read(b"198.51.100.10:80").ok()?;
    let client = Endpoint::read(b"10.0.0.5:5000").ok()?;
    let same_name = match (read, name) {
        (None, None) => true,
        (Some(read), Some(name)) => read.as_bytes() == name.as_bytes(),
        _ => false,
    };
    Some(from == client && to == target && command == said && same_name)
}

/// The words of `decide` behind its file, the command that they say, and the name.
const QUESTIONS: [(&str, Command, Option<&str>); 7] = [
    ("198.51.100.10:80 connect", Command::Connect, None),
    ("a@198.51.100.10:80 connect", Command::Connect, Some("a")),
    ("a@b@198.51.100.10:80 bind", Command::Bind, Some("a@b")),
    (
        "10.0.0.1@198.51.100.10:80 udpassociate",
        Command::UdpAssociate,
        Some("10.0.0.1"),
    ),
    ("198.51.100.10:80 udpassociate", Command::UdpAssociate, None),
    ("198.51.100.10:80 bindreply", Command::BindReply, None),
    ("198.51.100.10:80 udpreply", Command::UdpReply, None),
];

#[test]
fn questions_of_the_table(rt: HostRuntime) -> Result<(), Fail> {
    for (behind, command, name) in QUESTIONS {
        let text = format!(in rt.alloc(); "decide a.conf 10.0.0.5:5000 {behind}")?;
        assert!(rt;
            decides(rt.alloc(), text.as_str(), command, name) == Some(true),
            "{behind}"
        );
    }
    Ok(())
}
