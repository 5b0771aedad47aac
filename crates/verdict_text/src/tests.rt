use super::*;
use addr_pattern::{Endpoint, Name};
use conf_model::read_config;
use socks_grammar::Command;
use std::alloc::Global;

mod rules;

/// The configuration of an office, as a user of Dante writes it.
const OFFICE: &str = "\
# office proxy
logoutput: syslog stderr
internal: 10.0.0.1 port = 1080
external: 192.0.2.9
clientmethod: none
socksmethod: username none
user.privileged: root
user.unprivileged: nobody
client pass {
    from: 10.0.0.0/8 port 1-65535 to: 0.0.0.0/0
    log: error
}
client block { from: 0/0 to: 0/0 log: connect error }
socks block { from: 0.0.0.0/0 to: 127.0.0.0/8 log: connect error }
socks pass {
    from: 0.0.0.0/0 to: 10.0.0.0/8
    command: bindreply udpreply
}
socks pass { from: 10.0.0.0/8 to: 0.0.0.0/0 protocol: tcp udp command: connect udpassociate }
";

/// Whether the answer to a question is these lines.
fn answers(
    alloc: Global,
    text: &str,
    question: (&str, &str, &str, Command),
    lines: &str,
) -> Option<bool> {
    let Ok(config) = read_config(alloc, text.as_bytes()) else {
        return None;
    };
    let name = match question.1.as_bytes() {
        b"-" => None,
        name => Some(Name::read(name).ok()?),
    };
    let question = Question {
        from: Endpoint::read(question.0.as_bytes()).ok()?,
        to: Endpoint::read(question.2.as_bytes()).ok()?,
        name,
        command: question.3,
    };
    let answer = decide(alloc, &config, &question).ok()?;
    Some(answer.as_slice() == lines.as_bytes())
}

#[test]
fn an_office(rt: HostRuntime) {
    let table = [
        (
            "10.1.2.3:5000",
            "198.51.100.10:80",
            Command::Connect,
            "client 1 pass\nsocks 3 pass\nroute direct\nverdict pass\n",
        ),
        (
            "10.1.2.3:5000",
            "127.0.0.1:80",
            Command::Connect,
            "client 1 pass\nsocks 1 block\nverdict block\n",
        ),
        (
            "10.1.2.3:0",
            "198.51.100.10:80",
            Command::Connect,
            "client 2 block\nverdict block\n",
        ),
        (
            "10.1.2.3:5000",
            "198.51.100.10:80",
            Command::Bind,
            "client 1 pass\nsocks none\nverdict block\n",
        ),
        (
            "10.1.2.3:5000",
            "198.51.100.10:53",
            Command::UdpAssociate,
            "client 1 pass\nsocks 3 pass\nverdict pass\n",
        ),
        (
            "198.51.100.10:53",
            "10.1.2.3:5000",
            Command::UdpReply,
            "client 1 pass\nsocks 2 pass\nverdict pass\n",
        ),
        (
            "10.1.2.3:5000",
            "198.51.100.10:53",
            Command::BindReply,
            "client 2 block\nverdict block\n",
        ),
    ];
    for (from, to, command, lines) in table {
        assert!(rt;
            answers(rt.alloc(), OFFICE, (from, "-", to, command), lines) == Some(true),
            "{from} {to}"
        );
    }
}
