ghost use Rattle.std.specs.Prelude.{◌≡◌};
ghost use Rattle.command_line.specs.Words.{command_of, takes_name as takes_name_of};

use addr_pattern::{Endpoint, Name, cut_last, is_word};
use socks_grammar::Command;

/// An endpoint, and the name under which it was asked for, if any.
#[derive(Drop)]
pub struct Destination {
    pub to: Endpoint,
    pub name: Option<Name>,
}

impl Destination {
    ghost use Rattle.command_line.specs.Words.{destination_of};

    /// An endpoint, or a name, `@` and an endpoint. It is cut at its last `@`, which no endpoint holds.
    pub fn read(word: &[u8]) -> Option<Destination>
        ensures { result ≡ destination_of word.now }
    {
        let Some((name, endpoint)) = cut_last(word, b'@') else {
            return match Endpoint::read(word) {
                Ok(to) => Some(Destination { to, name: None }),
                Err(_) => None,
            };
        };
        match (Name::read(name), Endpoint::read(endpoint)) {
            (Ok(name), Ok(to)) => Some(Destination {
                to,
                name: Some(name),
            }),
            _ => None,
        }
    }
}

/// The command that a word says, as `command` in a socks rule does.
pub fn read_command(word: &[u8]) -> Option<Command>
    ensures { result ≡ command_of word.now }
{
    if is_word(word, b"connect") {
        return Some(Command::Connect);
    }
    if is_word(word, b"bind") {
        return Some(Command::Bind);
    }
    if is_word(word, b"udpassociate") {
        return Some(Command::UdpAssociate);
    }
    if is_word(word, b"bindreply") {
        return Some(Command::BindReply);
    }
    if is_word(word, b"udpreply") {
        return Some(Command::UdpReply);
    }
    None
}

/// Whether the destination may have a name. A reply goes to the client, which has none.
pub fn takes_name(command: Command) -> bool
    ensures { result ≡ takes_name_of command }
{
    match command {
        Command::Connect | Command::Bind | Command::UdpAssociate => true,
        Command::BindReply | Command::UdpReply => false,
    }
}
