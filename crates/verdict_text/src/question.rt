ghost use Rattle.std.specs.Prelude.{◌≡◌, Some};

use addr_pattern::{Endpoint, Name};
use conf_types::Config;
use rule_list::Facts;
use socks_grammar::{Command, Version};

/// What a configuration is asked: may this go from here to there by this command? The name, if any, is the one under which
/// `to` is asked for. In a reply, `from` is what answers, and `to` is the client.
#[derive(Drop)]
pub struct Question {
    pub from: Endpoint,
    pub to: Endpoint,
    pub name: Option<Name>,
    pub command: Command,
}

fn copy_name(name: &Option<Name>) -> Option<Name>
    ensures { result ≡ name.now }
{
    match name {
        None => None,
        Some(name) => Some(name.copy()),
    }
}

impl Question {
    ghost use Rattle.verdict_text.specs.Decisions.{client_of, facts_of};

    /// The client: what asks, or, of a reply, what is answered.
    fn client(&self) -> Endpoint
        ensures { result ≡ client_of self.now }
    {
        match self.command {
            Command::Connect | Command::Bind | Command::UdpAssociate => self.from,
            Command::BindReply | Command::UdpReply => self.to,
        }
    }

    /// The facts of a client of SOCKS 5 without a user, which came at the first `internal` endpoint and has chosen the first
    /// method.
    pub(crate) fn facts(&self, config: &Config) -> Facts
        ensures { facts_of config.now self.now ≡ Some result }
    {
        let entries = config.entries();
        match (entries.internals.get(0), entries.methods.get(0)) {
            (Some(local), Some(method)) => Facts {
                peer: self.client(),
                local: *local,
                command: self.command,
                version: Version::V5,
                method: *method,
                user: None,
                from: self.from,
                to: self.to,
                name: copy_name(&self.name),
            },
            _ => unreachable!(),
        }
    }
}
