//! Rules and routes by the entries of their blocks.
ghost use Rattle.std.specs.Prelude.{◌≡◌};
ghost use Rattle.conf_model.specs.Blocks.{all_commands, all_methods, all_protocols, all_versions, any as any_pattern, client_rule as client_rule_of, is_kept as is_kept_of, or_else, route as route_of, socks_rule as socks_rule_of, version_of, via_at};

use crate::given::{Commands, Given, Hop, Methods, Protocols, Versions};
use addr_pattern::{HostPattern, Pattern, PortTest};
use conf_types::{ClientRule, Route, SocksRule, Via};
use lists::List;
use socks_grammar::{Login, Version};
use std::alloc::Global;

fn or_any(pattern: Option<Pattern>) -> Pattern
    ensures { result ≡ or_else any_pattern pattern }
{
    pattern.unwrap_or(Pattern {
        host: HostPattern::Any,
        port: PortTest::Any,
    })
}

fn or_all_commands(commands: Option<Commands>) -> Commands
    ensures { result ≡ or_else all_commands commands }
{
    commands.unwrap_or(Commands {
        connect: true,
        bind: true,
        udpassociate: true,
        bindreply: true,
        udpreply: true,
    })
}

fn or_all_protocols(protocols: Option<Protocols>) -> Protocols
    ensures { result ≡ or_else all_protocols protocols }
{
    protocols.unwrap_or(Protocols {
        tcp: true,
        udp: true,
    })
}

fn or_all_methods(methods: Option<Methods>) -> Methods
    ensures { result ≡ or_else all_methods methods }
{
    methods.unwrap_or(Methods {
        noauth: true,
        username: true,
    })
}

fn or_all_versions(versions: Option<Versions>) -> Versions
    ensures { result ≡ or_else all_versions versions }
{
    versions.unwrap_or(Versions { v4: true, v5: true })
}

/// A proxy is spoken to in SOCKS 5 unless only SOCKS 4 is named.
fn version(versions: Option<Versions>) -> Version
    ensures { result ≡ version_of versions }
{
    match versions {
        None => Version::V5,
        Some(versions) => {
            if versions.v5 {
                Version::V5
            } else {
                Version::V4
            }
        }
    }
}

impl Given {
    pub fn client_rule(self, pass: bool) -> ClientRule
        ensures { result ≡ client_rule_of pass self }
    {
        ClientRule {
            pass,
            from: or_any(self.from),
            to: or_any(self.to),
            max: self.max,
        }
    }

    pub fn socks_rule(self, alloc: Global, pass: bool) -> SocksRule
        ensures { result ≡ socks_rule_of pass self }
    {
        let commands = or_all_commands(self.commands);
        let protocols = or_all_protocols(self.protocols);
        let methods = or_all_methods(self.methods);
        let versions = or_all_versions(self.versions);
        SocksRule {
            pass,
            from: or_any(self.from),
            to: or_any(self.to),
            connect: commands.connect,
            bind: commands.bind,
            udpassociate: commands.udpassociate,
            bindreply: commands.bindreply,
            udpreply: commands.udpreply,
            tcp: protocols.tcp,
            udp: protocols.udp,
            noauth: methods.noauth,
            username: methods.username,
            v4: versions.v4,
            v5: versions.v5,
            users: self.users.unwrap_or(List::make(alloc)),
            max: self.max,
        }
    }

    /// Routes serve CONNECT alone, so one that doesn't isn't kept.
    pub fn is_kept(&self) -> bool
        ensures { result ≡ is_kept_of self.now }
    {
        or_all_commands(self.commands).connect && or_all_protocols(self.protocols).tcp
    }

    pub fn route(self, hop: Hop) -> Route
        ensures { result ≡ route_of self hop }
    {
        let version = version(self.versions);
        Route {
            from: or_any(self.from),
            to: or_any(self.to),
            via: via(hop, version, self.login),
        }
    }
}

fn via(hop: Hop, version: Version, login: Option<Login>) -> Via
    ensures { result ≡ via_at hop version login }
{
    match hop {
        Hop::Direct => Via::Direct,
        Hop::At(at) => Via::Proxy { at, version, login },
    }
}
