ghost use Rattle.std.specs.Prelude.{◌≡◌, bytes_eq};
ghost use Rattle.std.specs.Option.{option_copied};
ghost use Rattle.std.specs.List.{list_any};
ghost use Rattle.socks_grammar.specs.Equal.{method_eq};
ghost use Rattle.rule_list.specs.Rules.{takes as takes_of, client_rule_matches, socks_rule_matches, route_matches, can_name as can_name_of, allows_command as allows_command_of, allows_protocol as allows_protocol_of, allows_method as allows_method_of, allows_version as allows_version_of, allows_user as allows_user_of};

use crate::facts::Facts;
use addr_pattern::{Addr, Endpoint, Name, Pattern};
use conf_types::{ClientRule, Route, SocksRule, Via};
use socks_grammar::{Command, Method, Version};

fn takes(pattern: &Pattern, name: Option<&Name>, at: &Endpoint) -> bool
    ensures { result ≡ takes_of pattern.now (option_copied name.entry) at.now }
{
    pattern.matches(name, &at.addr, at.port)
}

pub fn matches_client(rule: &ClientRule, peer: &Endpoint, local: &Endpoint) -> bool
    ensures { result ≡ client_rule_matches peer.now local.now rule.now }
{
    takes(&rule.from, None, peer) && takes(&rule.to, None, local)
}

pub fn matches_socks(rule: &SocksRule, facts: &Facts) -> bool
    ensures { result ≡ socks_rule_matches facts.now rule.now }
{
    takes(&rule.from, None, &facts.from)
        && takes(&rule.to, facts.name.as_ref(), &facts.to)
        && allows_command(rule, facts.command)
        && allows_protocol(rule, facts.command)
        && allows_method(rule, facts.method)
        && allows_version(rule, facts.version)
        && allows_user(rule.users.as_slice(), facts.user.as_ref())
}

pub fn matches_route(route: &Route, facts: &Facts) -> bool
    ensures { result ≡ route_matches facts.now route.now }
{
    takes(&route.from, None, &facts.from)
        && takes(&route.to, facts.name.as_ref(), &facts.to)
        && can_name(&route.via, &facts.to.addr)
}

/// A proxy of SOCKS 4 can't be asked for an address of IPv6.
fn can_name(via: &Via, addr: &Addr) -> bool
    ensures { result ≡ can_name_of via.now addr.now }
{
    match (via, addr) {
        (
            Via::Proxy {
                version: Version::V4,
                ..
            },
            Addr::V6(_),
        ) => false,
        _ => true,
    }
}

fn allows_command(rule: &SocksRule, command: Command) -> bool
    ensures { result ≡ allows_command_of rule.now command }
{
    match command {
        Command::Connect => rule.connect,
        Command::Bind => rule.bind,
        Command::UdpAssociate => rule.udpassociate,
        Command::BindReply => rule.bindreply,
        Command::UdpReply => rule.udpreply,
    }
}

fn allows_protocol(rule: &SocksRule, command: Command) -> bool
    ensures { result ≡ allows_protocol_of rule.now command }
{
    match command {
        Command::Connect | Command::Bind | Command::BindReply => rule.tcp,
        Command::UdpAssociate | Command::UdpReply => rule.udp,
    }
}

fn allows_method(rule: &SocksRule, method: Method) -> bool
    ensures { result ≡ allows_method_of rule.now method }
{
    match method {
        Method::NoAuth => rule.noauth,
        Method::Username => rule.username,
    }
}

fn allows_version(rule: &SocksRule, version: Version) -> bool
    ensures { result ≡ allows_version_of rule.now version }
{
    match version {
        Version::V4 => rule.v4,
        Version::V5 => rule.v5,
    }
}

fn allows_user(users: &[Name], user: Option<&Name>) -> bool
    ensures { result ≡ allows_user_of users.now (option_copied user.entry) }
{
    if users.is_empty() {
        return true;
    }
    match user {
        None => false,
        Some(user) => lists_user(users, user),
    }
}

fn lists_user(users: &[Name], user: &Name) -> bool
    ensures { result ≡ list_any (bytes_eq user.now) users.now }
{
    users.iter().any(|listed| is_same(user, listed))
}

fn is_same(a: &Name, b: &Name) -> bool
    ensures { result ≡ bytes_eq a.now b.now }
{
    a.as_bytes() == b.as_bytes()
}

fn is_same_method(a: Method, b: Method) -> bool
    ensures { result ≡ method_eq a b }
{
    match (a, b) {
        (Method::NoAuth, Method::NoAuth) => true,
        (Method::Username, Method::Username) => true,
        _ => false,
    }
}

pub fn lists_method(methods: &[Method], method: Method) -> bool
    ensures { result ≡ list_any (method_eq method) methods.now }
{
    methods.iter().any(|listed| is_same_method(method, *listed))
}
