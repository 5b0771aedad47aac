//! The tests that `rule_list` makes of one rule.
ghost use Rattle.std.specs.Prelude.{◌≡◌, bytes_eq};
ghost use Rattle.std.specs.Option.{option_copied};
ghost use Rattle.std.specs.List.{list_any};
ghost use Rattle.socks_grammar.specs.Equal.{method_eq};
ghost use Rattle.rule_list.specs.Rules.{socks_rule_matches, allows_command as allows_command_of, allows_protocol as allows_protocol_of, allows_method as allows_method_of, allows_version as allows_version_of, allows_user as allows_user_of};

use addr_pattern::Name;
use conf_types::SocksRule;
use rule_list::Facts;
use socks_grammar::{Command, Method, Version};

/// Whether the rule matches the facts.
pub fn matches_socks(rule: &SocksRule, facts: &Facts) -> bool
    ensures { result ≡ socks_rule_matches facts.now rule.now }
{
    rule.from.matches(None, &facts.from.addr, facts.from.port)
        && rule
            .to
            .matches(facts.name.as_ref(), &facts.to.addr, facts.to.port)
        && allows_command(rule, facts.command)
        && allows_protocol(rule, facts.command)
        && allows_method(rule, facts.method)
        && allows_version(rule, facts.version)
        && allows_user(rule.users.as_slice(), facts.user.as_ref())
}

fn allows_command(rule: &SocksRule, command: Command) -> bool
    ensures { result ≡ allows_command_of rule.now command }
{
    match command {
        Command::Connect => rule.connect,
        Command::Bind => rule.bind,
        Command::UdpAssociate => rule.udpassociate,
        Command::BindReply => rule.bindreply,
        Command::UdpReply => rule.udpreply,
    }
}

fn allows_protocol(rule: &SocksRule, command: Command) -> bool
    ensures { result ≡ allows_protocol_of rule.now command }
{
    match command {
        Command::Connect | Command::Bind | Command::BindReply => rule.tcp,
        Command::UdpAssociate | Command::UdpReply => rule.udp,
    }
}

fn allows_method(rule: &SocksRule, method: Method) -> bool
    ensures { result ≡ allows_method_of rule.now method }
{
    match method {
        Method::NoAuth => rule.noauth,
        Method::Username => rule.username,
    }
}

fn allows_version(rule: &SocksRule, version: Version) -> bool
    ensures { result ≡ allows_version_of rule.now version }
{
    match version {
        Version::V4 => rule.v4,
        Version::V5 => rule.v5,
    }
}

fn allows_user(users: &[Name], user: Option<&Name>) -> bool
    ensures { result ≡ allows_user_of users.now (option_copied user.entry) }
{
    if users.is_empty() {
        return true;
    }
    match user {
        None => false,
        Some(user) => lists_user(users, user),
    }
}

fn lists_user(users: &[Name], user: &Name) -> bool
    ensures { result ≡ list_any (bytes_eq user.now) users.now }
{
    users.iter().any(|listed| is_same_name(user, listed))
}

fn is_same_name(a: &Name, b: &Name) -> bool
    ensures { result ≡ bytes_eq a.now b.now }
{
    a.as_bytes() == b.as_bytes()
}

fn is_same_method(a: Method, b: Method) -> bool
    ensures { result ≡ method_eq a b }
{
    match (a, b) {
        (Method::NoAuth, Method::NoAuth) => true,
        (Method::Username, Method::Username) => true,
        _ => false,
    }
}

/// Whether the method is one of these.
pub fn lists_method(methods: &[Method], method: Method) -> bool
    ensures { result ≡ list_any (method_eq method) methods.now }
{
    methods.iter().any(|listed| is_same_method(method, *listed))
}
