ghost use Rattle.std.specs.Prelude.{◌≡◌, ◌+◌, ◌<◌, ◌^◌, length, position, option_map, IfSome};
ghost use Rattle.std.specs.Option.{option_copied};
ghost use Rattle.rule_list.specs.Rules.{numbered as numbered_of, first_client as first_client_of, first_socks as first_socks_of, judge as judge_of, judge_socks as judge_socks_of, judge_after_client as judge_after_client_of, route_of, client_rule_passes, socks_passes as socks_passes_of, client_max as client_max_of, socks_max as socks_max_of, client_rule_matches, socks_rule_matches, route_matches};

use crate::facts::Facts;
use crate::rule::{lists_method, matches_client, matches_route, matches_socks};
use crate::verdict::Verdict;
use addr_pattern::Endpoint;
use conf_types::{ClientRule, Config, Route, SocksRule};
use lists::List;
use socks_grammar::Command;

/// The element of this number, from 1.
fn numbered<T>(items: &List<T>, number: u32) -> Option<&T>
    ensures { option_copied result ≡ numbered_of items.now number }
{
    if number == 0 {
        return None;
    }
    items.get(number as usize - 1)
}

/// The number, from 1, of what stands at a place.
fn number_of(place: Option<usize>) -> Option<u32>
    requires { IfSome place (λ at. at + 1 < 2 ^ 32) }
    ensures { result ≡ option_map (λ at. at + 1) place }
{
    match place {
        None => None,
        Some(at) => Some(at as u32 + 1),
    }
}

fn place_of_client(rules: &[ClientRule], peer: &Endpoint, local: &Endpoint) -> Option<usize>
    ensures value { result ≡ position (client_rule_matches peer.now local.now) rules.now }
    ensures within { IfSome result (λ place. place < length rules.now) }
{
    rules
        .iter()
        .position(|rule| matches_client(rule, peer, local))
}

/// The number of the first client rule that takes the peer and the address at which it came.
pub fn first_client(config: &Config, peer: &Endpoint, local: &Endpoint) -> Option<u32>
    ensures { result ≡ first_client_of config.now peer.now local.now }
{
    number_of(place_of_client(config.entries().client.as_slice(), peer, local))
}

fn place_of_socks(rules: &[SocksRule], facts: &Facts) -> Option<usize>
    ensures value { result ≡ position (socks_rule_matches facts.now) rules.now }
    ensures within { IfSome result (λ place. place < length rules.now) }
{
    rules.iter().position(|rule| matches_socks(rule, facts))
}

/// The number of the first socks rule that matches the facts.
pub fn first_socks(config: &Config, facts: &Facts) -> Option<u32>
    ensures { result ≡ first_socks_of config.now facts.now }
{
    number_of(place_of_socks(config.entries().socks.as_slice(), facts))
}

fn place_of_route(routes: &[Route], facts: &Facts) -> Option<usize>
    ensures value { result ≡ position (route_matches facts.now) routes.now }
    ensures within { IfSome result (λ place. place < length routes.now) }
{
    routes.iter().position(|route| matches_route(route, facts))
}

/// The number of the first route that matches the facts; none where the command isn't Connect.
pub fn first_route(config: &Config, facts: &Facts) -> Option<u32>
    ensures { result ≡ route_of config.now facts.now }
{
    match facts.command {
        Command::Connect => {
            number_of(place_of_route(config.entries().routes.as_slice(), facts))
        },
        _ => None,
    }
}

/// Whether the client rule of this number passes. One that isn't there doesn't.
pub fn client_passes(config: &Config, rule: Option<u32>) -> bool
    ensures { result ≡ client_rule_passes config.now rule }
{
    let Some(number) = rule else {
        return false;
    };
    match numbered(&config.entries().client, number) {
        None => false,
        Some(rule) => rule.pass,
    }
}

/// The limit of the client rule of this number, if it has one.
pub fn client_max(config: &Config, rule: Option<u32>) -> Option<u32>
    ensures { result ≡ client_max_of config.now rule }
{
    let number = rule?;
    let rule = numbered(&config.entries().client, number)?;
    rule.max
}

/// The limit of the socks rule of this number, if it has one.
pub fn socks_max(config: &Config, rule: Option<u32>) -> Option<u32>
    ensures { result ≡ socks_max_of config.now rule }
{
    let number = rule?;
    let rule = numbered(&config.entries().socks, number)?;
    rule.max
}

fn socks_passes(config: &Config, number: u32) -> bool
    ensures { result ≡ socks_passes_of (numbered_of config.now.socks number) }
{
    match numbered(&config.entries().socks, number) {
        None => false,
        Some(rule) => rule.pass,
    }
}

fn judge_socks(config: &Config, client: u32, rule: Option<u32>) -> Verdict
    ensures { result ≡ judge_socks_of config.now client rule }
{
    match rule {
        None => Verdict::SocksNone { client },
        Some(socks) => {
            if socks_passes(config, socks) {
                Verdict::Pass { client, socks }
            } else {
                Verdict::SocksBlock { client, socks }
            }
        },
    }
}

fn judge_after_client(config: &Config, facts: &Facts, client: u32) -> Verdict
    ensures { result ≡ judge_after_client_of config.now facts.now client }
{
    if lists_method(config.entries().methods.as_slice(), facts.method) {
        judge_socks(config, client, first_socks(config, facts))
    } else {
        Verdict::SocksNone { client }
    }
}

/// What both lists say of these facts. A method that the configuration doesn't list matches no socks rule.
pub fn judge(config: &Config, facts: &Facts) -> Verdict
    ensures { result ≡ judge_of config.now facts.now }
{
    let Some(client) = first_client(config, &facts.peer, &facts.local) else {
        return Verdict::ClientNone;
    };
    if client_passes(config, Some(client)) {
        judge_after_client(config, facts, client)
    } else {
        Verdict::ClientBlock { client }
    }
}
