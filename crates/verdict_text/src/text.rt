ghost use Rattle.std.specs.Prelude.{◌≡◌, ◌∷◌, [], IfOk, OnOk};
ghost use Rattle.std.specs.Option.{option_copied};
ghost use Rattle.conf_model.specs.Canonical.{version_word as version_word_of};
ghost use Rattle.conf_model.specs.Writing.{Adds};
ghost use Rattle.rule_list.specs.Rules.{is_pass as is_pass_of, numbered, via_of};
ghost use Rattle.verdict_text.specs.Decisions.{decision_lines, decision_text, is_connect as is_connect_of, numbered_line, proxy_line, route_line, route_lines, verdict_lines};

use crate::question::Question;
use addr_pattern::{Endpoint, write_number};
use conf_types::{Config, Route, Via};
use lists::Text;
use rule_list::{Facts, Verdict, first_route, judge};
use socks_grammar::{Command, Version};
use std::alloc::{AllocError, Global};

/// Adds a line.
#[tactic(auto, unfolding(conf_model::specs::Writing::Adds))]
fn add_line(text: &mut Text, line: &[u8]) -> Result<(), AllocError>
    ensures { OnOk result (Adds text.old text.new (line.now ∷ [])) }
{
    text.add(line)?;
    text.add(b"\n")
}

/// Adds the line that says what the rule of this number in a list does.
#[tactic(auto, unfolding(conf_model::specs::Writing::Adds))]
fn add_rule(text: &mut Text, list: &[u8], number: u32, what: &[u8]) -> Result<(), AllocError>
    ensures { OnOk result (Adds text.old text.new (numbered_line list.now number what.now ∷ [])) }
{
    text.add(list)?;
    text.add(b" ")?;
    text.add(write_number(number).as_slice())?;
    text.add(b" ")?;
    add_line(text, what)
}

fn version_word(version: Version) -> &'static [u8]
    ensures { result.now ≡ version_word_of version }
{
    match version {
        Version::V4 => b"socks_v4",
        Version::V5 => b"socks_v5",
    }
}

/// Adds the line of a route by a proxy.
#[tactic(auto, unfolding(conf_model::specs::Writing::Adds))]
fn add_proxy(text: &mut Text, number: u32, at: Endpoint, version: Version) -> Result<(), AllocError>
    ensures { OnOk result (Adds text.old text.new (proxy_line number at version ∷ [])) }
{
    text.add(b"route ")?;
    text.add(write_number(number).as_slice())?;
    text.add(b" ")?;
    text.add(at.write().as_slice())?;
    text.add(b" ")?;
    add_line(text, version_word(version))
}

/// The route of this number, from 1.
fn numbered_route(config: &Config, number: u32) -> Option<&Route>
    ensures { option_copied result ≡ numbered config.now.routes number }
{
    if number == 0 {
        return None;
    }
    config.entries().routes.get(number as usize - 1)
}

/// Adds the line of the route of this number, or of none.
fn add_route(text: &mut Text, config: &Config, number: Option<u32>) -> Result<(), AllocError>
    ensures { OnOk result (Adds text.old text.new (route_line number (via_of config.now number) ∷ [])) }
{
    match number {
        None => {
            add_line(text, b"route direct")?;
            Ok(())
        }
        Some(number) => match numbered_route(config, number) {
            None => {
                add_line(text, b"route direct")?;
                Ok(())
            }
            Some(route) => match &route.via {
                Via::Direct => {
                    add_line(text, b"route direct")?;
                    Ok(())
                }
                Via::Proxy { at, version, .. } => {
                    add_proxy(text, number, *at, *version)?;
                    Ok(())
                }
            },
        },
    }
}

fn is_connect(command: Command) -> bool
    ensures { result ≡ is_connect_of command }
{
    match command {
        Command::Connect => true,
        Command::Bind | Command::UdpAssociate | Command::BindReply | Command::UdpReply => false,
    }
}

/// Adds the line of the route that a request goes by; only a connection has one.
fn add_routes(text: &mut Text, config: &Config, facts: &Facts) -> Result<(), AllocError>
    ensures { OnOk result (Adds text.old text.new (route_lines config.now facts.now)) }
{
    if is_connect(facts.command) {
        add_route(text, config, first_route(config, facts))?;
    }
    Ok(())
}

/// Adds what both lists of rules say.
fn add_verdict(text: &mut Text, verdict: Verdict) -> Result<(), AllocError>
    ensures { OnOk result (Adds text.old text.new (verdict_lines verdict)) }
{
    match verdict {
        Verdict::ClientNone => {
            add_line(text, b"client none")?;
            Ok(())
        }
        Verdict::ClientBlock { client } => {
            add_rule(text, b"client", client, b"block")?;
            Ok(())
        }
        Verdict::SocksNone { client } => {
            add_rule(text, b"client", client, b"pass")?;
            add_line(text, b"socks none")?;
            Ok(())
        }
        Verdict::SocksBlock { client, socks } => {
            add_rule(text, b"client", client, b"pass")?;
            add_rule(text, b"socks", socks, b"block")?;
            Ok(())
        }
        Verdict::Pass { client, socks } => {
            add_rule(text, b"client", client, b"pass")?;
            add_rule(text, b"socks", socks, b"pass")?;
            Ok(())
        }
    }
}

fn is_pass(verdict: Verdict) -> bool
    ensures { result ≡ is_pass_of verdict }
{
    matches!(verdict, Verdict::Pass { .. })
}

/// Adds the lines of a decision.
fn add_decision(text: &mut Text, config: &Config, facts: &Facts) -> Result<(), AllocError>
    ensures { OnOk result (Adds text.old text.new (decision_lines config.now facts.now)) }
{
    let verdict = judge(config, facts);
    add_verdict(text, verdict)?;
    if is_pass(verdict) {
        add_routes(text, config, facts)?;
        add_line(text, b"verdict pass")?;
        return Ok(());
    }
    add_line(text, b"verdict block")?;
    Ok(())
}

/// What a configuration decides on a question, in lines: what the client rules say, then the socks rules where these were
/// asked, then the route of a connection that may be made, then the verdict. An `AllocError` comes where memory is refused.
pub fn decide(alloc: Global, config: &Config, question: &Question) -> Result<Text, AllocError>
    ensures { IfOk result (λ text. text ≡ decision_text config.now question.now) }
{
    let mut text = Text::make(alloc);
    add_decision(&mut text, config, &question.facts(config))?;
    Ok(text)
}
