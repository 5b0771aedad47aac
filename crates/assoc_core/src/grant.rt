ghost use Rattle.std.specs.Prelude.{◌≡◌, List, OnOk};
ghost use Rattle.socks_machine.specs.declared.lines.Line.{Line};
ghost use Rattle.socks_machine.specs.declared.cause.StopBy.{StopBy};
ghost use Rattle.socks_machine.specs.Calls.{client_rule_of as client_rule_in, socks_rule_of as socks_rule_in};
ghost use Rattle.handshake_core.specs.Answers.{request_in};
ghost use Rattle.socks_machine.specs.Calls.{destination as destination_in, found_of as found_in, grant_facts, name_of as name_in};
ghost use Rattle.socks_machine.specs.Decisions.{looked};
ghost use Rattle.assoc_core.specs.Granting.{AsksGrant, request_line};

use crate::refusals::{blocked, first_cause, refusal_full};
use addr_pattern::{Addr, Endpoint, Host, Name};
use conf_types::Config;
use handshake_core::Request;
use rule_list::{Facts, Verdict, client_max, first_route, judge, socks_max};
use session_desk::DeskCall;
use socks_machine::{Decision, GrantLine, Record};
use std::alloc::AllocError;

/// The address that was looked up.
fn found_of(decisions: &[Decision]) -> Option<Addr>
    ensures { result ≡ found_in (looked decisions.now) }
{
    match decisions {
        [] => None,
        [Decision::Looked { host: _, found }, ..] => *found,
        [_, rest @ ..] => found_of(rest),
    }
}

/// Where a request goes to: its address, or the one that was found for its name.
fn destination(state: &Record, host: &Host) -> Addr
    ensures { result ≡ destination_in state.now host.now }
{
    match host {
        Host::Addr(addr) => *addr,
        Host::Name(_) => match found_of(state.decisions.as_slice()) {
            Some(addr) => addr,
            None => Addr::V4(0),
        },
    }
}

/// The name that a request gives.
fn name_of(host: &Host) -> Option<Name>
    ensures { result ≡ name_in host.now }
{
    match host {
        Host::Addr(_) => None,
        Host::Name(name) => Some(name.copy()),
    }
}

/// What the rules are asked of a request.
fn facts_of(state: &Record, request: &Request) -> Facts
    ensures { result ≡ grant_facts state.now (request_in request.now) }
{
    let user = match &request.user {
        None => None,
        Some(user) => Some(user.copy()),
    };
    Facts {
        peer: state.peer,
        local: state.local,
        command: request.command,
        version: request.version,
        method: request.method,
        user,
        from: state.peer,
        to: Endpoint {
            addr: destination(state, &request.host),
            port: request.port,
        },
        name: name_of(&request.host),
    }
}

fn client_rule_of(verdict: Verdict) -> Option<u32>
    ensures { result ≡ client_rule_in verdict }
{
    match verdict {
        Verdict::Pass { client, socks: _ }
        | Verdict::ClientBlock { client }
        | Verdict::SocksBlock { client, socks: _ }
        | Verdict::SocksNone { client } => Some(client),
        Verdict::ClientNone => None,
    }
}

fn socks_rule_of(verdict: Verdict) -> Option<u32>
    ensures { result ≡ socks_rule_in verdict }
{
    match verdict {
        Verdict::Pass { client: _, socks } | Verdict::SocksBlock { client: _, socks } => {
            Some(socks)
        }
        _ => None,
    }
}

/// The line of a request that was judged.
fn line_of(state: &Record, generation: u64, config: &Config, request: &Request) -> GrantLine
    ensures { result ≡ request_line generation config.now state.now (request_in request.now) }
{
    let facts = facts_of(state, request);
    let verdict = judge(config, &facts);
    GrantLine {
        number: state.number,
        generation,
        facts,
        verdict,
        client_max: client_max(config, client_rule_of(verdict)),
        socks_max: socks_max(config, socks_rule_of(verdict)),
    }
}

/// Judges a request, asks the desk, and decides by both.
pub fn ask_grant<K: DeskCall>(
    state: &mut Record,
    generation: u64,
    config: &Config,
    desk: &mut K,
    request: &Request,
) -> Result<(), AllocError>
    ensures cap { K.cap desk.new ≡ K.cap desk.old }
    ensures asks { OnOk result ((h : List Line) (marks : List StopBy) → K.stands desk.old h marks → AsksGrant (K.stands desk.new) h marks generation config.now (request_in request.now) state.old state.new) }
{
    let line = line_of(state, generation, config, request);
    let verdict = line.verdict;
    let asked = facts_of(state, request);
    let facts = facts_of(state, request);
    let route = first_route(config, &facts);
    state.decisions.push(Decision::Granted {
        generation,
        facts,
        verdict,
        route,
        refused: None,
    })?;
    let refused = refusal_full(generation, desk.grant(&line), blocked(generation, verdict));
    state.decisions.set_last(Decision::Granted {
        generation,
        facts: asked,
        verdict,
        route,
        refused,
    });
    state.cause = first_cause(refused, state.cause);
    Ok(())
}
