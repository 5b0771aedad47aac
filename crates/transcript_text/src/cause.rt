ghost use Rattle.std.specs.Prelude.{◌≡◌, ◌++◌, ◌∷◌, [], OnOk, codes};
ghost use Rattle.socks_machine.specs.LogText.{cause_text, standing_text, stop_text, stage_text, kind_text};
ghost use Rattle.addr_pattern.specs.AddressText.{addr_text, endpoint_text};
ghost use Rattle.transcript_text.specs.Pieces.{digits, blanked};
ghost use Rattle.transcript_text.specs.Causes.{cause_name, details, rule_digits, client_digits, socks_digits, place_words, upstream_words};

use crate::address::{add_addr, add_endpoint};
use crate::hex::add_hex_word;
use crate::number::{add_number_word, add_word};
use addr_pattern::{Addr, Endpoint};
use lists::Text;
use rule_list::Verdict;
use socks_grammar::Stage;
use socks_machine::{Cause, ListKind, Standing, StopBy};
use std::alloc::{AllocError, Global};

/// Appends the text of a cause.
pub fn add_cause(alloc: Global, out: &mut Text, cause: &Cause) -> Result<(), AllocError>
    ensures { OnOk result (out.new ≡ out.old ++ cause_text cause.now) }
{
    add_named(alloc, out, *cause)
}

/// Appends the name of a cause and what stands behind it.
fn add_named(alloc: Global, out: &mut Text, cause: Cause) -> Result<(), AllocError>
    ensures { OnOk result (out.new ≡ out.old ++ (cause_name cause ++ blanked (details cause))) }
{
    out.add(name_of(cause))?;
    add_details(alloc, out, cause)
}

fn name_of(cause: Cause) -> &'static [u8]
    ensures { result.now ≡ cause_name cause }
{
    match cause {
        Cause::Finished => b"finished",
        Cause::ClientBlocked { .. } => b"clientblocked",
        Cause::Denied { .. } => b"denied",
        Cause::Full { .. } => b"full",
        Cause::Crowded { .. } => b"crowded",
        Cause::OutOfTurn(_) => b"outofturn",
        Cause::BadVersion { .. } => b"badversion",
        Cause::BadRequest { .. } => b"badrequest",
        Cause::CommandUnsupported { .. } => b"commandunsupported",
        Cause::AtypUnsupported { .. } => b"atypunsupported",
        Cause::NoMethod => b"nomethod",
        Cause::LoginFailed => b"loginfailed",
        Cause::ClientGone { .. } => b"clientgone",
        Cause::NotFound => b"notfound",
        Cause::Refused => b"refused",
        Cause::HostUnreachable => b"hostunreachable",
        Cause::NetUnreachable => b"netunreachable",
        Cause::Upstream { .. } => b"upstream",
        Cause::UpstreamBad { .. } => b"upstreambad",
        Cause::NetFault => b"netfault",
        Cause::ClientFault => b"clientfault",
        Cause::TargetFault => b"targetfault",
        Cause::DoorFault => b"doorfault",
        Cause::PortFault => b"portfault",
        Cause::LogFault => b"logfault",
        Cause::WrongPeer { .. } => b"wrongpeer",
        Cause::TimedOut { .. } => b"timedout",
        Cause::Stopped { .. } => b"stopped",
        Cause::Memory => b"memory",
    }
}

fn add_details(alloc: Global, out: &mut Text, cause: Cause) -> Result<(), AllocError>
    ensures { OnOk result (out.new ≡ out.old ++ blanked (details cause)) }
{
    match cause {
        Cause::ClientBlocked { generation, rule } => add_blocked(alloc, out, generation, rule),
        Cause::Denied {
            generation,
            verdict,
        } => add_denied(alloc, out, generation, verdict),
        Cause::Full {
            generation,
            list,
            rule,
            held,
            limit,
        } => {
            add_count(alloc, out, b"gen", generation)?;
            add_full(alloc, out, list, rule, held, limit)
        }
        Cause::Crowded { live, cap } => {
            add_count(alloc, out, b"live", u64::from(live))?;
            add_count(alloc, out, b"cap", u64::from(cap))
        }
        Cause::OutOfTurn(standing) => add_word(out, standing_word(standing)),
        Cause::BadVersion { at, byte } => add_place(alloc, out, at, byte),
        Cause::BadRequest { at, byte } => add_place(alloc, out, at, byte),
        Cause::CommandUnsupported { at, byte } => add_place(alloc, out, at, byte),
        Cause::AtypUnsupported { at, byte } => add_place(alloc, out, at, byte),
        Cause::ClientGone { at } => add_count(alloc, out, b"at", at),
        Cause::Upstream { stage, code } => {
            add_word(out, stage_word(stage))?;
            add_hex_word(out, code)
        }
        Cause::UpstreamBad { at, byte } => add_upstream_place(alloc, out, at, byte),
        Cause::WrongPeer { peer, asked } => add_peers(out, peer, asked),
        Cause::TimedOut { since, now, limit } => add_times(alloc, out, since, now, limit),
        Cause::Stopped { by } => add_word(out, stop_word(by)),
        _ => Ok(()),
    }
}

/// Appends a word and a number, each behind a blank.
pub(crate) fn add_count(
    alloc: Global,
    out: &mut Text,
    word: &[u8],
    n: u64,
) -> Result<(), AllocError>
    ensures { OnOk result (out.new ≡ out.old ++ blanked (word.now ∷ digits n ∷ [])) }
{
    add_word(out, word)?;
    add_number_word(alloc, out, n)
}

/// Appends the generation and the rule that blocked a client.
fn add_blocked(
    alloc: Global,
    out: &mut Text,
    generation: u64,
    rule: Option<u32>,
) -> Result<(), AllocError>
    ensures { OnOk result (out.new ≡ out.old ++ blanked (codes "gen" ∷ digits generation ∷ codes "client" ∷ rule_digits rule ∷ [])) }
{
    add_count(alloc, out, b"gen", generation)?;
    add_rule(alloc, out, rule)
}

fn add_rule(alloc: Global, out: &mut Text, rule: Option<u32>) -> Result<(), AllocError>
    ensures { OnOk result (out.new ≡ out.old ++ blanked (codes "client" ∷ rule_digits rule ∷ [])) }
{
    match rule {
        None => out.add(b" client none"),
        Some(rule) => add_count(alloc, out, b"client", u64::from(rule)),
    }
}

/// Appends the rules that a verdict names.
fn add_denied(
    alloc: Global,
    out: &mut Text,
    generation: u64,
    verdict: Verdict,
) -> Result<(), AllocError>
    ensures { OnOk result (out.new ≡ out.old ++ blanked (codes "gen" ∷ digits generation ∷ codes "client" ∷ client_digits verdict ∷ codes "socks" ∷ socks_digits verdict ∷ [])) }
{
    add_count(alloc, out, b"gen", generation)?;
    add_client_rule(alloc, out, verdict)?;
    add_socks_rule(alloc, out, verdict)
}

fn add_client_rule(alloc: Global, out: &mut Text, verdict: Verdict) -> Result<(), AllocError>
    ensures { OnOk result (out.new ≡ out.old ++ blanked (codes "client" ∷ client_digits verdict ∷ [])) }
{
    match verdict {
        Verdict::Pass { client, socks: _ } => add_count(alloc, out, b"client", u64::from(client)),
        Verdict::ClientBlock { client } => add_count(alloc, out, b"client", u64::from(client)),
        Verdict::ClientNone => out.add(b" client none"),
        Verdict::SocksBlock { client, socks: _ } => add_count(
            alloc,
            out,
            b"client",
            u64::from(client),
        ),
        Verdict::SocksNone { client } => add_count(alloc, out, b"client", u64::from(client)),
    }
}

fn add_socks_rule(alloc: Global, out: &mut Text, verdict: Verdict) -> Result<(), AllocError>
    ensures { OnOk result (out.new ≡ out.old ++ blanked (codes "socks" ∷ socks_digits verdict ∷ [])) }
{
    match verdict {
        Verdict::Pass { client: _, socks } => add_count(alloc, out, b"socks", u64::from(socks)),
        Verdict::ClientBlock { client: _ } => out.add(b" socks -"),
        Verdict::ClientNone => out.add(b" socks -"),
        Verdict::SocksBlock { client: _, socks } => add_count(
            alloc,
            out,
            b"socks",
            u64::from(socks),
        ),
        Verdict::SocksNone { client: _ } => out.add(b" socks none"),
    }
}

/// Appends the list and the rule whose limit was reached.
fn add_full(
    alloc: Global,
    out: &mut Text,
    list: ListKind,
    rule: u32,
    held: u32,
    limit: u32,
) -> Result<(), AllocError>
    ensures { OnOk result (out.new ≡ out.old ++ blanked (kind_text list ∷ digits rule ∷ codes "held" ∷ digits held ∷ codes "max" ∷ digits limit ∷ [])) }
{
    add_count(alloc, out, kind_word(list), u64::from(rule))?;
    add_count(alloc, out, b"held", u64::from(held))?;
    add_count(alloc, out, b"max", u64::from(limit))
}

/// Appends where a bad byte stands, and the byte.
fn add_place(alloc: Global, out: &mut Text, at: u64, byte: u8) -> Result<(), AllocError>
    ensures { OnOk result (out.new ≡ out.old ++ blanked (place_words at byte)) }
{
    add_count(alloc, out, b"at", at)?;
    add_word(out, b"byte")?;
    add_hex_word(out, byte)
}

/// Appends where a proxy's answer is bad: at a byte, or at its end.
fn add_upstream_place(
    alloc: Global,
    out: &mut Text,
    at: u64,
    byte: Option<u8>,
) -> Result<(), AllocError>
    ensures { OnOk result (out.new ≡ out.old ++ blanked (upstream_words at byte)) }
{
    match byte {
        Some(byte) => add_place(alloc, out, at, byte),
        None => {
            add_count(alloc, out, b"at", at)?;
            add_word(out, b"end")
        }
    }
}

/// Appends the moments of a timeout and its limit.
fn add_times(
    alloc: Global,
    out: &mut Text,
    since: u64,
    now: u64,
    limit: u32,
) -> Result<(), AllocError>
    ensures { OnOk result (out.new ≡ out.old ++ blanked (codes "since" ∷ digits since ∷ codes "now" ∷ digits now ∷ codes "limit" ∷ digits limit ∷ [])) }
{
    add_count(alloc, out, b"since", since)?;
    add_count(alloc, out, b"now", now)?;
    add_count(alloc, out, b"limit", u64::from(limit))
}

/// Appends the endpoint that came and the address that was asked for.
fn add_peers(out: &mut Text, peer: Endpoint, asked: Addr) -> Result<(), AllocError>
    ensures { OnOk result (out.new ≡ out.old ++ blanked (endpoint_text peer ∷ codes "asked" ∷ addr_text asked ∷ [])) }
{
    out.push(b' ')?;
    add_endpoint(out, peer)?;
    out.add(b" asked ")?;
    add_addr(out, asked)
}

fn kind_word(list: ListKind) -> &'static [u8]
    ensures { result.now ≡ kind_text list }
{
    match list {
        ListKind::Client => b"client",
        ListKind::Socks => b"socks",
    }
}

fn standing_word(standing: Standing) -> &'static [u8]
    ensures { result.now ≡ standing_text standing }
{
    match standing {
        Standing::Absent => b"absent",
        Standing::Opened => b"opened",
        Standing::Granted => b"granted",
    }
}

fn stage_word(stage: Stage) -> &'static [u8]
    ensures { result.now ≡ stage_text stage }
{
    match stage {
        Stage::Method => b"method",
        Stage::Login => b"login",
        Stage::Reply => b"reply",
    }
}

fn stop_word(by: StopBy) -> &'static [u8]
    ensures { result.now ≡ stop_text by }
{
    match by {
        StopBy::Control => b"control",
        StopBy::Log => b"log",
        StopBy::Sessions => b"sessions",
    }
}
