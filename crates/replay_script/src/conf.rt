ghost use Rattle.std.specs.Prelude.{◌≡◌, ◌≢◌, IfErr, IfOk, MatchBool, MatchOption};
ghost use Rattle.conf_types.specs.declared.entries.Entries.{Entries};
ghost use Rattle.conf_types.specs.Plain.{IsPlain};
ghost use Rattle.replay_script.specs.Conf.{Publishes, Unpublished};
ghost use Rattle.replay_script.specs.PlainTests.{is_direct as direct_by, are_direct as all_direct_by, are_free_clients as free_clients_by, are_free_requests as free_requests_by};
ghost use Rattle.replay_script.specs.Script.{RefusesText};

use crate::counted::counted;
use crate::fault::ScriptKind;
use conf_model::read_config;
use conf_types::{ClientRule, Config, Route, SocksRule, Via};
use std::alloc::Global;

fn is_direct(via: &Via) -> bool
    ensures { result ≡ direct_by via.now }
{
    matches!(via, Via::Direct)
}

fn are_direct(routes: &[Route]) -> bool
    ensures { result ≡ all_direct_by routes.now }
{
    routes.iter().all(|route| is_direct(&route.via))
}

fn are_free_clients(rules: &[ClientRule]) -> bool
    ensures { result ≡ free_clients_by rules.now }
{
    rules.iter().all(|rule| rule.max.is_none())
}

fn are_free_requests(rules: &[SocksRule]) -> bool
    ensures { result ≡ free_requests_by rules.now }
{
    rules.iter().all(|rule| rule.max.is_none())
}

/// Whether a configuration is served.
fn is_plain(config: &Config) -> bool
    ensures { MatchBool result (IsPlain config.now) (IsPlain config.now → ⊥) }
{
    if !are_direct(config.entries().routes.as_slice()) {
        return false;
    }
    if !are_free_clients(config.entries().client.as_slice()) {
        return false;
    }
    are_free_requests(config.entries().socks.as_slice())
}

/// The configuration that a text publishes, its count of lines with the `publish` line, and the text behind it. It is `None`
/// where the text publishes nothing, or a configuration that isn't served.
pub fn publish(alloc: Global, text: &[u8]) -> Result<Option<(Config, u64, &[u8])>, ScriptKind>
    ensures read { IfOk result (λ found. MatchOption found (Unpublished text.now) (λ p. Publishes text.now p.0 p.1 p.2.now)) }
    ensures refused { IfErr result (λ kind. kind ≢ ScriptKind.Memory → RefusesText text.now kind) }
{
    let Some((counted, lines, behind)) = counted(alloc, text, b"publish ")? else {
        return Ok(None);
    };
    match read_config(alloc, counted) {
        Err(fault) => Err(ScriptKind::from(fault)),
        Ok(config) => {
            if is_plain(&config) {
                Ok(Some((config, lines, behind)))
            } else {
                Ok(None)
            }
        }
    }
}
