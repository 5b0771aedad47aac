ghost use Rattle.std.specs.Prelude.{◌≡◌, Some};
ghost use Rattle.rule_index.specs.Index.{IsIndexOf};
ghost use Rattle.rule_list.specs.Rules.{is_pass, judge};
ghost use Rattle.socks_machine.specs.Datagrams.{between as between_of, passes_in};

use addr_pattern::{Endpoint, Name};
use conf_types::Config;
use rule_index::RuleIndex;
use rule_list::{Facts, Verdict};
use socks_grammar::Command;

fn copy_user(user: &Option<Name>) -> Option<Name>
    ensures { result ≡ user.now }
{
    match user {
        None => None,
        Some(user) => Some(user.copy()),
    }
}

/// The facts of a datagram: those of the grant, with this command and these ends, and without a name.
fn between(facts: &Facts, command: Command, from: Endpoint, to: Endpoint) -> Facts
    ensures { result ≡ between_of facts.now command from to }
{
    Facts {
        peer: facts.peer,
        local: facts.local,
        command,
        version: facts.version,
        method: facts.method,
        user: copy_user(&facts.user),
        from,
        to,
        name: None,
    }
}

fn is_passed(config: &Config, index: &RuleIndex, facts: &Facts) -> bool
    requires { IsIndexOf config.now index.now }
    ensures { result ≡ is_pass (judge config.now facts.now) }
{
    match index.judge(config, facts) {
        Verdict::Pass { .. } => true,
        _ => false,
    }
}

/// Whether both lists let a datagram pass between these ends.
pub fn allows(
    config: &Config,
    index: &RuleIndex,
    facts: &Facts,
    command: Command,
    from: Endpoint,
    to: Endpoint,
) -> bool
    requires { IsIndexOf config.now index.now }
    ensures { result ≡ passes_in (Some config.now) (between_of facts.now command from to) }
{
    is_passed(config, index, &between(facts, command, from, to))
}
