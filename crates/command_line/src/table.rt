//! The commands, as `clap` reads the words behind their names.
ghost use Rattle.std.specs.Prelude.{◌≡◌, IfOk, false, map, option_map, true};
ghost use Rattle.std.specs.String.{string_bytes};
ghost use Rattle.clap.specs.Words.{app_of, found_of, is_simple_and_free, rows_of, rule_of};
ghost use Rattle.command_line.specs.Table.{bare, check_app, decide_app, needed as needed_rule, replay_app, taken};

use clap::error::ErrorKind;
use clap::{Arg, ArgAction, ArgMatches, Command};
use lists::Memory;
use std::alloc::{AllocError, Global};

/// A word that has to stand.
fn needed<'a>(alloc: Global, id: &'a str) -> Arg<'a>
    ensures rule { rule_of result ≡ needed_rule id.now }
    ensures local { result.global ≡ false }
{
    Arg::new(alloc, id).required(true).action(ArgAction::Set)
}

/// A command without arguments, and with no words of its own for help or a version.
fn named<'a>(alloc: Global, name: &'a str) -> Command<'a>
    ensures { app_of result ≡ bare name.now }
{
    Command::new(alloc, name)
        .no_binary_name(true)
        .disable_help_flag(true)
        .disable_version_flag(true)
}

/// `check FILE`.
pub fn check_command<'a>(alloc: Global) -> Result<Command<'a>, AllocError>
    ensures { IfOk result (λ command. app_of command ≡ check_app) }
{
    named(alloc, "check").arg(needed(alloc, "file"))
}

/// `decide FILE FROM TO CMD`.
pub fn decide_command<'a>(alloc: Global) -> Result<Command<'a>, AllocError>
    ensures { IfOk result (λ command. app_of command ≡ decide_app) }
{
    named(alloc, "decide")
        .arg(needed(alloc, "file"))?
        .arg(needed(alloc, "from"))?
        .arg(needed(alloc, "to"))?
        .arg(needed(alloc, "command"))
}

/// `replay`.
pub fn replay_command<'a>(alloc: Global) -> Command<'a>
    ensures { app_of result ≡ replay_app }
{
    named(alloc, "replay")
}

/// What a command takes from the words behind its name; nothing where they don't fit.
pub fn matches_in<'a>(
    command: Command<'a>,
    words: &'a [String],
) -> Result<Option<ArgMatches<'a>>, Memory>
    requires { is_simple_and_free (app_of command) ≡ true }
    ensures { IfOk result (λ found. option_map (λ m. rows_of (found_of m)) found ≡ taken (app_of command.entry) (map string_bytes words.now)) }
{
    match command.try_get_matches_from(words) {
        Ok(matches) => Ok(Some(matches)),
        Err(error) => match error.kind() {
            ErrorKind::OutOfMemory => Err(Memory),
            _ => Ok(None),
        },
    }
}
