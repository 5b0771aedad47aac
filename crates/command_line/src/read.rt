//! What words ask for.
ghost use Rattle.std.specs.Prelude.{◌≡◌, IfOk, map, option_map};
ghost use Rattle.std.specs.String.{string_bytes};
ghost use Rattle.clap.specs.Words.{first_of, found_of, rows_of};
ghost use Rattle.command_line.specs.Words.{asked_of, check_of, checked, decide_of, decided, replay_of, wanted, wanted_words};

use crate::asked::Invocation;
use crate::destination::{Destination, read_command, takes_name};
use crate::table::{check_command, decide_command, matches_in, replay_command};
use addr_pattern::{Endpoint, is_word};
use clap::ArgMatches;
use lists::Memory;
use std::alloc::Global;

/// The word of an argument.
fn value<'a>(matches: &ArgMatches<'a>, id: &str) -> Option<&'a str>
    ensures { option_map (λ s. s.now) result ≡ first_of id.now (rows_of (found_of matches.now)) }
{
    matches.get_str(id)
}

fn asked_check<'a>(matches: &ArgMatches<'a>) -> Option<Invocation<'a>>
    ensures { option_map wanted result ≡ checked (rows_of (found_of matches.now)) }
{
    match value(matches, "file") {
        None => None,
        Some(file) => Some(Invocation::Check { file }),
    }
}

/// What `decide` is asked with these words, unless one of them says nothing.
fn decision<'a>(file: &'a str, from: &str, to: &str, command: &str) -> Option<Invocation<'a>>
    ensures { option_map wanted result ≡ wanted_words file.now from.now to.now command.now }
{
    let Ok(from) = Endpoint::read(from.as_bytes()) else {
        return None;
    };
    let Some(destination) = Destination::read(to.as_bytes()) else {
        return None;
    };
    let Some(command) = read_command(command.as_bytes()) else {
        return None;
    };
    if destination.name.is_some() && !takes_name(command) {
        return None;
    }
    Some(Invocation::Decide {
        file,
        from,
        to: destination.to,
        name: destination.name,
        command,
    })
}

fn asked_decide<'a>(matches: &ArgMatches<'a>) -> Option<Invocation<'a>>
    ensures { option_map wanted result ≡ decided (rows_of (found_of matches.now)) }
{
    let Some(file) = value(matches, "file") else {
        return None;
    };
    let Some(from) = value(matches, "from") else {
        return None;
    };
    let Some(to) = value(matches, "to") else {
        return None;
    };
    let Some(command) = value(matches, "command") else {
        return None;
    };
    decision(file, from, to, command)
}

fn read_check<'a>(alloc: Global, words: &'a [String]) -> Result<Option<Invocation<'a>>, Memory>
    ensures { IfOk result (λ asked. option_map wanted asked ≡ check_of (map string_bytes words.now)) }
{
    let Ok(command) = check_command(alloc) else {
        return Err(Memory);
    };
    match matches_in(command, words)? {
        None => Ok(None),
        Some(matches) => Ok(asked_check(&matches)),
    }
}

fn read_decide<'a>(alloc: Global, words: &'a [String]) -> Result<Option<Invocation<'a>>, Memory>
    ensures { IfOk result (λ asked. option_map wanted asked ≡ decide_of (map string_bytes words.now)) }
{
    let Ok(command) = decide_command(alloc) else {
        return Err(Memory);
    };
    match matches_in(command, words)? {
        None => Ok(None),
        Some(matches) => Ok(asked_decide(&matches)),
    }
}

fn read_replay<'a>(alloc: Global, words: &'a [String]) -> Result<Option<Invocation<'a>>, Memory>
    ensures { IfOk result (λ asked. option_map wanted asked ≡ replay_of (map string_bytes words.now)) }
{
    match matches_in(replay_command(alloc), words)? {
        None => Ok(None),
        Some(_) => Ok(Some(Invocation::Replay)),
    }
}

/// What the words behind the program's name ask for; `None` where they fit no command. The first word is the command's
/// name. The others are its arguments: options, of which no command has any yet, may stand in any place, `--` ends them,
/// and any other word of two or more bytes that begins with `-` is refused where an option may stand.
pub fn read_words<'a>(alloc: Global, words: &'a [String]) -> Result<Option<Invocation<'a>>, Memory>
    ensures { IfOk result (λ asked. option_map wanted asked ≡ asked_of (map string_bytes words.now)) }
{
    let Some((first, rest)) = words.split_first() else {
        return Ok(None);
    };
    let command = first.as_bytes();
    if is_word(command, b"check") {
        return read_check(alloc, rest);
    }
    if is_word(command, b"decide") {
        return read_decide(alloc, rest);
    }
    if is_word(command, b"replay") {
        return read_replay(alloc, rest);
    }
    Ok(None)
}
