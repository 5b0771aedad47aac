//! Measures one call by making it many times. `judge RULES COUNT` judges one request over so many socks rules, of which the last
//! alone matches; `index RULES COUNT` does the same by the index, and `nets RULES COUNT` over rules for networks. `build RULES COUNT` builds the index
//! of these. `handshake KIND COUNT` takes one client's prelude byte by byte, a `short` or a `long` one.
#![tactic(auto)]

mod handshake_count;
mod index_count;
mod judge_count;
mod nets;
mod prelude;
mod request;
mod rules;
mod size;

use conf_types::Config;
use handshake_count::count_asks;
use index_count::{count_built, count_indexed};
use judge_count::count_passes;
use nets::{last_request, nets_of};
use prelude::{long, short, users_of};
use request::request;
use rule_index::RuleIndex;
use rule_list::Facts;
use rules::config_of;
use size::{COUNT, RULES, read_size};
use socks_grammar::Method;
use std::process::ExitCode;
use std::{env, io};

/// What is measured, and how many times.
#[derive(Clone, Copy)]
enum Measure {
    Judge { rules: u32, count: u32 },
    Index { rules: u32, count: u32 },
    Nets { rules: u32, count: u32 },
    Build { rules: u32, count: u32 },
    Handshake { is_long: bool, count: u32 },
}

fn is_long(word: &str) -> Option<bool> {
    match word {
        "long" => Some(true),
        "short" => Some(false),
        _ => None,
    }
}

fn measure_by(call: &str, kind: &str, count: &str) -> Option<Measure> {
    let count = read_size(count, COUNT)?;
    match call {
        "judge" => Some(Measure::Judge {
            rules: read_size(kind, RULES)?,
            count,
        }),
        "index" => Some(Measure::Index {
            rules: read_size(kind, RULES)?,
            count,
        }),
        "nets" => Some(Measure::Nets {
            rules: read_size(kind, RULES)?,
            count,
        }),
        "build" => Some(Measure::Build {
            rules: read_size(kind, RULES)?,
            count,
        }),
        "handshake" => Some(Measure::Handshake {
            is_long: is_long(kind)?,
            count,
        }),
        _ => None,
    }
}

/// What the words behind the program's name say, or None where they fit nothing.
fn measure_of_words(rt: &HostRuntime) -> Option<Measure> {
    let mut words = env::args(rt).ok()?;
    let _program = words.next();
    let call = words.next()?;
    let kind = words.next()?;
    let count = words.next()?;
    match words.next() {
        Some(_) => None,
        None => measure_by(call.as_str(), kind.as_str(), count.as_str()),
    }
}

fn unmade(rt: &HostRuntime, what: &str) -> io::Result<ExitCode> {
    eprintln!(rt; "measure: no {what} was made")?;
    Ok(ExitCode::from(4))
}

fn measure_judge(rt: &HostRuntime, rules: u32, count: u32) -> io::Result<ExitCode> {
    let Some(config) = config_of(rt.alloc(), rules) else {
        return unmade(rt, "configuration");
    };
    let passed = count_passes(&config, &request(), count);
    println!(rt; "passed {passed}")?;
    Ok(ExitCode::from(0))
}

fn measure_index(
    rt: &HostRuntime,
    config: Option<Config>,
    facts: &Facts,
    count: u32,
) -> io::Result<ExitCode> {
    let Some(config) = config else {
        return unmade(rt, "configuration");
    };
    let Ok(index) = RuleIndex::build(rt.alloc(), &config) else {
        return unmade(rt, "index");
    };
    let passed = count_indexed(&index, &config, facts, count);
    println!(rt; "passed {passed}")?;
    Ok(ExitCode::from(0))
}

fn measure_build(rt: &HostRuntime, rules: u32, count: u32) -> io::Result<ExitCode> {
    let Some(config) = nets_of(rt.alloc(), rules) else {
        return unmade(rt, "configuration");
    };
    let built = count_built(rt.alloc(), &config, count);
    println!(rt; "built {built}")?;
    Ok(ExitCode::from(0))
}

fn measure_handshake(rt: &HostRuntime, is_long: bool, count: u32) -> io::Result<ExitCode> {
    let Ok(users) = users_of(rt.alloc()) else {
        return unmade(rt, "users file");
    };
    let bytes = if is_long {
        long(rt.alloc())?
    } else {
        short(rt.alloc())?
    };
    let methods = [Method::Username, Method::NoAuth];
    let asked = count_asks(&methods, &users, bytes.as_slice(), count);
    println!(rt; "asked {asked}")?;
    Ok(ExitCode::from(0))
}

fn main(rt: HostRuntime) -> io::Result<ExitCode> {
    match measure_of_words(&rt) {
        Some(Measure::Judge { rules, count }) => measure_judge(&rt, rules, count),
        Some(Measure::Index { rules, count }) => {
            measure_index(&rt, config_of(rt.alloc(), rules), &request(), count)
        }
        Some(Measure::Nets { rules, count }) => {
            measure_index(&rt, nets_of(rt.alloc(), rules), &last_request(rules), count)
        }
        Some(Measure::Build { rules, count }) => measure_build(&rt, rules, count),
        Some(Measure::Handshake { is_long, count }) => measure_handshake(&rt, is_long, count),
        None => {
            eprintln!(rt;
                "measure: usage: measure judge|index|nets|build RULES COUNT | measure handshake short|long COUNT"
            )?;
            Ok(ExitCode::from(2))
        }
    }
}
