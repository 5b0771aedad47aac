//! Plays the cases that `cases.txt` lists, over ends in memory, and names those that differ from what they are to give. The files
//! lie in the folder that its word names, or in the one that it runs in.
#![tactic(auto)]

mod case;
mod play;

use case::{Case, read_case};
use play::{Input, Wanted, is_as_wanted};
use std::process::ExitCode;
use std::{env, fs, io};

/// How many cases were played, and how many of them were as expected.
#[derive(Clone, Copy)]
struct Tally {
    played: u64,
    as_expected: u64,
}

/// A file of the folder.
fn read_file(rt: &HostRuntime, folder: &str, name: &str) -> io::Result<Vec<u8>> {
    let path = format!(in rt.alloc(); "{folder}/{name}")?;
    fs::read(rt, path.as_str())
}

/// A file of a case, by its ending.
fn file_of(rt: &HostRuntime, folder: &str, case: &Case, ending: &str) -> io::Result<Vec<u8>> {
    let name = format!(in rt.alloc(); "{}.{ending}", case.name)?;
    read_file(rt, folder, name.as_str())
}

/// What the words of a case read: a script, or the file that they name, where it is there.
fn input_of(rt: &HostRuntime, folder: &str, case: &Case) -> io::Result<Input> {
    let mut input = Input {
        script: Vec::new(rt.alloc()),
        file: None,
    };
    if case.is_replay() {
        input.script = file_of(rt, folder, case, "script")?;
    }
    if let Some(file) = case.words.get(1) {
        input.file = read_file(rt, folder, file.as_str()).ok();
    }
    Ok(input)
}

/// What standard output is to have: nothing, where the run is to fail.
fn output_of(rt: &HostRuntime, folder: &str, case: &Case) -> io::Result<Vec<u8>> {
    if case.status == 0 {
        file_of(rt, folder, case, "output")
    } else {
        Ok(Vec::new(rt.alloc()))
    }
}

/// Whether a case gives what it is to give.
fn is_as_expected(rt: &HostRuntime, folder: &str, case: &Case) -> io::Result<bool> {
    let input = input_of(rt, folder, case)?;
    let output = output_of(rt, folder, case)?;
    let wanted = Wanted {
        status: case.status,
        output: output.as_slice(),
        error: case.error.as_bytes(),
    };
    is_as_wanted(rt.alloc(), case.words.as_slice(), &input, &wanted).ok_or(io::Error::from(
        io::ErrorKind::OutOfMemory,
    ))
}

/// Plays the cases of a folder, and prints a line for each that differs.
fn play_all(rt: &HostRuntime, folder: &str) -> io::Result<Tally> {
    let path = format!(in rt.alloc(); "{folder}/cases.txt")?;
    let list = fs::read_to_string(rt, path.as_str())?;
    let mut tally = Tally {
        played: 0,
        as_expected: 0,
    };
    for line in list.as_str().lines() {
        if let Some(case) = read_case(rt.alloc(), line)? {
            tally.played = tally.played.saturating_add(1);
            if is_as_expected(rt, folder, &case)? {
                tally.as_expected = tally.as_expected.saturating_add(1);
            } else {
                println!(rt; "differs: {}", case.name)?;
            }
        }
    }
    Ok(tally)
}

fn main(rt: HostRuntime) -> io::Result<ExitCode> {
    let mut words = env::args(&rt)?;
    let _program = words.next();
    let tally = match words.next() {
        Some(folder) => play_all(&rt, folder.as_str())?,
        None => play_all(&rt, ".")?,
    };
    println!(rt; "{} cases, {} as expected", tally.played, tally.as_expected)?;
    if tally.played == tally.as_expected {
        Ok(ExitCode::from(0))
    } else {
        Ok(ExitCode::from(1))
    }
}
