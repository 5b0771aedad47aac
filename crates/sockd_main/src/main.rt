//! The program: a SOCKS proxy driven by rules.
#![tactic(auto)]

ghost use Rattle.std.specs.Prelude.{◌≡◌, ◌≢◌};
ghost use Rattle.std.specs.IoError.{error_kind};

mod no_caller;
mod standard;

use no_caller::NoCaller;
use sockd_commands::{End, quick, report};
use standard::{Reader, SystemFiles, Writer};
use std::io::ErrorKind;
use std::process::ExitCode;
use std::{env, io};

/// The words behind the program's name.
fn words_of(rt: &HostRuntime) -> io::Result<Vec<String>> {
    let mut arguments = env::args(rt)?;
    let _program = arguments.next();
    let mut words = Vec::new(rt.alloc());
    for word in arguments {
        words.push(word)?;
    }
    Ok(words)
}

/// How a run ends whose words couldn't be read: a word that isn't UTF-8 is none of a command.
fn wordless(error: &io::Error) -> End
    ensures text { error_kind error.now ≡ ErrorKind.InvalidData → result ≡ End.Usage }
    ensures other { error_kind error.now ≢ ErrorKind.InvalidData → result ≡ End.Memory }
{
    if error.kind() == ErrorKind::InvalidData {
        End::Usage
    } else {
        End::Memory
    }
}

fn main(rt: HostRuntime) -> ExitCode {
    let mut input = Reader::new(rt.stdin());
    let mut out = Writer::new(rt.stdout());
    let mut err = Writer::new(rt.stderr());
    let mut files = SystemFiles::new(&rt);
    let mut caller = NoCaller::new();
    let status = match words_of(&rt) {
        Ok(words) => quick(
            rt.alloc(),
            words.as_slice(),
            &mut input,
            &mut out,
            &mut err,
            &mut files,
            &mut caller,
        ),
        Err(error) => {
            let end = wordless(&error);
            report(&end, &mut err);
            end.status()
        }
    };
    ExitCode::from(status)
}
