use addr_pattern::{Endpoint, Name};
use socks_grammar::Command;

/// What the words ask for.
#[derive(Drop)]
pub enum Invocation<'a> {
    /// The canonical text of a file's configuration.
    Check {
        file: &'a str,
    },
    /// The verdict of a file's configuration. The name, if any, is the one under which `to` is asked for.
    Decide {
        file: &'a str,
        from: Endpoint,
        to: Endpoint,
        name: Option<Name>,
        command: Command,
    },
    /// The transcript of the script on standard input.
    Replay,
}
