ghost use Rattle.std.specs.Prelude.{◌≡◌};

use conf_model::ConfFault;
use replay_script::ScriptFault;

/// How a run ended.
#[derive(Clone, Copy, Debug, PartialEq, Eq)]
pub enum End {
    /// All was written.
    Done,
    /// The configuration has this fault.
    Conf(ConfFault),
    /// The script has this fault.
    Script(ScriptFault),
    /// The words aren't those of a command.
    Usage,
    /// Standard input failed.
    InputFault,
    /// Standard output failed.
    OutputFault,
    /// A file can't be read.
    StoreFault,
    /// Memory was refused.
    Memory,
}

impl End {
    ghost use Rattle.sockd_commands.specs.Quick.{status_of};

    /// The status that the program ends with.
    pub fn status(&self) -> u8
        ensures { result ≡ status_of self.now }
    {
        match self {
            End::Done => 0,
            End::Conf(_) | End::Script(_) => 1,
            End::Usage => 2,
            End::InputFault | End::OutputFault | End::StoreFault => 3,
            End::Memory => 4,
        }
    }
}
