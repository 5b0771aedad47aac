ghost use Rattle.std.specs.Prelude.{◌≡◌};
ghost use Rattle.half_close_relay.specs.Halts.{answer_of};

use crate::pumped::{Pumped, Side};

/// Why a direction went no further.
#[derive(Clone, Copy, Debug, PartialEq, Eq)]
pub enum Halt {
    /// A read of its source failed.
    Source,
    /// A write or shut of its sink failed.
    Sink,
    Memory,
}

impl Halt {
    /// The answer of a relay, one direction of which halted: the one from that side to the other.
    pub fn answer(self, source: Side, sink: Side) -> Pumped
        ensures { result ≡ answer_of source sink self }
    {
        match self {
            Halt::Source => Pumped::Fault(source),
            Halt::Sink => Pumped::Fault(sink),
            Halt::Memory => Pumped::Memory,
        }
    }
}
