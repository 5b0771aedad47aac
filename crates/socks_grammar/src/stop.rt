ghost use Rattle.std.specs.Prelude.{◌≡◌};

use addr_pattern::{BadAt, BadKind};

/// Why no value stands at the front: the bytes are too few, or one of them is bad.
#[derive(Clone, Copy, PartialEq, Eq, Debug)]
pub enum Stop {
    More,
    Bad(BadAt),
}

impl Stop {
    pub fn at(at: usize, byte: u8, kind: BadKind) -> Stop
        ensures { result ≡ Stop.Bad (record { at = at; byte = byte; kind = kind }) }
    {
        Stop::Bad(BadAt { at, byte, kind })
    }
}
