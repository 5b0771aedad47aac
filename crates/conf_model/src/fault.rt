ghost use Rattle.std.specs.Prelude.{◌≡◌};
ghost use Rattle.conf_model.specs.declared.fault.ConfKind.TheVariants.{Memory as OfMemory};

use conf_text::TextFault;
use std::alloc::AllocError;

/// What is wrong with a configuration.
#[derive(Clone, Copy, Debug, PartialEq, Eq)]
pub enum ConfKind {
    /// A key that isn't one of its place.
    UnknownKeyword,
    /// A value outside its table, too few or too many values, an entry that comes twice in a block, a route without
    /// `via`.
    BadValue,
    /// The method `gssapi`.
    GssapiRefused,
    /// The method `pam`, or one that begins with it.
    PamRefused,
    /// Any other word that is no method of its place.
    MethodRefused,
    /// The name of an interface where an address should stand.
    InterfaceRefused,
    /// No `internal` at all.
    MissingInternal,
    /// A control port at an address from outside the machine.
    ControlNotLoopback,
    /// More rules, routes or addresses than the limits allow.
    TooMany,
    /// The text isn't made of statements. Never `TextFault::Memory`.
    Text(TextFault),
    /// Memory was refused.
    Memory,
}

/// The first fault of a configuration.
#[derive(Clone, Copy, Debug, PartialEq, Eq)]
pub struct ConfFault {
    /// Counted from 1; 0 where no line is to blame, or where memory was refused.
    pub line: u32,
    pub kind: ConfKind,
}

impl From<AllocError> for ConfKind {
    ghost from_gives = { λ _ e. e ≡ OfMemory };

    fn from(_e: AllocError) -> ConfKind {
        ConfKind::Memory
    }
}

impl From<AllocError> for ConfFault {
    ghost from_gives = { λ _ e. e.kind ≡ OfMemory };

    fn from(_e: AllocError) -> ConfFault {
        ConfFault {
            line: 0,
            kind: ConfKind::Memory,
        }
    }
}
