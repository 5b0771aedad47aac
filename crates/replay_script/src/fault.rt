ghost use Rattle.std.specs.Prelude.{◌≡◌};
ghost use Rattle.replay_script.specs.declared.fault.ScriptKind.TheVariants.{Memory};
ghost use Rattle.replay_script.specs.Kinds.{conf_kind, users_kind};

use conf_model::{ConfFault, ConfKind};
use std::alloc::AllocError;
use user_login::{UsersFault, UsersKind};

/// Why a text is no script that is served.
#[derive(Clone, Copy, Debug, PartialEq, Eq)]
pub enum ScriptKind {
    /// The text has more than 67,108,864 bytes. The line is 0.
    Length,
    /// The first line isn't `sockd-script 1`, byte for byte.
    Header,
    /// The counted text of a `publish` line is no configuration. The fault is its first one, and its line counts from the
    /// first counted line; its kind is never want of memory. The script's line is that of `publish`.
    Conf(ConfFault),
    /// The counted text of a `users` line is no users file. The fault is its first one, and its line counts from the first
    /// counted line; its kind is never want of memory. The script's line is that of `users`.
    Users(UsersFault),
    /// The line isn't of a served form, or it breaks its condition. A configuration that isn't served is found at its
    /// `publish` line.
    NotBuilt,
    /// Memory was refused. The line says nothing.
    Memory,
}

/// The first fault of a script.
#[derive(Clone, Copy, Debug, PartialEq, Eq)]
pub struct ScriptFault {
    /// The line of the text, counted from 1.
    pub line: u32,
    pub kind: ScriptKind,
}

impl From<AllocError> for ScriptFault {
    ghost from_gives = { λ _ e. e.kind ≡ Memory };

    fn from(_e: AllocError) -> ScriptFault {
        ScriptFault {
            line: 0,
            kind: ScriptKind::Memory,
        }
    }
}

impl From<AllocError> for ScriptKind {
    ghost from_gives = { λ _ kind. kind ≡ Memory };

    fn from(_e: AllocError) -> ScriptKind {
        ScriptKind::Memory
    }
}

impl From<ConfFault> for ScriptKind {
    ghost from_gives = { λ fault kind. kind ≡ conf_kind fault };

    fn from(fault: ConfFault) -> ScriptKind {
        match fault.kind {
            ConfKind::Memory => ScriptKind::Memory,
            _ => ScriptKind::Conf(fault),
        }
    }
}

impl From<UsersFault> for ScriptKind {
    ghost from_gives = { λ fault kind. kind ≡ users_kind fault };

    fn from(fault: UsersFault) -> ScriptKind {
        match fault.kind {
            UsersKind::Memory => ScriptKind::Memory,
            _ => ScriptKind::Users(fault),
        }
    }
}
