ghost use Rattle.std.specs.Prelude.{◌≡◌};
ghost use Rattle.user_login.specs.declared.fault.UsersKind.TheVariants.{Memory as OfMemory};

use std::alloc::AllocError;

/// What is wrong with a users file.
#[derive(Clone, Copy, Debug, PartialEq, Eq)]
pub enum UsersKind {
    /// A line that is no user, not empty, and no comment.
    BadLine,
    /// A user whose name came before.
    Repeated,
    /// A user beyond the first 4,096.
    TooMany,
    /// More than 1,048,576 bytes.
    TooLong,
    /// Memory was refused.
    Memory,
}

/// The first fault of a users file.
#[derive(Clone, Copy, Debug, PartialEq, Eq)]
pub struct UsersFault {
    /// Counted from 1, with the lines that are skipped; 0 for `TooLong`.
    pub line: u32,
    pub kind: UsersKind,
}

impl From<AllocError> for UsersKind {
    ghost from_gives = { λ _ e. e ≡ OfMemory };

    fn from(_e: AllocError) -> UsersKind {
        UsersKind::Memory
    }
}
