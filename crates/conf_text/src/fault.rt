ghost use Rattle.std.specs.Prelude.{◌≡◌};
ghost use Rattle.conf_text.specs.declared.fault.TextFault.TheVariants.{Memory as OfMemory};

use std::alloc::AllocError;

/// The first fault of a text, with its line. Lines count from 1.
#[derive(Clone, Copy, Debug, PartialEq, Eq)]
pub enum TextFault {
    /// The line says a byte that is none of the tab, the CR and the bytes from 20 to 7E.
    NotAscii(u32),
    /// Words from this line on, or this first word of a block, belong to no key.
    NoColon(u32),
    /// The block whose `{` stands in this line has no `}`.
    UnclosedBlock(u32),
    /// A brace stands where none may: a `}` outside blocks, a `{` in a block, or a `{` without words before it.
    StrayBrace(u32),
    /// The text has more than 1,048,576 bytes.
    TooLong,
    /// Memory was refused.
    Memory,
}

impl From<AllocError> for TextFault {
    ghost from_gives = { λ _ e. e ≡ OfMemory };

    fn from(_e: AllocError) -> TextFault {
        TextFault::Memory
    }
}
