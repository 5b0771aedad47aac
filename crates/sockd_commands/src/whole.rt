//! All of a source, and all of a text to a sink.
ghost use Rattle.std.specs.Prelude.{◌≡◌, ◌≤◌, length, drop};
ghost use Rattle.sockd_commands.specs.Whole.{OnInput, Wrote};

use lists::Text;
use net_ends::{Giving, Sink, Source, Taking};
use std::alloc::Global;

/// What a source came to.
#[derive(Debug, Drop)]
pub enum Input {
    /// All that it gave, up to its end.
    Whole(Text),
    /// What it gave so far, which is more than the limit.
    TooLong(Text),
    Failed,
    Memory,
}

/// Reads all of a source, up to a limit.
pub fn read_all<I: Source>(alloc: Global, input: &mut I, limit: usize) -> Input
    ensures found { OnInput limit (I.told input.old) (I.told input.new) (I.faults input.old) (I.faults input.new) result }
    ensures later { I.faults input.old ≤ I.faults input.new }
{
    let mut bytes = Text::make(alloc);
    'reading: while bytes.len() <= limit {
        let mut piece = [0u8; 4096];
        match input.read(&mut piece) {
            Taking::End => return Input::Whole(bytes),
            Taking::Failed => return Input::Failed,
            Taking::Got(n) => match bytes.add(&piece[..n]) {
                Ok(()) => {}
                Err(_) => return Input::Memory,
            },
        }
    }
    Input::TooLong(bytes)
}

/// Writes all of a text, and says whether the sink took all of it.
pub fn write_all<K: Sink>(out: &mut K, text: &[u8]) -> bool
    ensures found { Wrote (K.told out.old) (K.told out.new) (K.faults out.old) (K.faults out.new) text.now result }
    ensures later { K.faults out.old ≤ K.faults out.new }
{
    let mut rest = text;
    'writing: while !rest.is_empty() {
        match out.write(rest) {
            Giving::Failed => return false,
            Giving::Took(n) => rest = rest_of(rest, n),
        }
    }
    true
}

fn rest_of(bytes: &[u8], at: usize) -> &[u8]
    requires { at ≤ length bytes.now }
    ensures { result.now ≡ drop at bytes.now }
{
    &bytes[at..]
}
