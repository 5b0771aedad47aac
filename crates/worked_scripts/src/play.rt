//! One run over ends in memory.
ghost use Rattle.std.specs.Prelude.{◌≡◌, ◌↔◌, IsTrue};
ghost use Rattle.worked_scripts.specs.Plays.{Gives};

use net_ends::{MemCaller, MemSink, MemSource, MemStore};
use sockd_commands::quick;
use std::alloc::Global;

/// The most bytes that a run may write to one output.
const ROOM: usize = 1_048_576;

/// What a run reads: its standard input, and the file that its second word names, where it is there.
#[derive(Drop)]
pub struct Input {
    pub script: Vec<u8>,
    pub file: Option<Vec<u8>>,
}

/// What a run is to give.
#[derive(Drop)]
pub struct Wanted<'a> {
    pub status: u8,
    pub output: &'a [u8],
    pub error: &'a [u8],
}

/// What a run gave.
#[derive(Drop)]
struct Outcome {
    status: u8,
    output: MemSink,
    error: MemSink,
}

fn store_of(alloc: Global, words: &[String], input: &Input) -> Option<MemStore> {
    let mut files = MemStore::make(alloc, 1).ok()?;
    if let (Some(name), Some(file)) = (words.get(1), &input.file) {
        files.put(name.as_str(), file.as_slice()).ok()?;
    }
    Some(files)
}

fn ran(alloc: Global, words: &[String], input: &Input) -> Option<Outcome> {
    let mut source = MemSource::make(alloc, 0).ok()?;
    source.put(input.script.as_slice()).ok()?;
    let mut output = MemSink::make(alloc, ROOM).ok()?;
    let mut error = MemSink::make(alloc, ROOM).ok()?;
    let mut files = store_of(alloc, words, input)?;
    let mut caller = MemCaller::make(alloc, 0).ok()?;
    let status = quick(
        alloc,
        words,
        &mut source,
        &mut output,
        &mut error,
        &mut files,
        &mut caller,
    );
    Some(Outcome {
        status,
        output,
        error,
    })
}

/// Whether a run gives just what is wanted; None where memory is refused.
pub fn is_as_wanted(
    alloc: Global,
    words: &[String],
    input: &Input,
    wanted: &Wanted<'_>,
) -> Option<bool> {
    let outcome = ran(alloc, words, input)?;
    Some(gives(&outcome, wanted))
}

/// Whether the status is the wanted one, and both outputs have what is wanted and nothing else.
fn gives(outcome: &Outcome, wanted: &Wanted<'_>) -> bool
    ensures { IsTrue result ↔ Gives outcome.now wanted.now }
{
    outcome.status == wanted.status
        && outcome.output.taken() == wanted.output
        && outcome.error.taken() == wanted.error
}
