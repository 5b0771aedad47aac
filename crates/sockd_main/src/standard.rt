//! Readers and writers of the system as sources and sinks. They tell nothing of their bytes: no clause can say what a file
//! or a terminal holds. Where a reader or a writer knows its bytes itself, each call hands them on.
ghost use Rattle.std.specs.Prelude.{◌≡◌, ◌<◌, ◌≤◌, None, length};

use net_ends::{Giving, Sink, Source, Store, Stored, Taking};
use sockd_commands::{Input, read_all};
use std::alloc::Global;
use std::fs;
use std::io::{Read, Write};
use std::rt::Files;

/// A reader, such as standard input.
#[derive(Drop)]
pub struct Reader<R> {
    inner: R,
    faults: u64,
}

impl<R> Reader<R> {
    pub fn new(inner: R) -> Reader<R>
        ensures inner { result.inner ≡ inner }
        ensures faults { result.faults ≡ 0 }
    {
        Reader { inner, faults: 0 }
    }
}

impl<R: Read> Source for Reader<R> {
    ghost use Rattle.net_ends.specs.Streams.{GivesTold, MayGive, TakingCause};
    ghost use Rattle.sockd_main.specs.Standard.{HasRead};

    ghost told = { λ _. None };

    ghost faults = { λ reader. reader.faults };

    fn read(&mut self, into: &mut [u8]) -> Taking
        requires { 0 < length into.old }
        ensures answer { MayGive (length into.old) result }
        ensures told { GivesTold None None result into.new }
        ensures later { self.old.faults ≤ self.new.faults }
        ensures cause { TakingCause self.old.faults self.new.faults result }
        // Beside the clauses of the trait: the bytes are those that the reader gave.
        ensures bytes { HasRead (R.remaining self.old.inner) (R.remaining self.new.inner) result into.new }
    {
        match self.inner.read(into) {
            Ok(n) if n == 0 => Taking::End,
            Ok(n) => Taking::Got(n),
            Err(_) => {
                self.faults = self.faults.saturating_add(1);
                Taking::Failed
            }
        }
    }
}

/// A writer, such as standard output. One that takes nothing has failed.
#[derive(Drop)]
pub struct Writer<W> {
    inner: W,
    faults: u64,
}

impl<W> Writer<W> {
    pub fn new(inner: W) -> Writer<W>
        ensures inner { result.inner ≡ inner }
        ensures faults { result.faults ≡ 0 }
    {
        Writer { inner, faults: 0 }
    }
}

impl<W: Write> Sink for Writer<W> {
    ghost use Rattle.net_ends.specs.Streams.{GivingCause, MayTake, after_giving};
    ghost use Rattle.sockd_main.specs.Standard.{HasWritten};

    ghost told = { λ _. None };

    ghost faults = { λ writer. writer.faults };

    fn write(&mut self, from: &[u8]) -> Giving
        ensures answer { MayTake (length from.now) result }
        ensures told { None ≡ after_giving None result from.now }
        ensures later { self.old.faults ≤ self.new.faults }
        ensures cause { GivingCause self.old.faults self.new.faults result }
        // Beside the clauses of the trait: the writer took the bytes.
        ensures bytes { HasWritten (W.contents self.old.inner) (W.contents self.new.inner) result from.now }
    {
        match self.inner.write(from) {
            Ok(n) if n > 0 => Giving::Took(n),
            _ => {
                self.faults = self.faults.saturating_add(1);
                Giving::Failed
            }
        }
    }
}

/// The files of the system. It tells nothing of them.
#[derive(Drop)]
pub struct SystemFiles<'a, R> {
    rt: &'a R,
    faults: u64,
}

impl<'a, R> SystemFiles<'a, R> {
    pub fn new(rt: &'a R) -> SystemFiles<'a, R>
        ensures { result.faults ≡ 0 }
    {
        SystemFiles { rt, faults: 0 }
    }
}

impl<'a, R: Files> Store for SystemFiles<'a, R> {
    ghost use Rattle.net_ends.specs.Stores.{MayReadFile, StoredCause};

    ghost files = { λ _. None };

    ghost faults = { λ store. store.faults };

    fn read_file(&mut self, alloc: Global, name: &str, limit: usize) -> Stored {
        let file = match fs::open(self.rt, name) {
            Ok(file) => file,
            Err(_) => {
                self.faults = self.faults.saturating_add(1);
                return Stored::Failed;
            }
        };
        let mut reader = Reader::new(file);
        match read_all(alloc, &mut reader, limit) {
            Input::Whole(text) => Stored::Read(text),
            Input::TooLong(mut text) => {
                text.truncate(limit + 1);
                Stored::Read(text)
            }
            Input::Failed => {
                self.faults = self.faults.saturating_add(1);
                Stored::Failed
            }
            Input::Memory => Stored::Memory,
        }
    }
}
