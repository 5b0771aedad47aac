ghost use Rattle.std.specs.Prelude.{◌≡◌, [], ◌∷◌, ◌++◌, false, IfOk, OnOk, OnErr, find, option_copied};
ghost use Rattle.net_ends.specs.InMemory.{is_named};

use crate::failing::FailingCalls;
use crate::pieces::front_of;
use crate::store::{Store, Stored};
use lists::{List, Memory, Text};
use std::alloc::Global;
use std::marker::Model;

/// A store of the files that were put into it. Of files of one name the first counts. A file that isn't there can't be read:
/// that is a failure.
#[derive(Drop)]
pub struct MemStore {
    alloc: Global,
    files: List<(Text, Text)>,
    failing: FailingCalls,
    faults: u64,
}

impl Model for MemStore {
    ghost use Rattle.std.specs.Prelude.{◌==◌, length};
    ghost use Rattle.net_ends.specs.InMemory.{StoreInMemory};

    ghost Value = { StoreInMemory };

    ghost view = { λ m. record {
      files = m.files;
      unfailing = length m.failing.numbers == 0;
      failing = m.failing;
      faults = m.faults;
    } };
}

impl MemStore {
    ghost use Rattle.net_ends.specs.Failing.{with_failure};
    ghost use Rattle.net_ends.specs.InMemory.{fresh_store};

    /// A store without files, with room for the list of that many.
    pub fn make(alloc: Global, cap: usize) -> Result<MemStore, Memory>
        ensures { IfOk result (λ store. store ≡ fresh_store) }
    {
        match Vec::with_capacity(alloc, cap) {
            Ok(room) => Ok(MemStore {
                alloc,
                files: List::from_vec(room),
                failing: FailingCalls::none(alloc),
                faults: 0,
            }),
            Err(_) => Err(Memory),
        }
    }

    /// Puts a copy of a file behind those that are there.
    pub fn put(&mut self, name: &str, content: &[u8]) -> Result<(), Memory>
        ensures ok { OnOk result (self.new ≡ record self.old { files = self.old.files ++ (name.now, content.now) ∷ [] }) }
        ensures err { OnErr result (self.new ≡ self.old) }
    {
        let Ok(name) = Text::from_slice(self.alloc, name.as_bytes()) else {
            return Err(Memory);
        };
        let Ok(content) = Text::from_slice(self.alloc, content) else {
            return Err(Memory);
        };
        match self.files.push((name, content)) {
            Ok(()) => Ok(()),
            Err(_) => Err(Memory),
        }
    }

    /// The reading of this number, counted from 1, is to fail.
    pub fn fail_at(&mut self, number: u64) -> Result<(), Memory>
        ensures ok { OnOk result (self.new ≡ record self.old { unfailing = false; failing = with_failure self.old.failing number }) }
        ensures err { OnErr result (self.new ≡ self.old) }
    {
        self.failing.add(number)
    }
}

fn has_name(file: &(Text, Text), name: &str) -> bool
    ensures { result ≡ is_named name.now file.now }
{
    file.0.as_slice() == name.as_bytes()
}

fn first_named<'a>(files: &'a [(Text, Text)], name: &str) -> Option<&'a (Text, Text)>
    ensures { option_copied result ≡ find (is_named name.now) files.now }
{
    files.iter().find(|file| has_name(file, name))
}

impl Store for MemStore {
    ghost use Rattle.std.specs.Prelude.{◌≤◌, ◌||◌, true, None, is_none};
    ghost use Rattle.net_ends.specs.Failing.{after_call, is_to_fail, is_failed_stored};
    ghost use Rattle.net_ends.specs.InMemory.{told_of_store, content_of};
    ghost use Rattle.net_ends.specs.Stores.{MayReadFile, StoredCause, IfStoreFailed};

    ghost files = { told_of_store };

    ghost faults = { λ store. store.faults };

    fn read_file(&mut self, alloc: Global, name: &str, limit: usize) -> Stored
        ensures answer { MayReadFile (told_of_store self.old) name.now limit result }
        ensures kept { told_of_store self.new ≡ told_of_store self.old }
        ensures later { self.old.faults ≤ self.new.faults }
        ensures cause { StoredCause self.old.faults self.new.faults result }

        // Beside the clauses of the trait: it fails at the numbered calls and at files that aren't there, and nowhere else.
        ensures counted { self.new.failing ≡ after_call self.old.failing }
        ensures failed { is_failed_stored result ≡ (is_to_fail self.new.failing || is_none (content_of self.old.files name.now)) }
        ensures unfailing { self.new.unfailing ≡ self.old.unfailing }
        ensures missing { IfStoreFailed result (self.old.unfailing ≡ true → content_of self.old.files name.now ≡ None) }
    {
        let fails = self.failing.next_fails();
        match first_named(self.files.as_slice(), name) {
            Some(file) if !fails => {
                match Text::from_slice(alloc, front_of(file.1.as_slice(), limit)) {
                    Ok(text) => Stored::Read(text),
                    Err(_) => Stored::Memory,
                }
            }
            _ => {
                self.faults = self.faults.saturating_add(1);
                Stored::Failed
            }
        }
    }
}
