ghost use Rattle.std.specs.Prelude.{◌≡◌, ◌≤◌, ℕ, Option};
ghost use Rattle.net_ends.specs.Stores.{Files, MayReadFile, StoredCause};

use lists::Text;
use std::alloc::Global;

/// What reading a file came to.
#[derive(Drop)]
pub enum Stored {
    /// The file, or its front where it is longer than the limit.
    Read(Text),
    Failed,
    Memory,
}

/// Named files.
pub trait Store {
    /// What its files hold, where it tells.
    ghost files: { Self → Option Files };

    /// How often it failed.
    ghost faults: { Self → ℕ };

    /// Reads a file, but no more than one byte beyond the limit. So a text longer than the limit shows that the file is too
    /// long.
    fn read_file(&mut self, alloc: Global, name: &str, limit: usize) -> Stored
        ensures answer { MayReadFile (files self.old) name.now limit result }
        ensures kept { files self.new ≡ files self.old }
        ensures later { faults self.old ≤ faults self.new }
        ensures cause { StoredCause (faults self.old) (faults self.new) result };
}
