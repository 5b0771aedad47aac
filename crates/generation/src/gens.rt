ghost use Rattle.std.specs.Prelude.{◌≡◌, ◌≤◌, ◌<◌, ℕ, List, Option};
ghost use Rattle.conf_types.specs.declared.entries.Entries.{Entries};
ghost use Rattle.generation.specs.Published.{IsPublished, IsSnap};

use crate::snap::Snap;

/// What sees the published configurations. It keeps the one that it saw last, whatever is published meanwhile.
pub trait Gens {
    /// The configurations that were published, in their order, where it tells.
    ghost published: { Self → Option (List Entries) };

    /// The number that was seen last; 0 before the first.
    ghost seen: { Self → ℕ };

    /// A configuration was published.
    ghost begun: { Self → Type 0 };

    /// Sees a published configuration, and answers its number. It takes no memory and doesn't wait.
    fn see(&mut self) -> u64
        requires { begun self.old }
        ensures published { published self.new ≡ published self.old }
        ensures seen { seen self.new ≡ result }
        ensures begun { begun self.new }
        ensures number { IsPublished (published self.old) result }
        ensures later { seen self.old ≤ result };

    /// What was seen last.
    fn snap(&self) -> &Snap
        requires { 0 < seen self.now }
        ensures { IsSnap (published self.now) (seen self.now) result.now };
}
