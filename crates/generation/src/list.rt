ghost use Rattle.std.specs.Prelude.{◌≡◌, ◌≤◌, ◌<◌, ◌≢◌, ℕ, Some, [], length, IfOk, OnErr};
ghost use Rattle.generation.specs.Published.{IsPublished, IsSnap};

use crate::gens::Gens;
use crate::snap::Snap;
use conf_types::Config;
use lists::Memory;
use std::alloc::Global;
use std::marker::Model;
use std::sync::Arc;

/// The configurations that one owner published and sees.
#[derive(Drop)]
pub struct ListGens {
    alloc: Global,
    snaps: Vec<Snap>,
    seen: u64,
}

impl Model for ListGens {
    ghost use Rattle.std.specs.Prelude.{◌≤◌, length};
    ghost use Rattle.generation.specs.Published.{Generations, AreNumbered, configs_of};

    ghost Value = { Generations };

    ghost view = { λ g. record { configs = configs_of g.snaps.items; seen = g.seen } };

    ghost invariant = { λ g. AreNumbered g.snaps.items × (g.seen ≤ length g.snaps.items) };
}

impl ListGens {
    ghost use Rattle.generation.specs.Published.{Generations, with_config, none_published};

    /// Nothing is published or seen yet.
    pub fn make(alloc: Global) -> ListGens
        ensures { result ≡ none_published }
    {
        ListGens {
            alloc,
            snaps: Vec::new(alloc),
            seen: 0,
        }
    }

    /// Publishes a configuration, and answers its number. Where memory is refused the configuration is given up.
    pub fn push(&mut self, config: Config) -> Result<u64, Memory>
        ensures published { IfOk result (λ number. self.new ≡ with_config self.old config) }
        ensures number { IfOk result (λ number. number ≡ length self.new.configs) }
        ensures same { OnErr result (self.new ≡ self.old) }
    {
        let number = self.snaps.len() as u64 + 1;
        let Ok(config) = Arc::new(self.alloc, config) else {
            return Err(Memory);
        };
        match self.snaps.push(Snap { number, config }) {
            Ok(()) => Ok(number),
            Err(_) => Err(Memory),
        }
    }

    /// The number of the last that was published; 0 before the first.
    pub fn last(&self) -> u64
        ensures { result ≡ length self.now.configs }
    {
        self.snaps.len() as u64
    }

    /// The published configuration of a number.
    pub fn at(&self, number: u64) -> &Snap
        requires from_one { 0 < number }
        requires published { number ≤ length self.now.configs }
        ensures { IsSnap (Some self.now.configs) number result.now }
    {
        &self.snaps[number as usize - 1]
    }
}

impl Gens for ListGens {
    ghost published = { λ gens. Some gens.configs };

    ghost seen = { λ gens. gens.seen };

    ghost begun = { λ gens. 0 < length gens.configs };

    /// It sees the last.
    fn see(&mut self) -> u64
        requires { 0 < length self.old.configs }
        ensures published { Some self.new.configs ≡ Some self.old.configs }
        ensures seen { self.new.seen ≡ result }
        ensures begun { 0 < length self.new.configs }
        ensures number { IsPublished (Some self.old.configs) result }
        ensures later { self.old.seen ≤ result }

        // Beside the clauses of the trait.
        ensures last { result ≡ length self.old.configs }
        ensures kept { self.new ≡ record self.old { seen = result } }
    {
        self.seen = self.snaps.len() as u64;
        self.seen
    }

    fn snap(&self) -> &Snap {
        &self.snaps[self.seen as usize - 1]
    }
}
