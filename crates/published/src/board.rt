//! The published list beside the copies: what is told, as seats of a table with one word.
ghost use Rattle.std.specs.Prelude.{◌≡◌, [], ◌∷◌, ◌++◌, true, false, IfOk};
ghost use Rattle.published.specs.Lists.{IsPrefixOf};
ghost use Rattle.published.specs.Rules.{HasOneList, AddsSaid, CatchesUp, hearing, reader_of, owner_of};

use crate::knows::Knows;
use atomic_table::{Join, Play, Seat, Split, Table, TableRule};
use conf_types::Config;
use std::alloc::{AllocError, Global};

/// There is one list, and each seat knows a beginning of it.
pub struct OneList;

impl TableRule<Config, Knows, ()> for OneList {
    ghost holds = { λ _ state. HasOneList state.views };

    ghost first = { λ _. owner_of [] };
}

struct Adds;

impl Play<Config, Knows> for Adds {
    ghost then = { AddsSaid };
}

struct Catches;

impl Play<Config, Knows> for Catches {
    ghost then = { CatchesUp };
}

struct Tells;

impl Split<Knows> for Tells {
    ghost left = { λ knows. knows };

    ghost right = { λ knows. reader_of knows.configs };
}

struct Hears;

impl Join<Knows> for Hears {
    ghost both = { hearing };

    ghost spent = { reader_of [] };
}

/// A seat of the table. It has no bytes: its knowledge stands in the contracts alone.
pub type Note = Seat<Config, Knows>;

/// The table of the published list.
#[derive(Drop)]
pub struct Board {
    pub table: Table<Config, Knows, (), OneList, Global>,
    ghost one: { table.shared.table_id.words ≡ 1 },
}

impl Board {
    /// An empty list, and the seat that extends it.
    pub fn make(alloc: Global) -> Result<(Board, Note), AllocError>
        ensures seat { IfOk result (λ made. made.1.table_id ≡ made.0.table.shared.table_id) }
        ensures list { IfOk result (λ made. made.1.me ≡ (owner_of [], [])) }
    {
        let (table, note) = Table::of_words(alloc, &[0], &())?;
        Ok((Board { table }, note))
    }

    /// Adds a configuration at the end of the list.
    pub fn add(&self, note: &mut Note, config: &Config)
        requires own { note.old.table_id ≡ self.now.table.shared.table_id }
        requires owner { (note.old.me.0.extends ≡ true) × (note.old.me.1 ≡ []) }
        ensures own { (note.new.table_id ≡ note.old.table_id) × (note.new.me.1 ≡ []) }
        ensures list { note.new.me.0 ≡ owner_of (note.old.me.0.configs ++ config.now ∷ []) }
    {
        self.table
            .shared
            .compare_exchange_with::<Adds>(note, 0, 0, 0, config);
    }

    /// A seat that knows as much of the list.
    pub fn tell(&self, note: &mut Note) -> Note
        requires { note.old.table_id ≡ self.now.table.shared.table_id }
        ensures kept { (note.new.table_id ≡ note.old.table_id) × (note.new.me ≡ note.old.me) }
        ensures told { (result.table_id ≡ note.old.table_id) × (result.me ≡ (reader_of note.old.me.0.configs, [])) }
    {
        self.table.shared.split_seat::<Tells>(note)
    }

    /// Takes in what another seat knows.
    pub fn hear(&self, note: &mut Note, other: Note)
        requires own { (note.old.table_id ≡ self.now.table.shared.table_id) × (note.old.me.1 ≡ []) }
        requires other { (other.table_id ≡ self.now.table.shared.table_id) × (other.me.1 ≡ []) }
        ensures own { (note.new.table_id ≡ note.old.table_id) × (note.new.me.1 ≡ []) }
        ensures extends { note.new.me.0.extends ≡ note.old.me.0.extends }
        ensures kept { IsPrefixOf note.old.me.0.configs note.new.me.0.configs }
        ensures heard { IsPrefixOf other.me.0.configs note.new.me.0.configs }
    {
        self.table.shared.join_seat::<Hears>(note, other);
        self.table.shared.load::<Catches>(note, 0);
    }
}
