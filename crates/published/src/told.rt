ghost use Rattle.std.specs.Prelude.{◌≡◌, [], length};
ghost use Rattle.std.specs.Arc.{arc_value};
ghost use Rattle.published.specs.Lists.{IsAt};
ghost use Rattle.published.specs.Shares.{IsShareOf};

use crate::board::{Board, Note};
use conf_types::Config;
use generation::Snap;

/// What a publisher tells one reader: a published configuration, and the list as it was then.
#[derive(Drop)]
pub struct Told {
    pub(crate) snap: Snap,
    pub(crate) note: Note,
    ghost own: { note.me.1 ≡ [] },
    ghost stands: { IsAt note.me.0.configs snap.number (arc_value snap.config) },
}

impl Told {
    ghost use Rattle.published.specs.Ends.{TellsLast, number_told};

    /// Tells of the last configuration of the list.
    pub(crate) fn of(board: &Board, note: &mut Note, snap: Snap, config: &Config) -> Told
        requires own { (note.old.table_id ≡ board.now.table.shared.table_id) × (note.old.me.1 ≡ []) }
        requires last { IsAt note.old.me.0.configs (length note.old.me.0.configs) config.now }
        requires share { IsShareOf (length note.old.me.0.configs) config.now snap }
        ensures told { TellsLast note.old.table_id note.old.me.0.configs config.now result }
        ensures note { (note.new.table_id ≡ note.old.table_id) × (note.new.me ≡ note.old.me) }
    {
        let note = board.tell(note);
        Told { snap, note }
    }

    /// The number of the configuration, from 1.
    pub fn number(&self) -> u64
        ensures { result ≡ number_told self.now }
    {
        self.snap.number
    }
}
