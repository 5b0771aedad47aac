ghost use Rattle.std.specs.Prelude.{◌≡◌, ◌≤◌, ◌<◌, ℕ, Option, None, Some, List, [], ◌∷◌, true, false, length, max, is_some, IfOk};
ghost use Rattle.std.specs.Option.{ForSome};
ghost use Rattle.std.specs.Arc.{arc_value};
ghost use Rattle.left_right.specs.Sides.{view};
ghost use Rattle.conf_types.specs.declared.entries.Entries.{Entries};
ghost use Rattle.generation.specs.Published.{IsPublished, IsSnap};
ghost use Rattle.published.specs.Lists.{IsAt, IsPrefixOf};

use crate::board::{Board, Note};
use crate::shown::{ShownReader, ShownWriter, look, reader};
use crate::told::Told;
use generation::{Gens, Snap};
use lists::Memory;
use std::alloc::Global;
use std::sync::Arc;

/// One that sees what a publisher publishes. It keeps the configuration that it saw or was told of last, the first one at first.
#[derive(Drop)]
pub struct Reader {
    end: Option<ShownReader>,
    kept: Snap,
    /// The kept one was told, and not seen.
    was_told: bool,
    note: Note,
    board: Arc<Board, Global>,
    ghost present: { is_some end ≡ true },
    ghost begun: { ForSome end (λ reader. 0 < length (view reader.place).configs) },
    ghost own: { (note.table_id ≡ (arc_value board).table.shared.table_id) × (note.me.1 ≡ []) },
    ghost told: { was_told ≡ true → IsAt note.me.0.configs kept.number (arc_value kept.config) },
    ghost seen: { was_told ≡ false → ForSome end (λ reader. IsAt (view reader.place).configs kept.number (arc_value kept.config)) },
}

impl Reader {
    ghost use Rattle.published.specs.Ends.{kept_number, kept_config, shown_to, told_to, list_of, publisher_of, number_told, list_with, teller_of, IsNew};
    ghost use Rattle.published.specs.Rules.{owner_of};

    /// One that has seen the first configuration, and was told of it.
    pub(crate) fn begin(
        writer: &mut ShownWriter,
        board: &Arc<Board, Global>,
        note: &mut Note,
        first: &Snap,
    ) -> Result<Reader, Memory>
        requires own { (note.old.table_id ≡ (arc_value board.now).table.shared.table_id) × (note.old.me.1 ≡ []) }
        requires told { note.old.me.0.configs ≡ arc_value first.now.config ∷ [] }
        requires shown { view writer.old.desk.place ≡ owner_of (arc_value first.now.config ∷ []) }
        requires number { first.now.number ≡ 1 }
        ensures reader { IfOk result (IsNew note.old.table_id (arc_value first.now.config)) }
        ensures note { (note.new.table_id ≡ note.old.table_id) × (note.new.me ≡ note.old.me) }
        ensures writer { (view writer.new.desk.place ≡ view writer.old.desk.place) × (writer.new.desk.shown.value.snap.number ≡ writer.old.desk.shown.value.snap.number) }
    {
        let Ok(end) = reader(writer) else {
            return Err(Memory);
        };
        let kept = first.share()?;
        let Ok(shared) = Arc::try_clone(board) else {
            return Err(Memory);
        };
        let note = board.tell(note);
        Ok(Reader {
            end: Some(end),
            kept,
            was_told: false,
            note,
            board: shared,
        })
    }

    /// Takes what was told, where it is newer than the kept one. It takes no memory, and doesn't wait.
    pub fn learn(&mut self, told: Told)
        requires { teller_of told ≡ publisher_of self.old }
        ensures number { kept_number self.new ≡ max (kept_number self.old) (number_told told) }
        ensures config { IsAt (list_of self.new) (kept_number self.new) (kept_config self.new) }
        ensures grown { IsPrefixOf (told_to self.old) (told_to self.new) }
        ensures heard { IsPrefixOf (list_with told) (told_to self.new) }
        ensures shown { shown_to self.new ≡ shown_to self.old }
        ensures publisher { publisher_of self.new ≡ publisher_of self.old }
    {
        let Told { snap, note } = told;
        self.board.hear(&mut self.note, note);
        if self.kept.number < snap.number {
            self.kept = snap;
            self.was_told = true;
        }
    }
}

impl Gens for Reader {
    ghost use Rattle.published.specs.Ends.{kept_number, kept_config, shown_to, told_to, list_of, publisher_of};

    ghost published = { λ reader. None };

    ghost seen = { λ reader. kept_number reader };

    ghost begun = { λ reader. Unit {0} };

    /// Where the look is refused, or the configuration can't be shared, it answers the number of the kept one.
    fn see(&mut self) -> u64
        ensures published { ◌≡◌ {A = Option (List Entries)} None None }
        ensures seen { kept_number self.new ≡ result }
        ensures begun { Unit {0} }
        ensures number { 0 < result }
        ensures later { kept_number self.old ≤ result }

        // Beside the clauses of the trait.
        ensures config { IsAt (list_of self.new) result (kept_config self.new) }
        ensures grown { IsPrefixOf (shown_to self.old) (shown_to self.new) }
        ensures told { told_to self.new ≡ told_to self.old }
        ensures publisher { publisher_of self.new ≡ publisher_of self.old }
    {
        let Some(end) = self.end.take() else {
            unreachable!()
        };
        let (end, seen) = look(end);
        self.end = Some(end);
        let Some(snap) = seen else {
            return self.kept.number;
        };
        if snap.number <= self.kept.number {
            return self.kept.number;
        }
        self.kept = snap;
        self.was_told = false;
        self.kept.number
    }

    /// A reader has always seen or been told of one.
    fn snap(&self) -> &Snap
        ensures snap { IsSnap None (kept_number self.now) result.now }

        // Beside the clause of the trait.
        ensures config { arc_value result.now.config ≡ kept_config self.now }
        ensures listed { IsAt (list_of self.now) result.now.number (arc_value result.now.config) }
    {
        &self.kept
    }
}
