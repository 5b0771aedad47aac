//! The readers that a publisher begins with.
ghost use Rattle.std.specs.Prelude.{◌≡◌, [], ◌∷◌, length, All, IfOk};
ghost use Rattle.std.specs.Arc.{arc_value};
ghost use Rattle.left_right.specs.Sides.{view};
ghost use Rattle.published.specs.Ends.{IsNew};
ghost use Rattle.published.specs.Rules.{owner_of};

use crate::board::{Board, Note};
use crate::reader::Reader;
use crate::shown::ShownWriter;
use generation::Snap;
use lists::Memory;
use std::alloc::Global;
use std::sync::Arc;

/// So many readers, which have seen the first configuration.
pub fn readers_of(
    alloc: Global,
    writer: &mut ShownWriter,
    board: &Arc<Board, Global>,
    note: &mut Note,
    first: &Snap,
    count: u32,
) -> Result<Vec<Reader>, Memory>
    requires own { (note.old.table_id ≡ (arc_value board.now).table.shared.table_id) × (note.old.me.1 ≡ []) }
    requires told { note.old.me.0.configs ≡ arc_value first.now.config ∷ [] }
    requires shown { view writer.old.desk.place ≡ owner_of (arc_value first.now.config ∷ []) }
    requires number { first.now.number ≡ 1 }
    ensures each { IfOk result (λ readers. All (IsNew note.old.table_id (arc_value first.now.config)) readers.items) }
    ensures count { IfOk result (λ readers. length readers.items ≡ count) }
    ensures note { (note.new.table_id ≡ note.old.table_id) × (note.new.me ≡ note.old.me) }
    ensures writer { (view writer.new.desk.place ≡ view writer.old.desk.place) × (writer.new.desk.shown.value.snap.number ≡ writer.old.desk.shown.value.snap.number) }
{
    let mut readers = Vec::new(alloc);
    for _ in 0..count {
        let reader = Reader::begin(writer, board, note, first)?;
        let Ok(()) = readers.push(reader) else {
            return Err(Memory);
        };
    }
    Ok(readers)
}
