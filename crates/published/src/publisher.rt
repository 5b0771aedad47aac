ghost use Rattle.std.specs.Prelude.{◌≡◌, ◌<◌, ◌≤◌, ◌+◌, ◌-◌, ◌^◌, ◌↔◌, [], ◌∷◌, ◌++◌, true, length, vec_capacity, All, is_some, IfOk, OnOk, OnErr, IsErrOf};
ghost use Rattle.std.specs.Option.{ForSome};
ghost use Rattle.std.specs.Arc.{arc_value};
ghost use Rattle.left_right.specs.Sides.{view};
ghost use Rattle.published.specs.Rules.{owner_of};

use crate::board::{Board, Note};
use crate::fault::PublishFault;
use crate::next::{Next, told_each};
use crate::reader::Reader;
use crate::readers::readers_of;
use crate::shown::{ShownWriter, open, show};
use crate::told::Told;
use conf_types::Config;
use generation::Snap;
use lists::{List, Memory};
use std::alloc::Global;
use std::mem;
use std::sync::{Arc, Wait};

/// The one that publishes configurations, numbered from 1. It is ended by `end`.
pub struct Publisher {
    alloc: Global,
    writer: Option<ShownWriter>,
    board: Arc<Board, Global>,
    note: Note,
    number: u64,
    readers: u32,
    ghost present: { is_some writer ≡ true },
    ghost own: { (note.table_id ≡ (arc_value board).table.shared.table_id) × (note.me.1 ≡ []) × (note.me.0.extends ≡ true) },
    ghost counted: { (number ≡ length note.me.0.configs) × (0 < number) },
    ghost shown: { ForSome writer (λ writer. (view writer.desk.place ≡ owner_of note.me.0.configs) × (writer.desk.shown.value.snap.number ≡ number)) },
}

impl Publisher {
    ghost use Rattle.published.specs.Ends.{published_by, name_of, TellsLast, IsNew};
    ghost use Rattle.published.specs.declared.fault.PublishFault.TheVariants.{Last};

    /// Publishes the first configuration, and makes so many readers, which have seen it. An answer other than `Memory` is
    /// to be ended by `end`.
    pub fn make<R: Wait>(
        rt: &R,
        alloc: Global,
        first: Config,
        readers: u32,
    ) -> Result<(Publisher, List<Reader>), Memory>
        requires { 0 < readers }
        ensures published { IfOk result (λ made. published_by made.0 ≡ first ∷ []) }
        ensures each { IfOk result (λ made. All (IsNew (name_of made.0) first) made.1) }
        ensures count { IfOk result (λ made. (length made.1 ≡ readers) × (made.0.readers ≡ readers)) }
    {
        let Ok(config) = Arc::new(alloc, first) else {
            return Err(Memory);
        };
        let kept = Snap { number: 1, config };
        let first = kept.share()?;
        let Ok((board, mut note)) = Board::make(alloc) else {
            return Err(Memory);
        };
        let Ok(board) = Arc::new(alloc, board) else {
            return Err(Memory);
        };
        let Ok(mut writer) = open(rt, alloc, first, readers) else {
            return Err(Memory);
        };
        board.add(&mut note, &kept.config);
        let made = readers_of(alloc, &mut writer, &board, &mut note, &kept, readers);
        let Ok(made) = made else {
            drop(writer.take(rt));
            return Err(Memory);
        };
        Ok((
            Publisher {
                alloc,
                writer: Some(writer),
                board,
                note,
                number: 1,
                readers,
            },
            List::from_vec(made),
        ))
    }

    /// Publishes a configuration, and answers one `Told` for each reader, in the order of the readers. It waits for readers
    /// that look at the moment. Where it fails, the configuration is given up.
    pub fn publish<R: Wait>(&mut self, rt: &R, config: Config) -> Result<List<Told>, PublishFault>
        ensures published { OnOk result (published_by self.new ≡ published_by self.old ++ config ∷ []) }
        ensures each { IfOk result (λ tolds. All (TellsLast (name_of self.new) (published_by self.new) config) tolds) }
        ensures count { IfOk result (λ tolds. length tolds ≡ self.old.readers) }
        ensures same { OnErr result (published_by self.new ≡ published_by self.old) }
        ensures last { IsErrOf result Last ↔ (length (published_by self.old) ≡ 2 ^ 64 - 1) }
        ensures kept { (name_of self.new ≡ name_of self.old) × (self.new.readers ≡ self.old.readers) }
    {
        if self.number == u64::MAX {
            return Err(PublishFault::Last);
        }
        let Ok(next) = Next::make(self.alloc, self.number + 1, config, self.readers) else {
            return Err(PublishFault::Memory);
        };
        let Next {
            shown,
            listed,
            shares,
            room,
        } = next;
        let Some(writer) = self.writer.take() else {
            unreachable!()
        };
        let (writer, done) = show(rt, writer, shown);
        let before = mem::replace(&mut self.writer, Some(writer));
        let None = before else { unreachable!() };
        let Ok(()) = done else {
            return Err(PublishFault::Memory);
        };
        self.board.add(&mut self.note, &listed.config);
        self.number += 1;
        Ok(List::from_vec(told_each(&self.board, &mut self.note, shares, room, &listed.config)))
    }

    /// Waits for the readers that look at the moment. Readers keep what they have.
    pub fn end<R: Wait>(self, rt: &R) {
        let Publisher {
            alloc: _,
            writer,
            board: _board,
            note: _note,
            number: _,
            readers: _,
        } = self;
        if let Some(writer) = writer {
            drop(writer.take(rt));
        }
    }
}
