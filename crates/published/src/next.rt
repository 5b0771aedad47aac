//! A configuration that is to be published, with all its memory.
ghost use Rattle.std.specs.Prelude.{◌≡◌, ◌≤◌, [], length, vec_len, vec_capacity, All, IfOk};
ghost use Rattle.std.specs.Arc.{arc_value};
ghost use Rattle.published.specs.Lists.{IsAt};
ghost use Rattle.published.specs.Shares.{IsShareOf};
ghost use Rattle.published.specs.Ends.{TellsLast};

use crate::board::{Board, Note};
use crate::told::Told;
use conf_types::Config;
use generation::Snap;
use lists::Memory;
use std::alloc::Global;
use std::sync::Arc;

/// One share to be shown, one for the table, and one for each reader with the memory of its `Told`.
#[derive(Drop)]
pub struct Next {
    pub shown: Snap,
    pub listed: Snap,
    pub shares: Vec<Snap>,
    pub room: Vec<Told>,
}

impl Next {
    /// Takes all memory, for so many readers.
    pub fn make(alloc: Global, number: u64, config: Config, readers: u32) -> Result<Next, Memory>
        ensures shown { IfOk result (λ next. IsShareOf number config next.shown) }
        ensures listed { IfOk result (λ next. IsShareOf number config next.listed) }
        ensures shares { IfOk result (λ next. All (IsShareOf number config) next.shares.items) }
        ensures count { IfOk result (λ next. length next.shares.items ≡ readers) }
        ensures room { IfOk result (λ next. (next.room.items ≡ []) × (readers ≤ vec_capacity next.room)) }
    {
        let Ok(config) = Arc::new(alloc, config) else {
            return Err(Memory);
        };
        let shown = Snap { number, config };
        let listed = shown.share()?;
        let shares = shares_of(alloc, &shown, readers)?;
        let Ok(room) = Vec::with_capacity(alloc, readers as usize) else {
            return Err(Memory);
        };
        Ok(Next {
            shown,
            listed,
            shares,
            room,
        })
    }
}

/// So many shares of a snapshot.
fn shares_of(alloc: Global, snap: &Snap, count: u32) -> Result<Vec<Snap>, Memory>
    ensures each { IfOk result (λ shares. All (IsShareOf snap.now.number (arc_value snap.now.config)) shares.items) }
    ensures count { IfOk result (λ shares. length shares.items ≡ count) }
{
    let mut shares = Vec::new(alloc);
    for _ in 0..count {
        let Ok(()) = shares.push(snap.share()?) else {
            return Err(Memory);
        };
    }
    Ok(shares)
}

/// Each share as a `Told`, with the list as the publisher knows it.
pub fn told_each(
    board: &Board,
    note: &mut Note,
    shares: Vec<Snap>,
    room: Vec<Told>,
    config: &Config,
) -> Vec<Told>
    requires own { (note.old.table_id ≡ board.now.table.shared.table_id) × (note.old.me.1 ≡ []) }
    requires last { IsAt note.old.me.0.configs (length note.old.me.0.configs) config.now }
    requires each { All (IsShareOf (length note.old.me.0.configs) config.now) shares.items }
    requires room { (room.items ≡ []) × (length shares.items ≤ vec_capacity room) }
    ensures each { All (TellsLast note.old.table_id note.old.me.0.configs config.now) result.items }
    ensures count { length result.items ≡ length shares.items }
    ensures note { (note.new.table_id ≡ note.old.table_id) × (note.new.me ≡ note.old.me) }
{
    let mut tolds = room;
    for snap in shares {
        tolds.push_reserved(Told::of(board, note, snap, config));
    }
    tolds
}
