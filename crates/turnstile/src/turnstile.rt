use crate::pass::View;
use crate::steps::SlotRule;
use atomic_table::Table;
use std::alloc::Global;
use std::marker::Model;

/// Slots, each empty or with one unit, in place or in the hands of the pass that holds the slot.
#[derive(Drop)]
pub struct Turnstile<U> {
    pub(crate) table: Table<Option<U>, View, (), SlotRule, Global>,
}

impl<U> Model for Turnstile<U> {
    ghost use Rattle.std.specs.Prelude.{◌≡◌};
    ghost use Rattle.atomic_table.specs.Seated.{TableId, table_id_coded};

    ghost Value = { TableId };

    ghost coded = { table_id_coded };

    ghost view = { λ t. t.table.shared.table_id };

    // One word a slot.
    ghost invariant = { λ t. t.table.shared.table_id.words ≡ t.table.shared.table_id.slots };
}
