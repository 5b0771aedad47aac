use crate::mark::Mark;
use atomic_table::Seat;
use std::collections::LinkedList;
use std::marker::Model;

pub(crate) type View = LinkedList<(u64, Mark)>;

/// One caller's seat at a turnstile, and the slots that it holds. It has no bytes. The slots of a pass that is dropped stay held.
#[derive(Drop)]
pub struct Pass<U> {
    pub(crate) seat: Seat<Option<U>, View>,
}

impl<U> Model for Pass<U> {
    ghost use Rattle.std.specs.Prelude.{◌≡◌, []};
    ghost use Rattle.turnstile.specs.Views.{Holding, slots_of, AllAtHome};

    ghost Value = { Holding };

    ghost view = { λ p. record { turnstile = p.seat.table_id; held = slots_of p.seat.me.0 } };

    ghost invariant = { λ p. (p.seat.me.1 ≡ []) × AllAtHome p.seat.me.0 };
}
