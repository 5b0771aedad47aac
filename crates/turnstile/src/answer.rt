/// What `place` answers.
#[derive(Drop)]
pub enum Placed<U> {
    /// The unit stands in the slot, parked and woken. The caller lists the slot.
    Done,
    /// The slot isn't empty: the word that it showed, and the unit.
    Taken(u64, U),
}

/// What `wake` answers.
#[derive(Drop, Clone, Copy)]
pub enum Woke {
    /// A parked unit became woken. The caller lists the slot.
    Ready,
    /// The unit is held, or was woken already.
    Noted,
    /// The slot is empty.
    Empty,
}

/// What `claim` answers.
#[derive(Drop)]
pub enum Claimed<U> {
    /// The unit that stood in the slot.
    Got(U),
    /// The slot isn't parked and woken: the word that it showed.
    NotReady(u64),
}

/// What `park` answers.
#[derive(Drop)]
pub enum Parked<U> {
    /// The unit stands in the slot.
    Done,
    /// The slot was woken while it was held: the unit stays with the caller, who still holds the slot.
    Woken(U),
}
