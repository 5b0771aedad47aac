/// One of the two sides of a relay.
#[derive(Clone, Copy, Debug, PartialEq, Eq)]
pub enum Side {
    Client,
    Target,
}

/// What a call on a relay came to.
#[derive(Clone, Copy, Debug, PartialEq, Eq)]
pub enum Pumped {
    /// A side's quantum was taken: the relay may go on in the next turn.
    Moved,
    /// Nothing is left to do before a link is ready again.
    Idle,
    /// Both sides have ended and were shut.
    Ended,
    /// A call on that side's link failed. Nothing was read or written after it.
    Fault(Side),
    /// Memory was refused for the next bytes, which were not read. Nothing was read or written after it.
    Memory,
}
