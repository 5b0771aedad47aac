use crate::slot::Slot;
use generation::ListGens;
use lists::{List, Text};
use session_desk::Desk;

/// A replay between two lines: the desk, what was published and seen by the one worker, the moment, the associations in their
/// order, and the transcript so far.
#[derive(Drop)]
pub struct Replay {
    pub desk: Desk,
    pub gens: ListGens,
    /// In seconds.
    pub moment: u64,
    pub slots: List<Slot>,
    pub out: Text,
}
