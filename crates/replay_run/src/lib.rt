//! A script is played: its lines in order, then the closing rounds.
#![tactic(auto)]

mod at_turn;
mod changes;
mod ends;
mod events;
mod lines;
mod play;
mod rounds;
mod slot;
mod state;
mod totals;
mod turns;

pub use play::replay;
pub use slot::Slot;
pub use state::Replay;
