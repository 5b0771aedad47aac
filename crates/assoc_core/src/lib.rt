//! One turn of one association: it reads, makes its one outer call, and writes.
#![tactic(auto)]

mod accept;
mod assoc;
mod carry;
mod close;
mod closing;
mod due;
mod grant;
mod hear;
mod judge;
mod lent;
mod moment;
mod one_turn;
mod prelude;
mod reach;
mod read;
mod refusals;
mod relay;
mod replies;
mod seek;
mod send;
mod talk;
mod totals;

pub use assoc::{Assoc, Ended, Next, OpenFault};
pub use one_turn::{Course, turn};
