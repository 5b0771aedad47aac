//! The definitions of the machine: one association as a record, what happens to it, and what is owed.
#![tactic(auto)]

mod cause;
mod fine;
pub mod laws;
mod lines;
mod record;
mod script;
mod world;

pub use cause::{Cause, ListKind, Standing, StopBy};
pub use fine::{Act, FineStep};
pub use lines::{CloseLine, GrantLine, Line, OpenLine, PeerLine, Said, Shut};
pub use record::{Chosen, Decision, Gram, Record};
pub use script::{CallKind, ScriptLine};
pub use world::{Event, NextMark, Object, Outer, TurnEvent, World};
