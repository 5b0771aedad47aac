//! The reader of scripts: the lines of one worker that are served.
#![tactic(auto)]

mod conf;
mod counted;
mod cuts;
mod entry;
mod fault;
mod forms;
mod laws;
mod script;
mod state;
mod users;
mod values;

pub use entry::TextLine;
pub use fault::{ScriptFault, ScriptKind};
pub use laws::{faultless_script, one_fault, one_reading};
pub use script::read_script;
pub use state::{AssociationState, State};

#[cfg(test)]
mod tests;
