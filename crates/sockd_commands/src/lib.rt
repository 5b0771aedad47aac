//! The commands of the program, over any source, sinks and files.
#![tactic(auto)]

mod conf_file;
mod end;
mod reporting;
mod run;
mod whole;

pub use conf_file::{ConfRead, read_conf};
pub use end::End;
pub use reporting::report;
pub use run::quick;
pub use whole::{Input, read_all, write_all};

#[cfg(test)]
mod tests;
