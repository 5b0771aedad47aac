//! Configurations that one publisher publishes, and that its readers see without waiting.
#![tactic(auto)]

mod board;
mod fault;
mod knows;
mod next;
mod publisher;
mod reader;
mod readers;
mod shown;
mod told;

pub use fault::PublishFault;
pub use publisher::Publisher;
pub use reader::Reader;
pub use told::Told;

#[cfg(test)]
mod tests;
