//! The outside: links, doors, ports, nets, sources, sinks, stores, wires and callers, and their forms in memory.
#![tactic(auto)]

mod caller;
mod datagram;
mod door;
mod failing;
mod kinds;
mod link;
mod memory_caller;
mod memory_door;
mod memory_link;
mod memory_net;
mod memory_port;
mod memory_sink;
mod memory_source;
mod memory_store;
mod memory_wire;
mod net;
mod opening;
mod pieces;
mod port;
mod store;
mod stream;
mod wire;

pub use caller::{Caller, Calling};
pub use datagram::Datagram;
pub use door::{Accepting, Door};
pub use kinds::{Kind, Kinds};
pub use link::{Link, PIECE, Reading, Shutting, Writing};
pub use memory_caller::{CallPlan, MemCaller};
pub use memory_door::MemDoor;
pub use memory_link::MemLink;
pub use memory_net::{DialPlan, MemNet};
pub use memory_port::MemPort;
pub use memory_sink::MemSink;
pub use memory_source::MemSource;
pub use memory_store::MemStore;
pub use memory_wire::MemWire;
pub use net::{Dialing, Lookup, Net};
pub use opening::{OpenPlan, Opening};
pub use port::{DATAGRAM, Port, Receiving, Sending};
pub use store::{Store, Stored};
pub use stream::{Giving, Sink, Source, Taking};
pub use wire::Wire;

#[cfg(test)]
mod tests;
