use crate::world::{Object, Outer};
use addr_pattern::Endpoint;
use conf_types::Config;
use lists::{List, Text};
use socks_grammar::User;

/// A kind of call that a script can make fail. A call of a door is an accept; of a port a receive (`Reading`) or a send
/// (`Writing`).
#[derive(Clone, Copy, PartialEq, Eq, Debug)]
pub enum CallKind {
    Reading,
    Writing,
    Shutting,
}

/// A line of a script behind the first one. The first number is a worker where the line has one, else the association.
#[derive(Drop)]
pub enum ScriptLine {
    Workers(u32),
    UsersAre(List<User>),
    Publish(Config),
    See(u32),
    Open(u32, u64, Endpoint, Endpoint),
    Client(u64, Text),
    Target(u64, Text),
    ClientEnd(u64),
    TargetEnd(u64),
    Lookup(u64, Outer),
    Dial(u64, Outer),
    Door(u64, Outer),
    Peer(u64, Endpoint),
    Port(u64, Outer),
    Datagram(u64, Endpoint, Text),
    Room(u64, Object, u64),
    Fault(u64, Object, CallKind),
    Now(u64),
    Turn(u32, u64),
    Stop,
}
