ghost use Rattle.std.specs.Prelude.{◌≡◌};
ghost use Rattle.socks_machine.specs.Turn.{fault_cause};

use crate::cause::{Cause, StopBy};
use crate::lines::Line;
use crate::record::{Gram, Record};
use crate::script::CallKind;
use addr_pattern::{Addr, Endpoint};
use conf_types::Config;
use lists::{List, Text};
use socks_grammar::User;

/// Something outside that is read or written.
#[derive(Clone, Copy, PartialEq, Eq, Debug)]
pub enum Object {
    Client,
    Target,
    Door,
    Port,
}

impl Object {
    /// The cause that a failed call on this object fixes, where none stands yet.
    pub fn fault(self) -> Cause
        ensures { result ≡ fault_cause self }
    {
        match self {
            Object::Client => Cause::ClientFault,
            Object::Target => Cause::TargetFault,
            Object::Door => Cause::DoorFault,
            Object::Port => Cause::PortFault,
        }
    }
}

/// How the outer call of a turn came out.
#[derive(Clone, Copy, PartialEq, Eq, Debug)]
pub enum Outer {
    Nothing,
    Desk { logged: bool },
    Looked(Option<Addr>),
    Up(Endpoint),
    Refused,
    HostUnreachable,
    NetUnreachable,
    Failed,
}

/// How a turn ended.
#[derive(Clone, Copy, PartialEq, Eq, Debug)]
pub enum NextMark {
    Going,
    Wait,
    Again,
    Done,
}

/// One turn of one worker on one association. `fault` is the object whose call failed first, `failed` has each call that failed,
/// and `unwritten` says whether a write to a link is among them.
#[derive(Drop)]
pub struct TurnEvent {
    pub worker: u32,
    pub number: u64,
    pub now: u64,
    pub stop: Option<StopBy>,
    pub c: Text,
    pub t: Text,
    pub end_c: bool,
    pub end_t: bool,
    pub grams: List<Gram>,
    pub came: Option<Endpoint>,
    pub outer: Outer,
    pub sent_c: u64,
    pub sent_t: u64,
    pub sent_u: u64,
    pub shut_c: bool,
    pub shut_t: bool,
    pub idle: List<Object>,
    pub full: List<Object>,
    pub fault: Option<Object>,
    pub unwritten: bool,
    pub failed: List<(Object, CallKind)>,
    pub memory: bool,
    pub next: NextMark,
}

/// What happens.
#[derive(Drop)]
pub enum Event {
    Publish(Config),
    See {
        worker: u32,
        generation: u64,
    },
    Open {
        worker: u32,
        number: u64,
        peer: Endpoint,
        local: Endpoint,
        now: u64,
    },
    Stop(StopBy),
    Turn(TurnEvent),
}

/// All there is.
#[derive(Drop)]
pub struct World {
    pub users: List<User>,
    pub cap: u32,
    pub pubs: List<Config>,
    pub seen: List<u64>,
    pub records: List<Record>,
    pub h: List<Line>,
    pub marks: List<StopBy>,
}
