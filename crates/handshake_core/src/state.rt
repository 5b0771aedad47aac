use addr_pattern::{Name, Short};

/// Which message of a prelude is read.
#[derive(Clone, Copy, PartialEq, Eq, Debug)]
pub enum Stage {
    /// The greeting, or a request of version 4.
    First,
    Login,
    /// A request of version 5.
    Request,
    /// None any more.
    Over,
}

/// The messages of a client so far.
#[derive(Drop)]
pub struct State {
    pub stage: Stage,
    /// The greeting, once it is answered.
    pub greeting: Short,
    /// The login, once it is answered.
    pub login: Short,
    /// The message that is read.
    pub message: Short,
    /// The method that was answered to the greeting (RFC 1928, section 3).
    pub method: Option<u8>,
    /// The user that logged in.
    pub user: Option<Name>,
}
