use addr_pattern::Endpoint;

/// What opening a door or a port came to.
#[derive(Drop)]
pub enum Opening<T> {
    Open(T),
    Failed,
}

/// How the next opening of a net in memory is to come out.
#[derive(Clone, Copy, Debug, PartialEq, Eq)]
pub enum OpenPlan {
    /// It opens, and this is its local endpoint.
    Open(Endpoint),
    Failed,
}
