use addr_pattern::{Endpoint, Short};

/// Why a datagram is dropped. No drop is answered.
#[derive(Clone, Copy, Debug, PartialEq, Eq)]
pub enum DropReason {
    /// A rule blocks it, or none lets it pass.
    Rule,
    /// The client's header is short or bad, or its destination is of another family than the port.
    Header,
    /// The client sent a fragment: FRAG isn't 00.
    Fragment,
    /// A remote host sent it before the client's endpoint was known.
    Source,
    /// With the header for the client it has more than 65,507 bytes.
    Length,
    /// The client's destination is a name that is no text of an address.
    Name,
}

/// What becomes of a datagram.
#[derive(Drop)]
pub enum Outcome {
    /// Its bytes from `at` on go to a remote host.
    ToRemote { to: Endpoint, at: usize },
    /// All of it goes to the client, after this header.
    ToClient { to: Endpoint, head: Short },
    Dropped(DropReason),
}
