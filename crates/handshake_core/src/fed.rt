use crate::request::Request;
use addr_pattern::Short;
use socks_machine::Cause;

/// What came of bytes that a client sent.
#[derive(Drop)]
pub enum Fed {
    /// All of them were taken, and more have to come.
    Need,
    /// These bytes are to be sent to the client, and then it goes on.
    Say(Short),
    /// The prelude is whole. Nothing is to be sent yet.
    Ask(Request),
    /// The client is refused for this cause, and these bytes are to be sent to it, which may be none.
    Bad { cause: Cause, say: Short },
}
