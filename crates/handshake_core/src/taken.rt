use crate::request::Request;
use socks_machine::Cause;

/// What the whole input of a client is, once bytes were taken of it.
#[derive(Drop)]
pub enum Taken {
    /// The beginning of a prelude.
    Open,
    /// A prelude, with or without payload behind it.
    Asked(Request),
    /// No beginning of a prelude, or one that no method or no user fits.
    Refused(Cause),
}
