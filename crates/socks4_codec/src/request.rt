use addr_pattern::Span;
use socks_grammar::Command;

/// A request of SOCKS 4 or 4A, with the places of its user and its name in the bytes that it was read from.
/// The command is Connect or Bind. The address 0.0.0.x with x not 0 stands where a name is given, and only there.
#[derive(Clone, Copy, PartialEq, Eq, Debug)]
pub struct Request4 {
    pub command: Command,
    pub port: u16,
    pub addr: u32,
    pub user: Span,
    pub name: Option<Span>,
}
