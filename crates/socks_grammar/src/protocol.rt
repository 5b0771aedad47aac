ghost use Rattle.std.specs.Prelude.{◌≡◌, ℕ, List, ◌∷◌};
ghost use Rattle.socks_grammar.specs.Grammar.{method_byte};
ghost use Rattle.socks_grammar.specs.Handshake.{version_of};

/// How a client proves who it is (RFC 1928, section 3).
#[derive(Clone, Copy, PartialEq, Eq, Debug)]
pub enum Method {
    NoAuth,
    Username,
}

impl Method {
    /// The code in a greeting and in its answer (RFC 1928, section 3): 00 or 02.
    pub fn code(self) -> u8
        ensures { result ≡ method_byte self }
    {
        match self {
            Method::NoAuth => 0,
            Method::Username => 2,
        }
    }
}

/// The version of SOCKS.
#[derive(Clone, Copy, PartialEq, Eq, Debug)]
pub enum Version {
    V4,
    V5,
}

impl Version {
    /// The version that the first byte of a client's input says (RFC 1928, section 3, and the SOCKS 4 memo): 04 or 05.
    /// Any other byte begins no input of a client.
    pub fn of_first_byte(byte: u8) -> Option<Version>
        ensures { (rest : List ℕ) → result ≡ version_of (byte ∷ rest) }
    {
        match byte {
            4 => Some(Version::V4),
            5 => Some(Version::V5),
            _ => None,
        }
    }
}

/// What is asked for (RFC 1928, section 4), or judged of what comes back: the peer of a BIND, a datagram of a remote host.
#[derive(Clone, Copy, PartialEq, Eq, Debug)]
pub enum Command {
    Connect,
    Bind,
    UdpAssociate,
    BindReply,
    UdpReply,
}

/// At which message a proxy refused.
#[derive(Clone, Copy, PartialEq, Eq, Debug)]
pub enum Stage {
    Method,
    Login,
    Reply,
}
