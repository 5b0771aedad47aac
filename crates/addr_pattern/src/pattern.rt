ghost use Rattle.std.specs.Prelude.{◌≡◌};
ghost use Rattle.std.specs.Option.{option_copied};
ghost use Rattle.addr_pattern.specs.Matches.{host_matches, port_matches, matches as matches_of};

use crate::addr::Addr;
use crate::fold::{is_in_domain, is_same_name};
use crate::name::Name;

/// Which hosts a pattern takes.
#[derive(Drop)]
pub enum HostPattern {
    Any,
    Net { addr: Addr, bits: u8 },
    Name(Name),
    Domain(Name),
}

impl HostPattern {
    fn copy(&self) -> HostPattern
        ensures { result ≡ self.now }
    {
        match self {
            HostPattern::Any => HostPattern::Any,
            HostPattern::Net { addr, bits } => HostPattern::Net {
                addr: *addr,
                bits: *bits,
            },
            HostPattern::Name(name) => HostPattern::Name(name.copy()),
            HostPattern::Domain(name) => HostPattern::Domain(name.copy()),
        }
    }

    fn matches(&self, name: Option<&Name>, addr: &Addr) -> bool
        ensures { result ≡ host_matches self.now (option_copied name.entry) addr.now }
    {
        match self {
            HostPattern::Any => true,
            HostPattern::Net { addr: net, bits } => addr.has_prefix(net, *bits),
            HostPattern::Name(wanted) => match name {
                None => false,
                Some(name) => is_same_name(name.as_bytes(), wanted.as_bytes()),
            },
            HostPattern::Domain(domain) => match name {
                None => false,
                Some(name) => is_in_domain(name.as_bytes(), domain.as_bytes()),
            },
        }
    }
}

/// Which ports a pattern takes.
#[derive(Clone, Copy, PartialEq, Eq, Debug)]
pub enum PortTest {
    Any,
    Eq(u16),
    Ne(u16),
    Ge(u16),
    Le(u16),
    Gt(u16),
    Lt(u16),
    Range(u16, u16),
}

impl PortTest {
    pub fn matches(&self, port: u16) -> bool
        ensures { result ≡ port_matches self.now port }
    {
        match self {
            PortTest::Any => true,
            PortTest::Eq(wanted) => port == *wanted,
            PortTest::Ne(wanted) => port != *wanted,
            PortTest::Ge(least) => port >= *least,
            PortTest::Le(greatest) => port <= *greatest,
            PortTest::Gt(below) => port > *below,
            PortTest::Lt(above) => port < *above,
            PortTest::Range(low, high) => *low <= port && port <= *high,
        }
    }
}

/// A host part and a port part.
#[derive(Drop)]
pub struct Pattern {
    pub host: HostPattern,
    pub port: PortTest,
}

impl Pattern {
    /// The same pattern; it takes no memory.
    pub fn copy(&self) -> Pattern
        ensures { result ≡ self.now }
    {
        Pattern {
            host: self.host.copy(),
            port: self.port,
        }
    }

    /// Takes this address and port, reached under this name if any. Names are compared without the case of ASCII
    /// letters and without one closing dot.
    pub fn matches(&self, name: Option<&Name>, addr: &Addr, port: u16) -> bool
        ensures { result ≡ matches_of self.now (option_copied name.entry) addr.now port }
    {
        self.host.matches(name, addr) && self.port.matches(port)
    }
}
