ghost use Rattle.std.specs.Prelude.{◌≡◌, ◌<◌, ◌≤◌, ◌/◌, ◌-◌, ◌^◌};
ghost use Rattle.std.specs.List.{list_any};
ghost use Rattle.rule_index.specs.Classes.{address_of as address_of_of, bool_eq, class_eq, class_of, host_class as host_class_of, host_class_eq, is_one_port as is_one_port_of, network as network_of, port_of as port_of_of, slot_in, slot_of as slot_of_of};

use addr_pattern::{Addr, HostPattern, Pattern, PortTest};

/// Which bits of a destination's address the `to` of a rule looks at.
#[derive(Clone, Copy, PartialEq, Eq, Debug)]
pub enum HostClass {
    /// None: every address may match, as for a name.
    Every,
    /// So many first bits of an IPv4 address.
    V4(u8),
    /// So many first bits of an IPv6 address.
    V6(u8),
}

/// What of a destination the `to` of a rule looks at: bits of its address, and whether one port alone matches.
#[derive(Clone, Copy, PartialEq, Eq, Debug)]
pub struct Class {
    pub host: HostClass,
    pub one_port: bool,
}

impl Class {
    pub fn of(pattern: &Pattern) -> Class
        ensures { result ≡ class_of pattern.now }
    {
        Class {
            host: host_class(&pattern.host),
            one_port: is_one_port(&pattern.port),
        }
    }

    /// The slot, of so many, of this class's rules for an address and a port.
    pub fn slot(&self, addr: &Addr, port: u16, slots: u32) -> u32
        requires some { 0 < slots }
        requires few { slots ≤ 8193 }
        ensures value { result ≡ slot_in slots self.now addr.now port }
        ensures within { result < slots }
    {
        let network = (network(self.host, addr) % slots as u128) as u32;
        let port = if self.one_port { port } else { 0 };
        (network * 65_537 + port as u32) % slots
    }
}

fn host_class(host: &HostPattern) -> HostClass
    ensures { result ≡ host_class_of host.now }
{
    match host {
        HostPattern::Net { addr, bits } => match addr {
            Addr::V4(_) => HostClass::V4(*bits),
            Addr::V6(_) => HostClass::V6(*bits),
        },
        HostPattern::Any | HostPattern::Name(_) | HostPattern::Domain(_) => HostClass::Every,
    }
}

fn is_one_port(port: &PortTest) -> bool
    ensures { result ≡ is_one_port_of port.now }
{
    match port {
        PortTest::Eq(_) => true,
        _ => false,
    }
}

fn first_bits_v4(addr: u32, bits: u8) -> u32
    ensures { result ≡ addr / 2 ^ (32 - bits) }
{
    if bits == 0 {
        return 0;
    }
    addr >> 32u8.saturating_sub(bits)
}

fn first_bits_v6(addr: u128, bits: u8) -> u128
    ensures { result ≡ addr / 2 ^ (128 - bits) }
{
    if bits == 0 {
        return 0;
    }
    addr >> 128u8.saturating_sub(bits)
}

fn network(host: HostClass, addr: &Addr) -> u128
    ensures { result ≡ network_of host addr.now }
{
    match (host, addr) {
        (HostClass::V4(bits), Addr::V4(addr)) => first_bits_v4(*addr, bits) as u128,
        (HostClass::V6(bits), Addr::V6(addr)) => first_bits_v6(*addr, bits),
        _ => 0,
    }
}

fn address_of(host: &HostPattern) -> Addr
    ensures { result ≡ address_of_of host.now }
{
    match host {
        HostPattern::Net { addr, .. } => *addr,
        _ => Addr::V4(0),
    }
}

fn port_of(port: &PortTest) -> u16
    ensures { result ≡ port_of_of port.now }
{
    match port {
        PortTest::Eq(port) => *port,
        _ => 0,
    }
}

/// The slot, of so many, in which a rule with this `to` is kept.
pub fn slot_of(to: &Pattern, slots: u32) -> u32
    requires some { 0 < slots }
    requires few { slots ≤ 8193 }
    ensures value { result ≡ slot_of_of slots to.now }
    ensures within { result < slots }
{
    Class::of(to).slot(&address_of(&to.host), port_of(&to.port), slots)
}

fn is_same_host(a: HostClass, b: HostClass) -> bool
    ensures { result ≡ host_class_eq a b }
{
    match (a, b) {
        (HostClass::Every, HostClass::Every) => true,
        (HostClass::V4(a), HostClass::V4(b)) => a == b,
        (HostClass::V6(a), HostClass::V6(b)) => a == b,
        _ => false,
    }
}

fn is_same(a: bool, b: bool) -> bool
    ensures { result ≡ bool_eq a b }
{
    a == b
}

fn is_same_class(a: Class, b: Class) -> bool
    ensures { result ≡ class_eq a b }
{
    is_same_host(a.host, b.host) && is_same(a.one_port, b.one_port)
}

/// Whether the class is one of these.
pub fn lists_class(classes: &[Class], class: Class) -> bool
    ensures { result ≡ list_any (class_eq class) classes.now }
{
    classes.iter().any(|listed| is_same_class(class, *listed))
}
