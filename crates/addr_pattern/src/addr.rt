ghost use Rattle.std.specs.Prelude.{◌≡◌, ◌==◌, ◌/◌, ◌^◌, ◌-◌};
ghost use Rattle.addr_pattern.specs.Matches.{prefix_agrees};

/// An IP address.
#[derive(Clone, Copy, PartialEq, Eq, Debug)]
pub enum Addr {
    V4(u32),
    V6(u128),
}

impl Addr {
    /// Of one family, with the same first bits; past the width of the family all bits count.
    pub fn has_prefix(&self, net: &Addr, bits: u8) -> bool
        ensures { result ≡ prefix_agrees bits net.now self.now }
    {
        match (net, self) {
            (Addr::V4(net), Addr::V4(addr)) => has_prefix_v4(*net, *addr, bits),
            (Addr::V6(net), Addr::V6(addr)) => has_prefix_v6(*net, *addr, bits),
            _ => false,
        }
    }
}

fn has_prefix_v4(net: u32, addr: u32, bits: u8) -> bool
    ensures { result ≡ (net / 2 ^ (32 - bits) == addr / 2 ^ (32 - bits)) }
{
    if bits == 0 {
        return true;
    }
    let behind = 32u8.saturating_sub(bits);
    net >> behind == addr >> behind
}

fn has_prefix_v6(net: u128, addr: u128, bits: u8) -> bool
    ensures { result ≡ (net / 2 ^ (128 - bits) == addr / 2 ^ (128 - bits)) }
{
    if bits == 0 {
        return true;
    }
    let behind = 128u8.saturating_sub(bits);
    net >> behind == addr >> behind
}
