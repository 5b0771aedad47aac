ghost use Rattle.std.specs.Prelude.{◌≡◌, ◌≤◌, ◌+◌, ◌++◌, ◌∷◌, [], length};
ghost use Rattle.addr_pattern.specs.AddressText.{worth};

use std::marker::Model;

/// Up to eight groups of 16 bits, which contracts see as a list.
#[derive(Drop)]
pub struct Groups {
    groups: [u16; 8],
    len: usize,
}

impl Model for Groups {
    ghost use Rattle.std.specs.Prelude.{◌≤◌, List, ℕ, take};

    ghost Value = { List ℕ };

    ghost view = { λ g. take g.len g.groups };

    ghost invariant = { λ g. g.len ≤ 8 };
}

impl Groups {
    pub fn empty() -> Groups
        ensures { result ≡ [] }
    {
        Groups {
            groups: [0; 8],
            len: 0,
        }
    }

    pub fn as_slice(&self) -> &[u16]
        ensures value { result.now ≡ self.now }
        ensures short { length self.now ≤ 8 }
    {
        &self.groups[..self.len]
    }

    pub fn len(&self) -> usize
        ensures value { result ≡ length self.now }
        ensures short { result ≤ 8 }
    {
        self.len
    }

    /// Puts groups behind those that it holds.
    pub fn add(&mut self, more: &[u16])
        requires { length self.old + length more.now ≤ 8 }
        ensures { self.new ≡ self.old ++ more.now }
    {
        let end = self.len + more.len();
        self.groups[self.len..end].copy_from_slice(more);
        self.len = end;
    }

    /// The number of eight groups, the highest first.
    pub fn number(&self) -> u128
        requires { length self.now ≡ 8 }
        ensures { result ≡ worth 65536 0 self.now }
    {
        match self.as_slice() {
            [a, b, c, d, e, f, g, h] => {
                let high = half(*a, *b, *c, *d);
                let low = half(*e, *f, *g, *h);
                u128::from(high) * 18446744073709551616 + u128::from(low)
            }
            _ => 0,
        }
    }
}

fn half(a: u16, b: u16, c: u16, d: u16) -> u64
    ensures { result ≡ worth 65536 a (b ∷ c ∷ d ∷ []) }
{
    let high = u64::from(a) * 65536 + u64::from(b);
    (high * 65536 + u64::from(c)) * 65536 + u64::from(d)
}
