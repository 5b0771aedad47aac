ghost use Rattle.std.specs.Prelude.{◌≡◌, ◌≤◌, ◌+◌, ◌++◌, [], length};

use std::marker::Model;

/// Up to 520 bytes in place, which contracts see as a list. It takes no memory.
#[derive(Drop)]
pub struct Short {
    bytes: [u8; 520],
    len: usize,
}

impl Model for Short {
    ghost use Rattle.std.specs.Prelude.{◌≤◌, List, ℕ, take};

    ghost Value = { List ℕ };

    ghost view = { λ s. take s.len s.bytes };

    ghost invariant = { λ s. s.len ≤ 520 };
}

impl Short {
    pub fn empty() -> Short
        ensures { result ≡ [] }
    {
        Short {
            bytes: [0; 520],
            len: 0,
        }
    }

    pub fn as_slice(&self) -> &[u8]
        ensures { result.now ≡ self.now }
    {
        &self.bytes[..self.len]
    }

    /// Puts bytes behind those that it holds.
    pub fn add(&mut self, more: &[u8])
        requires { length self.old + length more.now ≤ 520 }
        ensures { self.new ≡ self.old ++ more.now }
    {
        let end = self.len + more.len();
        self.bytes[self.len..end].copy_from_slice(more);
        self.len = end;
    }
}
