ghost use Rattle.std.specs.Prelude.{◌≡◌};
ghost use Rattle.std.specs.List.{list_all};
ghost use Rattle.addr_pattern.specs.Names.{is_name_byte as is_name_byte_of, name_of};

use crate::fault::AddrFault;
use std::marker::Model;

/// A name of 1 to 255 bytes from 21 to 7E, in place.
#[derive(Drop)]
pub struct Name {
    bytes: [u8; 255],
    len: u8,
}

impl Model for Name {
    ghost use Rattle.std.specs.Prelude.{List, ℕ, take, length, ◌≤◌};

    ghost Value = { List ℕ };

    ghost view = { λ n. take n.len n.bytes };

    ghost invariant = { λ n. (1 ≤ n.len) × (n.len ≤ 255) };
}

/// A byte of a name: from 21 to 7E, the characters of ASCII that print.
pub fn is_name_byte(byte: u8) -> bool
    ensures { result ≡ is_name_byte_of byte }
{
    33 <= byte && byte <= 126
}

fn are_name_bytes(bytes: &[u8]) -> bool
    ensures { result ≡ list_all is_name_byte_of bytes.now }
{
    bytes.iter().all(|byte| is_name_byte(*byte))
}

impl Name {
    ghost use Rattle.std.specs.Prelude.{◌≤◌, ◌<◌, length};

    /// `Empty` for no bytes; `BadName` for more than 255, or for a byte outside 21 to 7E.
    pub fn read(bytes: &[u8]) -> Result<Name, AddrFault>
        ensures { result ≡ name_of bytes.now }
    {
        if bytes.is_empty() {
            return Err(AddrFault::Empty);
        }
        if bytes.len() > 255 || !are_name_bytes(bytes) {
            return Err(AddrFault::BadName);
        }
        Ok(Name::from_bytes(bytes))
    }

    pub(crate) fn from_bytes(bytes: &[u8]) -> Name
        requires not_empty { 0 < length bytes.now }
        requires short { length bytes.now ≤ 255 }
        ensures { result ≡ bytes.now }
    {
        let mut name = [0; 255];
        name[..bytes.len()].copy_from_slice(bytes);
        Name {
            bytes: name,
            len: bytes.len() as u8,
        }
    }

    /// The same name; it takes no memory.
    pub fn copy(&self) -> Name
        ensures { result ≡ self.now }
    {
        Name {
            bytes: self.bytes,
            len: self.len,
        }
    }

    pub fn as_bytes(&self) -> &[u8]
        ensures value { result.now ≡ self.now }
        ensures not_empty { 1 ≤ length self.now }
        ensures short { length self.now ≤ 255 }
    {
        &self.bytes[..self.len as usize]
    }
}
