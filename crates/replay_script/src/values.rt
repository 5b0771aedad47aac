ghost use Rattle.std.specs.Prelude.{◌≡◌, ℕ, List, IfOk, MatchOption};
ghost use Rattle.addr_pattern.specs.declared.addr.Addr.{Addr as SomeAddr};
ghost use Rattle.addr_pattern.specs.declared.endpoint.Endpoint.{Endpoint as SomeEndpoint};
ghost use Rattle.replay_script.specs.Forms.{IsAddress, IsEndpoint, IsHex};

use addr_pattern::{Addr, Endpoint};
use hex::FromHexError;
use lists::Text;
use std::alloc::{AllocError, Global};

/// The endpoint that a text spells.
pub fn endpoint(text: &[u8]) -> Option<Endpoint>
    ensures { MatchOption result ((e : SomeEndpoint) → IsEndpoint text.now e → ⊥) (λ e. IsEndpoint text.now e) }
{
    Endpoint::read(text).ok()
}

/// The address that a text spells.
pub fn address(text: &[u8]) -> Option<Addr>
    ensures { MatchOption result ((a : SomeAddr) → IsAddress text.now a → ⊥) (λ a. IsAddress text.now a) }
{
    Addr::read(text).ok()
}

/// The bytes that a text spells in hexadecimal digits, two for each.
pub fn hex(alloc: Global, text: &[u8]) -> Result<Option<Text>, AllocError>
    ensures { IfOk result (λ found. MatchOption found ((bytes : List ℕ) → IsHex text.now bytes → ⊥) (λ bytes. IsHex text.now bytes)) }
{
    match hex::decode(alloc, text) {
        Ok(bytes) => {
            let text = Text::from_vec(bytes);
            if text.len() > 0 {
                Ok(Some(text))
            } else {
                Ok(None)
            }
        }
        Err(fault) => match fault {
            FromHexError::OutOfMemory => Err(AllocError),
            _ => Ok(None),
        },
    }
}
