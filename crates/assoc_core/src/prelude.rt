ghost use Rattle.std.specs.Prelude.{◌≡◌};
ghost use Rattle.assoc_core.specs.Plain.{prelude_of};

use handshake_core::prelude_length;
use socks_machine::Record;

/// The length of the prelude, once it is whole.
pub fn prelude_in(state: &Record) -> usize
    ensures { result ≡ prelude_of state.now }
{
    let method = match state.chosen {
        None => None,
        Some(chosen) => Some(chosen.method),
    };
    prelude_length(method, state.c.as_slice())
}
