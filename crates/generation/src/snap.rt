ghost use Rattle.std.specs.Prelude.{◌≡◌, IfOk};

use conf_types::Config;
use lists::Memory;
use std::alloc::Global;
use std::sync::Arc;

/// A published configuration with its number, from 1. All that share it hold the same configuration.
#[derive(Drop)]
pub struct Snap {
    pub number: u64,
    pub config: Arc<Config, Global>,
}

impl Snap {
    ghost use Rattle.std.specs.Arc.{arc_value};

    /// Another owner of the same configuration. It takes no memory, and is refused only where the count of owners is full.
    pub fn share(&self) -> Result<Snap, Memory>
        ensures number { IfOk result (λ snap. snap.number ≡ self.now.number) }
        ensures config { IfOk result (λ snap. arc_value snap.config ≡ arc_value self.now.config) }
    {
        match Arc::try_clone(&self.config) {
            Ok(config) => Ok(Snap {
                number: self.number,
                config,
            }),
            Err(_) => Err(Memory),
        }
    }
}
