ghost use Rattle.std.specs.Prelude.{◌≡◌, ◌++◌, IfOk};
ghost use Rattle.socks_machine.specs.Basis.{Basis};
ghost use Rattle.replay_run.specs.Ends.{AreUngrammed, all_ends};

use crate::lines::show_ends;
use crate::slot::Slot;
use lists::Text;
use std::alloc::{AllocError, Global};

/// What became of each association.
pub fn write_ends(alloc: Global, out: &mut Text, slots: &[Slot]) -> Result<(), AllocError>
    ensures { IfOk result (λ _. AreUngrammed slots.now → (basis : Basis) → out.new ≡ out.old ++ all_ends basis slots.now) }
{
    'ending: for slot in slots {
        match slot {
            Slot::Going { assoc, net } => show_ends(alloc, out, &assoc.state)?,
            Slot::Over(ended) => show_ends(alloc, out, &ended.state)?,
            Slot::Away => {}
        }
    }
    Ok(())
}
