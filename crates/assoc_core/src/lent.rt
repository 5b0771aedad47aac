ghost use Rattle.std.specs.Prelude.{◌≡◌, Some, option_map};
ghost use Rattle.std.specs.Borrow.{Lends, LendsIf, sem};
ghost use Rattle.socks_machine.specs.Basis.{Basis};
ghost use Rattle.assoc_core.specs.contracts.assoc.Assoc.{the_row};
ghost use Rattle.assoc_core.specs.Lent.{KeepsLink, with_client, with_target};
ghost use Rattle.assoc_core.specs.Stands.{Stands};

use crate::assoc::Assoc;
use net_ends::Link;

impl<L: Link> Assoc<L> {
    /// The client's link, for who wakes the association or lets bytes arrive. The association stands for its record as before
    /// where the link still says the same of what it gave and took, of its end and of its shut.
    pub fn client_mut(&mut self) -> &mut L
        ensures* writes_back { sem 𝓛 (Lends (the_row L.row) L.row self.entry result (with_client self.old)) }
        ensures value { result.now ≡ self.old.client }
        ensures stays { (basis : Basis) (link : L) → Stands L.told basis self.old → KeepsLink (L.told self.old.client) (L.told link) → Stands L.told basis (with_client self.old link) }
    {
        &mut self.client
    }

    /// The target's link, likewise; `None` exactly where the association holds none.
    pub fn target_mut(&mut self) -> Option<&mut L>
        ensures* writes_back { sem 𝓛 (LendsIf (the_row L.row) L.row self.entry result (with_target self.old) self.old) }
        ensures value { option_map (λ link. link.now) result ≡ self.old.target }
        ensures stays { (basis : Basis) (old link : L) → self.old.target ≡ Some old → Stands L.told basis self.old → KeepsLink (L.told old) (L.told link) → Stands L.told basis (with_target self.old link) }
    {
        self.target.as_mut()
    }
}
