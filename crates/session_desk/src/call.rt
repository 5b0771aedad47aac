ghost use Rattle.std.specs.Prelude.{◌≡◌, ℕ, List};
ghost use Rattle.socks_machine.specs.declared.cause.StopBy.{StopBy};
ghost use Rattle.socks_machine.specs.declared.lines.Line.{Line};
ghost use Rattle.session_desk.specs.Calls.{Opens, Grants, Closes, MayOpen, MayGrant, MayClose};

use socks_machine::{CloseLine, GrantLine, OpenLine, Said, Shut};

/// What associations ask of the desk. No call waits or takes memory.
pub trait DeskCall {
    /// The histories, with the stop marks that were set, that the desk stands for.
    ghost stands: { Self → List Line → List StopBy → Type 0 };

    /// How many associations may be live.
    ghost cap: { Self → ℕ };

    /// A client came. `Crowded` comes only where the client's rule passes.
    fn open(&mut self, line: &OpenLine) -> Said
        ensures cap { cap self.new ≡ cap self.old }
        ensures answer { MayOpen (cap self.old) line.now result }
        ensures line { (h : List Line) (marks : List StopBy) → stands self.old h marks → Opens (stands self.new) h marks (cap self.old) line.now result };

    /// A request was judged. A limit counts the live associations that were granted in the same generation under the
    /// same rule.
    fn grant(&mut self, line: &GrantLine) -> Said
        ensures cap { cap self.new ≡ cap self.old }
        ensures answer { MayGrant line.now result }
        ensures line { (h : List Line) (marks : List StopBy) → stands self.old h marks → Grants (stands self.new) h marks line.now result };

    /// An association ended. A stop mark refuses no close.
    fn close(&mut self, line: &CloseLine) -> Shut
        ensures cap { cap self.new ≡ cap self.old }
        ensures answer { MayClose result }
        ensures line { (h : List Line) (marks : List StopBy) → stands self.old h marks → Closes (stands self.new) h marks line.now result };
}
